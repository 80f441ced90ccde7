//! What C calls.
ghost use base.Fml.{fex, fsep, ftrue};
ghost use Rattle.std.specs.Prelude.{◌≡◌};
ghost use Rattle.std.specs.Borrow.{full_share, sem};
ghost use Rattle.std.specs.Align.{type_align};
ghost use Rattle.std.specs.Mem.{type_size};
ghost use Rattle.std.specs.Ptr.{lies_at, room_at};
ghost use Rattle.depot_c.specs.contracts.handle.Handle.{the_row as handle_row};
ghost use Rattle.depot_c.specs.Calls.{IsNewHandle, kept_bytes};
ghost use Rattle.depot_c.specs.Served.{IsServed};

use crate::handle::{Handle, Viewed, fresh};
use crate::serving::serve;
use std::alloc::Global;
use std::mem::{align_of, size_of};

/// Which operations there are, their numbers and the forms of their bytes, as bindings/depot.h has them.
#[unsafe(no_mangle)]
pub extern "C" fn depot_c_abi() -> u32
    ensures { result ≡ 1 }
{
    1
}

/// How many bytes a handle takes.
#[unsafe(no_mangle)]
pub extern "C" fn depot_c_size() -> usize
    ensures { result ≡ type_size handle_row }
{
    size_of::<Handle>()
}

/// On what multiple a handle has to stand.
#[unsafe(no_mangle)]
pub extern "C" fn depot_c_align() -> usize
    ensures { result ≡ type_align handle_row }
{
    align_of::<Handle>()
}

/// Puts a handle of nothing in the room behind a pointer.
#[unsafe(no_mangle)]
pub unsafe extern "C" fn depot_c_init(alloc: Global, at: *mut u8)
    requires* { sem 𝓛 (room_at handle_row at) }
    ensures* { sem 𝓛 (fex Handle (λ h. fsep (lies_at handle_row full_share at h) (fex (IsNewHandle (⟦<Handle as Viewed>⟧.view_of h) (kept_bytes h)) (λ _. ftrue)))) }
{
    std::ptr::write(at as *mut Handle, fresh(alloc));
}

/// One call on the handle behind a pointer.
#[unsafe(no_mangle)]
pub unsafe extern "C" fn depot_c_call(
    at: *mut u8,
    op: u32,
    number: u64,
    input: &[u8],
    output: &mut [u8],
) -> u64
    ghost h: { Handle }
    requires* { sem 𝓛 (lies_at handle_row full_share at h) }
    ensures* { sem 𝓛 (fex Handle (λ after. fsep (lies_at handle_row full_share at after) (fex (IsServed op number input.now output.old h after result output.new) (λ _. ftrue)))) }
{
    serve(&mut *(at as *mut Handle), op, number, input, output)
}
