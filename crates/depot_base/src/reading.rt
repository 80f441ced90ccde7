//! Readers of the fields that texts are made of. Each reads what its format's table says, or reports the offset of the
//! field that is cut short or out of its range. After an error the field may have been consumed; what is left of the
//! text still ends where it did.
ghost use Rattle.std.specs.Prelude.{◌≡◌, ◌≤◌, length, IfOk, Result, Ok, Err, ◌==◌, if◌then◌else◌};
ghost use Rattle.std.specs.Int.{w8, w16, w32, w64};
ghost use Rattle.depot_base.specs.declared.fault.Fault.TheVariants.{At};
ghost use Rattle.depot_base.specs.Reading.{Reads, GoesOn};
ghost use Rattle.depot_base.specs.Format.{number, bytes_of};
ghost use Rattle.depot_base.specs.Parts.{node_number, digest};

use crate::fault::Fault;
use crate::{Bytes, Fields, Hash32, NodeId};
use std::alloc::Global;

/// Reads a byte from low to high.
#[tactic(auto, unfolding(crate::specs::Format::number))]
pub fn u8_in(fields: &mut Fields<'_>, low: u8, high: u8) -> Result<u8, Fault>
    ensures stays { GoesOn fields.old fields.new }
    ensures reads { Reads result fields.new ((number w8 low high).read fields.old) }
    ensures in_range { IfOk result (λ n. (low ≤ n) × (n ≤ high)) }
{
    let at = fields.at();
    match fields.take_u8() {
        Some(n) if low <= n && n <= high => Ok(n),
        _ => Err(Fault::At(at)),
    }
}

/// Reads a number of two bytes from low to high.
#[tactic(auto, unfolding(crate::specs::Format::number))]
pub fn u16_in(fields: &mut Fields<'_>, low: u16, high: u16) -> Result<u16, Fault>
    ensures stays { GoesOn fields.old fields.new }
    ensures reads { Reads result fields.new ((number w16 low high).read fields.old) }
    ensures in_range { IfOk result (λ n. (low ≤ n) × (n ≤ high)) }
{
    let at = fields.at();
    match fields.take_u16() {
        Some(n) if low <= n && n <= high => Ok(n),
        _ => Err(Fault::At(at)),
    }
}

/// Reads a number of four bytes from low to high.
#[tactic(auto, unfolding(crate::specs::Format::number))]
pub fn u32_in(fields: &mut Fields<'_>, low: u32, high: u32) -> Result<u32, Fault>
    ensures stays { GoesOn fields.old fields.new }
    ensures reads { Reads result fields.new ((number w32 low high).read fields.old) }
    ensures in_range { IfOk result (λ n. (low ≤ n) × (n ≤ high)) }
{
    let at = fields.at();
    match fields.take_u32() {
        Some(n) if low <= n && n <= high => Ok(n),
        _ => Err(Fault::At(at)),
    }
}

/// Reads a number of eight bytes from low to high.
#[tactic(auto, unfolding(crate::specs::Format::number))]
pub fn u64_in(fields: &mut Fields<'_>, low: u64, high: u64) -> Result<u64, Fault>
    ensures stays { GoesOn fields.old fields.new }
    ensures reads { Reads result fields.new ((number w64 low high).read fields.old) }
    ensures in_range { IfOk result (λ n. (low ≤ n) × (n ≤ high)) }
{
    let at = fields.at();
    match fields.take_u64() {
        Some(n) if low <= n && n <= high => Ok(n),
        _ => Err(Fault::At(at)),
    }
}

/// Reads `count` bytes and copies them.
#[tactic(auto, unfolding(crate::specs::Format::bytes_of))]
pub fn bytes_in(alloc: Global, fields: &mut Fields<'_>, count: usize) -> Result<Bytes, Fault>
    ensures stays { GoesOn fields.old fields.new }
    ensures reads { Reads result fields.new ((bytes_of count).read fields.old) }
    ensures length { IfOk result (λ bytes. length bytes ≡ count) }
{
    let at = fields.at();
    match fields.take_bytes(count) {
        Some(bytes) => Ok(Bytes::from_slice(alloc, bytes)?),
        None => Err(Fault::At(at)),
    }
}

/// Reads the number of a node.
pub fn node_in(fields: &mut Fields<'_>) -> Result<NodeId, Fault>
    ensures stays { GoesOn fields.old fields.new }
    ensures reads { Reads result fields.new (node_number.read fields.old) }
{
    let at = fields.at();
    let number = u16_in(fields, 1, u16::MAX)?;
    match NodeId::new(number) {
        Some(node) => Ok(node),
        None => Err(Fault::At(at)),
    }
}

/// Reads a digest.
#[tactic(auto, unfolding(crate::specs::Format::bytes_of))]
pub fn hash_in(fields: &mut Fields<'_>) -> Result<Hash32, Fault>
    ensures stays { GoesOn fields.old fields.new }
    ensures reads { Reads result fields.new (digest.read fields.old) }
{
    let at = fields.at();
    fields.take_hash().ok_or(Fault::At(at))
}

/// Returns the value that was read, where no byte is left after it.
pub fn at_end<V: Drop>(fields: &Fields<'_>, value: V) -> Result<V, Fault>
    ensures { result ≡ (if length fields.now.rest == 0 then Ok value else Err (At fields.now.at)) }
{
    if fields.is_at_end() {
        Ok(value)
    } else {
        Err(Fault::At(fields.at()))
    }
}
