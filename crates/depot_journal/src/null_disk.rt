//! A disk that keeps nothing.
ghost use Rattle.std.specs.Prelude.{◌^◌, [], false};
ghost use Rattle.std.proofs.Common.{rules};

use depot_base::Memory;
use depot_outside::{Disk, Failed};

/// A disk that takes what is written and keeps nothing. Contracts see no byte of it, and it never fails.
#[derive(Clone, Copy, Debug, Drop)]
pub struct NullDisk;

impl Disk for NullDisk {
    ghost handle = { λ _. 0 };

    ghost tells = { λ _. false };

    ghost seen = { λ _. [] };

    ghost may_leave = { λ _ _. ⊥ };

    ghost moment = { λ _. 0 };

    ghost left_since = { λ _ _ _. ⊥ };

    ghost faults = { λ _. 0 };

    ghost is_faultless = { λ _. Unit {0} };

    ghost after = { λ _ _ _. Unit {0} };

    ghost room_bytes = { λ _. 2 ^ 64 };

    ghost room_calls = { λ _. 2 ^ 64 };

    fn length(&mut self) -> Result<u64, Failed> {
        Ok(0)
    }

    fn read(&mut self, _at: u64, _into: &mut [u8]) -> Result<(), Failed> {
        Ok(())
    }

    fn make_room(&mut self, _bytes: u64, _calls: u32) -> Result<(), Memory> {
        Ok(())
    }

    fn write_at(&mut self, _at: u64, _bytes: &[u8]) -> Result<(), Failed> {
        Ok(())
    }

    fn sync(&mut self) -> Result<(), Failed> {
        Ok(())
    }

    ghost reads_as_image = { λ d t. Prim.search rules };

    ghost counts_now = { λ d t image le now. now };

    ghost only_now = { λ d image left. left };

    ghost after_none = { λ _. tt };

    ghost after_more = { λ _ _ _ _ _ _ _. tt };
}
