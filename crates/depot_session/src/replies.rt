//! The replies of a group, before they are written.
ghost use Rattle.std.specs.Prelude.{◌≡◌, [], true};

use depot_base::Bytes;
use depot_outside::{OutError, Sink};
use std::alloc::Global;

/// The replies of a group, one after another. They stand in memory, and no write of them fails but for lack of it.
#[derive(Drop)]
pub struct Replies {
    pub bytes: Bytes,
}

impl Replies {
    /// No replies. It takes no memory.
    pub fn new(alloc: Global) -> Replies
        ensures { result.bytes ≡ [] }
    {
        Replies {
            bytes: Bytes::new(alloc),
        }
    }

    /// Their bytes.
    pub fn as_slice(&self) -> &[u8]
        ensures { result.now ≡ self.now.bytes }
    {
        self.bytes.as_slice()
    }
}

impl Sink for Replies {
    ghost tells = { λ _. true };

    ghost written = { λ s. s.bytes };

    ghost faults = { λ _. 0 };

    fn write(&mut self, bytes: &[u8]) -> Result<(), OutError> {
        Ok(self.bytes.push_all(bytes)?)
    }
}
