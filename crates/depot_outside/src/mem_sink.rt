//! A sink in memory.
ghost use Rattle.std.specs.Prelude.{◌≡◌, [], true, IsTrue};

use crate::calls::Calls;
use crate::{OutError, Sink};
use depot_base::{Bytes, Items};
use std::alloc::Global;

/// A sink in memory.
#[derive(Debug, Drop)]
pub struct MemSink {
    written: Bytes,
    calls: Calls,
}

impl MemSink {
    /// A sink with nothing written. Of its writes, counted from 1, those with these numbers fail and add nothing. Tests
    /// show that; a clause says only that none fails where there is no number. It takes no memory.
    pub fn new(alloc: Global, fails: Items) -> MemSink
        ensures tells { IsTrue (⟦<MemSink as Sink>⟧.tells result) }
        ensures written { ⟦<MemSink as Sink>⟧.written result ≡ [] }
        ensures faults { ⟦<MemSink as Sink>⟧.faults result ≡ 0 }
        ensures faultless { fails ≡ [] → ⟦<MemSink as Sink>⟧.is_faultless result }
    {
        MemSink {
            written: Bytes::new(alloc),
            calls: Calls::new(fails),
        }
    }

    /// What was written.
    pub fn bytes(&self) -> &[u8]
        ensures { result.now ≡ ⟦<MemSink as Sink>⟧.written self.now }
    {
        self.written.as_slice()
    }
}

impl Sink for MemSink {
    ghost tells = { λ _. true };

    ghost written = { λ s. s.written };

    ghost faults = { λ s. s.calls.faults.number };

    ghost is_faultless = { λ s. s.calls.fails ≡ [] };

    fn write(&mut self, bytes: &[u8]) -> Result<(), OutError> {
        self.calls.begin()?;
        Ok(self.written.push_all(bytes)?)
    }
}
