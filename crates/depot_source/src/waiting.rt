//! What waits: messages that were read and not given yet.
ghost use Rattle.std.specs.Prelude.{◌≡◌, ◌++◌, IsTrue};
ghost use Rattle.depot_source.specs.Ahead.{TakesWaiting};

use crate::{MemSource, Source};
use depot_base::{Bytes, Memory};
use std::alloc::Global;

/// A source that reads ahead: it knows of messages that wait.
pub trait Waiting: Source {
    /// Takes the body of the next message, if all of it was read ahead. It never waits, and nothing outside is read.
    fn next_waiting(&mut self, alloc: Global) -> Result<Option<Bytes>, Memory>
        ensures takes { TakesWaiting (Self.given self.old) (Self.given self.new) result }
        ensures whole { IsTrue (Self.tells self.old) → Self.given self.new ++ Self.rest self.new ≡ Self.given self.old ++ Self.rest self.old }
        ensures tells { Self.tells self.new ≡ Self.tells self.old }
        ensures faults { Self.faults self.new ≡ Self.faults self.old };
}

/// It reads nothing ahead.
impl Waiting for MemSource {
    fn next_waiting(&mut self, _alloc: Global) -> Result<Option<Bytes>, Memory> {
        Ok(None)
    }
}
