//! A source in memory.
ghost use Rattle.std.specs.Prelude.{◌≡◌, ◌≤◌, [], true, drop, length, IsTrue};

use crate::Source;
use crate::source_history::SourceHistory;
use depot_base::{Bytes, Items};
use depot_outside::OutError;

/// A source in memory, which gives its bytes in pieces of chosen sizes.
#[derive(Debug, Drop)]
pub struct MemSource {
    bytes: Bytes,
    at: usize,
    sizes: Items,
    fails: Items,
    made: u64,
    over: bool,
    history: SourceHistory,
}

impl MemSource {
    /// A source of these bytes. Its calls give at most these sizes, in turn, and at least a byte; later calls give what
    /// is asked for. Of its calls, counted from 1, those with these numbers fail and give nothing.
    pub fn new(bytes: Bytes, sizes: Items, fails: Items) -> MemSource
        ensures tells { IsTrue (⟦<MemSource as Source>⟧.tells result) }
        ensures given { ⟦<MemSource as Source>⟧.given result ≡ [] }
        ensures rest { ⟦<MemSource as Source>⟧.rest result ≡ bytes }
        ensures faults { ⟦<MemSource as Source>⟧.faults result ≡ 0 }
    {
        MemSource {
            bytes,
            at: 0,
            sizes,
            fails,
            made: 0,
            over: false,
            history: SourceHistory::new(),
        }
    }

    /// Whether the call of this number is to fail.
    fn is_failing(&self, number: u64) -> bool {
        self.fails
            .as_slice()
            .iter()
            .any(|failing| u64::from(*failing) == number)
    }

    /// How many bytes the next call gives at most.
    fn next_size(&self) -> usize
        ensures { 1 ≤ result }
    {
        match self.sizes.as_slice().get(self.made as usize) {
            Some(size) => (*size as usize).max(1),
            None => usize::MAX,
        }
    }
}

impl Source for MemSource {
    ghost tells = { λ _. true };

    ghost given = { λ s. s.history.given };

    ghost rest = { λ s. drop s.at s.bytes };

    ghost over = { λ s. s.over };

    ghost faults = { λ s. s.history.faults };

    fn read(&mut self, most: usize, into: &mut Bytes) -> Result<(), OutError> {
        let size = self.next_size();
        self.made = self.made.saturating_add(1);
        self.over = false;
        if self.is_failing(self.made) {
            self.history.failed();
            return Err(OutError::Failed);
        }
        let left = self.bytes.as_slice().get(self.at..).unwrap_or(&[]);
        let piece = &left[..left.len().min(most).min(size)];
        if into.push_all(piece).is_err() {
            return Err(OutError::Memory);
        }
        self.history.gave(piece);
        self.at += piece.len();
        self.over = piece.is_empty();
        Ok(())
    }
}
