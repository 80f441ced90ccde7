//! Where a run reads.
ghost use Rattle.std.specs.Prelude.{◌≡◌, ◌≤◌, ◌++◌, [], true, ℕ, List, Bool, IsTrue, IsErrOf};
ghost use Rattle.depot_base.specs.Faults.{HasCause};
ghost use Rattle.depot_source.specs.Pieces.{ReadsPiece};

use depot_base::Bytes;
use depot_outside::OutError;

/// Bytes that come, piece by piece.
pub trait Source {
    /// Whether contracts see what is to come. Where they don't, `rest` says nothing.
    ghost tells: { Self → Bool };

    /// What it gave so far. That is visible of each source: it is what its calls returned.
    ghost given: { Self → List ℕ };

    /// What it is still to give.
    ghost rest: { Self → List ℕ };

    /// Whether its last call gave nothing: its end was found.
    ghost over: { Self → Bool };

    /// How often it has failed.
    ghost faults: { Self → ℕ };

    /// Appends the next piece, of at most `most` bytes. It appends nothing exactly at the end of the source. A piece is
    /// lost where it came and memory for it ran out.
    fn read(&mut self, most: usize, into: &mut Bytes) -> Result<(), OutError>
        requires most { 1 ≤ most }
        ensures reads { ReadsPiece (given self.old) (given self.new) into.old into.new most (over self.new) result }
        ensures whole { IsTrue (tells self.old) → given self.new ++ rest self.new ≡ given self.old ++ rest self.old }
        ensures end { IsTrue (tells self.old) → over self.new ≡ true → rest self.new ≡ [] }
        ensures tells { tells self.new ≡ tells self.old }
        ensures cause { HasCause (faults self.old) (faults self.new) (IsErrOf result OutError.Failed) };
}
