//! Standard input.
ghost use Rattle.std.specs.Prelude.{◌≡◌, ◌≤◌, [], false, length, IfOk};

use crate::Source;
use crate::source_history::SourceHistory;
use depot_base::Bytes;
use depot_outside::{Failed, OutError};
use std::io::{ErrorKind, Read};

/// How many bytes one read asks for at most.
const PIECE: usize = 16_384;

/// Reads what there is, once something has come.
fn read_some<F: Read>(from: &mut F, into: &mut [u8]) -> Result<usize, Failed>
    ensures { IfOk result (λ n. n ≤ length into.new) }
{
    for _ in 0..u64::MAX {
        match from.read(into) {
            Ok(n) => return Ok(n),
            Err(error) if error.kind() == ErrorKind::Interrupted => {}
            Err(_) => return Err(Failed),
        }
    }
    Err(Failed)
}

/// Standard input. Contracts see what it gave, and nothing of what is to come.
#[derive(Drop)]
pub struct RealSource<F> {
    from: F,
    over: bool,
    history: SourceHistory,
}

impl<F: Read + Drop> RealSource<F> {
    /// The source of a reader.
    pub fn new(from: F) -> RealSource<F>
        ensures given { ⟦<RealSource<F> as Source>⟧.given result ≡ [] }
        ensures faults { ⟦<RealSource<F> as Source>⟧.faults result ≡ 0 }
    {
        RealSource {
            from,
            over: false,
            history: SourceHistory::new(),
        }
    }
}

impl<F: Read + Drop> Source for RealSource<F> {
    ghost tells = { λ _. false };

    ghost given = { λ s. s.history.given };

    ghost rest = { λ _. [] };

    ghost over = { λ s. s.over };

    ghost faults = { λ s. s.history.faults };

    fn read(&mut self, most: usize, into: &mut Bytes) -> Result<(), OutError> {
        let mut buffer = [0u8; PIECE];
        self.over = false;
        let Ok(n) = read_some(&mut self.from, &mut buffer[..most.min(PIECE)]) else {
            self.history.failed();
            return Err(OutError::Failed);
        };
        let piece = &buffer[..n];
        self.history.gave(piece);
        self.over = piece.is_empty();
        if into.push_all(piece).is_err() {
            return Err(OutError::Memory);
        }
        Ok(())
    }
}
