//! Standard output.
ghost use Rattle.std.specs.Prelude.{◌≡◌, [], false};

use crate::faults::Faults;
use crate::transfer::write_whole;
use crate::{Failed, OutError, Sink};
use std::io;

/// Standard output. Contracts don't see what was written. It buffers nothing: each write goes to the system at once.
#[derive(Drop)]
pub struct RealSink<R> {
    rt: R,
    faults: Faults,
}

impl<R: Print + Drop> RealSink<R> {
    /// The sink of a runtime. Nothing is touched before the first call.
    pub fn new(rt: R) -> RealSink<R>
        ensures { ⟦<RealSink<R> as Sink>⟧.faults result ≡ 0 }
    {
        RealSink {
            rt,
            faults: Faults::new(),
        }
    }
}

impl<R: Print + Drop> Sink for RealSink<R> {
    ghost tells = { λ _. false };

    ghost written = { λ _. [] };

    ghost faults = { λ s. s.faults.number };

    fn write(&mut self, bytes: &[u8]) -> Result<(), OutError> {
        match write_whole(&mut io::writer(&self.rt), bytes) {
            Ok(()) => Ok(()),
            Err(Failed) => {
                self.faults.raise();
                Err(OutError::Failed)
            }
        }
    }
}
