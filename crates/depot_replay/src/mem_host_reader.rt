//! A reader that is made of a hosted node.
ghost use Rattle.std.specs.Prelude.{◌≡◌, Option};
ghost use Rattle.depot_model.specs.readers.Readers.{Reader};
ghost use Rattle.depot_trim.specs.ReaderView.{IsReaderOf};
ghost use Rattle.depot_service.specs.ReaderCalls.{KeepsReader};
ghost use Rattle.depot_simulation.specs.Readers.{IsMade};

use depot_base::Memory;
use depot_model::Scheme;
use depot_requests::{ReaderReply, ReaderUse};
use depot_service::{MadeReader, use_reader};
use depot_simulation::{Reading, Trimming};
use depot_trim::Trimmed;
use std::alloc::Global;

/// A reader of a node, in memory.
#[derive(Drop)]
pub struct MemHostReader<S: Scheme> {
    alloc: Global,
    trimmed: Trimmed<S>,
}

impl<S: Scheme> Reading for MemHostReader<S> {
    ghost reads = { λ r x. IsReaderOf S.verifies r x.trimmed };

    fn serve(&mut self, asked: &ReaderUse) -> Result<ReaderReply, Memory> {
        use_reader(self.alloc, &mut self.trimmed, asked)
    }
}

/// The reader of a hosted node, where it was made.
fn hosted_reader<S: Scheme>(alloc: Global, made: Option<Trimmed<S>>) -> Option<MemHostReader<S>>
    ensures { (R : Option Reader) → KeepsReader S.verifies made R → IsMade ⟦<MemHostReader<S> as Reading>⟧.reads result R }
{
    match made {
        Some(trimmed) => Some(MemHostReader { alloc, trimmed }),
        None => None,
    }
}

/// What a hosted node answered when a reader was to be made of it, with the reader.
pub fn trimming<S: Scheme>(alloc: Global, made: MadeReader<S>) -> Trimming<MemHostReader<S>>
    ensures reply { result.reply ≡ made.reply }
    ensures reader { (R : Option Reader) → KeepsReader S.verifies made.reader R → IsMade ⟦<MemHostReader<S> as Reading>⟧.reads result.reader R }
{
    let MadeReader { reply, reader } = made;
    Trimming {
        reply,
        reader: hosted_reader(alloc, reader),
    }
}
