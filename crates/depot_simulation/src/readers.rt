//! Readers by their names.
ghost use Rattle.std.specs.Prelude.{◌≡◌, List, Option, [], IfOk, OnOk};
ghost use Rattle.depot_model.specs.readers.Readers.{Reader};
ghost use Rattle.depot_world.specs.Run.{NamedReader, reader_in};
ghost use Rattle.depot_requests.specs.ReaderRequests.{use_served};
ghost use Rattle.depot_simulation.specs.Readers.{AreReaders, IsMade, KeepsMade, UsesNamed};

use crate::reading::Reading;
use depot_base::Memory;
use depot_lines::Label;
use depot_requests::{ReaderReply, ReaderUse};
use std::alloc::Global;
use std::collections::BTreeMap;

/// What was made under each name of a reader, in an ordered map: the reader, or none if it was refused. Whoever writes
/// a schedule picks the names, so none is hashed: a look-up takes logarithmic time, whatever they are. What was made
/// first under a name stays.
#[derive(Drop)]
pub struct Readers<R> {
    alloc: Global,
    pub map: BTreeMap<Vec<u8>, Option<R>>,
}

impl<R: Reading> Readers<R> {
    /// No readers. It takes no memory.
    pub fn new(alloc: Global) -> Readers<R>
        ensures { AreReaders R.reads result.map.entries [] }
    {
        Readers {
            alloc,
            map: BTreeMap::new(alloc),
        }
    }

    /// Keeps what was made under a name, unless something was before.
    pub fn put(&mut self, name: &Label, reader: Option<R>) -> Result<(), Memory>
        ensures { OnOk result (KeepsMade R.reads self.old.map.entries name.now reader self.new.map.entries) }
    {
        if self.map.contains_key(name.bytes()) {
            return Ok(());
        }
        let kept = Vec::from_slice(self.alloc, name.bytes())?;
        self.map.insert(kept, reader)?;
        Ok(())
    }

    /// Uses the reader of a name. The reply says if there is none.
    pub fn serve(&mut self, name: &Label, asked: &ReaderUse) -> Result<ReaderReply, Memory>
        requires { (readers : List NamedReader) × AreReaders R.reads self.old.map.entries readers }
        ensures reply { IfOk result (λ reply. (readers : List NamedReader) → AreReaders R.reads self.old.map.entries readers → reply ≡ (use_served (reader_in readers name.now) asked.now).reply) }
        ensures readers { OnOk result (UsesNamed R.reads self.old.map.entries name.now asked.now self.new.map.entries) }
    {
        match self.map.get_mut(name.bytes()) {
            Some(kept) => serve_kept(kept, asked),
            None => Ok(ReaderReply::NoReader),
        }
    }
}

/// What is kept under a name is used, where it is a reader.
fn serve_kept<R: Reading>(kept: &mut Option<R>, asked: &ReaderUse) -> Result<ReaderReply, Memory>
    requires { (made : Option Reader) × IsMade R.reads kept.old made }
    ensures reply { IfOk result (λ reply. (made : Option Reader) → IsMade R.reads kept.old made → reply ≡ (use_served made asked.now).reply) }
    ensures goes_on { OnOk result ((made : Option Reader) → IsMade R.reads kept.old made → IsMade R.reads kept.new (use_served made asked.now).reader) }
{
    match kept {
        Some(reader) => reader.serve(asked),
        None => Ok(ReaderReply::NoReader),
    }
}
