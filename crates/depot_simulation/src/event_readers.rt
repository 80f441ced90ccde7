//! Readers that are made of nodes, and used.
ghost use Rattle.std.specs.Prelude.{◌≡◌, IfOk};
ghost use Rattle.depot_world.specs.Run.{bytes_of_label};
ghost use Rattle.depot_world.specs.Transcript.{trim_at, used_at};
ghost use Rattle.depot_simulation.specs.Playing.{IsPlayed};
ghost use Rattle.depot_simulation.specs.EachRun.{Simulates};

use crate::actor::Actor;
use crate::reading::Trimming;
use crate::simulation::Simulation;
use depot_base::{Bytes, Key, Memory, NodeId};
use depot_lines::Label;
use depot_requests::{ReaderUse, print_reader};

impl<A: Actor> Simulation<A> {
    /// Makes a reader of a node, below the checkpoint whose text a label has. The node is unchanged and stays in its
    /// place. Returns the lines from the arrow on.
    pub fn trim(&mut self, node: NodeId, label: &Label, name: &Label) -> Result<Bytes, Memory>
        ensures lines { IfOk result (λ lines. Simulates A.view A.Reader.reads self.old (λ setup run. trim_at setup run node (bytes_of_label run label.now) name.now) lines self.new) }
        ensures asked { self.new.seen.asked ≡ self.old.seen.asked }
    {
        let Some(place) = self.place_of(node) else {
            return Ok(Bytes::from_slice(self.alloc, b"\n")?);
        };
        let text = self.labels.bytes(label);
        let Trimming { reply, reader } = self.participants[place].actor.trim(text)?;
        self.readers.put(name, reader)?;
        print_reader(self.alloc, reply)
    }

    /// Gives the reader of a name the bytes of a label. Returns the lines from the arrow on.
    pub fn tgive(&mut self, name: &Label, label: &Label) -> Result<Bytes, Memory>
        requires { IsPlayed A.view A.Reader.reads self.old }
        ensures lines { IfOk result (λ lines. Simulates A.view A.Reader.reads self.old (λ setup run. used_at run name.now (ReaderUse.Give (bytes_of_label run label.now))) lines self.new) }
        ensures asked { self.new.seen.asked ≡ self.old.seen.asked }
    {
        let stream = self.copied(label)?;
        self.use_reader(name, &ReaderUse::Give(stream))
    }

    /// Reads a key at the reader of a name. Returns the lines from the arrow on.
    pub fn tget(&mut self, name: &Label, key: &Key) -> Result<Bytes, Memory>
        requires { IsPlayed A.view A.Reader.reads self.old }
        ensures lines { IfOk result (λ lines. Simulates A.view A.Reader.reads self.old (λ setup run. used_at run name.now (ReaderUse.Get key.now)) lines self.new) }
        ensures asked { self.new.seen.asked ≡ self.old.seen.asked }
    {
        let key = key.copy()?;
        self.use_reader(name, &ReaderUse::Get(key))
    }

    /// Uses the reader of a name. Returns the lines from the arrow on.
    fn use_reader(&mut self, name: &Label, asked: &ReaderUse) -> Result<Bytes, Memory>
        requires { IsPlayed A.view A.Reader.reads self.old }
        ensures lines { IfOk result (λ lines. Simulates A.view A.Reader.reads self.old (λ setup run. used_at run name.now asked.now) lines self.new) }
        ensures asked { self.new.seen.asked ≡ self.old.seen.asked }
    {
        let reply = self.readers.serve(name, asked)?;
        print_reader(self.alloc, reply)
    }
}
