//! Events that ask a node for something, and a node's start from its disk.
ghost use Rattle.std.specs.Prelude.{◌≡◌, ◌++◌, ℕ, map, true, IfOk, OnOk};
ghost use Rattle.depot_requests.specs.Requests.{IsRequest};
ghost use Rattle.depot_schedule.specs.EventLines.{event_node};
ghost use Rattle.depot_traces.specs.SeenTraces.{read_of};
ghost use Rattle.depot_world.specs.EventRequests.{asks_node, label_by, piece_of, request_in};
ghost use Rattle.depot_world.specs.Run.{bytes_of_label};
ghost use Rattle.depot_world.specs.Transcript.{asked_at, done};
ghost use Rattle.depot_simulation.specs.Acting.{HaveTexts};
ghost use Rattle.depot_simulation.specs.Doing.{HasLeftSimulation, MayAskNode, reads_by, restarted_at};
ghost use Rattle.depot_simulation.specs.Playing.{IsPlayed};
ghost use Rattle.depot_simulation.specs.EachRun.{Completes, OfEachRun, Simulates};

use crate::acting::ActingNode;
use crate::actor::{Actor, EventOutcome};
use crate::participant::Participant;
use crate::simulation::Simulation;
use depot_base::{Bytes, Changes, Memory, NodeId};
use depot_lines::Label;
use depot_requests::Request;
use depot_schedule::Event;
use depot_traces::Reads;

impl<A: Actor> Simulation<A> {
    /// Does an event that asks a node for something. What it asks for is looked up while the node is in its place,
    /// since a reference may name an update of its own. Returns the lines from the arrow on.
    pub fn ask(&mut self, event: &Event) -> Result<Bytes, Memory>
        requires asks { asks_node event.now ≡ true }
        requires may { MayAskNode event.now }
        requires played { IsPlayed A.view A.Reader.reads self.old }
        ensures lines { IfOk result (λ lines. Simulates A.view A.Reader.reads self.old (λ setup run. done setup run event.now) lines self.new) }
        ensures asked { self.new.seen.asked ≡ self.old.seen.asked }
    {
        let Some(request) = self.request(event)? else {
            return Ok(Bytes::from_slice(self.alloc, b" NoRef\n")?);
        };
        match self.leave(node_asked(event)) {
            Some(acting) => self.serve(acting, event, request),
            None => Ok(Bytes::from_slice(self.alloc, b"\n")?),
        }
    }

    /// What an event asks for, by what labels and references name. `None` exactly when a reference names nothing.
    fn request(&self, event: &Event) -> Result<Option<Request>, Memory>
        requires asks { asks_node event.now ≡ true }
        requires played { IsPlayed A.view A.Reader.reads self.now }
        ensures { IfOk result (λ request. OfEachRun A.view A.Reader.reads self.now (λ setup run. request ≡ request_in run event.now)) }
    {
        match event {
            Event::Put { key, value, .. } => {
                let changes = Changes::one(self.alloc, key.copy()?, value.copy()?)?;
                Ok(Some(Request::Put(changes)))
            }
            Event::Puts { changes, .. } => Ok(Some(Request::Put(changes.copy()?))),
            Event::Get { key, .. } => Ok(Some(Request::Get(key.copy()?))),
            Event::Hello { .. } => Ok(Some(Request::Hello)),
            Event::Bundle { hello, .. } => Ok(Some(Request::Bundle(self.copied(hello)?))),
            Event::Give { label, size, .. } => Ok(Some(Request::Take {
                stream: self.copied(label)?,
                piece: piece_of(*size),
            })),
            Event::Receipt { refs, .. } => match self.receipt_ids(refs.as_slice())? {
                Some(ids) => Ok(Some(Request::Receipt(ids))),
                None => Ok(None),
            },
            Event::Settled { reference, k, .. } => match self.update_id(reference)? {
                Some(id) => Ok(Some(Request::Settled(id, *k))),
                None => Ok(None),
            },
            Event::Checkpoint { .. } => Ok(Some(Request::Checkpoint)),
            Event::Sign { label, .. } => Ok(Some(Request::Sign(self.copied(label)?))),
            _ => unreachable!(),
        }
    }

    /// A copy of the bytes of a label.
    pub fn copied(&self, label: &Label) -> Result<Bytes, Memory>
        ensures { IfOk result (λ bytes. OfEachRun A.view A.Reader.reads self.now (λ setup run. bytes ≡ bytes_of_label run label.now)) }
    {
        Ok(Bytes::from_slice(self.alloc, self.bytes_of(label))?)
    }

    /// A node that left its place does what an event asks, and comes back.
    fn serve(
        &mut self,
        acting: ActingNode<A>,
        event: &Event,
        request: Request,
    ) -> Result<Bytes, Memory>
        requires request { IsRequest request }
        requires left { (node : ℕ) × HasLeftSimulation A A.view A.Reader.reads node self.old acting }
        ensures lines { IfOk result (λ lines. (node : ℕ) → Completes A.view A.Reader.reads node self.old acting (λ setup run. asked_at setup run node (label_by event.now) request) lines self.new) }
        ensures asked { self.new.seen.asked ≡ self.old.seen.asked }
    {
        let ActingNode {
            seat,
            actor,
            mut reads,
        } = acting;
        note_read(&actor, &request, &mut reads)?;
        let EventOutcome {
            actor,
            lines,
            bytes,
        } = actor.serve(request)?;
        self.come_back(seat, Participant { actor, reads })?;
        self.labels.keep(event, bytes)?;
        Ok(lines)
    }

    /// Starts a node again from its disk. Returns the lines from the arrow on.
    pub fn restart(&mut self, node: NodeId) -> Result<Bytes, Memory>
        requires played { IsPlayed A.view A.Reader.reads self.old }
        ensures lines { IfOk result (λ lines. Simulates A.view A.Reader.reads self.old (λ setup run. restarted_at run node) lines self.new) }
        ensures asked { self.new.seen.asked ≡ self.old.seen.asked }
    {
        match self.leave(node) {
            Some(acting) => self.start_again(acting),
            None => Ok(Bytes::from_slice(self.alloc, b"\n")?),
        }
    }

    /// The same with the node that left its place for it.
    fn start_again(&mut self, acting: ActingNode<A>) -> Result<Bytes, Memory>
        requires left { (node : ℕ) × HasLeftSimulation A A.view A.Reader.reads node self.old acting }
        ensures lines { IfOk result (λ lines. (node : ℕ) → Completes A.view A.Reader.reads node self.old acting (λ setup run. restarted_at run node) lines self.new) }
        ensures asked { self.new.seen.asked ≡ self.old.seen.asked }
    {
        let ActingNode { seat, actor, reads } = acting;
        let EventOutcome { actor, lines, .. } = actor.restart()?;
        self.come_back(seat, Participant { actor, reads })?;
        Ok(lines)
    }
}

/// The node that an event asks.
fn node_asked(event: &Event) -> NodeId
    requires { asks_node event.now ≡ true }
    ensures { result ≡ event_node event.now }
{
    match event {
        Event::Put { node, .. }
        | Event::Puts { node, .. }
        | Event::Get { node, .. }
        | Event::Hello { node, .. }
        | Event::Bundle { node, .. }
        | Event::Give { node, .. }
        | Event::Receipt { node, .. }
        | Event::Settled { node, .. }
        | Event::Checkpoint { node, .. }
        | Event::Sign { node, .. } => *node,
        _ => unreachable!(),
    }
}

/// How many bytes each piece of a stream has: the given number, or more than any stream.
fn piece_of(size: Option<u32>) -> u32
    ensures { result ≡ piece_of size }
{
    match size {
        Some(size) => size,
        None => u32::MAX,
    }
}

/// Keeps the read that a node makes for a request, if it makes one.
fn note_read<A: Actor>(actor: &A, request: &Request, reads: &mut Reads) -> Result<(), Memory>
    ensures told { OnOk result (map read_of reads.new ≡ map read_of reads.old ++ reads_by (A.view actor.now).journal request.now) }
    ensures fit { HaveTexts reads.old → OnOk result (HaveTexts reads.new) }
{
    match request {
        Request::Get(key) => reads.push(actor.read(key)?),
        _ => Ok(()),
    }
}
