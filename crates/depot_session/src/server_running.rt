//! The run of a node that stays.
ghost use Rattle.std.specs.Prelude.{◌≡◌, ◌≤◌, ◌<◌, ◌++◌, IsTrue, Some};
ghost use Rattle.depot_base.specs.Faults.{HasCause};
ghost use Rattle.depot_streams.specs.Lasting.{LastsIn};
ghost use Rattle.depot_model.specs.texts.Roster.{key_of};
ghost use Rattle.depot_node.specs.Starting.{placed};
ghost use Rattle.depot_outside.specs.Told.{disks, sinks};
ghost use Rattle.depot_session.specs.Keeping.{IsAllKept, NeverFails, kept_state};
ghost use Rattle.depot_session.specs.SessionRuns.{KeepsFile, Settles};
ghost use Rattle.depot_source.specs.Inputs.{inputs};
ghost use Rattle.depot_service.specs.Answering.{IsServing};
ghost use Rattle.depot_session.specs.ServerRuns.{EndsByInput, EndsRunning, IsAfterDiskFault, ServerAnswers, ServerBegins, ending_of_served};
ghost use Rattle.depot_session.specs.Staying.{StaysWith};

use crate::kept_node::KeptNode;
use crate::server_ending::{ServeEnding, ServerEnding};
use crate::serving::serve_all;
use crate::start_telling::{say_refused, say_started};
use depot_base::NodeId;
use depot_model::{Replica, Scheme, Signer};
use depot_node::{DetachedNode, Node};
use depot_outside::{Back, Disk, Sink};
use depot_queries::LocalNode;
use depot_sign::Roster;
use depot_source::Waiting;
use std::alloc::Global;

/// How a run ends whose requests were served.
fn ended(served: Result<(), ServeEnding>) -> ServerEnding
    ensures { result ≡ ending_of_served served }
{
    match served {
        Ok(()) => ServerEnding::Done,
        Err(ServeEnding::Memory) => ServerEnding::Memory,
        Err(ServeEnding::Source) => ServerEnding::Source,
        Err(ServeEnding::Disk) => ServerEnding::Disk,
        Err(ServeEnding::Sink) => ServerEnding::Sink,
        Err(ServeEnding::Input { at, within }) => ServerEnding::Input { at, within },
    }
}

/// Writes that a node was started, and serves it to the end of the input.
fn stay<I: Waiting, K: Sink, N: LocalNode, D: Disk>(
    alloc: Global,
    node: &mut KeptNode<N, D>,
    input: &mut I,
    out: &mut K,
) -> ServerEnding
    requires kept { IsAllKept N.NodeState D.Disk node.old }
    requires calm { NeverFails N.NodeState }
    ensures began { IsServing (kept_state N.NodeState D.Disk) node.old }
    ensures stays { StaysWith (kept_state N.NodeState D.Disk) node.old node.new (inputs I.Source input.old input.new) (input.new ≡ input.old) (sinks K.Sink out.old out.new) result }
    ensures lawful { LastsIn (kept_state N.NodeState D.Disk) (result ≡ ServerEnding.Disk) node.old node.new }
    ensures rests { EndsRunning result → IsServing (kept_state N.NodeState D.Disk) node.new }
    ensures whole { IsTrue (I.tells input.old) → I.given input.new ++ I.rest input.new ≡ I.given input.old ++ I.rest input.old }
    ensures same_sink { K.tells out.new ≡ K.tells out.old }
    ensures same_source { I.tells input.new ≡ I.tells input.old }
    ensures handle { D.handle node.new.disk ≡ D.handle node.old.disk }
    ensures disk_cause { HasCause (D.faults node.old.disk) (D.faults node.new.disk) (result ≡ ServerEnding.Disk) }
    ensures sink_cause { HasCause (K.faults out.old) (K.faults out.new) (result ≡ ServerEnding.Sink) }
    ensures source_cause { HasCause (I.faults input.old) (I.faults input.new) (result ≡ ServerEnding.Source) }
{
    match say_started(alloc, &node.node, out) {
        Ok(()) => ended(serve_all(alloc, node, input, out)),
        Err(ending) => ending,
    }
}

/// A run that is over: its disk, and how it ended.
#[derive(Drop)]
struct Ran<D> {
    disk: D,
    ending: ServerEnding,
}

/// Runs a server over a disk, and gives the disk back.
fn run_over<D: Disk, I: Waiting, K: Sink, S: Scheme + Copy, G: Signer<Of = S>>(
    alloc: Global,
    disk: D,
    roster: Roster,
    scheme: S,
    signer: G,
    me: NodeId,
    input: &mut I,
    out: &mut K,
) -> Ran<D>
    ensures file { IsTrue (D.tells disk) → KeepsFile (placed S.verifies me roster) (disks D.Disk disk result.disk) }
    ensures stable { IsTrue (D.tells disk) → EndsByInput result.ending → Settles (placed S.verifies me roster) (disks D.Disk disk result.disk) }
    ensures untouched { (key_of roster me ≡ Some (G.key_of signer) → ⊥) → result.disk ≡ disk }
    ensures begins { ServerBegins G.Signer signer (placed S.verifies me roster) (disks D.Disk disk result.disk) I.Source input.old input.new (sinks K.Sink out.old out.new) result.ending }
    ensures answers { ServerAnswers G.Signer signer (placed S.verifies me roster) (disks D.Disk disk result.disk) I.Source input.old input.new (sinks K.Sink out.old out.new) result.ending }
    ensures whole { IsTrue (I.tells input.old) → I.given input.new ++ I.rest input.new ≡ I.given input.old ++ I.rest input.old }
    ensures disk_failed { result.ending ≡ ServerEnding.Disk → D.faults disk < D.faults result.disk }
    ensures disk_later { D.faults disk ≤ D.faults result.disk }
    ensures disk_fault { D.faults disk < D.faults result.disk → IsAfterDiskFault result.ending }
    ensures same_disk { D.tells result.disk ≡ D.tells disk }
    ensures handle { D.handle result.disk ≡ D.handle disk }
    ensures sink_cause { HasCause (K.faults out.old) (K.faults out.new) (result.ending ≡ ServerEnding.Sink) }
    ensures source_cause { HasCause (I.faults input.old) (I.faults input.new) (result.ending ≡ ServerEnding.Source) }
    ensures same_sink { K.tells out.new ≡ K.tells out.old }
    ensures same_source { I.tells input.new ≡ I.tells input.old }
{
    // Called for its clause alone: the entries make a roster.
    let _entries = roster.entries();
    let node = match Node::start(alloc, disk, roster, scheme, signer, me) {
        Ok(node) => node,
        Err(Back { error, disk }) => {
            let ending = say_refused(alloc, &error, out);
            return Ran { disk, ending };
        }
    };
    let DetachedNode { node, disk, gate } = node.detach();
    let kept = node.record_count();
    let mut node = KeptNode {
        node,
        disk,
        gate,
        kept,
        stopped: false,
    };
    let ending = stay(alloc, &mut node, input, out);
    Ran {
        disk: node.disk,
        ending,
    }
}

/// Runs a server: starts the node `me` of a roster from the journal on a disk, says by one message whether it was
/// started, and then serves it to the end of the input, group by group: reads a request from the source, and those that
/// wait behind it, has them carried out, appends what they brought to the file by two syncs, and writes the replies to
/// the sink.
///
/// Lack of memory, faults of the disk, the source and the sink, and input that is no request cut a run short. If a
/// start is refused, the reason is written and the source isn't read; if the key, the roster or the journal is the
/// reason, the disk's file then reads as before. The messages are those of docs/FORMATS.md ("Requests").
pub fn run_server<D: Disk, I: Waiting, K: Sink, S: Scheme + Copy, G: Signer<Of = S>>(
    alloc: Global,
    disk: &mut D,
    roster: Roster,
    scheme: S,
    signer: G,
    me: NodeId,
    input: &mut I,
    out: &mut K,
) -> ServerEnding
    // Any crash image of the run was possible before the run, or is a lawful journal that extends the old one. If the
    // run ended by its input or its source, all later crash images are one such journal.
    ensures file { IsTrue (D.tells disk.old) → KeepsFile (placed S.verifies me roster) (disks D.Disk disk.old disk.new) }
    ensures stable { IsTrue (D.tells disk.old) → EndsByInput result → Settles (placed S.verifies me roster) (disks D.Disk disk.old disk.new) }

    // The node is refused, for its key, its roster or its journal: this is written, and nothing of the source is read.
    // Or it starts and says so, and the input is served from its journal on, also over a disk whose bytes aren't
    // visible. The disk isn't touched if the roster lacks its key.
    ensures untouched { (key_of roster me ≡ Some (G.key_of signer) → ⊥) → disk.new ≡ disk.old }
    ensures begins { ServerBegins G.Signer signer (placed S.verifies me roster) (disks D.Disk disk.old disk.new) I.Source input.old input.new (sinks K.Sink out.old out.new) result }

    // Over a lawful journal of this node, or none: the replies that are written are those to the requests, in their
    // order, and the journal is what these make of it; or the run is cut short. Every crash image has the journal and a
    // prefix of what the requests bring; since a moment of the run, for each answered request, at least what it
    // brought.
    ensures answers { ServerAnswers G.Signer signer (placed S.verifies me roster) (disks D.Disk disk.old disk.new) I.Source input.old input.new (sinks K.Sink out.old out.new) result }

    // The input that was read and the input still to come are together the input before.
    ensures whole { IsTrue (I.tells input.old) → I.given input.new ++ I.rest input.new ≡ I.given input.old ++ I.rest input.old }

    // A fault of the sink or the source is answered exactly when its count rose, one of the disk only if it rose; then
    // only `Disk`, `Sink` or `Memory` is answered. No count falls.
    ensures disk_failed { result ≡ ServerEnding.Disk → D.faults disk.old < D.faults disk.new }
    ensures disk_fault { D.faults disk.old < D.faults disk.new → IsAfterDiskFault result }
    ensures disk_later { D.faults disk.old ≤ D.faults disk.new }
    ensures sink_cause { HasCause (K.faults out.old) (K.faults out.new) (result ≡ ServerEnding.Sink) }
    ensures source_cause { HasCause (I.faults input.old) (I.faults input.new) (result ≡ ServerEnding.Source) }
    ensures same_disk { D.tells disk.new ≡ D.tells disk.old }
    ensures same_sink { K.tells out.new ≡ K.tells out.old }
    ensures same_source { I.tells input.new ≡ I.tells input.old }
{
    run_over(alloc, disk, roster, scheme, signer, me, input, out).ending
}
