//! The loop.
ghost use Rattle.std.specs.Prelude.{◌≡◌, ◌++◌, false, IsTrue, IsErrOf, OnOk};
ghost use Rattle.depot_base.specs.Faults.{HasCause};
ghost use Rattle.depot_outside.specs.Told.{sinks};
ghost use Rattle.depot_source.specs.Inputs.{inputs};
ghost use Rattle.depot_service.specs.Answering.{IsServing};
ghost use Rattle.depot_session.specs.Answering.{serves_of};
ghost use Rattle.depot_session.specs.Keeping.{IsAllKept, NeverFails, TellsReplies, in_memory, kept_state, lacks_memory};
ghost use Rattle.depot_session.specs.Serving.{ServesGroup, ServesInput, ServesWaiting, TurnsRequest};

use crate::kept_node::KeptNode;
use crate::replies::Replies;
use crate::request_hearing::hear_request;
use crate::server_ending::ServeEnding;
use depot_outside::{Disk, OutError, Sink};
use depot_queries::LocalNode;
use depot_requests::Halt;
use depot_service::answer;
use depot_source::Waiting;
use std::alloc::Global;

/// The most requests of a group.
const MOST_REQUESTS: u32 = 64;

/// A group ends once its replies have this many bytes.
const MOST_REPLIES: usize = 65_536;

/// Reads a request, has it carried out and writes the reply. Returns how many bytes the message of the request has. The
/// message begins at this offset. For the first one of a group it waits, `None` at the end; `None` where no further one
/// waits.
fn turn<I: Waiting, K: Sink, N: LocalNode>(
    alloc: Global,
    node: &mut N,
    input: &mut I,
    out: &mut K,
    at: u64,
    first: bool,
) -> Result<Option<u64>, ServeEnding>
    requires running { IsServing N.NodeState node.old }
    ensures turns { TurnsRequest N.NodeState (serves_of N.NodeState node.old) node.old node.new (inputs I.Source input.old input.new) (sinks K.Sink out.old out.new) at first result }
    ensures same_sink { K.tells out.new ≡ K.tells out.old }
    ensures same_source { I.tells input.new ≡ I.tells input.old }
    ensures whole { IsTrue (I.tells input.old) → I.given input.new ++ I.rest input.new ≡ I.given input.old ++ I.rest input.old }
    ensures handle { N.handle node.new ≡ N.handle node.old }
    ensures disk_cause { HasCause (N.faults node.old) (N.faults node.new) (IsErrOf result ServeEnding.Disk) }
    ensures sink_cause { HasCause (K.faults out.old) (K.faults out.new) (IsErrOf result ServeEnding.Sink) }
    ensures source_cause { HasCause (I.faults input.old) (I.faults input.new) (IsErrOf result ServeEnding.Source) }
    ensures calm { first ≡ false → I.faults input.new ≡ I.faults input.old }
{
    let Some(heard) = hear_request(alloc, input, at, first)? else {
        return Ok(None);
    };
    let long = heard.long;
    let text = match answer(alloc, node, heard.asked) {
        Ok(text) => text,
        Err(Halt::Memory) => return Err(ServeEnding::Memory),
        Err(Halt::Disk) => return Err(ServeEnding::Disk),
        Err(Halt::Stopped) => unreachable!(),
    };
    match out.write(text.as_slice()) {
        Ok(()) => Ok(Some(long)),
        Err(OutError::Memory) => Err(ServeEnding::Memory),
        Err(OutError::Failed) => Err(ServeEnding::Sink),
    }
}

/// Answers the requests that wait, in memory. Returns the offset of the next message; the first one begins at `at`.
fn answer_waiting<I: Waiting, N: LocalNode>(
    alloc: Global,
    node: &mut N,
    input: &mut I,
    replies: &mut Replies,
    at: u64,
) -> Result<u64, ServeEnding>
    requires running { IsServing N.NodeState node.old }
    ensures serves { ServesWaiting N.NodeState (serves_of N.NodeState node.old) node.old node.new (inputs I.Source input.old input.new) (in_memory replies.old.bytes replies.new.bytes) at result }
    ensures same_source { I.tells input.new ≡ I.tells input.old }
    ensures whole { IsTrue (I.tells input.old) → I.given input.new ++ I.rest input.new ≡ I.given input.old ++ I.rest input.old }
    ensures disk_cause { HasCause (N.faults node.old) (N.faults node.new) (IsErrOf result ServeEnding.Disk) }
    ensures no_sink { IsErrOf result ServeEnding.Sink → ⊥ }
    ensures no_source { IsErrOf result ServeEnding.Source → ⊥ }
    ensures calm { I.faults input.new ≡ I.faults input.old }
{
    let mut next = at;
    for _ in 1..MOST_REQUESTS {
        if replies.as_slice().len() >= MOST_REPLIES {
            return Ok(next);
        }
        match turn(alloc, node, input, replies, next, false)? {
            Some(long) => next = next.saturating_add(long),
            None => return Ok(next),
        }
    }
    Ok(next)
}

/// Whether no memory was found for a request that waited.
fn lacked_memory(outcome: &Result<u64, ServeEnding>) -> bool
    ensures { result ≡ lacks_memory outcome.now }
{
    match outcome {
        Ok(_) => false,
        Err(ServeEnding::Memory) => true,
        Err(ServeEnding::Source) => false,
        Err(ServeEnding::Disk) => false,
        Err(ServeEnding::Sink) => false,
        Err(ServeEnding::Input { .. }) => false,
    }
}

/// Writes the replies of a group.
fn tell<K: Sink>(out: &mut K, replies: &Replies) -> Result<(), ServeEnding>
    ensures tells { TellsReplies (sinks K.Sink out.old out.new) replies.now.bytes result }
    ensures same { K.tells out.new ≡ K.tells out.old }
    ensures cause { HasCause (K.faults out.old) (K.faults out.new) (IsErrOf result ServeEnding.Sink) }
{
    match out.write(replies.as_slice()) {
        Ok(()) => Ok(()),
        Err(OutError::Memory) => Err(ServeEnding::Memory),
        Err(OutError::Failed) => Err(ServeEnding::Sink),
    }
}

/// Serves a group of requests: answers them in memory, appends what they brought to the file, and then writes the
/// replies. What comes after them, and is no request, ends the run behind their replies.
fn serve_group<I: Waiting, K: Sink, N: LocalNode, D: Disk>(
    alloc: Global,
    node: &mut KeptNode<N, D>,
    input: &mut I,
    out: &mut K,
    at: u64,
) -> Result<Option<u64>, ServeEnding>
    requires kept { IsAllKept N.NodeState D.Disk node.old }
    requires calm { NeverFails N.NodeState }
    ensures serves { ServesGroup (kept_state N.NodeState D.Disk) (serves_of (kept_state N.NodeState D.Disk) node.old) node.old node.new (inputs I.Source input.old input.new) (sinks K.Sink out.old out.new) at result }
    ensures kept { OnOk result (IsAllKept N.NodeState D.Disk node.new) }
    ensures same_sink { K.tells out.new ≡ K.tells out.old }
    ensures same_source { I.tells input.new ≡ I.tells input.old }
    ensures whole { IsTrue (I.tells input.old) → I.given input.new ++ I.rest input.new ≡ I.given input.old ++ I.rest input.old }
    ensures handle { D.handle node.new.disk ≡ D.handle node.old.disk }
    ensures disk_cause { HasCause (D.faults node.old.disk) (D.faults node.new.disk) (IsErrOf result ServeEnding.Disk) }
    ensures sink_cause { HasCause (K.faults out.old) (K.faults out.new) (IsErrOf result ServeEnding.Sink) }
    ensures source_cause { HasCause (I.faults input.old) (I.faults input.new) (IsErrOf result ServeEnding.Source) }
{
    let mut replies = Replies::new(alloc);
    let Some(long) = turn(alloc, &mut node.node, input, &mut replies, at, true)? else {
        return Ok(None);
    };
    let behind = at.saturating_add(long);
    let outcome = answer_waiting(alloc, &mut node.node, input, &mut replies, behind);
    if lacked_memory(&outcome) {
        return Err(ServeEnding::Memory);
    }
    node.keep(alloc)?;
    tell(out, &replies)?;
    match outcome {
        Ok(next) => Ok(Some(next)),
        Err(error) => Err(error),
    }
}

/// Serves a running node, group by group to the end of the input: a group is a request and those that wait behind it.
/// The replies and the journal are the defined ones. Every crash image has the records from before and a prefix of what
/// the requests bring; since a moment of the run, for each written reply, at least what it reports. A fault of the disk,
/// the sink or the source is answered exactly when its count rose.
pub fn serve_all<I: Waiting, K: Sink, N: LocalNode, D: Disk>(
    alloc: Global,
    node: &mut KeptNode<N, D>,
    input: &mut I,
    out: &mut K,
) -> Result<(), ServeEnding>
    requires kept { IsAllKept N.NodeState D.Disk node.old }
    requires calm { NeverFails N.NodeState }
    ensures serves { ServesInput (kept_state N.NodeState D.Disk) (serves_of (kept_state N.NodeState D.Disk) node.old) node.old node.new (inputs I.Source input.old input.new) (sinks K.Sink out.old out.new) result }
    ensures same_sink { K.tells out.new ≡ K.tells out.old }
    ensures same_source { I.tells input.new ≡ I.tells input.old }
    ensures whole { IsTrue (I.tells input.old) → I.given input.new ++ I.rest input.new ≡ I.given input.old ++ I.rest input.old }
    ensures handle { D.handle node.new.disk ≡ D.handle node.old.disk }
    ensures disk_cause { HasCause (D.faults node.old.disk) (D.faults node.new.disk) (IsErrOf result ServeEnding.Disk) }
    ensures sink_cause { HasCause (K.faults out.old) (K.faults out.new) (IsErrOf result ServeEnding.Sink) }
    ensures source_cause { HasCause (I.faults input.old) (I.faults input.new) (IsErrOf result ServeEnding.Source) }
{
    let mut at: u64 = 0;
    for _ in 0..u64::MAX {
        match serve_group(alloc, node, input, out, at)? {
            Some(next) => at = next,
            None => return Ok(()),
        }
    }
    Err(ServeEnding::Memory)
}
