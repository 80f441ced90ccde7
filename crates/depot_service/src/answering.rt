//! Has a node carry out or answer what is asked, and makes the message that answers.
ghost use Rattle.std.specs.Prelude.{◌≡◌, IsErrOf};
ghost use Rattle.depot_requests.specs.Requests.{IsRequest};
ghost use Rattle.depot_service.specs.Answering.{AnswersAsked, ChangesNothing, IsAskedCall, IsServing, came_by};
ghost use Rattle.depot_service.specs.Bodies.{MayBeAsked};

use crate::asked::Asked;
use crate::{export, serve};
use depot_base::Bytes;
use depot_gossip::{SendRequest, send};
use depot_queries::LocalNode;
use depot_questions::{Question, ask, encode_answer};
use depot_requests::{Halt, Request, encode_exported, encode_reply};
use std::alloc::Global;

/// Carries a request out.
fn reply_to<N: LocalNode>(alloc: Global, node: &mut N, request: Request) -> Result<Bytes, Halt>
    requires running { IsServing N.NodeState node.old }
    requires request { IsRequest request }
    ensures answers { AnswersAsked (N.stands node.old) (N.signature_of node.old) (N.records node.old) (Asked.Request request) result (N.records node.new) }
    ensures call { IsAskedCall N.NodeState node.old node.new (came_by (N.stands node.old) (N.signature_of node.old) (N.records node.old) (Asked.Request request)).journal (IsErrOf result Halt.Disk) }
    ensures handle { N.handle node.new ≡ N.handle node.old }
    ensures runs { IsErrOf result Halt.Stopped → ⊥ }
{
    let reply = serve(alloc, node, request)?;
    Ok(encode_reply(alloc, &reply)?)
}

/// Answers a question.
fn tell<N: LocalNode>(alloc: Global, node: &N, question: &Question) -> Result<Bytes, Halt>
    requires running { IsServing N.NodeState node.now }
    ensures answers { AnswersAsked (N.stands node.now) (N.signature_of node.now) (N.records node.now) (Asked.Question question.now) result (N.records node.now) }
    ensures call { IsAskedCall N.NodeState node.now node.now (came_by (N.stands node.now) (N.signature_of node.now) (N.records node.now) (Asked.Question question.now)).journal (IsErrOf result Halt.Disk) }
    ensures runs { IsErrOf result Halt.Stopped → ⊥ }
{
    let answer = ask(alloc, node, question)?;
    Ok(encode_answer(alloc, &answer)?)
}

/// Sends what is asked for.
fn send_to<N: LocalNode>(alloc: Global, node: &mut N, sending: &SendRequest) -> Result<Bytes, Halt>
    requires running { IsServing N.NodeState node.old }
    ensures answers { AnswersAsked (N.stands node.old) (N.signature_of node.old) (N.records node.old) (Asked.Sending sending.now) result (N.records node.new) }
    ensures call { IsAskedCall N.NodeState node.old node.new (came_by (N.stands node.old) (N.signature_of node.old) (N.records node.old) (Asked.Sending sending.now)).journal (IsErrOf result Halt.Disk) }
    ensures handle { N.handle node.new ≡ N.handle node.old }
    ensures runs { IsErrOf result Halt.Stopped → ⊥ }
{
    let reply = send(alloc, node, sending)?;
    Ok(encode_reply(alloc, &reply)?)
}

/// Returns the message that hands in the trace of a running node, without reads.
fn hand_in<N: LocalNode>(alloc: Global, node: &N) -> Result<Bytes, Halt>
    requires running { IsServing N.NodeState node.now }
    ensures answers { AnswersAsked (N.stands node.now) (N.signature_of node.now) (N.records node.now) Asked.Export result (N.records node.now) }
    ensures call { IsAskedCall N.NodeState node.now node.now (came_by (N.stands node.now) (N.signature_of node.now) (N.records node.now) Asked.Export).journal (IsErrOf result Halt.Disk) }
    ensures runs { IsErrOf result Halt.Stopped → ⊥ }
{
    let trace = export(alloc, node, &[])?;
    Ok(encode_exported(alloc, trace.as_slice())?)
}

/// Has a running node carry out or answer what is asked, and returns the message that answers. `Memory` may be returned
/// after it was done. A question and an export leave the node unchanged.
pub fn answer<N: LocalNode>(alloc: Global, node: &mut N, asked: Asked) -> Result<Bytes, Halt>
    requires running { IsServing N.NodeState node.old }
    requires asked { MayBeAsked asked }
    ensures answers { AnswersAsked (N.stands node.old) (N.signature_of node.old) (N.records node.old) asked result (N.records node.new) }
    ensures call { IsAskedCall N.NodeState node.old node.new (came_by (N.stands node.old) (N.signature_of node.old) (N.records node.old) asked).journal (IsErrOf result Halt.Disk) }
    ensures unchanged { ChangesNothing asked → node.new ≡ node.old }
    ensures handle { N.handle node.new ≡ N.handle node.old }
    ensures runs { IsErrOf result Halt.Stopped → ⊥ }
{
    match asked {
        Asked::Request(request) => reply_to(alloc, node, request),
        Asked::Question(question) => tell(alloc, node, &question),
        Asked::Sending(sending) => send_to(alloc, node, &sending),
        Asked::Export => hand_in(alloc, node),
    }
}
