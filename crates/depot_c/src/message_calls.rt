//! What a node answers to the body of a message.
ghost use Rattle.std.specs.Prelude.{◌≡◌, false};
ghost use Rattle.depot_requests.specs.Requests.{IsRequest};
ghost use Rattle.depot_c.specs.MessageAnswers.{AnswersBody, IsReplyMessage, Messaging};
ghost use Rattle.depot_c.specs.NodeViews.{RunsOn, Stays};

use crate::node_view::{HasNodeView, Over};
use crate::refused::Refused;
use depot_base::{Bytes, DecodeError};
use depot_gossip::{SendRequest, send};
use depot_model::Replica;
use depot_questions::{Question, ask, encode_answer};
use depot_requests::{Halt, Reply, Request, encode_exported, encode_reply};
use depot_service::{Asked, decode_asked, export, serve};
use std::alloc::Global;

/// The message of a reply, or why there is none.
fn message_of(alloc: Global, replied: Result<Reply, Halt>) -> Result<Bytes, Refused>
    ensures { IsReplyMessage replied result }
{
    let reply = match replied {
        Ok(reply) => reply,
        Err(halt) => return Err(Refused::Halted(halt)),
    };
    match encode_reply(alloc, &reply) {
        Ok(text) => Ok(text),
        Err(_) => Err(Refused::Memory),
    }
}

/// Carries a request out.
fn carry_out(alloc: Global, node: &mut Over, request: Request) -> Result<Bytes, Refused>
    requires { IsRequest request }
    ensures stays { Stays (⟦<Over as HasNodeView>⟧.node_view node.old) (⟦<Over as HasNodeView>⟧.node_view node.new) }
    ensures runs { RunsOn (⟦<Over as HasNodeView>⟧.node_view node.old) result (⟦<Over as HasNodeView>⟧.node_view node.new) }
    ensures answers { AnswersBody (⟦<Over as HasNodeView>⟧.node_view node.old) (Asked.Request request) result (⟦<Over as HasNodeView>⟧.node_view node.new) }
{
    message_of(alloc, serve(alloc, node, request))
}

/// Sends what is asked for.
fn send_out(alloc: Global, node: &mut Over, sending: &SendRequest) -> Result<Bytes, Refused>
    ensures stays { Stays (⟦<Over as HasNodeView>⟧.node_view node.old) (⟦<Over as HasNodeView>⟧.node_view node.new) }
    ensures runs { RunsOn (⟦<Over as HasNodeView>⟧.node_view node.old) result (⟦<Over as HasNodeView>⟧.node_view node.new) }
    ensures answers { AnswersBody (⟦<Over as HasNodeView>⟧.node_view node.old) (Asked.Sending sending.now) result (⟦<Over as HasNodeView>⟧.node_view node.new) }
{
    message_of(alloc, send(alloc, node, sending))
}

/// Answers a question.
fn tell(alloc: Global, node: &Over, question: &Question) -> Result<Bytes, Refused>
    requires { (⟦<Over as HasNodeView>⟧.node_view node.now).stopped ≡ false }
    ensures runs { RunsOn (⟦<Over as HasNodeView>⟧.node_view node.now) result (⟦<Over as HasNodeView>⟧.node_view node.now) }
    ensures answers { AnswersBody (⟦<Over as HasNodeView>⟧.node_view node.now) (Asked.Question question.now) result (⟦<Over as HasNodeView>⟧.node_view node.now) }
{
    let Ok(answer) = ask(alloc, node, question) else {
        return Err(Refused::Memory);
    };
    match encode_answer(alloc, &answer) {
        Ok(text) => Ok(text),
        Err(_) => Err(Refused::Memory),
    }
}

/// Hands the trace in.
fn hand_in(alloc: Global, node: &Over) -> Result<Bytes, Refused>
    requires { (⟦<Over as HasNodeView>⟧.node_view node.now).stopped ≡ false }
    ensures runs { RunsOn (⟦<Over as HasNodeView>⟧.node_view node.now) result (⟦<Over as HasNodeView>⟧.node_view node.now) }
    ensures answers { AnswersBody (⟦<Over as HasNodeView>⟧.node_view node.now) Asked.Export result (⟦<Over as HasNodeView>⟧.node_view node.now) }
{
    let Ok(trace) = export(alloc, node, &[]) else {
        return Err(Refused::Memory);
    };
    match encode_exported(alloc, trace.as_slice()) {
        Ok(text) => Ok(text),
        Err(_) => Err(Refused::Memory),
    }
}

/// Does or tells what is asked by the body of a message, and answers by a message.
pub fn message(alloc: Global, node: &mut Over, body: &[u8]) -> Result<Bytes, Refused>
    ensures stays { Stays (⟦<Over as HasNodeView>⟧.node_view node.old) (⟦<Over as HasNodeView>⟧.node_view node.new) }
    ensures runs { RunsOn (⟦<Over as HasNodeView>⟧.node_view node.old) result (⟦<Over as HasNodeView>⟧.node_view node.new) }
    ensures messages { Messaging (⟦<Over as HasNodeView>⟧.node_view node.old) body.now result (⟦<Over as HasNodeView>⟧.node_view node.new) }
{
    if node.is_stopped() {
        return Err(Refused::Halted(Halt::Stopped));
    }
    match decode_asked(alloc, body) {
        Ok(Asked::Request(request)) => carry_out(alloc, node, request),
        Ok(Asked::Question(question)) => tell(alloc, node, &question),
        Ok(Asked::Sending(sending)) => send_out(alloc, node, &sending),
        Ok(Asked::Export) => hand_in(alloc, node),
        Err(DecodeError::Memory) => Err(Refused::Memory),
        Err(DecodeError::IllFormed(at)) => Err(Refused::IllFormed(at)),
    }
}
