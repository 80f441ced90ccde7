//! Says first whether the node was started.
ghost use Rattle.std.specs.Prelude.{◌≡◌, false, IfOk, IsErrOf};
ghost use Rattle.depot_base.specs.Faults.{HasCause};
ghost use Rattle.depot_outside.specs.Told.{sinks};
ghost use Rattle.depot_session.specs.FirstMessages.{message_of, refused_text, started_text};
ghost use Rattle.depot_session.specs.ServerRuns.{IsRefusalSaid, Says, ending_of_start};

use crate::refusal_line;
use crate::server_ending::ServerEnding;
use depot_base::{Bytes, Memory};
use depot_node::StartError;
use depot_outside::{OutError, Sink};
use depot_queries::LocalNode;
use std::alloc::Global;

/// The version of the messages.
pub const MESSAGE_VERSION: u8 = 1;

/// The message of a body. With more than 4,294,967,295 bytes, it returns `Memory`.
#[tactic(auto, using(depot_base::proofs::Writing::texts))]
fn message(alloc: Global, body: &[u8]) -> Result<Bytes, Memory>
    ensures { IfOk result (λ text. text ≡ message_of body.now) }
{
    let Ok(length) = u32::try_from(body.len()) else {
        return Err(Memory);
    };
    let mut text = Bytes::new(alloc);
    text.push_u32(length)?;
    text.push_all(body)?;
    Ok(text)
}

/// The message that a node was started: the version of the messages, the node, its roster's hash, and how many statements it has made.
#[tactic(auto, using(depot_base::proofs::Writing::texts))]
fn started_message<N: LocalNode>(alloc: Global, node: &N) -> Result<Bytes, Memory>
    requires { N.stopped node.now ≡ false }
    ensures { IfOk result (λ text. text ≡ started_text (N.stands node.now) (N.records node.now)) }
{
    let mut body = Bytes::new(alloc);
    body.push_u8(0)?;
    body.push_u8(MESSAGE_VERSION)?;
    body.push_u16(node.me().number())?;
    body.push_all(node.roster_hash().bytes())?;
    body.push_u32(node.statement_count())?;
    message(alloc, body.as_slice())
}

/// The message that no node was started: the line of the refusal.
#[tactic(auto, using(depot_base::proofs::Writing::texts))]
fn refused_message(alloc: Global, error: &StartError) -> Result<Bytes, Memory>
    ensures { IfOk result (λ text. text ≡ refused_text error.now) }
{
    let line = refusal_line(alloc, error)?;
    let mut body = Bytes::new(alloc);
    body.push_u8(255)?;
    body.push_all(line.as_slice())?;
    message(alloc, body.as_slice())
}

/// Writes a message.
fn say<K: Sink>(out: &mut K, text: &[u8]) -> Result<(), ServerEnding>
    ensures says { Says (sinks K.Sink out.old out.new) text.now result }
    ensures same { K.tells out.new ≡ K.tells out.old }
    ensures cause { HasCause (K.faults out.old) (K.faults out.new) (IsErrOf result ServerEnding.Sink) }
{
    match out.write(text) {
        Ok(()) => Ok(()),
        Err(OutError::Memory) => Err(ServerEnding::Memory),
        Err(OutError::Failed) => Err(ServerEnding::Sink),
    }
}

/// Says that a node was started.
pub fn say_started<K: Sink, N: LocalNode>(
    alloc: Global,
    node: &N,
    out: &mut K,
) -> Result<(), ServerEnding>
    requires { N.stopped node.now ≡ false }
    ensures says { Says (sinks K.Sink out.old out.new) (started_text (N.stands node.now) (N.records node.now)) result }
    ensures same { K.tells out.new ≡ K.tells out.old }
    ensures cause { HasCause (K.faults out.old) (K.faults out.new) (IsErrOf result ServerEnding.Sink) }
{
    let Ok(text) = started_message(alloc, node) else {
        return Err(ServerEnding::Memory);
    };
    say(out, text.as_slice())
}

/// How the run ends whose start is refused.
fn ending_by(error: &StartError) -> ServerEnding
    ensures { result ≡ ending_of_start error.now }
{
    match error {
        StartError::Memory => ServerEnding::Memory,
        StartError::Disk => ServerEnding::Disk,
        StartError::Damaged(_) | StartError::NotLawful { .. } => ServerEnding::NotLawful,
        StartError::UnknownMe
        | StartError::OtherKey { .. }
        | StartError::OtherNode(_)
        | StartError::OtherRoster { .. } => ServerEnding::Identity,
    }
}

/// Says why a node isn't started, and gives how the run ends.
pub fn say_refused<K: Sink>(alloc: Global, error: &StartError, out: &mut K) -> ServerEnding
    ensures said { IsRefusalSaid (sinks K.Sink out.old out.new) error.now result }
    ensures same { K.tells out.new ≡ K.tells out.old }
    ensures cause { HasCause (K.faults out.old) (K.faults out.new) (result ≡ ServerEnding.Sink) }
{
    let Ok(text) = refused_message(alloc, error) else {
        return ServerEnding::Memory;
    };
    match say(out, text.as_slice()) {
        Ok(()) => ending_by(error),
        Err(ending) => ending,
    }
}
