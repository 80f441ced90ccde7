//! A node signs a checkpoint.
ghost use Rattle.std.specs.Prelude.{◌≡◌, IfOk};
ghost use Rattle.depot_base.specs.Sized.{IsValue};
ghost use Rattle.depot_model.specs.journals.Journal.{accepted};
ghost use Rattle.depot_model.specs.readers.Checkpoints.{checkpoint_key};
ghost use Rattle.depot_trim.specs.Signing.{IsDue, IsSigningCall, SignsCheckpoint, as_checkpoint_error, as_signed, as_unopened};

use crate::keys::checkpoint_key;
use crate::opening::{OpenError, opened};
use crate::sign_error::CheckpointError;
use depot_base::{Bytes, Key, Memory, Value};
use depot_graph::Graph;
use depot_model::{Past, PutDone, PutError, Replica};
use depot_queries::LocalNode;
use std::alloc::Global;

/// Signs a checkpoint by a put of its text under its key. All that it names is in the past of this update.
///
/// `Stopped` is returned exactly when the disk failed in an earlier call. `IllFormed` is returned exactly when the text
/// is no checkpoint's, with the offset in bytes of its first fault; else `OtherRoster` exactly when it is of another
/// roster than the node's; else `Unknown` exactly when a leaf isn't an accepted update of its writer, with the first
/// such id. Then come the errors of [`put`](LocalNode::put), with the same effects: after `Disk` the node is stopped,
/// after any other error its journal is unchanged.
pub fn sign_checkpoint<N: LocalNode>(
    alloc: Global,
    node: &mut N,
    text: &[u8],
) -> Result<PutDone, CheckpointError>
    ensures signs { SignsCheckpoint (N.stands node.old) (N.records node.old) text.now result (N.records node.new) }
    ensures call { IsSigningCall N.NodeState node.old node.new text.now result }
{
    if node.is_stopped() {
        return Err(CheckpointError::Stopped);
    }
    match put_due(alloc, node, node.graph(), text) {
        Ok(made) => as_signed(node.put(made.key, made.value)),
        Err(refusal) => Err(refusal),
    }
}

/// The key and the value of a put that signs a checkpoint.
#[derive(Drop)]
pub struct SigningPut {
    pub(crate) key: Key,
    pub(crate) value: Value,
}

/// The put that signs a text, if that is a checkpoint that the node may sign. The graph is the node's.
fn put_due<R: Replica>(
    alloc: Global,
    node: &R,
    graph: &Graph,
    text: &[u8],
) -> Result<SigningPut, CheckpointError>
    requires graph { ⟦<Graph as Past>⟧.updates graph.now ≡ accepted (R.records node.now) }
    ensures { IsDue (R.stands node.now) (R.records node.now) text.now result }
{
    match opened(alloc, node, graph, text) {
        Ok(_) => match put_of(alloc, text) {
            Ok(made) => Ok(made),
            Err(_) => Err(CheckpointError::Memory),
        },
        Err(refusal) => Err(as_unopened(refusal)),
    }
}

/// The put of a checkpoint's text under its key.
fn put_of(alloc: Global, text: &[u8]) -> Result<SigningPut, Memory>
    requires { IsValue text.now }
    ensures key { IfOk result (λ made. made.key ≡ checkpoint_key text.now) }
    ensures value { IfOk result (λ made. made.value ≡ text.now) }
{
    let key = checkpoint_key(alloc, text)?;
    let value = Value::from_bytes(Bytes::from_slice(alloc, text)?);
    Ok(SigningPut { key, value })
}

/// Why a text isn't opened, as the refusal to sign it.
fn as_unopened(refusal: OpenError) -> CheckpointError
    ensures { result ≡ as_unopened refusal }
{
    match refusal {
        OpenError::Memory => CheckpointError::Memory,
        OpenError::IllFormed(at) => CheckpointError::IllFormed(at),
        OpenError::OtherRoster { given, mine } => CheckpointError::OtherRoster { given, mine },
        OpenError::Unknown(id) => CheckpointError::Unknown(id),
    }
}

/// The answer of a put as that of signing.
fn as_signed(answer: Result<PutDone, PutError>) -> Result<PutDone, CheckpointError>
    ensures { result ≡ as_signed answer }
{
    match answer {
        Ok(done) => Ok(done),
        Err(refusal) => Err(as_refusal(refusal)),
    }
}

/// The refusal of a put as that of signing.
fn as_refusal(refusal: PutError) -> CheckpointError
    ensures { result ≡ as_checkpoint_error refusal }
{
    match refusal {
        PutError::Memory => CheckpointError::Memory,
        PutError::Disk => CheckpointError::Disk,
        PutError::Stopped => CheckpointError::Stopped,
        PutError::Spent(count) => CheckpointError::Spent(count),
        PutError::Tips(count) => CheckpointError::Tips(count),
        PutError::Collides(id) => CheckpointError::Collides(id),
        PutError::Full(full) => CheckpointError::Full(full),
    }
}
