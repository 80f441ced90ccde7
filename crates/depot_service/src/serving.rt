//! What a node does that is asked.
ghost use Rattle.std.specs.Prelude.{◌≡◌, ◌≤◌, false, IfOk};
ghost use Rattle.depot_base.specs.Sized.{IsValue};
ghost use Rattle.depot_laws.specs.Streams.{AreBytes};
ghost use Rattle.depot_lines.specs.PutKeys.{WriteNoReceipts};
ghost use Rattle.depot_model.specs.updates.Changes.{AreChanges};
ghost use Rattle.depot_model.specs.journals.JournalCalls.{IsStable};
ghost use Rattle.depot_model.specs.readers.Opening.{made_text, make_of};
ghost use Rattle.depot_model.specs.journals.Replicas.{journal_of};
ghost use Rattle.depot_requests.specs.Effects.{checkpoint_changes};
ghost use Rattle.depot_requests.specs.Requests.{AreIds, IsRequest};
ghost use Rattle.depot_service.specs.RequestCalls.{IsRequestCall, Serves};

use crate::replying::{
    reply_of_bundle, reply_of_checkpoint, reply_of_feed, reply_of_give, reply_of_put,
    reply_of_signing, reply_of_unmade,
};
use crate::{feed_all, has_receipts, shown_words};
use depot_base::{Bytes, Changes, Hash32, Ids, Key, Memory, Value};
use depot_gossip::{bundle, encode_hello, node_hello};
use depot_queries::{LocalNode, give};
use depot_requests::{Halt, Reply, Request};
use depot_trim::{checkpoint_key, make_checkpoint, sign_checkpoint};
use std::alloc::Global;

/// Puts changes.
fn put<N: LocalNode>(node: &mut N, changes: Changes) -> Result<Reply, Halt>
    requires changes { AreChanges changes }
    requires plain { WriteNoReceipts changes }
    requires runs { N.stopped node.old ≡ false }
    ensures serves { Serves (N.stands node.old) (N.signature_of node.old) (N.records node.old) (Request.Put changes) result (N.records node.new) }
    ensures call { IsRequestCall N.NodeState node.old node.new (Request.Put changes) result }
{
    reply_of_put(node.put_all(changes))
}

/// Reads a key.
fn get<N: LocalNode>(alloc: Global, node: &N, key: &Key) -> Result<Reply, Halt>
    requires runs { N.stopped node.now ≡ false }
    requires stable { IsStable (journal_of N.NodeState) node.now }
    ensures serves { Serves (N.stands node.now) (N.signature_of node.now) (N.records node.now) (Request.Get key.now) result (N.records node.now) }
    ensures call { IsRequestCall N.NodeState node.now node.now (Request.Get key.now) result }
{
    let words = shown_words(alloc, node, key)?;
    Ok(Reply::Read(words))
}

/// Says hello.
fn say_hello<N: LocalNode>(alloc: Global, node: &N) -> Result<Reply, Halt>
    requires runs { N.stopped node.now ≡ false }
    requires stable { IsStable (journal_of N.NodeState) node.now }
    ensures serves { Serves (N.stands node.now) (N.signature_of node.now) (N.records node.now) Request.Hello result (N.records node.now) }
    ensures call { IsRequestCall N.NodeState node.now node.now Request.Hello result }
{
    let hello = node_hello(node)?;
    let text = encode_hello(alloc, &hello)?;
    Ok(Reply::Hello { hello, text })
}

/// Makes a bundle for the bytes of a hello.
fn make_bundle<N: LocalNode>(alloc: Global, node: &mut N, hello: &[u8]) -> Result<Reply, Halt>
    requires runs { N.stopped node.old ≡ false }
    ensures serves { Serves (N.stands node.old) (N.signature_of node.old) (N.records node.old) (Request.Bundle hello.now) result (N.records node.new) }
    ensures call { IsRequestCall N.NodeState node.old node.new (Request.Bundle hello.now) result }
{
    reply_of_bundle(bundle(alloc, node, hello))
}

/// Takes a stream, in pieces of so many bytes.
fn take<N: LocalNode>(alloc: Global, node: &mut N, stream: &[u8], piece: u32) -> Result<Reply, Halt>
    requires some { 1 ≤ piece }
    requires runs { N.stopped node.old ≡ false }
    ensures serves { Serves (N.stands node.old) (N.signature_of node.old) (N.records node.old) (Request.Take stream.now piece) result (N.records node.new) }
    ensures call { IsRequestCall N.NodeState node.old node.new (Request.Take stream.now piece) result }
{
    reply_of_feed(feed_all(alloc, node, stream, piece as usize))
}

/// Gives receipts.
fn give_receipts<N: LocalNode>(alloc: Global, node: &mut N, ids: &Ids) -> Result<Reply, Halt>
    requires ids { AreIds ids.now }
    requires runs { N.stopped node.old ≡ false }
    ensures serves { Serves (N.stands node.old) (N.signature_of node.old) (N.records node.old) (Request.Receipt ids.now) result (N.records node.new) }
    ensures call { IsRequestCall N.NodeState node.old node.new (Request.Receipt ids.now) result }
{
    reply_of_give(give(alloc, node, ids))
}

/// Tells whether so many nodes gave receipts.
fn tell_settled<N: LocalNode>(alloc: Global, node: &N, id: &Hash32, k: u32) -> Result<Reply, Halt>
    requires runs { N.stopped node.now ≡ false }
    requires stable { IsStable (journal_of N.NodeState) node.now }
    ensures serves { Serves (N.stands node.now) (N.signature_of node.now) (N.records node.now) (Request.Settled id.now k) result (N.records node.now) }
    ensures call { IsRequestCall N.NodeState node.now node.now (Request.Settled id.now k) result }
{
    let enough = has_receipts(alloc, node, id, k)?;
    Ok(Reply::Settled(enough))
}

/// Signs a checkpoint's text.
fn sign<N: LocalNode>(alloc: Global, node: &mut N, text: &[u8]) -> Result<Reply, Halt>
    requires runs { N.stopped node.old ≡ false }
    ensures serves { Serves (N.stands node.old) (N.signature_of node.old) (N.records node.old) (Request.Sign text.now) result (N.records node.new) }
    ensures call { IsRequestCall N.NodeState node.old node.new (Request.Sign text.now) result }
{
    are_bytes(text);
    reply_of_signing(sign_checkpoint(alloc, node, text))
}

/// A text has only bytes. Called for its clause alone.
fn are_bytes(text: &[u8])
    ensures { AreBytes text.now }
{
    text.len();
}

/// Makes a checkpoint and signs it.
fn checkpoint<N: LocalNode>(alloc: Global, node: &mut N) -> Result<Reply, Halt>
    requires runs { N.stopped node.old ≡ false }
    requires stable { IsStable (journal_of N.NodeState) node.old }
    ensures serves { Serves (N.stands node.old) (N.signature_of node.old) (N.records node.old) Request.Checkpoint result (N.records node.new) }
    ensures call { IsRequestCall N.NodeState node.old node.new Request.Checkpoint result }
{
    match make_checkpoint(alloc, node) {
        Ok(text) => put_checkpoint(alloc, node, text),
        Err(error) => reply_of_unmade(error),
    }
}

/// The one change that puts a checkpoint's text, which is copied, under its key.
fn checkpoint_changes(alloc: Global, text: &Bytes) -> Result<Changes, Memory>
    requires { IsValue text.now }
    ensures { IfOk result (λ changes. changes ≡ checkpoint_changes text.now) }
{
    let key = checkpoint_key(alloc, text.as_slice())?;
    let value = Value::from_bytes(text.copy()?);
    Changes::one(alloc, key, value)
}

/// Puts the text of a checkpoint that was made.
fn put_checkpoint<N: LocalNode>(alloc: Global, node: &mut N, text: Bytes) -> Result<Reply, Halt>
    requires made { make_of (N.stands node.old) (N.records node.old) ≡ made_text text }
    requires runs { N.stopped node.old ≡ false }
    requires stable { IsStable (journal_of N.NodeState) node.old }
    ensures serves { Serves (N.stands node.old) (N.signature_of node.old) (N.records node.old) Request.Checkpoint result (N.records node.new) }
    ensures call { IsRequestCall N.NodeState node.old node.new Request.Checkpoint result }
{
    let changes = checkpoint_changes(alloc, &text)?;
    reply_of_checkpoint(text, node.put_all(changes))
}

/// Carries out a request, and returns its reply. `Stopped` is returned exactly when the disk failed in an earlier call.
/// The reply and the journal are the defined ones; `Memory` may come instead, or `Disk` if the disk failed in this
/// call, and then the node is stopped. Every crash image has the records from before and a prefix of those that the
/// request brings.
pub fn serve<N: LocalNode>(alloc: Global, node: &mut N, request: Request) -> Result<Reply, Halt>
    requires request { IsRequest request }
    ensures serves { Serves (N.stands node.old) (N.signature_of node.old) (N.records node.old) request result (N.records node.new) }
    ensures call { IsRequestCall N.NodeState node.old node.new request result }
{
    if node.is_stopped() {
        return Err(Halt::Stopped);
    }
    match request {
        Request::Put(changes) => put(node, changes),
        Request::Get(key) => get(alloc, node, &key),
        Request::Hello => say_hello(alloc, node),
        Request::Bundle(hello) => make_bundle(alloc, node, hello.as_slice()),
        Request::Take { stream, piece } => take(alloc, node, stream.as_slice(), piece),
        Request::Receipt(ids) => give_receipts(alloc, node, &ids),
        Request::Settled(id, k) => tell_settled(alloc, node, &id, k),
        Request::Checkpoint => checkpoint(alloc, node),
        Request::Sign(text) => sign(alloc, node, text.as_slice()),
    }
}
