//! What is chosen for the text of a hello, before any voucher is made.
ghost use Rattle.std.specs.Prelude.{◌≡◌, ◌++◌, [], ◌∷◌, false, not, OnOk, IfOk};
ghost use Rattle.std.specs.List.{filter};
ghost use Rattle.depot_model.specs.exchange.Bundle.{BundleAnswer};
ghost use Rattle.depot_model.specs.journals.JournalCalls.{IsStable};
ghost use Rattle.depot_model.specs.declared.hello.Hello.{Hello};
ghost use Rattle.depot_model.specs.journals.Replicas.{journal_of};
ghost use Rattle.depot_model.specs.checks.Vouching.{is_mine_vouched};
ghost use Rattle.depot_gossip.specs.Preparing.{ReadsHello, Prepares};

use crate::bundle_error::BundleError;
use crate::choose::chosen;
use depot_base::{Hash32, Ids, Memory};
use depot_model::{Hello, Peer};
use depot_streams::{Sending, decode_hello};
use std::alloc::Global;

/// What is chosen for a hello before any voucher is made.
#[derive(Drop)]
pub struct Prepared {
    /// The hello.
    pub hello: Hello,
    /// The updates and values that are sent.
    pub sending: Sending,
    /// The ids of sent updates of others that no own voucher names.
    pub unvouched: Ids,
}

/// The hello of a text, if it goes by the node's roster.
pub fn heard<R: Peer>(alloc: Global, node: &R, text: &[u8]) -> Result<Hello, BundleError>
    ensures { (answer : Hello → BundleAnswer) → ReadsHello (R.stands node.now) answer text.now result }
{
    let hello = decode_hello(alloc, text)?;
    if hello.roster != *node.roster_hash() {
        return Err(BundleError::OtherRoster {
            given: hello.roster,
            mine: *node.roster_hash(),
        });
    }
    if !node.has_node(hello.node) {
        return Err(BundleError::IllFormed(2));
    }
    Ok(hello)
}

/// Adds an id, unless an own voucher names it.
fn add_unvouched<R: Peer>(left: &mut Ids, node: &R, id: &Hash32) -> Result<(), Memory>
    requires { R.stopped node.now ≡ false }
    ensures { OnOk result (left.new ≡ left.old ++ filter (λ i. not (is_mine_vouched (R.records node.now) i)) (id.now ∷ [])) }
{
    if node.is_mine_vouched(id) {
        return Ok(());
    }
    left.push(*id)
}

/// Those of these ids that no own voucher names, in their order.
pub fn unvouched_of<R: Peer>(alloc: Global, node: &R, ids: &Ids) -> Result<Ids, Memory>
    requires { R.stopped node.now ≡ false }
    ensures { IfOk result (λ left. left ≡ filter (λ id. not (is_mine_vouched (R.records node.now) id)) ids.now) }
{
    let mut left = Ids::new(alloc);
    for id in ids.as_slice() {
        add_unvouched(&mut left, node, id)?;
    }
    Ok(left)
}

/// Chooses what is sent for the hello of a text, and the ids to vouch for first. The errors are those of a bundle that
/// come before any voucher is made, in their order.
pub fn prepare<R: Peer>(alloc: Global, node: &R, text: &[u8]) -> Result<Prepared, BundleError>
    ensures prepares { Prepares (R.stands node.now) (R.signature_of node.now) (R.records node.now) (R.stopped node.now) text.now result }
    ensures stable { IsStable (journal_of R.NodeState) node.now }
{
    if node.is_stopped() {
        return Err(BundleError::Stopped);
    }
    let hello = heard(alloc, node, text)?;
    let sending = chosen(alloc, node, &hello)?;
    let unvouched = unvouched_of(alloc, node, &sending.ids)?;
    Ok(Prepared {
        hello,
        sending,
        unvouched,
    })
}
