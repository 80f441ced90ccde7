//! The records of a node, as its caller appends them to a journal's file.
ghost use Rattle.std.specs.Prelude.{◌≡◌, ◌<◌, ◌^◌, ◌++◌, ◌∷◌, IfOk, OnOk, length};
ghost use Rattle.depot_base.specs.File.{framed};
ghost use Rattle.depot_c.specs.NodeViews.{records_onward};

use crate::node_view::{HasNodeView, Over};
use depot_base::{Bytes, Memory};
use depot_model::Replica;
use std::alloc::Global;

/// Adds a record: an open gate, the length of its text, and the text.
#[tactic(auto, using(depot_base::proofs::Writing::texts), unfolding(depot_base::specs::File::framed))]
fn add_record(run: &mut Bytes, text: &[u8]) -> Result<(), Memory>
    requires { length text.now < 2 ^ 32 }
    ensures { OnOk result (run.new ≡ run.old ++ 1 ∷ framed text.now) }
{
    run.push_all(&[1])?;
    run.push_u32(text.len() as u32)?;
    run.push_all(text)
}

/// The records from a place on, one behind another, each behind an open gate. Behind the last one no record is left, and no byte is given.
pub fn records_from(alloc: Global, node: &Over, place: u64) -> Result<Bytes, Memory>
    ensures { IfOk result (λ run. run ≡ records_onward place (⟦<Over as HasNodeView>⟧.node_view node.now)) }
{
    let mut run = Bytes::new(alloc);
    let count = node.record_count();
    if place >= u64::from(count) {
        return Ok(run);
    }
    for at in place as u32..count {
        add_record(&mut run, node.record_text(at))?;
    }
    Ok(run)
}
