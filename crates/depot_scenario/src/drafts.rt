//! Updates that faulty nodes sign, and what they name.
ghost use Rattle.std.specs.Prelude.{◌≡◌, ◌↔◌, List, map, IfOk, IsTrue, option_copied};
ghost use Rattle.depot_base.specs.Zeros.{zeros};
ghost use Rattle.depot_base.specs.declared.update.Update.{Update};
ghost use Rattle.depot_model.specs.journals.Journal.{update_in};
ghost use Rattle.depot_model.specs.checks.Own.{entry_of, write_of};
ghost use Rattle.depot_world.specs.FaultySigning.{drafted, with_history};
ghost use Rattle.depot_world.specs.Run.{first_update};

use depot_base::{
    Change, Deps, Hash32, Memory, NodeId, Signed, Statement, Update, Write, Writes, Wrote,
};
use depot_model::hash_of;
use std::alloc::Global;

/// An update with these fields, writes and entries, and with zeros as its history hash.
pub fn drafted(
    writer: NodeId,
    seq: u32,
    clock: u64,
    prev: Hash32,
    writes: Writes,
    deps: Deps,
) -> Update
    ensures { (us : List Update) → deps ≡ map entry_of us → result ≡ with_history (drafted writer seq clock prev writes us) zeros }
{
    Update {
        writer,
        seq,
        clock,
        prev,
        writes,
        deps,
        history: Hash32::zeros(),
    }
}

/// The writes that changes make, in their order.
pub fn writes_of(alloc: Global, changes: &[Change]) -> Result<Writes, Memory>
    ensures { IfOk result (λ writes. writes ≡ map write_of changes.now) }
{
    let mut writes = Writes::new(alloc);
    for change in changes {
        writes.push(write_of(change)?)?;
    }
    Ok(writes)
}

/// The write that a change makes.
fn write_of(change: &Change) -> Result<Write, Memory>
    ensures { IfOk result (λ write. write ≡ write_of change.now) }
{
    let key = change.key.copy()?;
    match &change.value {
        Some(value) => {
            let hash = hash_of(value.bytes());
            let length = value.bytes().len() as u32;
            Ok(Write {
                key,
                what: Wrote::Put { hash, length },
            })
        }
        None => Ok(Write {
            key,
            what: Wrote::Gone,
        }),
    }
}

/// The update that is signed, if one is.
pub fn update_of(signed: &Signed) -> Option<&Update>
    ensures { option_copied result ≡ first_update (update_in signed.now.statement) }
{
    match &signed.statement {
        Statement::Update(update) => Some(update),
        Statement::Voucher(_) => None,
    }
}

/// Whether an update is the one that a node wrote with a number.
pub fn is_by(update: &Update, writer: NodeId, seq: u32) -> bool
    ensures { IsTrue result ↔ ((update.now.writer ≡ writer) × (update.now.seq ≡ seq)) }
{
    update.writer == writer && update.seq == seq
}
