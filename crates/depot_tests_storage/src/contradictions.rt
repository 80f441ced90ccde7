use depot_base::{Bytes, Hash32, Ids, NodeId, Signed, Statement, Voucher};
use depot_kept::*;
use std::alloc::Global;
use std::process::Abort;
use std::test::Fail;

/// A voucher of node 7 for no ids, with no body and no signature.
fn empty_voucher(alloc: Global) -> Result<Signed, Fail> {
    let voucher = Voucher {
        node: NodeId::new(7).ok_or("a node")?,
        seq: 0,
        ids: Ids::new(alloc),
    };
    Ok(Signed {
        statement: Statement::Voucher(voucher),
        body: Bytes::new(alloc),
        signature: Bytes::new(alloc),
    })
}

/// Finds room for a statement among those that were seen, of which there are none.
fn reserve_and_find(
    rt: &impl Abort,
    seen: &mut SeenStatements,
    signed: &Signed,
) -> Result<(), Fail> {
    seen.reserve(signed)?;
    assert!(rt; seen.find(&Hash32::zeros()).is_none());
    Ok(())
}

// A signed statement that may be kept has the text of its statement as its body, as only a decoder gives it, and the
// decoders are in crates above. So `add`, and the look-ups among what was added, are tested there.
#[test]
fn nothing_is_found_where_nothing_is_kept(rt: HostRuntime) -> Result<(), Fail> {
    let signed = empty_voucher(rt.alloc())?;
    let mut seen = SeenStatements::new(rt.alloc());
    reserve_and_find(&rt, &mut seen, &signed)
}
