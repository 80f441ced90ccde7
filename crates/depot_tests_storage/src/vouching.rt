//! Ids that are vouched for, and nodes that are convicted.

use depot_base::{Hash32, Ids, Memory, NodeId};
use depot_kept::*;
use std::alloc::Global;
use std::test::Fail;

/// Ids that each repeat a byte.
fn ids(alloc: Global, bytes: &[u8]) -> Result<Ids, Memory> {
    let mut ids = Ids::new(alloc);
    put_ids(&mut ids, bytes)?;
    Ok(ids)
}

/// Adds ids that each repeat a byte.
fn put_ids(ids: &mut Ids, bytes: &[u8]) -> Result<(), Memory> {
    for byte in bytes {
        ids.push(Hash32::new([*byte; 32]))?;
    }
    Ok(())
}

/// Vouches for the ids of these bytes.
fn vouch(alloc: Global, vouched: &mut Vouched, bytes: &[u8]) -> Result<(), Memory> {
    let ids = ids(alloc, bytes)?;
    vouched.add(&ids)
}

/// Whether the ids of 1, 3 and 4 are vouched for, and that of 2 isn't.
fn are_vouched(alloc: Global, vouched: &mut Vouched) -> Result<bool, Memory> {
    vouch(alloc, vouched, &[1, 3])?;
    vouch(alloc, vouched, &[3, 4])?;
    Ok(
        vouched.is_vouched(&Hash32::new([1; 32]))
            && !vouched.is_vouched(&Hash32::new([2; 32]))
            && vouched.is_vouched(&Hash32::new([3; 32]))
            && vouched.is_vouched(&Hash32::new([4; 32])),
    )
}

#[test]
fn an_id_stays_vouched_and_a_node_convicted(rt: HostRuntime) -> Result<(), Fail> {
    let node = NodeId::new(7).ok_or("a node")?;
    let other = NodeId::new(8).ok_or("a node")?;
    let mut vouched = Vouched::new(rt.alloc(), 256)?;
    assert!(rt; !vouched.is_convicted(node));
    vouched.convict(node);
    vouched.convict(node);
    assert!(rt; vouched.is_convicted(node));
    assert!(rt; !vouched.is_convicted(other));
    assert!(rt; are_vouched(rt.alloc(), &mut vouched)?);
    Ok(())
}

/// Whether ids are kept, and aren't there while only room was found for them.
fn are_kept(vouched: &mut VouchedIds, some: &Ids) -> Result<bool, Memory> {
    vouched.reserve(some)?;
    let is_absent = !vouched.contains(&Hash32::new([2; 32]));
    vouched.add(some)?;
    Ok(
        is_absent
            && vouched.contains(&Hash32::new([2; 32]))
            && !vouched.contains(&Hash32::new([4; 32]))
            && vouched.contains(&Hash32::new([5; 32])),
    )
}

#[test]
fn ids_are_kept(rt: HostRuntime) -> Result<(), Fail> {
    let some = ids(rt.alloc(), &[2, 5])?;
    let mut vouched = VouchedIds::new(rt.alloc());
    assert!(rt; are_kept(&mut vouched, &some)?);
    Ok(())
}
