//! Which writes of a key are the latest.
ghost use Rattle.std.specs.Prelude.{◌≡◌, ◌&&◌, [], not, reverse, IfOk, OnOk};
ghost use Rattle.depot_model.specs.updates.Order.{IsCausal, AreLatestIn};
ghost use Rattle.depot_scan.specs.Bodies.{updates};
ghost use Rattle.depot_scan.specs.Ids.{is_id_covered, IsUncovered};
ghost use Rattle.depot_model.specs.texts.Contents.{writes as writes_key};
ghost use Rattle.depot_scan.specs.Covered.{Covers, uncovered};

use crate::body::Body;
use crate::log_ids::LogIds;
use depot_base::Memory;
use std::alloc::Global;

/// Covers the parents of a body that writes the key or is itself covered. Returns whether the body is a latest write.
fn visit(ids: &mut LogIds, key: &[u8], body: &Body) -> Result<bool, Memory>
    ensures latest { IfOk result (λ latest. latest ≡ (writes_key key.now body.now.update && not (is_id_covered ids.old body.now.id))) }
    ensures covers { OnOk result (Covers key.now body.now.update (is_id_covered ids.old) (is_id_covered ids.new)) }
{
    let writes = body.writes(key);
    let is_covered = ids.is_covered(&body.id);
    if writes || is_covered {
        ids.cover_parents(&body.update)?;
    }
    Ok(writes && !is_covered)
}

/// The bodies that write the key and that no later one covers, the newest first.
fn uncovered(
    alloc: Global,
    key: &[u8],
    mut bodies: Vec<Body>,
    ids: &mut LogIds,
) -> Result<Vec<Body>, Memory>
    requires { IsUncovered ids.old }
    ensures { IfOk result (λ v. updates v.items ≡ reverse (uncovered key.now (updates bodies.items))) }
{
    let mut found = Vec::new(alloc);
    while let Some(body) = bodies.pop() {
        if !visit(ids, key, &body)? {
            continue;
        }
        found.push(body)?;
    }
    Ok(found)
}

/// The latest writes of the key, in rising order of clock, writer, seq and id, by one walk from the newest body to the
/// oldest. At the start nothing in the table is covered.
pub fn latest(
    alloc: Global,
    key: &[u8],
    bodies: Vec<Body>,
    ids: &mut LogIds,
) -> Result<Vec<Body>, Memory>
    requires causal { IsCausal [] (updates bodies.items) }
    requires uncovered { IsUncovered ids.old }
    ensures { IfOk result (λ v. AreLatestIn key.now (updates bodies.items) (updates v.items)) }
{
    let mut found = uncovered(alloc, key, bodies, ids)?;
    found.sort_unstable_by(|first, second| first.compare(second));
    Ok(found)
}
