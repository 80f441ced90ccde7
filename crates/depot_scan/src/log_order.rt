//! What a log may lack and repeat: parents, and bodies.
ghost use Rattle.std.specs.Prelude.{IfOk, OnOk};
ghost use Rattle.depot_scan.specs.Bodies.{updates};
ghost use Rattle.depot_scan.specs.Ids.{IsBlank, IsUncovered};
ghost use Rattle.depot_scan.specs.Ordering.{OrdersTo};

use crate::body::Body;
use crate::log_ids::LogIds;
use depot_base::Memory;
use std::alloc::Global;

/// The outcome of the order of a log.
#[derive(Debug, Drop)]
pub enum Ordered {
    /// Each parent precedes its child. The bodies without those whose id occurs earlier.
    InOrder(Vec<Body>),
    /// The place, from 0, of the first body with a parent that doesn't precede it.
    Orphan(usize),
}

/// Goes through a log, and fills a blank table with its ids.
pub fn in_order(alloc: Global, ids: &mut LogIds, bodies: Vec<Body>) -> Result<Ordered, Memory>
    requires { IsBlank ids.old }
    ensures order { IfOk result (OrdersTo (updates bodies.items)) }
    ensures uncovered { OnOk result (IsUncovered ids.new) }
{
    let mut kept = Vec::with_capacity(alloc, bodies.len())?;
    let mut place = 0;
    for body in bodies {
        if !ids.has_parents(&body.update) {
            return Ok(Ordered::Orphan(place));
        }
        place += 1;
        if !ids.insert(body.id)? {
            continue;
        }
        kept.push(body)?;
    }
    Ok(Ordered::InOrder(kept))
}
