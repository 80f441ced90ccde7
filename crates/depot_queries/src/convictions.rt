//! The nodes that a node has convicted.
ghost use Rattle.std.specs.Prelude.{◌≡◌, IfOk};
ghost use Rattle.depot_model.specs.exchange.Hello.{convicted_nodes};
ghost use Rattle.depot_readings.specs.ReadingsView.{standing};

use depot_base::{Memory, Nodes};
use depot_model::Scheme;
use depot_readings::Readings;
use std::alloc::Global;

/// The convicted nodes, in rising order.
pub fn convicted<S: Scheme>(alloc: Global, readings: &Readings<S>) -> Result<Nodes, Memory>
    ensures { IfOk result (λ nodes. nodes ≡ convicted_nodes (standing S.verifies readings.now) readings.now.records) }
{
    let state = readings.state();
    let mut nodes = Nodes::new(alloc);
    for entry in state.roster().entries() {
        if state.is_convicted(entry.node) {
            nodes.push(entry.node)?;
        }
    }
    Ok(nodes)
}
