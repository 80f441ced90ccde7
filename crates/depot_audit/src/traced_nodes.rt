//! The nodes of traces.
ghost use Rattle.std.specs.Prelude.{◌≡◌, ◌==◌, map};
ghost use Rattle.std.specs.List.{list_any};
ghost use Rattle.depot_model.specs.lists.Lists.{is_one_of};
ghost use Rattle.depot_audit.specs.Lookups.{nodes_in};

use depot_base::NodeId;
use depot_traces::Trace;

/// Whether one of the traces is this node's.
pub fn has_node(traces: &[&Trace], node: NodeId) -> bool
    ensures { result ≡ is_one_of node (nodes_in (map (λ t. t.now) traces.now)) }
{
    is_of_one(traces, node)
}

/// Whether the node is that of one of the traces.
fn is_of_one(traces: &[&Trace], node: NodeId) -> bool
    ensures { result ≡ list_any (λ t. t.now.node == node) traces.now }
{
    traces.iter().any(|trace| trace.node == node)
}
