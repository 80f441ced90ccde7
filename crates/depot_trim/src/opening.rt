//! A checkpoint's text is opened by a node.
ghost use Rattle.std.specs.Prelude.{◌≡◌, not};
ghost use Rattle.depot_model.specs.journals.Journal.{accepted};
ghost use Rattle.depot_model.specs.readers.Opening.{is_update_of, unknown_leaf};
ghost use Rattle.depot_trim.specs.Opens.{Opens, IsCheckpointRead};

use crate::checkpoint_text::{Checkpoint, decode_checkpoint};
use depot_base::{DecodeError, Hash32};
use depot_graph::Graph;
use depot_model::{HelloLeaf, Past, Replica};
use std::alloc::Global;

/// Why a text isn't opened.
#[derive(Clone, Copy, Debug, PartialEq, Eq)]
pub enum OpenError {
    /// No memory was found.
    Memory,
    /// It is no checkpoint's: its first fault is at this offset in bytes.
    IllFormed(u32),
    /// The checkpoint is of another roster.
    OtherRoster {
        /// SHA-256 of the checkpoint's roster.
        given: Hash32,
        /// SHA-256 of the node's.
        mine: Hash32,
    },
    /// The first leaf that isn't an accepted update of its writer, by its id.
    Unknown(Hash32),
}

/// Opens the text of a checkpoint of the node's roster whose leaves are all accepted. The graph is the node's.
pub(crate) fn opened<R: Replica>(
    alloc: Global,
    node: &R,
    graph: &Graph,
    text: &[u8],
) -> Result<Checkpoint, OpenError>
    requires graph { ⟦<Graph as Past>⟧.updates graph.now ≡ accepted (R.records node.now) }
    ensures { Opens (R.stands node.now) (R.records node.now) text.now result }
{
    let checkpoint = read(alloc, text)?;
    let given = checkpoint.roster;
    let mine = *node.roster_hash();
    if given != mine {
        return Err(OpenError::OtherRoster { given, mine });
    }
    if let Some(id) = first_unknown(graph, checkpoint.leaves.as_slice()) {
        return Err(OpenError::Unknown(id));
    }
    Ok(checkpoint)
}

/// The checkpoint of a text.
fn read(alloc: Global, text: &[u8]) -> Result<Checkpoint, OpenError>
    ensures { IsCheckpointRead text.now result }
{
    match decode_checkpoint(alloc, text) {
        Ok(checkpoint) => Ok(checkpoint),
        Err(DecodeError::Memory) => Err(OpenError::Memory),
        Err(DecodeError::IllFormed(at)) => Err(OpenError::IllFormed(at)),
    }
}

/// The first of these leaves that isn't an update of its writer in the graph, by its id.
#[tactic(auto, unfolding(depot_model::specs::readers::Opening::unknown_leaf))]
fn first_unknown(graph: &Graph, leaves: &[HelloLeaf]) -> Option<Hash32>
    ensures { result ≡ unknown_leaf (⟦<Graph as Past>⟧.updates graph.now) leaves.now }
{
    match leaves.iter().find(|leaf| is_unknown(graph, *leaf)) {
        Some(leaf) => Some(leaf.id),
        None => None,
    }
}

/// Whether the graph has no update of this leaf's writer with its id.
fn is_unknown(graph: &Graph, leaf: &HelloLeaf) -> bool
    ensures { result ≡ not (is_update_of (⟦<Graph as Past>⟧.updates graph.now) leaf.now) }
{
    match graph.find(&leaf.id) {
        Some(item) => graph.update(item).writer != leaf.writer,
        None => true,
    }
}
