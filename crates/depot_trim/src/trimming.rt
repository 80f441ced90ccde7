//! A reader is made of a node.
ghost use Rattle.std.specs.Prelude.{◌≡◌, List, false, IfOk};
ghost use Rattle.depot_base.specs.declared.record.Record.{Record};
ghost use Rattle.depot_model.specs.checks.Checks.{Setting};
ghost use Rattle.depot_model.specs.journals.Journal.{accepted};
ghost use Rattle.depot_model.specs.journals.Lawful.{IsLawful};
ghost use Rattle.depot_model.specs.readers.Readers.{reader_of};
ghost use Rattle.depot_trim.specs.ReaderAnswers.{Trims};
ghost use Rattle.depot_trim.specs.ReaderView.{IsReaderOf};
ghost use Rattle.depot_trim.specs.Trimmings.{TellTrimmed, ids_in, as_untrimmed};

use crate::below::{graph_below, trimmed_items};
use crate::filling::state_without;
use crate::keeping::{names_left, values_left};
use crate::marked_names::Marks;
use crate::marking::marks_of;
use crate::opening::{OpenError, opened};
use crate::trim_error::TrimError;
use crate::trimmed::Trimmed;
use crate::unsigned::first_unsigned;
use depot_base::Memory;
use depot_graph::Graph;
use depot_model::{HelloLeaf, NodeState, Past, Scheme};
use depot_queries::LocalNode;
use depot_sign::Roster;
use std::alloc::Global;

/// Makes a reader of a running node, if every node of the roster signed the checkpoint of this text. The roster is the
/// node's; the reader keeps it and the scheme. `IllFormed` is returned exactly when the text is no checkpoint's, with
/// the offset of its first fault; else `OtherRoster` exactly when it is of another roster than the node's; else
/// `Unknown` exactly when a leaf isn't an accepted update of its writer, with the first such id; else `Unsigned`
/// exactly when a node of the roster has no accepted update that puts the text under its key and has all listed ids in
/// its past, with the first such node.
pub fn trim<S: Scheme, N: LocalNode<Of = S>>(
    alloc: Global,
    node: &N,
    roster: Roster,
    scheme: S,
    text: &[u8],
) -> Result<Trimmed<S>, TrimError>
    requires runs { N.stopped node.now ≡ false }
    requires roster { roster ≡ (N.stands node.now).listed }
    ensures { Trims S.verifies (N.stands node.now) (N.records node.now) text.now result }
{
    let checkpoint = match opened(alloc, node, node.graph(), text) {
        Ok(checkpoint) => checkpoint,
        Err(refusal) => return Err(as_untrimmed(refusal)),
    };
    let leaves = checkpoint.leaves.as_slice();
    match first_unsigned(alloc, node.graph(), roster.entries(), text, leaves)? {
        Some(unsigned) => Err(TrimError::Unsigned(unsigned)),
        None => Ok(reader_of(alloc, node, roster, scheme, leaves)?),
    }
}

/// Why a text isn't opened, as the refusal to trim by it.
fn as_untrimmed(refusal: OpenError) -> TrimError
    ensures { result ≡ as_untrimmed refusal }
{
    match refusal {
        OpenError::Memory => TrimError::Memory,
        OpenError::IllFormed(at) => TrimError::IllFormed(at),
        OpenError::OtherRoster { given, mine } => TrimError::OtherRoster { given, mine },
        OpenError::Unknown(id) => TrimError::Unknown(id),
    }
}

/// The reader of a node that runs below these leaves.
fn reader_of<S: Scheme, N: LocalNode<Of = S>>(
    alloc: Global,
    node: &N,
    roster: Roster,
    scheme: S,
    leaves: &[HelloLeaf],
) -> Result<Trimmed<S>, Memory>
    requires runs { N.stopped node.now ≡ false }
    requires roster { roster ≡ (N.stands node.now).listed }
    ensures { IfOk result (IsReaderOf S.verifies (reader_of (N.stands node.now) (N.records node.now) (ids_in leaves.now))) }
{
    let graph = node.graph();
    let trimmed = trimmed_below(alloc, graph, leaves)?;
    let trimmed = trimmed.as_slice();
    // The state comes last, so that no built state is dropped on `Memory`.
    Ok(Trimmed {
        alloc,
        values: values_left(alloc, node, trimmed)?,
        named: names_left(alloc, graph, trimmed)?,
        counts: node.counts(),
        marks: Marks::new(alloc, marks_of(alloc, graph, trimmed)?)?,
        state: state_without(alloc, node, graph, trimmed, roster, scheme)?,
    })
}

/// Of each item of a graph, whether it is trimmed below these leaves.
fn trimmed_below(alloc: Global, graph: &Graph, leaves: &[HelloLeaf]) -> Result<Vec<bool>, Memory>
    requires { (here : Setting) × ((J : List Record) × (IsLawful here J × (accepted J ≡ ⟦<Graph as Past>⟧.updates graph.now))) }
    ensures { IfOk result (λ flags. TellTrimmed (⟦<Graph as Past>⟧.updates graph.now) (ids_in leaves.now) flags.items) }
{
    let below = graph_below(alloc, graph, leaves)?;
    trimmed_items(alloc, graph, &below)
}
