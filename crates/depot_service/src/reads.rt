//! What is printed of a read.
ghost use Rattle.std.specs.Prelude.{◌≡◌, ◌++◌, List, false, OnOk, IfOk, option_copied};
ghost use Rattle.depot_base.specs.declared.record.Record.{Record};
ghost use Rattle.depot_model.specs.journals.Journal.{seen_under};
ghost use Rattle.depot_answers.specs.AnswerTexts.{spaced, text_of_write};
ghost use Rattle.depot_answers.specs.Sightings.{sighting_of_seen};
ghost use Rattle.depot_queries.specs.ShownValues.{value_seen};
ghost use Rattle.depot_model.specs.journals.ShownWrites.{shown_of};
ghost use Rattle.depot_service.specs.Printing.{shown_text, shown_value};

use depot_answers::{Seen, write};
use depot_base::{Bytes, Key, Memory, Update, Wrote};
use depot_model::Past;
use depot_queries::LocalNode;
use std::alloc::Global;

/// What a read shows of an update's write of a key, given the held value, if any.
pub fn seen<'a>(update: &Update, key: &Key, value: Option<&'a [u8]>) -> Seen<'a>
    ensures { (J : List Record) → option_copied value.entry ≡ value_seen (seen_under J key.now update.now) → sighting_of_seen result ≡ seen_under J key.now update.now }
{
    match update.wrote(key.bytes()) {
        Some(Wrote::Put { .. }) => held(value),
        Some(Wrote::Gone) => Seen::Gone,
        None => Seen::NotHeld,
    }
}

/// A held value, or that none is held.
pub(crate) fn held(value: Option<&[u8]>) -> Seen<'_>
    ensures { sighting_of_seen result ≡ shown_value (option_copied value.entry) }
{
    match value {
        Some(value) => Seen::Held(value),
        None => Seen::NotHeld,
    }
}

/// Adds a write that a read shows, after a space.
#[tactic(auto, using(depot_base::proofs::Writing::texts))]
pub(crate) fn add_write(
    alloc: Global,
    line: &mut Bytes,
    update: &Update,
    seen: Seen<'_>,
) -> Result<(), Memory>
    ensures { OnOk result (line.new ≡ line.old ++ spaced (text_of_write (record { update = update.now; seen = sighting_of_seen seen.entry }))) }
{
    line.push_all(b" ")?;
    write(alloc, line, update, seen)
}

/// The words of a read: the latest writes of a key, each preceded by a space.
pub fn shown_words<N: LocalNode>(alloc: Global, node: &N, key: &Key) -> Result<Bytes, Memory>
    requires { N.stopped node.now ≡ false }
    ensures { IfOk result (λ words. words ≡ shown_text (shown_of (N.records node.now) key.now)) }
{
    let graph = node.graph();
    let mut words = Bytes::new(alloc);
    for item in graph.latest(key) {
        let update = graph.update(*item);
        let shown = seen(update, key, node.value_of(*item, key));
        add_write(alloc, &mut words, update, shown)?;
    }
    Ok(words)
}
