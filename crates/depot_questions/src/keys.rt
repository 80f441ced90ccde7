//! The keys that accepted updates write.
ghost use Rattle.std.specs.Prelude.{◌≡◌, ◌≤◌, ◌+◌, length, map, take, IfOk, OnOk};
ghost use Rattle.std.specs.Option.{option_copied};
ghost use Rattle.std.specs.List.{flat_map};
ghost use Rattle.depot_model.specs.texts.Contents.{keys_written};
ghost use Rattle.depot_model.specs.checks.Vouching.{put_rising};
ghost use Rattle.depot_questions.specs.Answers.{is_key_above, key_page, keys_above};
ghost use Rattle.depot_questions.specs.LeastKeys.{PutsKeys, least_of};
ghost use Rattle.depot_questions.specs.declared.limits.TheConstants.{MOST_KEYS_TOLD};

use crate::limits::MOST_KEYS_TOLD;
use crate::question_answer::KeyPage;
use depot_base::{Bytes, Key, Memory, Texts, Write};
use depot_graph::Graph;
use depot_model::Past;
use std::alloc::Global;
use std::collections::BTreeSet;

/// Whether a key is above another one; each is above none.
fn is_above(after: Option<&Key>, key: &[u8]) -> bool
    ensures { result ≡ is_key_above (option_copied after.entry) key.now }
{
    match after {
        None => true,
        Some(after) => after.bytes().cmp(key).is_lt(),
    }
}

/// Puts a key among the least ones, in rising order, each once: one more of them than fits on a page.
fn note<'a>(least: &mut BTreeSet<&'a [u8]>, key: &'a [u8]) -> Result<(), Memory>
    requires { length least.old.keys ≤ MOST_KEYS_TOLD + 1 }
    ensures few { OnOk result (length least.new.keys ≤ MOST_KEYS_TOLD + 1) }
    ensures put { OnOk result (map (λ k. k.now) least.new.keys ≡ take (MOST_KEYS_TOLD + 1) (put_rising key.now (map (λ k. k.now) least.old.keys))) }
{
    least.insert(key)?;
    if least.len() > MOST_KEYS_TOLD + 1 {
        let _ = least.pop_last();
    }
    Ok(())
}

/// Puts the keys of writes that are above one among the least of those after them.
fn note_each<'a>(
    least: &mut BTreeSet<&'a [u8]>,
    after: Option<&Key>,
    writes: &'a [Write],
) -> Result<(), Memory>
    requires { length least.old.keys ≤ MOST_KEYS_TOLD + 1 }
    ensures few { OnOk result (length least.new.keys ≤ MOST_KEYS_TOLD + 1) }
    ensures put { OnOk result (PutsKeys (option_copied after.entry) (map (λ w. w.key) writes.now) (map (λ k. k.now) least.old.keys) (map (λ k. k.now) least.new.keys)) }
{
    for at in (0..writes.len()).rev() {
        let key = writes[at].key.bytes();
        if is_above(after, key) {
            note(least, key)?;
        }
    }
    Ok(())
}

/// The least keys above one that updates write, one more than a page has.
fn least_keys<'a>(
    alloc: Global,
    graph: &'a Graph,
    after: Option<&Key>,
) -> Result<BTreeSet<&'a [u8]>, Memory>
    ensures { IfOk result (λ least. map (λ k. k.now) least.keys ≡ least_of (option_copied after.entry) (flat_map keys_written (⟦<Graph as Past>⟧.updates graph.now))) }
{
    let mut least = BTreeSet::new(alloc);
    for item in (0..graph.count()).rev() {
        note_each(&mut least, after, graph.update(item).writes.as_slice())?;
    }
    Ok(least)
}

/// Keys as a list, in their order.
fn listed<'a>(alloc: Global, keys: &BTreeSet<&'a [u8]>) -> Result<Vec<&'a [u8]>, Memory>
    ensures { IfOk result (λ list. list.items ≡ keys.now.keys) }
{
    Ok(keys.iter().copied().collect(alloc)?)
}

/// Copies of keys, in their order.
fn copies(alloc: Global, keys: &[&[u8]]) -> Result<Texts, Memory>
    ensures { IfOk result (λ texts. texts ≡ map (λ k. k.now) keys.now) }
{
    let mut texts = Texts::new(alloc);
    for key in keys {
        texts.push(Bytes::from_slice(alloc, *key)?)?;
    }
    Ok(texts)
}

/// The page that begins with the first of these keys.
fn page_of(alloc: Global, keys: &[&[u8]]) -> Result<KeyPage, Memory>
    ensures { IfOk result (λ page. page ≡ key_page (map (λ k. k.now) keys.now)) }
{
    let count = keys.len().min(MOST_KEYS_TOLD);
    Ok(KeyPage {
        keys: copies(alloc, &keys[..count])?,
        more: keys.len() > MOST_KEYS_TOLD,
    })
}

/// The keys above one, or from the first on, in rising order, at most `MOST_KEYS_TOLD`.
pub(crate) fn keys_above(
    alloc: Global,
    graph: &Graph,
    after: Option<&Key>,
) -> Result<KeyPage, Memory>
    ensures { IfOk result (λ page. page ≡ key_page (keys_above (⟦<Graph as Past>⟧.updates graph.now) (option_copied after.entry))) }
{
    let least = least_keys(alloc, graph, after)?;
    let list = listed(alloc, &least)?;
    page_of(alloc, list.as_slice())
}
