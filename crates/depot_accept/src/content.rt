//! The checks of an update's content: its parents, its clock and its history.
//!
//! Each parent is looked up once, in one call of `Past::find`. The checks then go over the items found, the prev's
//! before the entries'. Only the history is hashed, and only where all checks before it hold.
ghost use Rattle.std.specs.Prelude.{◌≡◌, ◌<◌, ◌≤◌, ◌+◌, ◌++◌, [], length, map, Ok, None, Some, IfOk};
ghost use Rattle.std.specs.List.{AllByRecursion};
ghost use Rattle.std.specs.Option.{option_copied, option_to_list};
ghost use Rattle.depot_base.specs.declared.limits.TheConstants.{MOST_ENTRIES};
ghost use Rattle.depot_model.specs.lists.Lists.{first};
ghost use Rattle.depot_model.specs.updates.Order.{prevs, parents as parents_of};
ghost use Rattle.depot_model.specs.journals.Journal.{named, prev_of};
ghost use Rattle.depot_model.specs.lists.Items.{place_of_id, updates_at, places_of, AreItemsOf};
ghost use Rattle.depot_model.specs.checks.Checks.{sight, lost, missing, wrong_prev, wrong_entry, wrong_entries, wrong_dep, behind, clock_low, greatest_of, clock_far, bad_history};
ghost use Rattle.depot_graph.specs.UpdateRows.{IsJoinedRow};
ghost use Rattle.depot_accept.specs.Content.{checks_of_parents, IsContentOf};

use crate::answer::Parents;
use depot_base::limits::MOST_AHEAD;
use depot_base::{Check, Dep, Hash32, Memory, Update};
use depot_graph::{Graph, history_of_row};
use depot_model::Past;
use std::alloc::Global;

/// The result of the checks of an update's content.
#[derive(Drop)]
pub(crate) enum Content {
    /// The first of them that fails.
    Failed(Check),
    /// None of them fails, and these are the parents.
    Passed(Parents),
}

/// Looks a parent up, and appends its item to these. The check that the parent is accepted.
fn find_parent<P: Past>(
    past: &P,
    id: &Hash32,
    items: &mut Vec<u32>,
) -> Result<Option<Check>, Memory>
    ensures first { IfOk result (λ failed. failed ≡ lost id.now (named (P.updates past.now) id.now)) }
    ensures items { result ≡ Ok None → items.new.items ≡ items.old.items ++ option_to_list (place_of_id id.now (P.updates past.now)) }
{
    let Some(item) = past.find(id) else {
        return Ok(Some(Check::Missing(*id)));
    };
    items.push(item)?;
    Ok(None)
}

/// Looks the prev up, if one is named, and appends its item to these.
fn find_prev<P: Past>(
    past: &P,
    update: &Update,
    items: &mut Vec<u32>,
) -> Result<Option<Check>, Memory>
    ensures first { IfOk result (λ failed. failed ≡ first (map (λ h. lost h (named (P.updates past.now) h)) (prevs update.now))) }
    ensures items { result ≡ Ok None → items.new.items ≡ items.old.items ++ places_of (P.updates past.now) (prevs update.now) }
{
    if update.prev.is_zeros() {
        return Ok(None);
    }
    find_parent(past, &update.prev, items)
}

/// Looks the entries up, until one isn't accepted, and appends their items to these.
fn find_entries<P: Past>(
    past: &P,
    deps: &[Dep],
    items: &mut Vec<u32>,
) -> Result<Option<Check>, Memory>
    ensures first { IfOk result (λ failed. failed ≡ first (map (λ h. lost h (named (P.updates past.now) h)) (map (λ d. d.id) deps.now))) }
    ensures items { result ≡ Ok None → items.new.items ≡ items.old.items ++ places_of (P.updates past.now) (map (λ d. d.id) deps.now) }
{
    for dep in deps {
        if let Some(check) = find_parent(past, &dep.id, items)? {
            return Ok(Some(check));
        }
    }
    Ok(None)
}

/// Looks up each parent of an update, the prev before the entries, and puts their items into an empty list. The check
/// that each is accepted.
fn find_parents<P: Past>(
    past: &P,
    update: &Update,
    items: &mut Vec<u32>,
) -> Result<Option<Check>, Memory>
    requires { items.old.items ≡ [] }
    ensures first { IfOk result (λ failed. failed ≡ missing update.now (sight (P.updates past.now) update.now)) }
    ensures places { result ≡ Ok None → AreItemsOf (P.updates past.now) (parents_of update.now) items.new.items }
{
    if let Some(check) = find_prev(past, update, items)? {
        return Ok(Some(check));
    }
    find_entries(past, update.deps.as_slice(), items)
}

/// The prev of an update whose parents have these items, if one is named.
fn prev_of<'p, P: Past>(past: &'p P, update: &Update, items: &[u32]) -> Option<&'p Update>
    requires { AreItemsOf (P.updates past.now) (parents_of update.now) items.now }
    ensures { option_copied result ≡ prev_of (P.updates past.now) update.now.prev }
{
    if update.prev.is_zeros() {
        return None;
    }
    Some(past.update(items[0]))
}

/// The check that the prev is the same writer's.
fn wrong_prev(update: &Update, prev: Option<&Update>) -> Option<Check>
    ensures { result ≡ wrong_prev update.now (option_copied prev.entry) }
{
    match prev {
        Some(prev) if prev.writer != update.writer => Some(Check::WrongDep(0)),
        _ => None,
    }
}

/// The check that the entry of this place, from 1, has the writer and the clock of the update that it names.
fn wrong_entry(place: u32, dep: &Dep, parent: &Update) -> Option<Check>
    ensures { result ≡ wrong_entry place dep.now (Some parent.now) }
{
    if parent.writer != dep.writer || parent.clock != dep.clock {
        return Some(Check::WrongDep(place));
    }
    None
}

/// The check that each entry has the writer and the clock of the update that it names, for the first entry that hasn't.
/// These are the entries' items.
fn wrong_entries<P: Past>(past: &P, deps: &[Dep], items: &[u32]) -> Option<Check>
    requires few { length deps.now < u32.MAX }
    requires places { AreItemsOf (P.updates past.now) (map (λ d. d.id) deps.now) items.now }
    ensures { result ≡ first (wrong_entries 1 (map (λ d. (d, named (P.updates past.now) d.id)) deps.now)) }
{
    for (place, dep) in deps.iter().enumerate() {
        if let Some(check) = wrong_entry(place as u32 + 1, dep, past.update(items[place])) {
            return Some(check);
        }
    }
    None
}

/// The check that the prev is the same writer's, and that each entry has the writer and the clock of the update that it
/// names.
fn wrong_dep<P: Past>(past: &P, update: &Update, items: &[u32]) -> Option<Check>
    requires few { length update.now.deps < u32.MAX }
    requires places { AreItemsOf (P.updates past.now) (parents_of update.now) items.now }
    ensures { result ≡ wrong_dep update.now (sight (P.updates past.now) update.now) }
{
    match wrong_prev(update, prev_of(past, update, items)) {
        Some(check) => Some(check),
        None => {
            let deps = update.deps.as_slice();
            wrong_entries(past, deps, &items[items.len() - deps.len()..])
        }
    }
}

/// The check that seq and clock are greater than those of this prev.
fn behind(update: &Update, prev: Option<&Update>) -> Option<Check>
    ensures { result ≡ behind update.now (option_copied prev.entry) }
{
    match prev {
        Some(prev) if update.seq <= prev.seq || update.clock <= prev.clock => {
            Some(Check::Backward(update.prev))
        }
        _ => None,
    }
}

/// The check that the clock is above that of each parent: the prev, and then the entries.
fn clock_low<P: Past>(past: &P, update: &Update, items: &[u32]) -> Option<Check>
    requires { AreItemsOf (P.updates past.now) (parents_of update.now) items.now }
    ensures { result ≡ clock_low update.now (sight (P.updates past.now) update.now) }
{
    for item in items {
        if update.clock <= past.update(*item).clock {
            return Some(Check::ClockLow(*past.id(*item)));
        }
    }
    None
}

/// The greatest clock of these items, 0 where there is none.
fn greatest_clock<P: Past>(past: &P, items: &[u32]) -> u64
    requires { AllByRecursion (λ item. item < length (P.updates past.now)) items.now }
    ensures { result ≡ greatest_of (map (λ t. Some t) (updates_at (P.updates past.now) items.now)) }
{
    let mut greatest = 0;
    for item in items {
        greatest = greatest.max(past.update(*item).clock);
    }
    greatest
}

/// The check that the clock isn't too far above the greatest of the parents.
fn clock_far<P: Past>(past: &P, update: &Update, items: &[u32]) -> Option<Check>
    requires { AreItemsOf (P.updates past.now) (parents_of update.now) items.now }
    ensures { result ≡ clock_far update.now (sight (P.updates past.now) update.now) }
{
    let greatest = greatest_clock(past, items);
    if update.clock.saturating_sub(greatest) > MOST_AHEAD {
        return Some(Check::ClockFar(greatest));
    }
    None
}

/// The first check that fails of those of the parents and of the clock.
fn failed_by_parents<P: Past>(past: &P, update: &Update, items: &[u32]) -> Option<Check>
    requires few { length update.now.deps < u32.MAX }
    requires places { AreItemsOf (P.updates past.now) (parents_of update.now) items.now }
    ensures { result ≡ first (checks_of_parents update.now (sight (P.updates past.now) update.now)) }
{
    if let Some(check) = wrong_dep(past, update, items) {
        return Some(check);
    }
    if let Some(check) = behind(update, prev_of(past, update, items)) {
        return Some(check);
    }
    if let Some(check) = clock_low(past, update, items) {
        return Some(check);
    }
    clock_far(past, update, items)
}

/// The check that the history hash is that of the past.
fn bad_history(
    alloc: Global,
    graph: &Graph,
    update: &Update,
    parents: &Parents,
) -> Result<Option<Check>, Memory>
    requires items { AreItemsOf (⟦<Graph as Past>⟧.updates graph.now) (parents_of update.now) parents.now.items.items }
    requires row { IsJoinedRow (⟦<Graph as Past>⟧.updates graph.now) parents.now.items.items parents.now.row.items }
    ensures { IfOk result (λ failed. failed ≡ bad_history update.now (sight (⟦<Graph as Past>⟧.updates graph.now) update.now)) }
{
    let right = history_of_row(alloc, graph, parents.row.as_slice())?;
    if update.history != right {
        return Ok(Some(Check::BadHistory {
            given: update.history,
            right,
        }));
    }
    Ok(None)
}

/// Runs the checks of an update's content against the accepted updates: the first that fails, or, where none does, its
/// parents' places. It joins the parents' rows and hashes the past only where all checks before that of the history
/// hold.
pub(crate) fn check_content(
    alloc: Global,
    graph: &Graph,
    update: &Update,
) -> Result<Content, Memory>
    requires { length update.now.deps ≤ MOST_ENTRIES }
    ensures { IfOk result (IsContentOf (⟦<Graph as Past>⟧.updates graph.now) update.now) }
{
    let mut items = Vec::new(alloc);
    if let Some(check) = find_parents(graph, update, &mut items)? {
        return Ok(Content::Failed(check));
    }
    if let Some(check) = failed_by_parents(graph, update, items.as_slice()) {
        return Ok(Content::Failed(check));
    }
    let row = graph.joined_row(items.as_slice())?;
    let parents = Parents { items, row };
    match bad_history(alloc, graph, update, &parents)? {
        Some(check) => Ok(Content::Failed(check)),
        None => Ok(Content::Passed(parents)),
    }
}
