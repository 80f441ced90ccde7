//! Whether a statement names an update that was trimmed.
ghost use Rattle.std.specs.Prelude.{◌≡◌, ◌&&◌, ◌||◌, ◌==◌, List, map, find, option_map, option_and_then, slice_get};
ghost use Rattle.std.specs.Str.{bytes_eq};
ghost use Rattle.depot_base.specs.declared.update.Update.{Update};
ghost use Rattle.depot_model.specs.lists.Lists.{is_among};
ghost use Rattle.depot_model.specs.updates.Order.{prevs, parents};
ghost use Rattle.depot_model.specs.texts.Texts.{id_of_update};
ghost use Rattle.depot_model.specs.readers.Trimming.{names};
ghost use Rattle.depot_trim.specs.MarkedNames.{first_place, earlier_of};
ghost use Rattle.depot_trim.specs.ReaderView.{mark_of};
ghost use Rattle.depot_trim.specs.Naming.{names_mark};

use crate::marked_names::Marks;
use crate::marks::{Name, UpdateMark};
use depot_base::{Dep, Hash32, Statement, Update};

/// The id of the first of these updates that a statement names: as a parent, or as one of its own writer with the same
/// seq or the same prev, be it 32 zero bytes. It takes no memory, and looks up one name for each parent and two more.
pub(crate) fn first_named(marks: &Marks, statement: &Statement) -> Option<Hash32>
    ensures { (ts : List Update) → marks.now.list.items ≡ map mark_of ts → result ≡ option_map id_of_update (find (names statement.now) ts) }
{
    id_at(marks.list.as_slice(), first_mark(marks, statement))
}

/// The id of the mark at a place.
fn id_at(marks: &[UpdateMark], place: Option<usize>) -> Option<Hash32>
    ensures { result ≡ option_map (λ m. m.id) (option_and_then (λ n. slice_get marks.now n) place) }
{
    match place {
        None => None,
        Some(place) => match marks.get(place) {
            None => None,
            Some(mark) => Some(mark.id),
        },
    }
}

/// The place of the first mark that a statement names.
fn first_mark(marks: &Marks, statement: &Statement) -> Option<usize>
    ensures { result ≡ first_place (names_mark statement.now) marks.now.list.items }
{
    match statement {
        Statement::Update(update) => {
            earlier(
                first_of_parents(marks, update),
                first_of_numbers(marks, update),
            )
        }
        Statement::Voucher(voucher) => marks.first_with(Name::Number(voucher.node, voucher.seq)),
    }
}

/// The place of the first mark with an update's writer and its seq or its prev.
fn first_of_numbers(marks: &Marks, update: &Update) -> Option<usize>
    ensures { result ≡ first_place (λ m. (update.now.writer == m.writer) && ((update.now.seq == m.seq) || bytes_eq update.now.prev m.prev)) marks.now.list.items }
{
    earlier(
        marks.first_with(Name::Number(update.writer, update.seq)),
        marks.first_with(Name::Prev(update.writer, update.prev)),
    )
}

/// The place of the first mark of a parent of an update.
fn first_of_parents(marks: &Marks, update: &Update) -> Option<usize>
    ensures { result ≡ first_place (λ m. is_among m.id (parents update.now)) marks.now.list.items }
{
    earlier(
        first_of_prev(marks, update),
        first_of_entries(marks, update.deps.as_slice()),
    )
}

/// The place of the mark of an update's prev. A prev of 32 zero bytes names nothing.
fn first_of_prev(marks: &Marks, update: &Update) -> Option<usize>
    ensures { result ≡ first_place (λ m. is_among m.id (prevs update.now)) marks.now.list.items }
{
    if update.prev.is_zeros() {
        return None;
    }
    marks.first_with(Name::Id(update.prev))
}

/// The place of the first mark of one of these entries.
fn first_of_entries(marks: &Marks, deps: &[Dep]) -> Option<usize>
    ensures { result ≡ first_place (λ m. is_among m.id (map (λ d. d.id) deps.now)) marks.now.list.items }
{
    let mut first = None;
    for dep in deps {
        first = earlier(first, marks.first_with(Name::Id(dep.id)));
    }
    first
}

/// That of the two places which comes first.
fn earlier(a: Option<usize>, b: Option<usize>) -> Option<usize>
    ensures { result ≡ earlier_of a b }
{
    match (a, b) {
        (None, _) => b,
        (_, None) => a,
        (Some(x), Some(y)) => { if y < x { b } else { a } }
    }
}
