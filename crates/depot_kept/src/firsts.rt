//! The first kept statement at some places that a statement contradicts.
ghost use Rattle.std.specs.Prelude.{◌≡◌, ◌<◌, [], ◌∷◌, length};
ghost use Rattle.depot_model.specs.texts.Texts.{IsStatement, id_of_statement};
ghost use Rattle.depot_kept.specs.Entries.{AreEntries};
ghost use Rattle.depot_kept.specs.Keeping.{IsKeeping};
ghost use Rattle.depot_kept.specs.Firsts.{IsFirstOf, earlier_kept};
ghost use Rattle.depot_kept.specs.Table.{places_with_mark};

use crate::Found;
use crate::kept_statement::KeptStatement;
use crate::marks::StatementMark;
use crate::table::PlaceTable;
use depot_base::{Hash32, Statement};

/// The first of those under a mark.
pub(crate) fn first_under(
    mark: &StatementMark,
    entries: &[KeptStatement],
    table: &PlaceTable,
    statement: &Statement,
    id: &Hash32,
) -> Option<Found>
    requires keeping { IsKeeping entries.now table.now }
    requires text { IsStatement statement.now }
    requires id { id.now ≡ id_of_statement statement.now }
    ensures { IsFirstOf entries.now (places_with_mark table.now mark.now) statement.now result }
{
    let mut first = None;
    for place in table.places(mark) {
        first = earlier(first, contradiction_at(place, entries, statement, id));
    }
    first
}

/// The one at a place.
fn contradiction_at(
    place: u32,
    entries: &[KeptStatement],
    statement: &Statement,
    id: &Hash32,
) -> Option<Found>
    requires place { place < length entries.now }
    requires entries { AreEntries entries.now }
    requires text { IsStatement statement.now }
    requires id { id.now ≡ id_of_statement statement.now }
    ensures { IsFirstOf entries.now (place ∷ []) statement.now result }
{
    let kind = entries[place as usize].kind_with(statement, id)?;
    Some(Found { kind, index: place })
}

/// That of the two which was kept first.
pub(crate) fn earlier(a: Option<Found>, b: Option<Found>) -> Option<Found>
    ensures { result ≡ earlier_kept a b }
{
    match (a, b) {
        (None, _) => b,
        (_, None) => a,
        (Some(x), Some(y)) => { if y.index < x.index { b } else { a } }
    }
}
