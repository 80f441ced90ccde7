//! The marks of trimmed updates, and for each name the first mark that has it.
ghost use Rattle.std.specs.Prelude.{◌≡◌, IfOk, OnOk};
ghost use Rattle.std.specs.BTreeMap.{get};
ghost use Rattle.std.specs.List.{list_any};
ghost use Rattle.std.specs.Option.{option_or};
ghost use Rattle.std.specs.Str.{bytes_eq};
ghost use Rattle.depot_model.specs.lists.Lists.{when};
ghost use Rattle.depot_trim.specs.declared.marks.Name.{Name};
ghost use Rattle.depot_trim.specs.MarkedNames.{name_cmp, same_name, has_name, first_place, AreFirsts};

use crate::marks::{Name, UpdateMark};
use depot_base::{Hash32, Memory};
use std::alloc::Global;
use std::collections::BTreeMap;

pub(crate) type Firsts = BTreeMap<Name, usize>;

/// The marks of trimmed updates, in the order of the journal. Strangers pick the names in them, so none is hashed: a
/// look-up takes logarithmic time, whatever they are.
#[derive(Drop)]
pub struct Marks {
    pub(crate) list: Vec<UpdateMark>,
    // Of each name the place of the first mark that has it.
    firsts: Firsts,
    ghost told: { AreFirsts list.items firsts },
}

impl Marks {
    /// The marks of a list.
    pub(crate) fn new(alloc: Global, list: Vec<UpdateMark>) -> Result<Marks, Memory>
        ensures { IfOk result (λ marks. marks.list.items ≡ list.items) }
    {
        let firsts = firsts_of(alloc, list.as_slice())?;
        Ok(Marks { list, firsts })
    }

    /// Whether a mark has this id. It takes no memory.
    pub(crate) fn has(&self, id: &Hash32) -> bool
        ensures { result ≡ list_any (λ m. bytes_eq m.id id.now) self.now.list.items }
    {
        self.firsts.contains_key(&Name::Id(*id))
    }

    /// The place of the first mark that has a name. It takes no memory.
    pub(crate) fn first_with(&self, name: Name) -> Option<usize>
        ensures { result ≡ first_place (λ m. has_name m name) self.now.list.items }
    {
        self.firsts.get(&name).copied()
    }
}

/// For each name the place of the first of these marks that has it.
fn firsts_of(alloc: Global, marks: &[UpdateMark]) -> Result<Firsts, Memory>
    ensures { IfOk result (λ firsts. AreFirsts marks.now firsts) }
{
    let mut firsts = BTreeMap::new(alloc);
    for (place, mark) in marks.iter().enumerate() {
        add_names(&mut firsts, mark, place)?;
    }
    Ok(firsts)
}

/// Puts a place under each name of a mark that has none.
fn add_names(firsts: &mut Firsts, mark: &UpdateMark, place: usize) -> Result<(), Memory>
    ensures { OnOk result ((name : Name) → get name_cmp firsts.new name ≡ option_or (get name_cmp firsts.old name) (when (has_name mark.now name) place)) }
{
    add_name(firsts, Name::Number(mark.writer, mark.seq), place)?;
    add_name(firsts, Name::Prev(mark.writer, mark.prev), place)?;
    add_name(firsts, Name::Id(mark.id), place)
}

/// Puts a place under a name that has none.
fn add_name(firsts: &mut Firsts, name: Name, place: usize) -> Result<(), Memory>
    ensures { OnOk result ((asked : Name) → get name_cmp firsts.new asked ≡ option_or (get name_cmp firsts.old asked) (when (same_name asked name) place)) }
{
    if firsts.contains_key(&name) {
        return Ok(());
    }
    firsts.insert(name, place)?;
    Ok(())
}
