//! Names of values: those that accepted updates name, and those of them that aren't held.
ghost use Rattle.std.specs.Prelude.{◌≡◌, ◌<◌, ◌^◌, ◌||◌, ◌&&◌, ◌++◌, ◌⊎◌, [], ◌∷◌, not, ℕ, List, IsTrue, IsOk, IfOk, OnOk, OnErr, false, true};
ghost use Rattle.std.specs.BTreeMap.{IsUnchanged};
ghost use Rattle.depot_base.specs.declared.update.NamedValue.{NamedValue};
ghost use Rattle.depot_base.specs.declared.update.Update.{Update};
ghost use Rattle.depot_model.specs.texts.Contents.{values_named};
ghost use Rattle.depot_model.specs.journals.Journal.{accepted, is_wanted};
ghost use Rattle.depot_model.specs.lists.Lists.{IsIn};
ghost use Rattle.depot_readings.specs.Named.{PutsMark, TakesMark, has_value_mark, is_value_named, is_name, names_in, names_in_statement, values_named_in, HasRooms, AreNamed};
ghost use Rattle.depot_readings.specs.NewRecords.{records_in};

use crate::growth::Growth;
use crate::news::News;
use depot_base::{Hash32, Memory, NamedValue, Statement, Update};
use std::alloc::Global;
use std::collections::BTreeMap;

pub(crate) type ValueMarks = BTreeMap<NamedValue, bool>;

/// Sets the mark of a name, whether it has one or not. Only a name that has none takes memory.
#[tactic(auto, using(crate::proofs::NamedLaws::puts_mark))]
fn put_mark(marks: &mut ValueMarks, name: NamedValue, mark: bool) -> Result<(), Memory>
    ensures ok { OnOk result (PutsMark marks.old marks.new name mark) }
    ensures err { OnErr result (IsUnchanged marks.old marks.new) }
    ensures succeeds { IsTrue (has_value_mark marks.old name) → IsOk result }
{
    match marks.insert(name, mark) {
        Ok(_) => Ok(()),
        Err(_) => Err(Memory),
    }
}

/// Removes a mark, if there is one. It takes no memory.
#[tactic(auto, using(crate::proofs::NamedLaws::takes_out))]
fn take_mark(marks: &mut ValueMarks, name: &NamedValue)
    ensures { TakesMark marks.old marks.new name.now }
{
    let _ = marks.remove(name);
}

/// A set of names of values, by hash and length. Strangers pick these hashes, so the map is ordered: look-ups, inserts
/// and removals take logarithmic time for any hashes.
#[derive(Drop)]
pub struct NamedValues {
    // A name whose mark is false is one for which memory was reserved.
    pub(crate) marks: ValueMarks,
    pub(crate) alloc: Global,
}

impl NamedValues {
    ghost use Rattle.depot_readings.specs.Named.{has_named_value, has_room};

    /// No values: those that no updates name. It takes no memory.
    #[tactic(auto, using(crate::proofs::NamedLaws::named_laws), unfolding(crate::specs::Named::has_named_value, crate::specs::Named::has_room))]
    pub fn new(alloc: Global) -> NamedValues
        ensures none { (hash : List ℕ) (size : ℕ) → has_named_value result hash size ≡ false }
        ensures named { AreNamed [] result }
    {
        NamedValues {
            marks: BTreeMap::new(alloc),
            alloc,
        }
    }

    /// Whether a value of this hash and this length is named. It takes no memory.
    #[tactic(auto, using(crate::proofs::NamedLaws::named_laws), unfolding(crate::specs::Named::has_named_value, crate::specs::Named::has_room))]
    pub fn names(&self, hash: &Hash32, size: u32) -> bool
        ensures named { result ≡ has_named_value self.now hash.now size }
        ensures wanted { (us : List Update) → AreNamed us self.now → result ≡ is_wanted us hash.now size }
    {
        let name = NamedValue { hash: *hash, size };
        match self.marks.get(&name) {
            Some(mark) => *mark,
            None => false,
        }
    }

    /// Reserves memory for a name. On `Memory` all is unchanged.
    #[tactic(auto, using(crate::proofs::NamedLaws::named_laws), unfolding(crate::specs::Named::has_named_value, crate::specs::Named::has_room))]
    pub(crate) fn reserve_one(&mut self, name: NamedValue) -> Result<(), Memory>
        ensures room { OnOk result (has_room self.new name ≡ true) }
        ensures rooms { (other : NamedValue) → has_room self.old other ≡ true → has_room self.new other ≡ true }
        ensures same { (hash : List ℕ) (size : ℕ) → has_named_value self.new hash size ≡ has_named_value self.old hash size }
    {
        if self.marks.contains_key(&name) {
            return Ok(());
        }
        let NamedValue { hash, size } = name;
        put_mark(&mut self.marks, NamedValue { hash, size }, false)
    }

    /// Reserves memory for names: the `add` of them needs none. On `Memory` all is unchanged.
    pub fn reserve(&mut self, given: &[NamedValue]) -> Result<(), Memory>
        ensures room { OnOk result (HasRooms self.new given.now) }
        ensures same { (hash : List ℕ) (size : ℕ) → has_named_value self.new hash size ≡ has_named_value self.old hash size }
        ensures stays { (us : List Update) → AreNamed us self.old → AreNamed us self.new }
    {
        for name in given {
            self.reserve_one(*name)?;
        }
        Ok(())
    }

    /// Adds a name for which memory was reserved. It takes none.
    #[tactic(auto, using(crate::proofs::NamedLaws::named_laws), unfolding(crate::specs::Named::has_named_value, crate::specs::Named::has_room))]
    pub(crate) fn add_one(&mut self, name: NamedValue)
        requires { has_room self.old name ≡ true }
        ensures named { (hash : List ℕ) (size : ℕ) → has_named_value self.new hash size ≡ (has_named_value self.old hash size || is_value_named name hash size) }
        ensures rooms { (other : NamedValue) → has_room self.old other ≡ true → has_room self.new other ≡ true }
    {
        let _ = put_mark(&mut self.marks, name, true);
    }

    /// Removes a name, and the memory that was reserved for it. It takes none.
    #[tactic(auto, using(crate::proofs::NamedLaws::named_laws), unfolding(crate::specs::Named::has_named_value, crate::specs::Named::has_room))]
    pub(crate) fn take_out(&mut self, name: NamedValue)
        ensures named { (hash : List ℕ) (size : ℕ) → has_named_value self.new hash size ≡ (has_named_value self.old hash size && not (is_value_named name hash size)) }
        ensures rooms { (other : NamedValue) → is_value_named name other.hash other.size ≡ false → has_room self.old other ≡ true → has_room self.new other ≡ true }
    {
        take_mark(&mut self.marks, &name);
    }

    /// Adds names for which memory was reserved. Where the set was that of these updates' values, and the names are
    /// those of further updates, the set becomes that of the values of all. It takes no memory.
    pub fn add(&mut self, given: &[NamedValue])
        requires { HasRooms self.old given.now }
        ensures named { (hash : List ℕ) (size : ℕ) → has_named_value self.new hash size ≡ (has_named_value self.old hash size || is_name given.now hash size) }
        ensures more { (us more : List Update) → given.now ≡ values_named_in more → AreNamed us self.old → AreNamed (us ++ more) self.new }
        ensures one { (us : List Update) (u : Update) → given.now ≡ values_named u → AreNamed us self.old → AreNamed (us ++ u ∷ []) self.new }
        ensures none { (us : List Update) → given.now ≡ [] → AreNamed us self.old → AreNamed us self.new }
    {
        self.add_each(given);
    }

    /// The same, name by name.
    fn add_each(&mut self, given: &[NamedValue])
        requires { HasRooms self.old given.now }
        ensures { (hash : List ℕ) (size : ℕ) → has_named_value self.new hash size ≡ (has_named_value self.old hash size || is_name given.now hash size) }
    {
        for name in given {
            self.add_one(*name);
        }
    }

    /// Adds the lengths that are named with a hash.
    pub(crate) fn push_sizes(&self, hash: &Hash32, found: &mut Vec<u32>) -> Result<(), Memory>
        ensures kept { OnOk result ((size : ℕ) → IsIn size found.old.items → IsIn size found.new.items) }
        ensures all { OnOk result ((size : ℕ) → size < 2 ^ 32 → has_named_value self.now hash.now size ≡ true → IsIn size found.new.items) }
        ensures only { OnOk result ((size : ℕ) → IsIn size found.new.items → IsIn size found.old.items ⊎ (has_named_value self.now hash.now size ≡ true)) }
    {
        let least = NamedValue {
            hash: *hash,
            size: 0,
        };
        let greatest = NamedValue {
            hash: *hash,
            size: u32::MAX,
        };
        for (name, mark) in self.marks.range(least..=greatest) {
            if !*mark {
                continue;
            }
            found.push(name.size)?;
        }
        Ok(())
    }

    /// The values named by the updates that a growth accepts, of which there is one at most.
    pub fn named_by(&self, growth: &Growth) -> Result<Vec<NamedValue>, Memory>
        ensures { IfOk result (λ list. list.items ≡ values_named_in (accepted growth.now)) }
    {
        self.named_in(&growth.news)
    }

    /// The values that new records name as accepted updates.
    #[tactic(auto, using(crate::proofs::VoucherRecords::none_named))]
    pub(crate) fn named_in(&self, news: &News) -> Result<Vec<NamedValue>, Memory>
        ensures { IfOk result (λ list. list.items ≡ names_in (records_in news.now)) }
    {
        match news {
            News::Put { update, .. } => names_in_update(self.alloc, update),
            News::Foreign { signed, .. } => names_in_statement(self.alloc, &signed.statement),
            News::Convicting { signed, .. } => names_in_statement(self.alloc, &signed.statement),
            _ => Ok(Vec::new(self.alloc)),
        }
    }
}

/// The values that a statement names.
fn names_in_statement(alloc: Global, statement: &Statement) -> Result<Vec<NamedValue>, Memory>
    ensures { IfOk result (λ list. list.items ≡ names_in_statement statement.now) }
{
    match statement {
        Statement::Update(update) => names_in_update(alloc, update),
        Statement::Voucher(_) => Ok(Vec::new(alloc)),
    }
}

/// The values that an update names, in the order of its writes.
pub fn names_in_update(alloc: Global, update: &Update) -> Result<Vec<NamedValue>, Memory>
    ensures { IfOk result (λ list. list.items ≡ values_named update.now) }
{
    let mut list = Vec::new(alloc);
    for write in update.writes.as_slice() {
        if let Some(name) = write.what.named() {
            list.push(name)?;
        }
    }
    Ok(list)
}
