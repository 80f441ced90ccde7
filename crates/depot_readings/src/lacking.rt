//! The values that accepted updates name and that aren't held in their length.
ghost use Rattle.std.specs.Prelude.{◌≡◌, ◌&&◌, not, ℕ, List, IfOk, OnOk, false, true, take, map, if◌then◌else◌};
ghost use Rattle.std.specs.Option.{option_to_list};
ghost use Rattle.depot_base.specs.declared.limits.TheConstants.{MOST_WANTED};
ghost use Rattle.depot_base.specs.declared.update.NamedValue.{NamedValue};
ghost use Rattle.depot_model.specs.checks.Vouching.{rising};
ghost use Rattle.depot_readings.specs.Lacking.{is_held, is_next, name_brought, names_brought};
ghost use Rattle.depot_readings.specs.Named.{is_value_named, is_name, has_named_value, has_room, HasRooms};
ghost use Rattle.depot_readings.specs.NewRecords.{records_in, AreHashed};

use crate::named::NamedValues;
use crate::news::News;
use depot_base::limits::MOST_WANTED;
use depot_base::{Hash32, Ids, Memory, NamedValue};
use depot_kept::Values;

/// Whether a value of this name is held.
fn is_held(values: &Values, name: &NamedValue) -> bool
    ensures { result ≡ is_held values.now name.now.hash name.now.size }
{
    match values.get(&name.hash) {
        Some(value) => value.len() == name.size as usize,
        None => false,
    }
}

/// Whether a name with this mark has a hash beyond these.
fn is_next(found: &[Hash32], name: &NamedValue, mark: bool) -> bool
    ensures { result ≡ is_next found.now (name.now, mark) }
{
    match found.last() {
        Some(last) => mark && *last != name.hash,
        None => mark,
    }
}

impl NamedValues {
    /// For a name with reserved memory: inserts it where its value isn't held, and removes it where it is. It takes no
    /// memory.
    fn settle_one(&mut self, values: &Values, name: NamedValue)
        requires { is_held values.now name.hash name.size ≡ false → has_room self.old name ≡ true }
        ensures named { (hash : List ℕ) (size : ℕ) → has_named_value self.new hash size ≡ (if is_value_named name hash size then not (is_held values.now hash size) else has_named_value self.old hash size) }
        ensures rooms { (other : NamedValue) → is_held values.now other.hash other.size ≡ false → has_room self.old other ≡ true → has_room self.new other ≡ true }
    {
        if is_held(values, &name) {
            self.take_out(name);
        } else {
            self.add_one(name);
        }
    }

    /// For names with reserved memory: inserts those whose values aren't held, and removes those whose values are. It
    /// takes no memory.
    pub(crate) fn settle(&mut self, values: &Values, given: &[NamedValue])
        requires { HasRooms self.old given.now }
        ensures { (hash : List ℕ) (size : ℕ) → has_named_value self.new hash size ≡ (if is_name given.now hash size then not (is_held values.now hash size) else has_named_value self.old hash size) }
    {
        for name in given {
            self.settle_one(values, *name);
        }
    }

    /// Removes the name of a value that came, if there is one and the value is held now. It takes no memory.
    pub(crate) fn let_go(&mut self, values: &Values, name: Option<NamedValue>)
        ensures { (hash : List ℕ) (size : ℕ) → has_named_value self.new hash size ≡ (has_named_value self.old hash size && not (is_name (option_to_list name) hash size && is_held values.now hash size)) }
    {
        let Some(name) = name else {
            return;
        };
        if is_held(values, &name) {
            self.take_out(name);
        }
    }

    /// The hashes of the names, the first 1,024 in rising order, each once.
    pub(crate) fn first_hashes(&self) -> Result<Ids, Memory>
        ensures { IfOk result (λ ids. (ns : List NamedValue) → ((hash : List ℕ) (n : ℕ) → has_named_value self.now hash n ≡ is_name ns hash n) → ids ≡ take MOST_WANTED (rising (map (λ n. n.hash) ns))) }
    {
        let mut found = Ids::new(self.alloc);
        for (name, mark) in &self.marks {
            if !is_next(found.as_slice(), name, *mark) {
                continue;
            }
            if found.as_slice().len() == MOST_WANTED as usize {
                return Ok(found);
            }
            found.push(name.hash)?;
        }
        Ok(found)
    }
}

/// Reserves memory for names in two sets. What the sets name stays, also on `Memory`.
pub(crate) fn reserve_both(
    named: &mut NamedValues,
    lacking: &mut NamedValues,
    given: &[NamedValue],
) -> Result<(), Memory>
    ensures named { OnOk result (HasRooms named.new given.now) }
    ensures lacking { OnOk result (HasRooms lacking.new given.now) }
    ensures named_same { (hash : List ℕ) (size : ℕ) → has_named_value named.new hash size ≡ has_named_value named.old hash size }
    ensures lacking_same { (hash : List ℕ) (size : ℕ) → has_named_value lacking.new hash size ≡ has_named_value lacking.old hash size }
{
    named.reserve(given)?;
    lacking.reserve(given)
}

/// The name of the value of others that a growth brings, if it brings one. It takes no memory.
#[tactic(auto, using(crate::proofs::VoucherRecords::none_brought))]
pub(crate) fn name_brought(news: &News) -> Option<NamedValue>
    requires { AreHashed news.now }
    ensures { option_to_list result ≡ names_brought (records_in news.now) }
{
    match news {
        News::Held { value, hash } => Some(NamedValue {
            hash: *hash,
            size: value.bytes().len() as u32,
        }),
        _ => None,
    }
}
