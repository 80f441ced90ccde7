//! Reads the changes of a put.
ghost use Rattle.std.specs.Prelude.{◌≡◌, ◌≤◌, length, List, IfOk};
ghost use Rattle.std.specs.Option.{option_copied};
ghost use Rattle.depot_base.specs.Format.{list_of, whole};
ghost use Rattle.depot_base.specs.Reading.{GoesOn, Gives, Reads, ReadsBy};
ghost use Rattle.depot_base.specs.Sized.{IsKey};
ghost use Rattle.depot_requests.specs.ChangeTexts.{change_follows, change_text, changes_text, key_text};

use depot_base::fault::Fault;
use depot_base::limits::{MOST_KEY, MOST_VALUE, MOST_WRITES};
use depot_base::reading::{at_end, bytes_in, u8_in, u32_in};
use depot_base::{Change, Changes, Fields, Key, Value};
use depot_lines::spelling::{is_checkpoint_key, is_receipt_key};
use std::alloc::Global;

/// A key preceded by its length.
#[tactic(auto, unfolding(crate::specs::ChangeTexts::key_text))]
fn key_in(alloc: Global, fields: &mut Fields<'_>) -> Result<Key, Fault>
    ensures stays { GoesOn fields.old fields.new }
    ensures reads { Reads result fields.new (key_text.read fields.old) }
{
    let length = u8_in(fields, 1, MOST_KEY as u8)?;
    Ok(Key::from_bytes(bytes_in(alloc, fields, length as usize)?))
}

/// A key of all the bytes that are left.
pub fn whole_key(alloc: Global, fields: &mut Fields<'_>) -> Result<Key, Fault>
    ensures { Gives result (whole key_text fields.old) }
{
    let key = key_in(alloc, fields)?;
    at_end(fields, key)
}

/// A change.
#[tactic(auto, unfolding(crate::specs::ChangeTexts::change_text, crate::specs::ChangeTexts::change_behind))]
fn change_in(alloc: Global, fields: &mut Fields<'_>) -> Result<Change, Fault>
    ensures stays { GoesOn fields.old fields.new }
    ensures reads { Reads result fields.new (change_text.read fields.old) }
{
    let length = u8_in(fields, 1, MOST_KEY as u8)?;
    let key = Key::from_bytes(bytes_in(alloc, fields, length as usize)?);
    let mark = u8_in(fields, 0, 1)?;
    if mark == 0 {
        return Ok(Change { key, value: None });
    }
    let size = u32_in(fields, 0, MOST_VALUE as u32)?;
    let value = Value::from_bytes(bytes_in(alloc, fields, size as usize)?);
    Ok(Change {
        key,
        value: Some(value),
    })
}

/// Whether a change may follow another, or be first.
fn may_follow(before: Option<&Change>, change: &Change) -> bool
    ensures { result ≡ change_follows (option_copied before.entry) change.now }
{
    let key = change.key.bytes();
    if is_receipt_key(key) || is_checkpoint_key(key) {
        return false;
    }
    match before {
        None => true,
        Some(before) => before.key.bytes().cmp(key).is_lt(),
    }
}

/// So many changes, each of which may follow the one before it. It allocates for no more than there are bytes left.
#[tactic(auto, unfolding(depot_base::specs::Format::list_of))]
fn changes_in(alloc: Global, fields: &mut Fields<'_>, count: u8) -> Result<Changes, Fault>
    ensures { Reads result fields.new ((list_of count change_text change_follows).read fields.old) }
{
    let room = usize::from(count).min(fields.rest().len());
    let mut list = Vec::with_capacity(alloc, room)?;
    for _ in 0..count {
        let at = fields.at();
        let item = change_in(alloc, fields)?;
        if !may_follow(list.as_slice().last(), &item) {
            return Err(Fault::At(at));
        }
        list.push(item)?;
    }
    Ok(Changes::from_vec(list))
}

/// Changes preceded by their count, of all the bytes that are left.
#[tactic(auto, unfolding(crate::specs::ChangeTexts::changes_text))]
pub fn whole_changes(alloc: Global, fields: &mut Fields<'_>) -> Result<Changes, Fault>
    ensures { Gives result (whole changes_text fields.old) }
{
    let count = u8_in(fields, 1, MOST_WRITES)?;
    let changes = changes_in(alloc, fields, count)?;
    at_end(fields, changes)
}
