//! Reads words of writes: what an update gives keys, and which keys it deletes.
ghost use Rattle.std.specs.Prelude.{◌≡◌};
ghost use Rattle.depot_lines.specs.Language.{nothing, next, read_parts, split};
ghost use Rattle.depot_lines.specs.Vocabulary.{key_by, put_of, deletion_of, change, rise_behind, keys_rise, changes};
ghost use Rattle.depot_lines.specs.LineReading.{AnswersReading, TakesReading};

use crate::line_fault::{LineError, LineFault};
use crate::parts::Parts;
use crate::word_readers::{key_of, put_key_of, value_of};
use depot_base::limits::MOST_WRITES;
use depot_base::{Change, Changes, Key, Sequence};
use std::alloc::Global;

/// Which keys may occur in a word.
#[derive(Clone, Copy, Debug, PartialEq, Eq)]
pub enum Keys {
    /// Each key.
    Any,
    /// Those that a node may be asked to write.
    Put,
}

/// The key that a word is, of those allowed.
fn key_by(alloc: Global, word: &[u8], keys: Keys) -> Result<Key, LineError>
    ensures { AnswersReading result ((key_by keys).read nothing word.now) }
{
    match keys {
        Keys::Any => key_of(alloc, word),
        Keys::Put => put_key_of(alloc, word),
    }
}

/// The change that gives a key a value, from the words round an equals sign.
fn put_of(
    alloc: Global,
    key_word: &[u8],
    value_word: &[u8],
    keys: Keys,
) -> Result<Change, LineError>
    ensures { AnswersReading result (put_of keys key_word.now value_word.now) }
{
    let key = key_by(alloc, key_word, keys)?;
    let value = value_of(alloc, value_word)?;
    Ok(Change {
        key,
        value: Some(value),
    })
}

/// The deletion of a key that a word is: the key, and an exclamation mark as its last byte.
fn deletion_of(alloc: Global, word: &[u8], keys: Keys) -> Result<Change, LineError>
    ensures { AnswersReading result (deletion_of keys (split 33 word.now)) }
{
    let mut parts = Parts::new(word, b'!');
    let Some(key_word) = parts.next() else {
        return Err(LineError::In(LineFault::Hex));
    };
    let Some([]) = parts.next() else {
        return Err(LineError::In(LineFault::Hex));
    };
    if !parts.is_done() {
        return Err(LineError::In(LineFault::Hex));
    }
    Ok(Change {
        key: key_by(alloc, key_word, keys)?,
        value: None,
    })
}

/// The change that a part of the word is.
fn change_of(alloc: Global, word: &[u8], keys: Keys) -> Result<Change, LineError>
    ensures { AnswersReading result ((change keys).read nothing word.now) }
{
    let mut parts = Parts::new(word, b'=');
    let Some(first) = parts.next() else {
        return Err(LineError::In(LineFault::Hex));
    };
    let Some(second) = parts.next() else {
        return deletion_of(alloc, first, keys);
    };
    if parts.is_done() {
        put_of(alloc, first, second, keys)
    } else {
        Err(LineError::In(LineFault::Hex))
    }
}

/// The changes between the commas of a word. All their faults are the same, so the first decides.
fn all_changes(alloc: Global, word: &[u8], keys: Keys) -> Result<Changes, LineError>
    ensures { AnswersReading result (read_parts ((change keys).read nothing) (split 44 word.now)) }
{
    let mut changes = Sequence::new(alloc);
    let mut parts = Parts::new(word, b',');
    while let Some(part) = parts.next() {
        let change = change_of(alloc, part, keys)?;
        changes.push(change)?;
    }
    Ok(changes)
}

/// Whether keys rise strictly, the first of them above this one.
fn rise_behind(before: &[u8], changes: &[Change]) -> bool
    ensures { result ≡ rise_behind before.now changes.now }
{
    match changes {
        [] => true,
        [first, rest @ ..] => {
            let key = first.key.bytes();
            before.cmp(key).is_lt() && rise_behind(key, rest)
        }
    }
}

/// Whether keys rise strictly.
fn keys_rise(changes: &[Change]) -> bool
    ensures { result ≡ keys_rise changes.now }
{
    match changes {
        [] => true,
        [first, rest @ ..] => rise_behind(first.key.bytes(), rest),
    }
}

/// The next word of a line, as 1 to 16 changes whose keys rise strictly.
pub fn changes(alloc: Global, words: &mut Parts<'_>, keys: Keys) -> Result<Changes, LineError>
    ensures { TakesReading result words.new (next ((changes keys).read nothing) words.old) }
{
    let word = words.word()?;
    let changes = all_changes(alloc, word, keys)?;
    let list = changes.as_slice();
    if list.len() <= MOST_WRITES as usize && keys_rise(list) {
        Ok(changes)
    } else {
        Err(LineError::In(LineFault::Hex))
    }
}
