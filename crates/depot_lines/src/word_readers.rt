//! Reads the next word of a line, each kind of word by a function of its own.
ghost use Rattle.std.specs.Prelude.{◌≤◌, length, IfOk};
ghost use Rattle.depot_lines.specs.Spelling.{is_within};
ghost use Rattle.depot_lines.specs.Language.{nothing, next};
ghost use Rattle.depot_lines.specs.Vocabulary.{number_between, id, any_u32, clock, node_count, hex, key, put_key, value, raw_bytes, digest_word, label, kind};
ghost use Rattle.depot_lines.specs.LineReading.{AnswersReading, TakesReading};

pub use crate::changes::changes;
pub use crate::file_name::file_name;
use crate::label::{Label, is_label};
use crate::line_fault::{LineError, LineFault};
use crate::parts::Parts;
use crate::spelling::{has_length, hex_word, is, is_checkpoint_key, is_receipt_key, number_word};
use depot_base::limits::{MOST_KEY, MOST_NODES, MOST_VALUE};
use depot_base::{Bytes, Hash32, Key, Kind, NodeId, Value};
use std::alloc::Global;

/// The number from low to high that a word is.
pub fn number_of(word: &[u8], low: u64, high: u64) -> Result<u64, LineError>
    ensures gives { AnswersReading result ((number_between low high).read nothing word.now) }
    ensures range { IfOk result (λ n. (low ≤ n) × (n ≤ high)) }
{
    match number_word(word, low, high) {
        Some(n) => Ok(n),
        None => Err(LineError::In(LineFault::Number)),
    }
}

/// The node whose number a word is.
pub fn id_of(word: &[u8]) -> Result<NodeId, LineError>
    ensures { AnswersReading result (id.read nothing word.now) }
{
    let n = number_of(word, 1, 65535)?;
    match NodeId::new(n as u16) {
        Some(node) => Ok(node),
        None => Err(LineError::In(LineFault::Number)),
    }
}

/// A clock, from 1 to `2^63 - 1`.
pub fn clock(words: &mut Parts<'_>) -> Result<u64, LineError>
    ensures { TakesReading result words.new (next (clock.read nothing) words.old) }
{
    let word = words.word()?;
    number_of(word, 1, 9_223_372_036_854_775_807)
}

/// A number of 32 bits.
pub fn any_u32(words: &mut Parts<'_>) -> Result<u32, LineError>
    ensures { TakesReading result words.new (next (any_u32.read nothing) words.old) }
{
    let word = words.word()?;
    let n = number_of(word, 0, 4_294_967_295)?;
    Ok(n as u32)
}

/// A number of nodes, from 1 to 256.
pub fn node_count(words: &mut Parts<'_>) -> Result<u32, LineError>
    ensures { TakesReading result words.new (next (node_count.read nothing) words.old) }
{
    let word = words.word()?;
    let n = number_of(word, 1, MOST_NODES as u64)?;
    Ok(n as u32)
}

/// So many bytes as a word is in lower-case hexadecimal.
fn hex_of(alloc: Global, word: &[u8], low: usize, high: usize) -> Result<Bytes, LineError>
    ensures gives { AnswersReading result ((hex (is_within low high)).read nothing word.now) }
    ensures range { IfOk result (λ bytes. (low ≤ length bytes) × (length bytes ≤ high)) }
{
    let Some(bytes) = hex_word(alloc, word)? else {
        return Err(LineError::In(LineFault::Hex));
    };
    if has_length(bytes.as_slice(), low, high) {
        Ok(bytes)
    } else {
        Err(LineError::In(LineFault::Hex))
    }
}

/// The key that a word is, of 1 to 255 bytes.
pub(crate) fn key_of(alloc: Global, word: &[u8]) -> Result<Key, LineError>
    ensures { AnswersReading result (key.read nothing word.now) }
{
    let bytes = hex_of(alloc, word, 1, MOST_KEY)?;
    Ok(Key::from_bytes(bytes))
}

/// The key that a word is, if a node may be asked to write it: none of a receipt or a checkpoint.
pub(crate) fn put_key_of(alloc: Global, word: &[u8]) -> Result<Key, LineError>
    ensures { AnswersReading result (put_key.read nothing word.now) }
{
    let key = key_of(alloc, word)?;
    if is_receipt_key(key.bytes()) || is_checkpoint_key(key.bytes()) {
        Err(LineError::In(LineFault::Hex))
    } else {
        Ok(key)
    }
}

/// The digest that a word is, of 32 bytes.
pub fn digest_of(alloc: Global, word: &[u8]) -> Result<Hash32, LineError>
    ensures { AnswersReading result (digest_word.read nothing word.now) }
{
    let bytes = hex_of(alloc, word, 32, 32)?;
    match Hash32::from_slice(bytes.as_slice()) {
        Some(hash) => Ok(hash),
        None => Err(LineError::In(LineFault::Hex)),
    }
}

/// The value that a word is, of at most 65,536 bytes.
pub(crate) fn value_of(alloc: Global, word: &[u8]) -> Result<Value, LineError>
    ensures { AnswersReading result (value.read nothing word.now) }
{
    if is(word, "-") {
        return Ok(Value::from_bytes(Bytes::new(alloc)));
    }
    let bytes = hex_of(alloc, word, 1, MOST_VALUE)?;
    Ok(Value::from_bytes(bytes))
}

/// A key.
pub fn key(alloc: Global, words: &mut Parts<'_>) -> Result<Key, LineError>
    ensures { TakesReading result words.new (next (key.read nothing) words.old) }
{
    let word = words.word()?;
    key_of(alloc, word)
}

/// A key that a node may be asked to write.
pub fn put_key(alloc: Global, words: &mut Parts<'_>) -> Result<Key, LineError>
    ensures { TakesReading result words.new (next (put_key.read nothing) words.old) }
{
    let word = words.word()?;
    put_key_of(alloc, word)
}

/// A value.
pub fn value(alloc: Global, words: &mut Parts<'_>) -> Result<Value, LineError>
    ensures { TakesReading result words.new (next (value.read nothing) words.old) }
{
    let word = words.word()?;
    value_of(alloc, word)
}

/// Bytes as they are.
pub fn raw_bytes(alloc: Global, words: &mut Parts<'_>) -> Result<Bytes, LineError>
    ensures { TakesReading result words.new (next (raw_bytes.read nothing) words.old) }
{
    let word = words.word()?;
    if is(word, "-") {
        return Ok(Bytes::new(alloc));
    }
    let Some(bytes) = hex_word(alloc, word)? else {
        return Err(LineError::In(LineFault::Hex));
    };
    if 1 <= bytes.as_slice().len() {
        Ok(bytes)
    } else {
        Err(LineError::In(LineFault::Hex))
    }
}

/// A digest.
pub fn digest(alloc: Global, words: &mut Parts<'_>) -> Result<Hash32, LineError>
    ensures { TakesReading result words.new (next (digest_word.read nothing) words.old) }
{
    let word = words.word()?;
    digest_of(alloc, word)
}

/// A kind of contradiction of two statements.
pub fn kind(words: &mut Parts<'_>) -> Result<Kind, LineError>
    ensures { TakesReading result words.new (next (kind.read nothing) words.old) }
{
    let word = words.word()?;
    if is(word, "SameNumber") {
        Ok(Kind::SameNumber)
    } else if is(word, "SamePrev") {
        Ok(Kind::SamePrev)
    } else if is(word, "Backward") {
        Ok(Kind::Backward)
    } else {
        Err(LineError::In(LineFault::Label))
    }
}

/// The label that a word is.
pub fn label_of(alloc: Global, word: &[u8]) -> Result<Label, LineError>
    ensures { AnswersReading result (label.read nothing word.now) }
{
    if !is_label(word) {
        return Err(LineError::In(LineFault::Label));
    }
    match Label::new(Bytes::from_slice(alloc, word)?) {
        Some(label) => Ok(label),
        None => Err(LineError::In(LineFault::Label)),
    }
}
