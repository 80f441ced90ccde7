//! How single words are spelled: decimal numbers, hexadecimal bytes, names of files, the names of kinds of
//! contradictions, and the keys reserved for receipts and checkpoints.
ghost use Rattle.std.specs.Prelude.{◌≡◌, ◌≤◌, length, is_some, IsTrue, IfSome, IfOk};
ghost use Rattle.std.specs.List.{list_all};
ghost use Rattle.std.specs.Str.{bytes_eq};
ghost use Rattle.depot_model.specs.readers.Checkpoints.{is_checkpoint_key};
ghost use Rattle.depot_model.specs.texts.Lines.{name_of_kind};
ghost use Rattle.depot_model.specs.worlds.Receipts.{receipt_of};
ghost use Rattle.depot_lines.specs.Spelling.{is_word_byte, is_within, is_lower_digit, is_digit, hex_word, has_no_leading_zero, is_number, value_behind, number_word, is_plain_name};

use depot_base::limits::MOST_NAME;
use depot_base::{Bytes, Kind, Memory};
use hex::FromHexError;
use std::alloc::Global;

/// Whether the word is this text.
pub fn is(word: &[u8], text: &str) -> bool
    ensures { result ≡ bytes_eq word.now text.now }
{
    word == text.as_bytes()
}

/// Whether the bytes are at least `low` and at most `high` in number.
pub fn has_length(bytes: &[u8], low: usize, high: usize) -> bool
    ensures { result ≡ is_within low high (length bytes.now) }
{
    low <= bytes.len() && bytes.len() <= high
}

/// Whether the byte is a decimal digit.
fn is_digit(b: u8) -> bool
    ensures { result ≡ is_digit b }
{
    b'0' <= b && b <= b'9'
}

/// Whether all bytes are decimal digits.
fn are_digits(bytes: &[u8]) -> bool
    ensures { result ≡ list_all is_digit bytes.now }
{
    bytes.iter().all(|b| is_digit(*b))
}

/// Whether the first byte is no 0 where another follows.
fn has_no_leading_zero(bytes: &[u8]) -> bool
    ensures { result ≡ has_no_leading_zero bytes.now }
{
    match bytes {
        [first, _, ..] => *first != b'0',
        _ => true,
    }
}

/// Whether the bytes are 1 to 19 decimal digits without leading zeros.
fn is_number(bytes: &[u8]) -> bool
    ensures { result ≡ is_number bytes.now }
{
    has_length(bytes, 1, 19) && are_digits(bytes) && has_no_leading_zero(bytes)
}

/// The number that at most 19 decimal digits denote.
fn value_of(digits: &[u8]) -> u64
    requires { IsTrue (is_number digits.now) }
    ensures { result ≡ value_behind 0 digits.now }
{
    let mut value: u64 = 0;
    for digit in digits {
        value = value * 10 + u64::from(*digit - 48);
    }
    value
}

/// The number from low to high, of at most 19 digits, that a word is in decimal without leading zeros; `None` exactly
/// when it is no such number.
pub fn number_word(word: &[u8], low: u64, high: u64) -> Option<u64>
    ensures value { result ≡ number_word low high word.now }
    ensures range { IfSome result (λ n. (low ≤ n) × (n ≤ high)) }
{
    if !is_number(word) {
        return None;
    }
    let value = value_of(word);
    if low <= value && value <= high {
        Some(value)
    } else {
        None
    }
}

/// Whether the byte is a hexadecimal digit in lower case.
fn is_lower_digit(b: u8) -> bool
    ensures { result ≡ is_lower_digit b }
{
    is_digit(b) || (b'a' <= b && b <= b'f')
}

/// Whether all bytes are hexadecimal digits in lower case.
fn are_lower_digits(bytes: &[u8]) -> bool
    ensures { result ≡ list_all is_lower_digit bytes.now }
{
    bytes.iter().all(|b| is_lower_digit(*b))
}

/// The bytes that a word is in lower-case hexadecimal, two digits a byte. `None` exactly when it isn't of this form.
pub fn hex_word(alloc: Global, word: &[u8]) -> Result<Option<Bytes>, Memory>
    ensures { IfOk result (λ bytes. bytes ≡ hex_word word.now) }
{
    if !are_lower_digits(word) {
        return Ok(None);
    }
    match hex::decode(alloc, word) {
        Ok(bytes) => Ok(Some(Bytes::from_vec(bytes))),
        Err(FromHexError::OutOfMemory) => Err(Memory),
        Err(_) => Ok(None),
    }
}

/// Whether the byte is neither a space nor LF.
fn is_word_byte(b: u8) -> bool
    ensures { result ≡ is_word_byte b }
{
    !(b == b' ' || b == b'\n')
}

/// Whether no byte is a space or LF.
fn are_word_bytes(bytes: &[u8]) -> bool
    ensures { result ≡ list_all is_word_byte bytes.now }
{
    bytes.iter().all(|b| is_word_byte(*b))
}

/// Whether the bytes are 1 to 4,096 in number, and none is a space or LF: these name files.
pub fn is_name(bytes: &[u8]) -> bool
    ensures { result ≡ is_plain_name bytes.now }
{
    has_length(bytes, 1, MOST_NAME) && are_word_bytes(bytes)
}

/// Whether a key has the form of a receipt's: the 8 bytes `receipt:`, and the 32 of an id.
#[tactic(auto, using(crate::proofs::KeyForms::key_laws))]
pub fn is_receipt_key(key: &[u8]) -> bool
    ensures { result ≡ is_some (receipt_of key.now) }
{
    match key.strip_prefix(b"receipt:") {
        Some(id) => id.len() == 32,
        None => false,
    }
}

/// Whether a key has the form of a checkpoint's: the 11 bytes `checkpoint:`, and the 32 of a hash.
pub fn is_checkpoint_key(key: &[u8]) -> bool
    ensures { result ≡ is_checkpoint_key key.now }
{
    match key.strip_prefix(b"checkpoint:") {
        Some(hash) => hash.len() == 32,
        None => false,
    }
}

/// The name of a kind of contradiction.
pub fn name_of_kind(kind: Kind) -> &'static str
    ensures { result.now ≡ name_of_kind kind }
{
    match kind {
        Kind::SameNumber => "SameNumber",
        Kind::SamePrev => "SamePrev",
        Kind::Backward => "Backward",
        Kind::NotUpdate => "NotUpdate",
    }
}
