//! Reads the words of a command.
ghost use Rattle.std.specs.Prelude.{◌≡◌, IfOk};
ghost use Rattle.depot_base.specs.declared.limits.TheConstants.{MOST_KEY, LEAST_HEIGHT, GREATEST_HEIGHT};
ghost use Rattle.depot_lines.specs.Spelling.{is_within, hex_word, sized, number_word};
ghost use Rattle.depot_cli.specs.Words.{name_word};

use crate::height::Height;
use crate::word::Word;
use depot_base::limits::{GREATEST_HEIGHT, LEAST_HEIGHT, MOST_KEY};
use depot_base::{Hash32, Key, Memory, NodeId};
use depot_lines::spelling::{has_length, hex_word, number_word};
use std::alloc::Global;

/// The key of 1 to 255 bytes that a word gives in lower-case hex.
pub fn key_word(alloc: Global, word: &Word) -> Result<Option<Key>, Memory>
    ensures { IfOk result (λ key. key ≡ sized (is_within 1 MOST_KEY) (hex_word word.now)) }
{
    let Some(bytes) = hex_word(alloc, word.text().as_bytes())? else {
        return Ok(None);
    };
    if has_length(bytes.as_slice(), 1, MOST_KEY) {
        Ok(Some(Key::from_bytes(bytes)))
    } else {
        Ok(None)
    }
}

/// The 32 bytes that a word gives in lower-case hex.
pub fn hash_word(alloc: Global, word: &Word) -> Result<Option<Hash32>, Memory>
    ensures { IfOk result (λ hash. hash ≡ sized (is_within 32 32) (hex_word word.now)) }
{
    let Some(bytes) = hex_word(alloc, word.text().as_bytes())? else {
        return Ok(None);
    };
    Ok(Hash32::from_slice(bytes.as_slice()))
}

/// The name of a file that a word is.
pub fn name_word(word: &Word) -> Result<Option<Word>, Memory>
    ensures { IfOk result (λ name. name ≡ name_word word.now) }
{
    if word.is_name() {
        Ok(Some(word.copy()?))
    } else {
        Ok(None)
    }
}

/// The height from 2 to 17 that a word gives in decimal.
pub fn height_word(word: &Word) -> Option<Height>
    ensures { result ≡ number_word LEAST_HEIGHT GREATEST_HEIGHT word.now }
{
    match number_word(
        word.text().as_bytes(),
        LEAST_HEIGHT as u64,
        GREATEST_HEIGHT as u64,
    ) {
        Some(number) => Some(Height::new(number as u8)),
        None => None,
    }
}

/// The number from 1 to 65535 of a node that a word gives in decimal.
pub fn id_word(word: &Word) -> Option<NodeId>
    ensures { result ≡ number_word 1 65535 word.now }
{
    match number_word(word.text().as_bytes(), 1, 65535) {
        Some(number) => NodeId::new(number as u16),
        None => None,
    }
}

/// The number from 0 to 4294967295 that a word gives in decimal.
pub fn load_word(word: &Word) -> Option<u32>
    ensures { result ≡ number_word 0 4294967295 word.now }
{
    match number_word(word.text().as_bytes(), 0, 4_294_967_295) {
        Some(number) => Some(number as u32),
        None => None,
    }
}
