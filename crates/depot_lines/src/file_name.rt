//! Names of files.
ghost use Rattle.std.specs.Prelude.{◌≡◌, true, false, IfOk, IsTrue};
ghost use Rattle.std.specs.Str.{is_utf8};
ghost use Rattle.std.specs.Option.{MatchOption};
ghost use Rattle.depot_model.specs.lists.Lists.{when};
ghost use Rattle.depot_lines.specs.FileNames.{is_file_name, file_name};
ghost use Rattle.depot_lines.specs.Language.{nothing, next};
ghost use Rattle.depot_lines.specs.LineReading.{TakesReading};

use crate::line_fault::{LineError, LineFault};
use crate::parts::Parts;
use crate::spelling::is_name;
use depot_base::Memory;
use std::alloc::Global;
use std::marker::Model;

/// The name of a file: 1 to 4,096 bytes of UTF-8 without space or LF. Contracts see it as its bytes.
#[derive(Debug, Drop)]
pub struct FileName(String);

impl Model for FileName {
    ghost use Rattle.std.specs.Prelude.{List, ℕ, IsTrue, string_bytes};
    ghost use Rattle.depot_lines.specs.FileNames.{is_file_name};

    ghost Value = { List ℕ };

    ghost view = { λ f. string_bytes f.0 };

    ghost invariant = { λ f. IsTrue (is_file_name (string_bytes f.0)) };
}

/// The text of these bytes. `None` exactly when they aren't UTF-8.
#[tactic(auto, using(crate::proofs::FileNameLaws::is_text, crate::proofs::FileNameLaws::is_no_text))]
fn text_of(bytes: &[u8]) -> Option<&str>
    ensures { MatchOption result (is_utf8 bytes.now ≡ false) (λ text. (is_utf8 bytes.now ≡ true) × (text.now ≡ bytes.now)) }
{
    match std::str::from_utf8(bytes) {
        Ok(text) => Some(text),
        Err(_) => None,
    }
}

impl FileName {
    /// The name of these bytes, copied. `None` exactly when they are no name.
    pub fn new(alloc: Global, bytes: &[u8]) -> Result<Option<FileName>, Memory>
        ensures { IfOk result (λ name. name ≡ when (is_file_name bytes.now) bytes.now) }
    {
        if !is_name(bytes) {
            return Ok(None);
        }
        match text_of(bytes) {
            Some(text) => Ok(Some(FileName(String::from_str(alloc, text)?))),
            None => Ok(None),
        }
    }

    /// Its text.
    pub fn text(&self) -> &str
        ensures same { result.now ≡ self.now }
        ensures name { IsTrue (is_file_name self.now) }
    {
        self.0.as_str()
    }
}

/// The next word of a line, as the name of a file.
pub fn file_name(alloc: Global, words: &mut Parts<'_>) -> Result<FileName, LineError>
    ensures { TakesReading result words.new (next (file_name.read nothing) words.old) }
{
    let word = words.word()?;
    match FileName::new(alloc, word)? {
        Some(name) => Ok(name),
        None => Err(LineError::In(LineFault::Label)),
    }
}
