//! A word of the command line.
ghost use Rattle.std.specs.Prelude.{◌≡◌, IfOk, string_bytes};
ghost use Rattle.std.specs.Str.{bytes_eq};
ghost use Rattle.depot_lines.specs.Spelling.{is_plain_name};

use depot_base::Memory;
use depot_lines::spelling::is_name;
use std::marker::Model;

/// A word of the command line, seen as its bytes.
#[derive(Debug, Drop)]
pub struct Word(String);

impl Model for Word {
    ghost use Rattle.std.specs.Prelude.{List, ℕ, string_bytes};

    ghost Value = { List ℕ };

    ghost view = { λ w. string_bytes w.0 };
}

impl Word {
    /// The word of a text, which gives its memory.
    pub fn new(text: String) -> Word
        ensures { result ≡ string_bytes text }
    {
        Word(text)
    }

    /// The same word, by the allocator that this one has.
    pub fn copy(&self) -> Result<Word, Memory>
        ensures { IfOk result (λ word. word ≡ self.now) }
    {
        Ok(Word(self.0.clone()?))
    }

    /// Its text.
    pub fn text(&self) -> &str
        ensures { result.now ≡ self.now }
    {
        self.0.as_str()
    }

    /// Whether this is the word.
    pub fn is(&self, text: &str) -> bool
        ensures { result ≡ bytes_eq self.now text.now }
    {
        self.0.as_bytes() == text.as_bytes()
    }

    /// Whether it names a file: 1 to 4,096 bytes without space or LF.
    pub fn is_name(&self) -> bool
        ensures { result ≡ is_plain_name self.now }
    {
        is_name(self.0.as_bytes())
    }
}
