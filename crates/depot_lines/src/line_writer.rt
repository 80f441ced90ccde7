//! Writes the words of lines.
ghost use Rattle.std.specs.Prelude.{◌≡◌, ◌++◌, [], ◌∷◌, Some, None, OnOk, codes, map};
ghost use Rattle.std.specs.Fmt.{decimal};
ghost use Rattle.hex.specs.Hex.{encode_lower};
ghost use Rattle.depot_model.specs.texts.Lines.{name_of_kind};
ghost use Rattle.depot_lines.specs.Language.{join, text_if_any};
ghost use Rattle.depot_lines.specs.LineReading.{fewer, takes_more, with_word, with_words};
ghost use Rattle.depot_lines.specs.Vocabulary.{text_of_change};

use crate::change_writers::joined_changes;
use crate::file_name::FileName;
use crate::label::Label;
use crate::spelling::name_of_kind;
use crate::word_writers::word;
use depot_base::{Bytes, Change, Key, Kind, Memory, NodeId, Value};
use std::alloc::Global;
use std::marker::Model;

/// Writes lines word by word. A line takes all words, or, where only its head is wanted, so many behind its first: any
/// further word is left out. So one table of words serves whole lines and heads.
///
/// Contracts see the text so far, and how many words more the last line takes.
#[derive(Debug, Drop)]
pub struct LineWriter {
    alloc: Global,
    text: Bytes,
    more: Option<usize>,
}

impl Model for LineWriter {
    ghost use Rattle.depot_lines.specs.LineReading.{LineSoFar};

    ghost Value = { LineSoFar };

    ghost view = { λ w. record { text = w.text; more = w.more } };
}

impl LineWriter {
    /// No line yet.
    pub fn new(alloc: Global) -> LineWriter
        ensures { result ≡ record { text = []; more = None } }
    {
        LineWriter {
            alloc,
            text: Bytes::new(alloc),
            more: None,
        }
    }

    /// Where it takes its memory from.
    pub fn alloc(&self) -> Global {
        self.alloc
    }

    /// Begins a line with its first word. It takes all words.
    pub fn begin(&mut self, name: &[u8]) -> Result<(), Memory>
        ensures { OnOk result (self.new ≡ record { text = self.old.text ++ name.now; more = None }) }
    {
        self.text.push_all(name)?;
        self.more = None;
        Ok(())
    }

    /// Begins the head of a line with the line's first word. It takes `more` words.
    pub fn begin_head(&mut self, name: &[u8], more: usize) -> Result<(), Memory>
        ensures { OnOk result (self.new ≡ record { text = self.old.text ++ name.now; more = Some more }) }
    {
        self.text.push_all(name)?;
        self.more = Some(more);
        Ok(())
    }

    /// Ends a line.
    pub fn end(&mut self) -> Result<(), Memory>
        ensures { OnOk result (self.new.text ≡ self.old.text ++ codes "\n") }
    {
        self.text.push_all(b"\n")
    }

    /// The text that was written.
    pub fn into_text(self) -> Bytes
        ensures { result ≡ self.text }
    {
        self.text
    }

    /// Whether the line takes a word more. It then takes one fewer.
    fn takes(&mut self) -> bool
        ensures takes { result ≡ takes_more self.old.more }
        ensures text { self.new.text ≡ self.old.text }
        ensures fewer { self.new.more ≡ fewer self.old.more }
    {
        match self.more {
            None => true,
            Some(0) => false,
            Some(n) => {
                self.more = Some(n - 1);
                true
            }
        }
    }

    /// A word as it is.
    #[tactic(auto, unfolding(crate::specs::LineReading::with_word))]
    pub fn word(&mut self, text: &[u8]) -> Result<(), Memory>
        ensures { OnOk result (self.new ≡ with_word self.old text.now) }
    {
        if self.takes() {
            word(&mut self.text, text)?;
        }
        Ok(())
    }

    /// Bytes, in lower-case hexadecimal.
    #[tactic(auto, unfolding(crate::specs::LineReading::with_word))]
    pub fn hex(&mut self, bytes: &[u8]) -> Result<(), Memory>
        ensures { OnOk result (self.new ≡ with_word self.old (encode_lower bytes.now)) }
    {
        if self.takes() {
            let text = hex::encode(self.alloc, bytes)?;
            word(&mut self.text, text.as_bytes())?;
        }
        Ok(())
    }

    /// Changes with commas between them.
    #[tactic(auto, using(depot_base::proofs::Writing::texts), unfolding(crate::specs::LineReading::with_word))]
    pub fn changes(&mut self, changes: &[Change]) -> Result<(), Memory>
        ensures { OnOk result (self.new ≡ with_word self.old (join 44 (map text_of_change changes.now))) }
    {
        if self.takes() {
            self.text.push_all(b" ")?;
            joined_changes(self.alloc, &mut self.text, changes)?;
        }
        Ok(())
    }

    /// A label.
    pub fn label(&mut self, label: &Label) -> Result<(), Memory>
        ensures { OnOk result (self.new ≡ with_word self.old label.now) }
    {
        self.word(label.bytes())
    }

    /// The name of a file.
    pub fn file_name(&mut self, name: &FileName) -> Result<(), Memory>
        ensures { OnOk result (self.new ≡ with_word self.old name.now) }
    {
        self.word(name.text().as_bytes())
    }

    /// A number, in decimal.
    pub fn number(&mut self, n: u64) -> Result<(), Memory>
        ensures { OnOk result (self.new ≡ with_word self.old (decimal n)) }
    {
        let text = format!(in self.alloc; "{n}")?;
        self.word(text.as_bytes())
    }

    /// The number of a node, in decimal.
    pub fn node(&mut self, node: NodeId) -> Result<(), Memory>
        ensures { OnOk result (self.new ≡ with_word self.old (decimal node)) }
    {
        self.number(node.number() as u64)
    }

    /// Bytes, in lower-case hexadecimal, or `-` where there are none.
    pub fn hex_or_dash(&mut self, bytes: &[u8]) -> Result<(), Memory>
        ensures { OnOk result (self.new ≡ with_word self.old (text_if_any encode_lower bytes.now)) }
    {
        match bytes {
            [] => self.word(b"-"),
            [_, ..] => self.hex(bytes),
        }
    }

    /// A kind of contradiction.
    pub fn kind(&mut self, kind: Kind) -> Result<(), Memory>
        ensures { OnOk result (self.new ≡ with_word self.old (name_of_kind kind)) }
    {
        self.word(name_of_kind(kind).as_bytes())
    }

    /// A key and a value.
    pub fn key_and_value(&mut self, key: &Key, value: &Value) -> Result<(), Memory>
        ensures { OnOk result (self.new ≡ with_words self.old (encode_lower key.now ∷ text_if_any encode_lower value.now ∷ [])) }
    {
        self.hex(key.bytes())?;
        self.hex_or_dash(value.bytes())
    }
}
