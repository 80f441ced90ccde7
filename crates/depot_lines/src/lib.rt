//! Texts of lines: their lines, the words of a line, and how single words are spelled (docs/FORMATS.md, "Schedules",
//! "Scripts"). Schedules, scripts, answers and commands are made of these.
//!
//! Contracts see a text as its bytes, `Parts` as the list of the parts that are left, a `LineWriter` as its text so far
//! and how many words more it takes, a `Label` and a `FileName` as their bytes, and a number as that number.
//!
//! - Each value that fits a kind of word or line has one word or line, and is read back from it.
//! - Any other words are refused with their first fault (`LineFault`), in the order of its variants, and a text with
//!   the number of its first faulty line (`TextError`).
//!
//! `specs/Language.antt` has the language that describes each kind of word and line once, `proofs/` the laws of
//! whatever it describes. `Spelling` and `Vocabulary` have the words that don't depend on what precedes them,
//! `FileNames` the names of files, `LineTexts` the lines of a text, and `LineReading` what readers answer
//! and a `LineWriter` writes.
//!
//! `Parts` takes words and lines from a text, `line` checks a line as a whole; `spelling` tests and converts single
//! words; `word_readers`, `changes` and `file_name` read the next word of a line; `LineWriter` writes lines, or heads
//! of lines, word by word.
//!
//! Nothing here knows an event, a command or an answer: a word that only one of these texts has is defined with it.
#![tactic(auto)]

mod change_writers;
mod changes;
mod file_name;
mod label;
mod line;
mod line_fault;
mod line_writer;
mod parts;
pub mod spelling;
pub mod word_readers;
pub mod word_writers;

pub use changes::Keys;
pub use file_name::FileName;
pub use label::Label;
pub use line::{allowed, are_words, counted, first_word, in_line, is_empty_word, made, next_line};
pub use line_fault::{LineError, LineFault, TextError, earlier};
pub use line_writer::LineWriter;
pub use parts::Parts;
