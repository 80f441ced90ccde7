//! Labels: the names that the events of a schedule give to bytes.
ghost use Rattle.std.specs.Prelude.{◌≡◌, IsTrue};
ghost use Rattle.std.specs.List.{list_all};
ghost use Rattle.std.specs.Option.{SomeIff};
ghost use Rattle.depot_lines.specs.Spelling.{is_letter, is_label_byte, is_label};

use depot_base::Bytes;
use std::marker::Model;

/// A label: 1 to 32 lower-case letters and digits, the first a letter. Contracts see it as its bytes.
#[derive(Debug, Drop)]
pub struct Label(Bytes);

impl Model for Label {
    ghost use Rattle.std.specs.Prelude.{List, ℕ, IsTrue};
    ghost use Rattle.depot_lines.specs.Spelling.{is_label};

    ghost Value = { List ℕ };

    ghost view = { λ l. l.0 };

    ghost invariant = { λ l. IsTrue (is_label l.0) };
}

impl Label {
    /// Makes a label of these bytes, `None` exactly when they aren't in a label's form. It takes no memory.
    pub fn new(bytes: Bytes) -> Option<Label>
        ensures { SomeIff result (IsTrue (is_label bytes)) bytes }
    {
        if is_label(bytes.as_slice()) {
            Some(Label(bytes))
        } else {
            None
        }
    }

    /// Its bytes.
    pub fn bytes(&self) -> &[u8]
        ensures same { result.now ≡ self.now }
        ensures label { IsTrue (is_label self.now) }
    {
        self.0.as_slice()
    }
}

/// Whether the byte is a lower-case letter.
fn is_letter(b: u8) -> bool
    ensures { result ≡ is_letter b }
{
    b'a' <= b && b <= b'z'
}

/// Whether the byte is a lower-case letter or a digit.
fn is_label_byte(b: u8) -> bool
    ensures { result ≡ is_label_byte b }
{
    is_letter(b) || (b'0' <= b && b <= b'9')
}

/// Whether all bytes are lower-case letters or digits.
fn are_label_bytes(bytes: &[u8]) -> bool
    ensures { result ≡ list_all is_label_byte bytes.now }
{
    bytes.iter().all(|b| is_label_byte(*b))
}

/// Whether the bytes are in a label's form.
pub fn is_label(bytes: &[u8]) -> bool
    ensures { result ≡ is_label bytes.now }
{
    match bytes {
        [first, rest @ ..] => is_letter(*first) && are_label_bytes(rest) && rest.len() <= 31,
        _ => false,
    }
}
