//! Words, and words with a number.
ghost use Rattle.std.specs.Prelude.{◌≡◌, ◌++◌, OnOk};
ghost use Rattle.depot_answers.specs.AnswerTexts.{text_of_number, spaced};

use depot_base::{Bytes, Memory, NodeId};
use depot_lines::word_writers::word;
use std::alloc::Global;

/// A text as it is.
pub(crate) fn text(out: &mut Bytes, text: &str) -> Result<(), Memory>
    ensures { OnOk result (out.new ≡ out.old ++ text.now) }
{
    out.push_all(text.as_bytes())
}

/// Appends a name, a space, and a number in decimal. On `Memory` a prefix of it may have been appended.
pub fn numbered(alloc: Global, out: &mut Bytes, name: &str, n: u64) -> Result<(), Memory>
    ensures { OnOk result (out.new ≡ out.old ++ text_of_number name.now n) }
{
    let words = format!(in alloc; "{name} {n}")?;
    text(out, words.as_str())
}

/// A name, a space, and the number of a node in decimal.
pub(crate) fn numbered_node(
    alloc: Global,
    out: &mut Bytes,
    name: &str,
    node: NodeId,
) -> Result<(), Memory>
    ensures { OnOk result (out.new ≡ out.old ++ text_of_number name.now node) }
{
    numbered(alloc, out, name, node.number() as u64)
}

/// A space, a name, a space, and a number in decimal.
#[tactic(auto, using(depot_base::proofs::Writing::texts))]
pub(crate) fn spaced_number(
    alloc: Global,
    out: &mut Bytes,
    name: &str,
    n: u64,
) -> Result<(), Memory>
    ensures { OnOk result (out.new ≡ out.old ++ spaced (text_of_number name.now n)) }
{
    text(out, " ")?;
    numbered(alloc, out, name, n)
}

/// Two words with a space between them.
#[tactic(auto, using(depot_base::proofs::Writing::texts))]
pub(crate) fn two_words(out: &mut Bytes, first: &str, second: &str) -> Result<(), Memory>
    ensures { OnOk result (out.new ≡ out.old ++ (first.now ++ spaced second.now)) }
{
    text(out, first)?;
    word(out, second.as_bytes())
}
