//! Writes words of references and of histories.
ghost use Rattle.std.specs.Prelude.{◌≡◌, ◌++◌, ◌∷◌, map, OnOk};
ghost use Rattle.std.specs.List.{flat_map};
ghost use Rattle.std.specs.Fmt.{decimal};
ghost use Rattle.depot_lines.specs.Language.{text_or_dash, text_if_any, join};
ghost use Rattle.depot_lines.specs.LineReading.{with_word};
ghost use Rattle.depot_schedule.specs.EventWords.{text_of_history, text_of_ref};

use crate::event::{HistoryWord, Ref};
use depot_base::{Bytes, Memory, NodeId};
use depot_lines::LineWriter;
use std::alloc::Global;

/// `right`, or a digest.
pub fn history(out: &mut LineWriter, history: &HistoryWord) -> Result<(), Memory>
    ensures { OnOk result (out.new ≡ with_word out.old (text_of_history history.now)) }
{
    match history {
        HistoryWord::Right => out.word(b"right"),
        HistoryWord::Given(hash) => out.hex(hash.bytes()),
    }
}

/// `NODE.SEQ`
#[tactic(auto, using(depot_base::proofs::Writing::texts))]
fn own_ref(alloc: Global, out: &mut Bytes, node: NodeId, seq: u32) -> Result<(), Memory>
    ensures { OnOk result (out.new ≡ out.old ++ (decimal node ++ (46 ∷ decimal seq))) }
{
    let node = node.number();
    let node = format!(in alloc; "{node}")?;
    out.push_all(node.as_bytes())?;
    out.push_all(&[b'.'])?;
    let seq = format!(in alloc; "{seq}")?;
    out.push_all(seq.as_bytes())
}

/// The text of a reference.
fn bare_reference(alloc: Global, out: &mut Bytes, reference: &Ref) -> Result<(), Memory>
    ensures { OnOk result (out.new ≡ out.old ++ text_of_ref reference.now) }
{
    match reference {
        Ref::Label(label) => out.push_all(label.bytes()),
        Ref::Own { node, seq } => own_ref(alloc, out, *node, *seq),
    }
}

/// A reference.
pub fn reference(out: &mut LineWriter, reference: &Ref) -> Result<(), Memory>
    ensures { OnOk result (out.new ≡ with_word out.old (text_of_ref reference.now)) }
{
    let mut text = Bytes::new(out.alloc());
    bare_reference(out.alloc(), &mut text, reference)?;
    out.word(text.as_slice())
}

/// A reference, or `-` for none.
pub fn prev(out: &mut LineWriter, prev: &Option<Ref>) -> Result<(), Memory>
    ensures { OnOk result (out.new ≡ with_word out.old (text_or_dash text_of_ref prev.now)) }
{
    match prev {
        None => out.word(b"-"),
        Some(found) => reference(out, found),
    }
}

/// The texts of references, each preceded by a comma.
#[tactic(auto, using(depot_base::proofs::Writing::texts))]
fn behind_commas(alloc: Global, out: &mut Bytes, refs: &[Ref]) -> Result<(), Memory>
    ensures { OnOk result (out.new ≡ out.old ++ flat_map (λ r. 44 ∷ text_of_ref r) refs.now) }
{
    for found in refs {
        out.push_all(&[b','])?;
        bare_reference(alloc, out, found)?;
    }
    Ok(())
}

/// The texts of references with commas between them.
#[tactic(auto, using(depot_base::proofs::Writing::texts))]
fn bare_references(alloc: Global, out: &mut Bytes, refs: &[Ref]) -> Result<(), Memory>
    ensures { OnOk result (out.new ≡ out.old ++ join 44 (map text_of_ref refs.now)) }
{
    match refs {
        [] => Ok(()),
        [first, rest @ ..] => {
            bare_reference(alloc, out, first)?;
            behind_commas(alloc, out, rest)
        }
    }
}

/// References with commas between them.
pub fn references(out: &mut LineWriter, refs: &[Ref]) -> Result<(), Memory>
    ensures { OnOk result (out.new ≡ with_word out.old (join 44 (map text_of_ref refs.now))) }
{
    let mut text = Bytes::new(out.alloc());
    bare_references(out.alloc(), &mut text, refs)?;
    out.word(text.as_slice())
}

/// References with commas between them, or `-` where there are none.
pub fn deps(out: &mut LineWriter, refs: &[Ref]) -> Result<(), Memory>
    ensures { OnOk result (out.new ≡ with_word out.old (text_if_any (λ list. join 44 (map text_of_ref list)) refs.now)) }
{
    match refs {
        [] => out.word(b"-"),
        [_, ..] => references(out, refs),
    }
}
