//! Which line of a text isn't in its form, and why.
ghost use Rattle.std.specs.Prelude.{◌≡◌, ◌++◌, OnOk};
ghost use Rattle.depot_answers.specs.AnswerTexts.{name_of_line_fault, text_of_faulty_line};

use crate::words::numbered;
use depot_base::{Bytes, Memory};
use depot_lines::LineFault;
use depot_lines::word_writers::word;
use std::alloc::Global;

/// The name of a fault.
fn name_of(fault: LineFault) -> &'static str
    ensures { result.now ≡ name_of_line_fault fault }
{
    match fault {
        LineFault::End => "End",
        LineFault::Long => "Long",
        LineFault::Header => "Header",
        LineFault::Word => "Word",
        LineFault::Fields => "Fields",
        LineFault::Number => "Number",
        LineFault::Hex => "Hex",
        LineFault::Node => "Node",
        LineFault::Label => "Label",
    }
}

/// Appends a faulty line's number, from 1, and its first fault. On `Memory` a prefix of it may have been appended.
#[tactic(auto, using(depot_base::proofs::Writing::texts))]
pub fn faulty_line(
    alloc: Global,
    out: &mut Bytes,
    number: u32,
    fault: LineFault,
) -> Result<(), Memory>
    ensures { OnOk result (out.new ≡ out.old ++ text_of_faulty_line number fault) }
{
    numbered(alloc, out, "line", number as u64)?;
    word(out, name_of(fault).as_bytes())
}
