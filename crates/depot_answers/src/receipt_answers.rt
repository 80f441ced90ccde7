//! Why no receipt is given, and whether a put is settled.
ghost use Rattle.std.specs.Prelude.{◌≡◌, ℕ, List, ◌++◌, OnOk};
ghost use Rattle.depot_model.specs.worlds.Receipts.{unknown, lacks_value};
ghost use Rattle.depot_answers.specs.AnswerTexts.{name_of_settled, text_of_no_receipt};

use crate::words::text;
use depot_base::{Bytes, Memory};

/// Appends that no accepted update has an id, whatever the id. On `Memory` a prefix of it may have been appended.
pub fn unknown(out: &mut Bytes) -> Result<(), Memory>
    ensures { OnOk result ((id : List ℕ) → out.new ≡ out.old ++ text_of_no_receipt (unknown id)) }
{
    text(out, "Unknown")
}

/// Appends that a value of an update isn't held, whatever its id. On `Memory` a prefix of it may have been appended.
pub fn no_value(out: &mut Bytes) -> Result<(), Memory>
    ensures { OnOk result ((id : List ℕ) → out.new ≡ out.old ++ text_of_no_receipt (lacks_value id)) }
{
    text(out, "NoValue")
}

/// The word for whether enough nodes gave receipts.
fn name_of_settled(settled: bool) -> &'static str
    ensures { result.now ≡ name_of_settled settled }
{
    if settled { "yes" } else { "no" }
}

/// Appends whether enough nodes gave receipts: `yes` or `no`. On `Memory` a prefix of it may have been appended.
pub fn settled(out: &mut Bytes, settled: bool) -> Result<(), Memory>
    ensures { OnOk result (out.new ≡ out.old ++ name_of_settled settled) }
{
    text(out, name_of_settled(settled))
}
