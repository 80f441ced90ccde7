//! Lines of numbers.
ghost use Rattle.std.specs.Prelude.{◌≡◌, IfOk};
ghost use Rattle.depot_answers.specs.AnswerTexts.{text_of_number, spaced};
ghost use Rattle.depot_requests.specs.Effects.{ended};

use depot_answers::numbered;
use depot_base::{Bytes, Memory};
use std::alloc::Global;

/// The line of a number of records after a name.
#[tactic(auto, using(depot_base::proofs::Writing::texts))]
pub fn counted_line(alloc: Global, name: &str, count: u32) -> Result<Bytes, Memory>
    ensures { IfOk result (λ line. line ≡ ended (spaced (text_of_number name.now count))) }
{
    let mut line = Bytes::from_slice(alloc, b" ")?;
    numbered(alloc, &mut line, name, count as u64)?;
    line.push_all(b"\n")?;
    Ok(line)
}
