//! What is summed up of a transcript.
ghost use Rattle.std.specs.Prelude.{◌≡◌, ◌++◌, IfOk, OnOk};
ghost use Rattle.depot_answers.specs.AnswerTexts.{text_of_number, spaced};
ghost use Rattle.depot_world.specs.Summaries.{agreement_text, name_of_agreement, reports_text, summary_line, summary_of};

use crate::agreement::agree;
use crate::load_totals::{convicted_last, puts, total};
use crate::transcript_lines::{Count, TranscriptLine, lines_of_transcript};
use depot_answers::numbered;
use depot_base::{Bytes, Memory};
use depot_lines::word_writers::word;
use std::alloc::Global;

/// Whether reads agree, in a word.
fn name_of_agreement(agree: bool) -> &'static str
    ensures { result.now ≡ name_of_agreement agree }
{
    if agree { "yes" } else { "no" }
}

/// A space, a name, a space, and a number in decimal.
fn spaced_number(alloc: Global, line: &mut Bytes, name: &str, n: u128) -> Result<(), Memory>
    ensures { OnOk result (line.new ≡ line.old ++ spaced (text_of_number name.now n)) }
{
    let words = format!(in alloc; " {name} {n}")?;
    line.push_all(words.as_bytes())
}

/// The sums over reports.
#[tactic(auto, using(depot_base::proofs::Writing::texts))]
fn reports(alloc: Global, line: &mut Bytes, lines: &[TranscriptLine]) -> Result<(), Memory>
    ensures { OnOk result (line.new ≡ line.old ++ reports_text lines.now) }
{
    spaced_number(alloc, line, "accepted", total(lines, Count::Accepted))?;
    spaced_number(alloc, line, "known", total(lines, Count::Known))?;
    spaced_number(alloc, line, "refused", total(lines, Count::Refused))
}

/// Whether reads agree.
#[tactic(auto, using(depot_base::proofs::Writing::texts))]
fn agreement(line: &mut Bytes, agree: bool) -> Result<(), Memory>
    ensures { OnOk result (line.new ≡ line.old ++ agreement_text agree) }
{
    word(line, b"agree")?;
    word(line, name_of_agreement(agree).as_bytes())
}

/// The line that sums up what lines say.
#[tactic(auto, using(depot_base::proofs::Writing::texts))]
fn summary_line(alloc: Global, number: u32, lines: &[TranscriptLine]) -> Result<Bytes, Memory>
    ensures { IfOk result (λ line. line ≡ summary_line number lines.now) }
{
    let convicted = convicted_last(alloc, lines)?;
    let agree = agree(alloc, lines)?;
    let mut line = Bytes::new(alloc);
    numbered(alloc, &mut line, "load", u64::from(number))?;
    spaced_number(alloc, &mut line, "puts", puts(lines) as u128)?;
    reports(alloc, &mut line, lines)?;
    spaced_number(alloc, &mut line, "convicted", convicted)?;
    agreement(&mut line, agree)?;
    line.push_all(b"\n")?;
    Ok(line)
}

/// Sums up a transcript of the load of this number in one line (docs/FORMATS.md): how many puts were done, how many
/// frames were new, known and refused in all reports, how many nodes the last five hellos name as convicted, and
/// whether for each key its last five reads show the same. In any other text, lines that aren't a transcript's count
/// nothing. The sums don't overflow, whatever a text says.
#[tactic(auto, unfolding(crate::specs::Summaries::summary_of))]
pub fn summary(alloc: Global, number: u32, transcript: &[u8]) -> Result<Bytes, Memory>
    ensures { IfOk result (λ line. line ≡ summary_of number transcript.now) }
{
    let lines = lines_of_transcript(alloc, transcript)?;
    summary_line(alloc, number, lines.as_slice())
}
