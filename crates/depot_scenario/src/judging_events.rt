//! What is printed of a judgement.
ghost use Rattle.std.specs.Prelude.{◌≡◌, ◌≢◌, [], IfOk, drop};
ghost use Rattle.depot_model.specs.texts.Lines.{text_of_point, text_of_verdict};
ghost use Rattle.depot_model.specs.declared.judgement.JudgeError.TheVariants as JudgeError;
ghost use Rattle.depot_answers.specs.AnswerTexts.{spaced};
ghost use Rattle.depot_world.specs.Run.{Run};
ghost use Rattle.depot_world.specs.FaultySigning.{proof_in};
ghost use Rattle.depot_world.specs.Setups.{Setup};
ghost use Rattle.depot_world.specs.Transcript.{judged_with};

use depot_answers::{point, verdict};
use depot_base::{Bytes, Memory};
use depot_judge::judge;
use depot_model::{JudgeError, Scheme, Verdict};
use depot_sign::Roster;
use std::alloc::Global;

/// The bytes after a frame's tag and length.
fn payload_of(bytes: &[u8]) -> &[u8]
    ensures { result.now ≡ drop 5 bytes.now }
{
    bytes.get(5..).unwrap_or(&[])
}

/// What is printed after the arrow when a label's bytes are judged as the frame of a proof: a space, and the first
/// point that fails, or else the verdict. Nothing is printed after that line.
#[tactic(auto, using(crate::proofs::JudgedLaws::nothing_behind))]
pub fn judged<S: Scheme>(
    alloc: Global,
    roster: &Roster,
    scheme: &S,
    bytes: &[u8],
) -> Result<Bytes, Memory>
    ensures answer { IfOk result (λ text. (setup : Setup) (run : Run) → setup.suite.verifies ≡ S.verifies → setup.listed ≡ roster.now → text ≡ (judged_with setup run (proof_in bytes.now)).answer) }
    ensures behind { (setup : Setup) (run : Run) → (judged_with setup run (proof_in bytes.now)).behind ≡ [] }
{
    match judge(alloc, roster, scheme, payload_of(bytes)) {
        Ok(shown) => spaced_verdict(alloc, &shown),
        Err(failed) => spaced_point(alloc, &failed),
    }
}

/// A space and a verdict.
fn spaced_verdict(alloc: Global, shown: &Verdict) -> Result<Bytes, Memory>
    ensures { IfOk result (λ text. text ≡ spaced (text_of_verdict shown.now)) }
{
    let mut out = Bytes::from_slice(alloc, b" ")?;
    verdict(alloc, &mut out, shown)?;
    Ok(out)
}

/// A space and the point that fails. Where that is Memory, there is none.
fn spaced_point(alloc: Global, failed: &JudgeError) -> Result<Bytes, Memory>
    ensures text { IfOk result (λ text. text ≡ spaced (text_of_point failed.now)) }
    ensures found { IfOk result (λ text. failed.now ≢ JudgeError.Memory) }
{
    match failed {
        JudgeError::Memory => Err(Memory),
        _ => {
            let mut out = Bytes::from_slice(alloc, b" ")?;
            point(alloc, &mut out, failed)?;
            Ok(out)
        }
    }
}
