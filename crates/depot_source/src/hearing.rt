//! Reading messages from a source.
ghost use Rattle.std.specs.Prelude.{◌≡◌, ◌<◌, ◌≤◌, ◌++◌, true, length, IsTrue, IfOk, IsErrOf};
ghost use Rattle.std.specs.Int.{w32, from_be_bytes};
ghost use Rattle.depot_base.specs.Faults.{HasCause};
ghost use Rattle.depot_source.specs.Messages.{GivesFewer, HearsMessage};
ghost use Rattle.depot_source.specs.Pieces.{GivesMore};

use crate::Source;
use depot_base::Bytes;
use depot_outside::OutError;
use std::alloc::Global;

/// The most bytes of a message after its head; the least is 1. That is twice the bytes of a bundle's updates and
/// values, so that a bundle has room for the proofs and vouchers before these.
pub const MOST_MESSAGE: u32 = 134_217_728;

/// Why no message was read.
#[derive(Clone, Copy, Debug, PartialEq, Eq)]
pub enum HearError {
    /// Memory ran out.
    Memory,
    /// The source failed. Its count of faults rose in the call.
    Failed,
    /// The next bytes are no message.
    Bad,
}

/// Reads `count` bytes, or those that come before the end.
fn read_exactly<I: Source>(alloc: Global, input: &mut I, count: usize) -> Result<Bytes, OutError>
    ensures read { IfOk result (λ bytes. I.given input.new ≡ I.given input.old ++ bytes) }
    ensures count { IfOk result (λ bytes. length bytes ≤ count) }
    ensures end { IfOk result (λ bytes. length bytes < count → I.over input.new ≡ true) }
    ensures failed { IsErrOf result OutError.Failed → GivesFewer (I.given input.old) (I.given input.new) count }
    ensures more { GivesMore (I.given input.old) (I.given input.new) }
    ensures whole { IsTrue (I.tells input.old) → I.given input.new ++ I.rest input.new ≡ I.given input.old ++ I.rest input.old }
    ensures tells { I.tells input.new ≡ I.tells input.old }
    ensures cause { HasCause (I.faults input.old) (I.faults input.new) (IsErrOf result OutError.Failed) }
{
    let mut bytes = Bytes::new(alloc);
    for _ in 0..count {
        let had = bytes.as_slice().len();
        if had == count {
            return Ok(bytes);
        }
        input.read(count - had, &mut bytes)?;
        if bytes.as_slice().len() == had {
            return Ok(bytes);
        }
    }
    Ok(bytes)
}

/// The number that four bytes encode.
pub fn said(head: &[u8]) -> u32
    requires { length head.now ≡ 4 }
    ensures { result ≡ from_be_bytes w32 head.now }
{
    u32::from_be_bytes([head[0], head[1], head[2], head[3]])
}

/// Reads a body of `count` bytes.
fn hear_body<I: Source>(alloc: Global, input: &mut I, count: usize) -> Result<Bytes, HearError>
    ensures body { IfOk result (λ body. (I.given input.new ≡ I.given input.old ++ body) × (length body ≡ count)) }
    ensures bad { IsErrOf result HearError.Bad → (I.over input.new ≡ true) × GivesFewer (I.given input.old) (I.given input.new) count }
    ensures failed { IsErrOf result HearError.Failed → GivesFewer (I.given input.old) (I.given input.new) count }
    ensures more { GivesMore (I.given input.old) (I.given input.new) }
    ensures whole { IsTrue (I.tells input.old) → I.given input.new ++ I.rest input.new ≡ I.given input.old ++ I.rest input.old }
    ensures tells { I.tells input.new ≡ I.tells input.old }
    ensures cause { HasCause (I.faults input.old) (I.faults input.new) (IsErrOf result HearError.Failed) }
{
    match read_exactly(alloc, input, count) {
        Ok(body) => {
            if body.as_slice().len() < count {
                return Err(HearError::Bad);
            }
            Ok(body)
        }
        Err(OutError::Memory) => Err(HearError::Memory),
        Err(OutError::Failed) => Err(HearError::Failed),
    }
}

/// Reads the next message: its body, or None at the end.
///
/// `Bad` comes exactly where the next bytes give a length that no body has, or end within a message; no byte after them
/// is read.
pub fn hear<I: Source>(alloc: Global, input: &mut I) -> Result<Option<Bytes>, HearError>
    ensures hears { HearsMessage (I.given input.old) (I.given input.new) (I.over input.new) result }
    ensures whole { IsTrue (I.tells input.old) → I.given input.new ++ I.rest input.new ≡ I.given input.old ++ I.rest input.old }
    ensures tells { I.tells input.new ≡ I.tells input.old }
    ensures cause { HasCause (I.faults input.old) (I.faults input.new) (IsErrOf result HearError.Failed) }
{
    let head = match read_exactly(alloc, input, 4) {
        Ok(head) => head,
        Err(OutError::Memory) => return Err(HearError::Memory),
        Err(OutError::Failed) => return Err(HearError::Failed),
    };
    let head = head.as_slice();
    if head.is_empty() {
        return Ok(None);
    }
    if head.len() < 4 {
        return Err(HearError::Bad);
    }
    let count = said(head);
    if count == 0 || count > MOST_MESSAGE {
        return Err(HearError::Bad);
    }
    match hear_body(alloc, input, count as usize) {
        Ok(body) => Ok(Some(body)),
        Err(error) => Err(error),
    }
}
