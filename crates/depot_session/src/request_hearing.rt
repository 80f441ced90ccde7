//! Hears requests.
ghost use Rattle.std.specs.Prelude.{◌≡◌, ◌++◌, true, false, IsTrue, IsErrOf, IfOk, IfSome};
ghost use Rattle.depot_base.specs.Faults.{HasCause};
ghost use Rattle.depot_service.specs.Bodies.{MayBeAsked};
ghost use Rattle.depot_source.specs.Inputs.{inputs};
ghost use Rattle.depot_session.specs.Hearing.{HearsBody, HearsRequest};

use crate::server_ending::ServeEnding;
use depot_base::{Bytes, DecodeError, Memory};
use depot_service::{Asked, decode_asked};
use depot_source::{HearError, Source, Waiting, hear};
use std::alloc::Global;

/// What a message asks, and how many bytes the message has.
#[derive(Drop)]
pub struct Heard {
    pub asked: Asked,
    pub long: u64,
}

/// Reads the body of the next message, for which it waits: `None` at the end.
fn next_body<I: Source>(alloc: Global, input: &mut I, at: u64) -> Result<Option<Bytes>, ServeEnding>
    ensures hears { HearsBody true (inputs I.Source input.old input.new) at result }
    ensures whole { IsTrue (I.tells input.old) → I.given input.new ++ I.rest input.new ≡ I.given input.old ++ I.rest input.old }
    ensures tells { I.tells input.new ≡ I.tells input.old }
    ensures cause { HasCause (I.faults input.old) (I.faults input.new) (IsErrOf result ServeEnding.Source) }
{
    match hear(alloc, input) {
        Ok(body) => Ok(body),
        Err(HearError::Memory) => Err(ServeEnding::Memory),
        Err(HearError::Failed) => Err(ServeEnding::Source),
        Err(HearError::Bad) => Err(ServeEnding::Input { at, within: 0 }),
    }
}

/// The body of the next message: of the first one of a group, for which it waits, `None` at the end; or of a further one
/// that waits, `None` where none does.
fn body_of<I: Waiting>(
    alloc: Global,
    input: &mut I,
    at: u64,
    first: bool,
) -> Result<Option<Bytes>, ServeEnding>
    ensures hears { HearsBody first (inputs I.Source input.old input.new) at result }
    ensures whole { IsTrue (I.tells input.old) → I.given input.new ++ I.rest input.new ≡ I.given input.old ++ I.rest input.old }
    ensures tells { I.tells input.new ≡ I.tells input.old }
    ensures cause { HasCause (I.faults input.old) (I.faults input.new) (IsErrOf result ServeEnding.Source) }
    ensures calm { first ≡ false → I.faults input.new ≡ I.faults input.old }
{
    if first {
        return next_body(alloc, input, at);
    }
    match input.next_waiting(alloc) {
        Ok(body) => Ok(body),
        Err(Memory) => Err(ServeEnding::Memory),
    }
}

/// Reads what is asked next: by the first message of a group, for which it waits, `None` at the end; or by a further one
/// that waits, `None` where none does. Its message begins at this offset.
pub fn hear_request<I: Waiting>(
    alloc: Global,
    input: &mut I,
    at: u64,
    first: bool,
) -> Result<Option<Heard>, ServeEnding>
    ensures hears { HearsRequest first (inputs I.Source input.old input.new) at result }
    ensures may_be_asked { IfOk result (λ heard. IfSome heard (λ h. MayBeAsked h.asked)) }
    ensures whole { IsTrue (I.tells input.old) → I.given input.new ++ I.rest input.new ≡ I.given input.old ++ I.rest input.old }
    ensures tells { I.tells input.new ≡ I.tells input.old }
    ensures cause { HasCause (I.faults input.old) (I.faults input.new) (IsErrOf result ServeEnding.Source) }
    ensures calm { first ≡ false → I.faults input.new ≡ I.faults input.old }
{
    let Some(body) = body_of(alloc, input, at, first)? else {
        return Ok(None);
    };
    let long = body.as_slice().len() as u64 + 4;
    match decode_asked(alloc, body.as_slice()) {
        Ok(asked) => Ok(Some(Heard { asked, long })),
        Err(DecodeError::Memory) => Err(ServeEnding::Memory),
        Err(DecodeError::IllFormed(within)) => Err(ServeEnding::Input { at, within }),
    }
}
