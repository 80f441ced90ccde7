//! Reads what is asked.
ghost use Rattle.std.specs.Prelude.{◌≡◌, IfOk, true, false};
ghost use Rattle.depot_service.specs.Bodies.{FindsAsked, MayBeAsked, begins_export, begins_question, begins_sending, begins_within};

use crate::asked::Asked;
use depot_base::DecodeError;
use depot_gossip::decode_sending;
use depot_questions::decode_question;
use depot_requests::{EXPORT_KIND, decode_export, decode_request};
use std::alloc::Global;

/// Whether the first byte of a body is in a range.
fn begins_within(least: u8, most: u8, body: &[u8]) -> bool
    ensures { result ≡ begins_within least most body.now }
{
    match body {
        [kind, ..] => least <= *kind && *kind <= most,
        [] => false,
    }
}

/// The question of a body.
fn question_in(alloc: Global, body: &[u8]) -> Result<Asked, DecodeError>
    requires question { begins_question body.now ≡ true }
    ensures finds { FindsAsked body.now result }
    ensures may_be_asked { IfOk result MayBeAsked }
{
    Ok(Asked::Question(decode_question(alloc, body)?))
}

/// What is to be sent by a body.
fn sending_in(alloc: Global, body: &[u8]) -> Result<Asked, DecodeError>
    requires other { begins_question body.now ≡ false }
    requires sending { begins_sending body.now ≡ true }
    ensures finds { FindsAsked body.now result }
    ensures may_be_asked { IfOk result MayBeAsked }
{
    Ok(Asked::Sending(decode_sending(alloc, body)?))
}

/// That a trace is asked for by a body.
fn export_in(body: &[u8]) -> Result<Asked, DecodeError>
    requires no_question { begins_question body.now ≡ false }
    requires no_sending { begins_sending body.now ≡ false }
    requires export { begins_export body.now ≡ true }
    ensures finds { FindsAsked body.now result }
    ensures may_be_asked { IfOk result MayBeAsked }
{
    decode_export(body)?;
    Ok(Asked::Export)
}

/// The request of a body.
fn request_in(alloc: Global, body: &[u8]) -> Result<Asked, DecodeError>
    requires no_question { begins_question body.now ≡ false }
    requires no_sending { begins_sending body.now ≡ false }
    requires no_export { begins_export body.now ≡ false }
    ensures finds { FindsAsked body.now result }
    ensures may_be_asked { IfOk result MayBeAsked }
{
    Ok(Asked::Request(decode_request(alloc, body)?))
}

/// Decodes what a body asks. `IllFormed` is returned exactly when it is no text of the sort that its first byte says,
/// with the offset of the first fault, 0 for no bytes and for an unknown kind. A node may be asked whatever is
/// returned.
pub fn decode_asked(alloc: Global, body: &[u8]) -> Result<Asked, DecodeError>
    ensures finds { FindsAsked body.now result }
    ensures may_be_asked { IfOk result MayBeAsked }
{
    if begins_within(16, 22, body) {
        return question_in(alloc, body);
    }
    if begins_within(32, 33, body) {
        return sending_in(alloc, body);
    }
    if begins_within(EXPORT_KIND, EXPORT_KIND, body) {
        return export_in(body);
    }
    request_in(alloc, body)
}
