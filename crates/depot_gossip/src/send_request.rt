//! Requests to send, and their texts.
ghost use Rattle.std.specs.Prelude.{◌≡◌, ◌≤◌, ◌-◌};
ghost use Rattle.depot_base.specs.Closed.{rest_of};
ghost use Rattle.depot_base.specs.Reading.{DecodesClosed, Gives, IsClosedReadInOneWay, Reads};
ghost use Rattle.depot_source.specs.declared.hearing.TheConstants.{MOST_MESSAGE};
ghost use Rattle.depot_gossip.specs.SendCalls.{IsSendCall, Sends};
ghost use Rattle.depot_gossip.specs.SendTexts.{FindsSending, bounded_text, bounds_text, sending_text, sent_behind, vouchers_told};

use crate::bounded_bundle::bounded;
use crate::bounds::Bounds;
use crate::far::far_hello;
use depot_base::fault::{Fault, answer};
use depot_base::limits::MOST_BUNDLE;
use depot_base::reading::{at_end, u8_in, u32_in};
use depot_base::{Bytes, DecodeError, Fields};
use depot_queries::LocalNode;
use depot_requests::{Halt, Reply};
use depot_source::MOST_MESSAGE;
use std::alloc::Global;

/// What a node is asked to send.
#[derive(Drop)]
pub enum SendRequest {
    /// Its far hello.
    FarHello,
    /// A bundle within bounds for the bytes of a hello.
    Bounded { hello: Bytes, bounds: Bounds },
}

/// The most bytes of a hello: those of a message without the kind, the bounds and the flag before it.
const MOST_REST: usize = MOST_MESSAGE as usize - 10;

/// All the bytes that are left.
#[tactic(auto, unfolding(depot_base::specs::Closed::rest_of))]
fn hello_in(alloc: Global, fields: &mut Fields<'_>) -> Result<Bytes, Fault>
    ensures { Gives result ((rest_of (MOST_MESSAGE - 10)).read fields.old) }
{
    let bytes = fields.rest();
    if bytes.len() > MOST_REST {
        let _ = fields.take_bytes(MOST_REST);
        return Err(Fault::At(fields.at()));
    }
    Ok(Bytes::from_slice(alloc, bytes)?)
}

/// The most vouchers: 4,294,967,295 says any number.
fn vouchers_of(number: u32) -> Option<u32>
    ensures { result ≡ vouchers_told number }
{
    if number == u32::MAX {
        None
    } else {
        Some(number)
    }
}

/// The bounds of a bundle.
#[tactic(auto, unfolding(crate::specs::SendTexts::bounds_text))]
fn bounds_in(fields: &mut Fields<'_>) -> Result<Bounds, Fault>
    ensures { Reads result fields.new (bounds_text.read fields.old) }
{
    let bytes = u32_in(fields, 1, MOST_BUNDLE)?;
    let vouchers = u32_in(fields, 0, u32::MAX)?;
    let own = u8_in(fields, 0, 1)?;
    Ok(Bounds {
        bytes,
        vouchers: vouchers_of(vouchers),
        own: own == 1,
    })
}

/// Bounds, and the bytes of a hello, of all the bytes that are left.
#[tactic(auto, unfolding(crate::specs::SendTexts::bounded_text))]
fn whole_bounded(alloc: Global, fields: &mut Fields<'_>) -> Result<(Bounds, Bytes), Fault>
    ensures { Gives result (bounded_text.read fields.old) }
{
    let bounds = bounds_in(fields)?;
    let hello = hello_in(alloc, fields)?;
    Ok((bounds, hello))
}

/// What follows a kind.
#[tactic(auto, unfolding(crate::specs::SendTexts::sent_behind))]
fn sending_in(alloc: Global, fields: &mut Fields<'_>, kind: u8) -> Result<SendRequest, Fault>
    requires least { 32 ≤ kind }
    requires most { kind ≤ 33 }
    ensures { Gives result ((sent_behind kind).read fields.old) }
{
    match kind {
        32 => at_end(fields, SendRequest::FarHello),
        33 => {
            let (bounds, hello) = whole_bounded(alloc, fields)?;
            Ok(SendRequest::Bounded { hello, bounds })
        }
        _ => unreachable!(),
    }
}

/// The request in all remaining bytes.
#[tactic(auto, unfolding(crate::specs::SendTexts::sending_text))]
fn sending_of(alloc: Global, fields: &mut Fields<'_>) -> Result<SendRequest, Fault>
    ensures { Gives result (sending_text.read fields.old) }
{
    let kind = u8_in(fields, 32, 33)?;
    sending_in(alloc, fields, kind)
}

/// Decodes the text of a request to send, of kind 32 or 33. `IllFormed` is returned exactly when it is no such text,
/// with the offset of the first fault, 0 for no bytes and for another kind.
pub fn decode_sending(alloc: Global, body: &[u8]) -> Result<SendRequest, DecodeError>
    ensures decodes { DecodesClosed sending_text body.now result }
    ensures finds { FindsSending body.now result }
{
    answer(sending_of(alloc, &mut Fields::new(body)))
}

/// A text is that of one such request, or of none, with its first fault at one offset. Called for its clause alone.
pub fn sendings_are_read_in_one_way()
    ensures { IsClosedReadInOneWay sending_text }
{}

/// Sends what a node is asked for, and returns its reply. `Stopped` is returned exactly when the disk failed in an
/// earlier call. The reply and the journal are the defined ones; `Memory` may come instead, or `Disk` if the disk
/// failed in this call, and then the node is stopped. Every crash image has the records from before and a prefix of
/// those that the request brings.
pub fn send<N: LocalNode>(alloc: Global, node: &mut N, request: &SendRequest) -> Result<Reply, Halt>
    ensures sends { Sends (N.stands node.old) (N.signature_of node.old) (N.records node.old) request.now result (N.records node.new) }
    ensures call { IsSendCall N.NodeState node.old node.new request.now result }
{
    match request {
        SendRequest::FarHello => far_hello(alloc, node),
        SendRequest::Bounded { hello, bounds } => bounded(alloc, node, hello.as_slice(), bounds),
    }
}
