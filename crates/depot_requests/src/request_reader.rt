//! Reads requests.
ghost use Rattle.std.specs.Prelude.{◌≡◌, ◌≤◌, ◌-◌, length, IfOk};
ghost use Rattle.depot_base.specs.Closed.{rest_of};
ghost use Rattle.depot_base.specs.Format.{whole};
ghost use Rattle.depot_base.specs.Parts.{digests};
ghost use Rattle.depot_base.specs.Reading.{DecodesClosed, Gives, Reads};
ghost use Rattle.depot_requests.specs.Requests.{IsRequest};
ghost use Rattle.depot_source.specs.declared.hearing.TheConstants.{MOST_MESSAGE};
ghost use Rattle.depot_requests.specs.ChangeTexts.{ids_text};
ghost use Rattle.depot_requests.specs.RequestTexts.{FindsRequest, asked_behind, request_text, settled_text};

use crate::Request;
use crate::changes::{whole_changes, whole_key};
use depot_base::entry::entries_in;
use depot_base::fault::{Fault, answer};
use depot_base::limits::MOST_WRITES;
use depot_base::reading::{at_end, hash_in, u8_in, u32_in};
use depot_base::{Bytes, DecodeError, Fields, Hash32, Ids};
use depot_source::MOST_MESSAGE;
use std::alloc::Global;

/// In pieces of how many bytes the stream in a request is taken.
pub const STREAM_PIECE: u32 = 65_536;

/// The most bytes after the kind of a request.
const MOST_REST: usize = MOST_MESSAGE as usize - 1;

/// All the bytes that are left.
#[tactic(auto, unfolding(depot_base::specs::Closed::rest_of))]
fn rest_in(alloc: Global, fields: &mut Fields<'_>) -> Result<Bytes, Fault>
    ensures { Gives result ((rest_of (MOST_MESSAGE - 1)).read fields.old) }
{
    let bytes = fields.rest();
    if bytes.len() > MOST_REST {
        let _ = fields.take_bytes(MOST_REST);
        return Err(Fault::At(fields.at()));
    }
    Ok(Bytes::from_slice(alloc, bytes)?)
}

/// So many ids, rising strictly.
#[tactic(auto, unfolding(depot_base::specs::Format::list_of))]
fn ids_in(alloc: Global, fields: &mut Fields<'_>, count: u8) -> Result<Ids, Fault>
    ensures { Reads result fields.new ((digests count).read fields.old) }
{
    let ids = entries_in(alloc, fields, u16::from(count), 0)?;
    Ok(Ids::from_vec(ids))
}

/// Ids preceded by their count, of all the bytes that are left.
#[tactic(auto, unfolding(crate::specs::ChangeTexts::ids_text))]
pub fn whole_ids(alloc: Global, fields: &mut Fields<'_>) -> Result<Ids, Fault>
    ensures { Gives result (whole ids_text fields.old) }
{
    let count = u8_in(fields, 1, MOST_WRITES)?;
    let ids = ids_in(alloc, fields, count)?;
    at_end(fields, ids)
}

/// An id and a number of nodes, and nothing after them.
#[tactic(auto, unfolding(crate::specs::RequestTexts::settled_text))]
fn whole_settled(fields: &mut Fields<'_>) -> Result<(Hash32, u32), Fault>
    ensures { Gives result (whole settled_text fields.old) }
{
    let id = hash_in(fields)?;
    let k = u32_in(fields, 0, u32::MAX)?;
    at_end(fields, (id, k))
}

/// What follows a kind.
#[tactic(auto, unfolding(crate::specs::RequestTexts::asked_behind))]
fn asked_in(alloc: Global, fields: &mut Fields<'_>, kind: u8) -> Result<Request, Fault>
    requires least { 1 ≤ kind }
    requires most { kind ≤ 9 }
    ensures { Gives result ((asked_behind kind).read fields.old) }
{
    match kind {
        1 => Ok(Request::Put(whole_changes(alloc, fields)?)),
        2 => Ok(Request::Get(whole_key(alloc, fields)?)),
        3 => at_end(fields, Request::Hello),
        4 => Ok(Request::Bundle(rest_in(alloc, fields)?)),
        5 => Ok(Request::Take {
            stream: rest_in(alloc, fields)?,
            piece: STREAM_PIECE,
        }),
        6 => Ok(Request::Receipt(whole_ids(alloc, fields)?)),
        7 => {
            let (id, k) = whole_settled(fields)?;
            Ok(Request::Settled(id, k))
        }
        8 => at_end(fields, Request::Checkpoint),
        9 => Ok(Request::Sign(rest_in(alloc, fields)?)),
        _ => unreachable!(),
    }
}

/// A request, of all the bytes that are left.
#[tactic(auto, unfolding(crate::specs::RequestTexts::request_text))]
fn request_of(alloc: Global, fields: &mut Fields<'_>) -> Result<Request, Fault>
    ensures { Gives result (request_text.read fields.old) }
{
    let kind = u8_in(fields, 1, 9)?;
    asked_in(alloc, fields, kind)
}

/// Decodes the text of a request. `IllFormed` is returned exactly when it is no request's text, with the offset of the
/// first fault, 0 for no bytes and for an unknown kind. A node may be asked for each request that is returned.
pub fn decode_request(alloc: Global, body: &[u8]) -> Result<Request, DecodeError>
    ensures decodes { DecodesClosed request_text body.now result }
    ensures finds { FindsRequest body.now result }
    ensures may_be_asked { IfOk result IsRequest }
{
    answer(request_of(alloc, &mut Fields::new(body)))
}
