//! Writes what replies tell.
ghost use Rattle.std.specs.Prelude.{◌≡◌, ◌++◌, OnOk};
ghost use Rattle.std.specs.List.{flat_map};
ghost use Rattle.std.specs.Int.{w8, w16, w32};
ghost use Rattle.depot_base.specs.Cursor.{numeral};
ghost use Rattle.depot_model.specs.texts.Texts.{number_of_kind};
ghost use Rattle.depot_requests.specs.TellingTexts.{check_text, closing_text, counts_text, done_text, ending_text, flag_text, full_byte, full_text, limit_text, reason_text, refusal_text, stream_report};

use crate::{NodeLimit, Reason};
use depot_answers::Closing;
use depot_base::{Bytes, Check, Full, FullOf, Hash32, Kind, Memory, NodeId};
use depot_model::{Counts, Ending, PutDone, Refusal, Report};

/// A byte of whether.
#[tactic(auto, using(depot_base::proofs::Writing::texts), unfolding(crate::specs::TellingTexts::flag_text, depot_base::specs::Format::number))]
pub fn put_flag(out: &mut Bytes, flag: bool) -> Result<(), Memory>
    ensures { OnOk result (out.new ≡ out.old ++ flag_text.text flag) }
{
    out.push_u8(if flag { 1 } else { 0 })
}

/// An update that was put.
#[tactic(auto, using(depot_base::proofs::Writing::texts), unfolding(crate::specs::TellingTexts::done_text, depot_base::specs::Format::number, depot_base::specs::Format::bytes_of))]
pub fn put_done(out: &mut Bytes, done: &PutDone) -> Result<(), Memory>
    ensures { OnOk result (out.new ≡ out.old ++ done_text.text done.now) }
{
    out.push_all(done.id.bytes())?;
    out.push_u32(done.seq)?;
    out.push_u64(done.clock)
}

/// The byte of a limit that is full.
fn byte_of(what: FullOf) -> u8
    ensures { result ≡ full_byte what }
{
    match what {
        FullOf::Records => 1,
        FullOf::Bytes => 2,
        FullOf::Writers => 3,
    }
}

/// What is full.
#[tactic(auto, using(depot_base::proofs::Writing::texts), unfolding(crate::specs::TellingTexts::full_text, depot_base::specs::Format::number))]
fn put_full(out: &mut Bytes, full: &Full) -> Result<(), Memory>
    ensures { OnOk result (out.new ≡ out.old ++ full_text.text full.now) }
{
    out.push_u8(byte_of(full.what))?;
    out.push_u32(full.number)
}

/// How many frames of each sort a bundle has.
#[tactic(auto, using(depot_base::proofs::Writing::texts), unfolding(crate::specs::TellingTexts::counts_text, depot_base::specs::Format::number))]
pub fn put_counts(out: &mut Bytes, counts: &Counts) -> Result<(), Memory>
    ensures { OnOk result (out.new ≡ out.old ++ counts_text.text counts.now) }
{
    out.push_u32(counts.proofs)?;
    out.push_u32(counts.vouchers)?;
    out.push_u32(counts.updates)?;
    out.push_u32(counts.values)
}

/// A byte, and a number of four bytes.
#[tactic(auto, using(depot_base::proofs::Writing::texts))]
fn put_u32_behind(out: &mut Bytes, byte: u8, number: u32) -> Result<(), Memory>
    ensures { OnOk result (out.new ≡ out.old ++ (numeral w8 byte ++ numeral w32 number)) }
{
    out.push_u8(byte)?;
    out.push_u32(number)
}

/// A byte, and a node.
#[tactic(auto, using(depot_base::proofs::Writing::texts))]
fn put_node_behind(out: &mut Bytes, byte: u8, node: NodeId) -> Result<(), Memory>
    ensures { OnOk result (out.new ≡ out.old ++ (numeral w8 byte ++ numeral w16 node)) }
{
    out.push_u8(byte)?;
    out.push_u16(node.number())
}

/// A byte, and 32 bytes.
#[tactic(auto, using(depot_base::proofs::Writing::texts))]
fn put_id_behind(out: &mut Bytes, byte: u8, id: &Hash32) -> Result<(), Memory>
    ensures { OnOk result (out.new ≡ out.old ++ (numeral w8 byte ++ id.now)) }
{
    out.push_u8(byte)?;
    out.push_all(id.bytes())
}

/// A byte, and two times 32 bytes.
#[tactic(auto, using(depot_base::proofs::Writing::texts))]
fn put_two_behind(out: &mut Bytes, byte: u8, first: &Hash32, second: &Hash32) -> Result<(), Memory>
    ensures { OnOk result (out.new ≡ out.old ++ (numeral w8 byte ++ (first.now ++ second.now))) }
{
    put_id_behind(out, byte, first)?;
    out.push_all(second.bytes())
}

/// The byte of a kind of contradiction.
fn byte_of_kind(kind: Kind) -> u8
    ensures { result ≡ number_of_kind kind }
{
    match kind {
        Kind::SameNumber => 1,
        Kind::SamePrev => 2,
        Kind::Backward => 3,
        Kind::NotUpdate => 4,
    }
}

/// A check that failed.
#[tactic(auto, using(depot_base::proofs::Writing::texts), unfolding(crate::specs::TellingTexts::check_text, crate::specs::TellingTexts::check_behind, depot_base::specs::Format::number, depot_base::specs::Format::bytes_of))]
fn put_check(out: &mut Bytes, check: &Check) -> Result<(), Memory>
    ensures { OnOk result (out.new ≡ out.old ++ check_text.text check.now) }
{
    match check {
        Check::IllFormed(at) => put_u32_behind(out, 1, *at),
        Check::UnknownWriter(node) => put_node_behind(out, 2, *node),
        Check::NotMine(id) => put_id_behind(out, 3, id),
        Check::BadSignature(node) => put_node_behind(out, 4, *node),
        Check::Missing(id) => put_id_behind(out, 5, id),
        Check::WrongDep(place) => put_u32_behind(out, 6, *place),
        Check::Backward(id) => put_id_behind(out, 7, id),
        Check::ClockLow(id) => put_id_behind(out, 8, id),
        Check::ClockFar(greatest) => {
            out.push_u8(9)?;
            out.push_u64(*greatest)
        }
        Check::BadHistory { given, right } => put_two_behind(out, 10, given, right),
        Check::Forked { kept, came, kind } => {
            put_two_behind(out, 11, kept, came)?;
            out.push_u8(byte_of_kind(*kind))
        }
        Check::Convicted(node) => put_node_behind(out, 12, *node),
        Check::VoucherConvicted(node) => put_node_behind(out, 13, *node),
        Check::Unwanted(hash) => put_id_behind(out, 14, hash),
        Check::NotContradictory => out.push_u8(15),
        Check::AgainstMe => out.push_u8(16),
    }
}

/// How a stream ended.
#[tactic(auto, using(depot_base::proofs::Writing::texts), unfolding(crate::specs::TellingTexts::ending_text, crate::specs::TellingTexts::ending_behind, depot_base::specs::Format::number))]
fn put_ending(out: &mut Bytes, ending: &Ending) -> Result<(), Memory>
    ensures { OnOk result (out.new ≡ out.old ++ ending_text.text ending.now) }
{
    match ending {
        Ending::Closed => out.push_u8(1),
        Ending::Whole => out.push_u8(2),
        Ending::More => out.push_u8(3),
        Ending::Bare => out.push_u8(4),
        Ending::Cut(bytes) => put_u32_behind(out, 5, *bytes),
    }
}

/// Why a feed was closed.
#[tactic(auto, using(depot_base::proofs::Writing::texts), unfolding(crate::specs::TellingTexts::closing_text, crate::specs::TellingTexts::closing_behind, depot_base::specs::Format::number))]
pub fn put_closing(out: &mut Bytes, closing: &Option<Closing>) -> Result<(), Memory>
    ensures { OnOk result (out.new ≡ out.old ++ closing_text.text closing.now) }
{
    match closing {
        None => out.push_u8(0),
        Some(Closing::IllFormed(at)) => {
            out.push_u8(1)?;
            out.push_u64(*at)
        }
        Some(Closing::Full(what)) => {
            out.push_u8(2)?;
            put_full(out, what)
        }
    }
}

/// A refused frame.
#[tactic(auto, using(depot_base::proofs::Writing::texts), unfolding(crate::specs::TellingTexts::refusal_text, depot_base::specs::Format::number))]
fn put_refusal(out: &mut Bytes, refusal: &Refusal) -> Result<(), Memory>
    ensures { OnOk result (out.new ≡ out.old ++ refusal_text.text refusal.now) }
{
    out.push_u32(refusal.frame)?;
    put_check(out, &refusal.check)
}

/// Refused frames, one after another.
fn put_refusals(out: &mut Bytes, refused: &[Refusal]) -> Result<(), Memory>
    ensures { OnOk result (out.new ≡ out.old ++ flat_map refusal_text.text refused.now) }
{
    for refusal in refused {
        put_refusal(out, refusal)?;
    }
    Ok(())
}

/// Writes what became of a stream. With more than 4,294,967,295 refused frames it writes none and returns `Memory`.
#[tactic(auto, using(depot_base::proofs::Writing::texts), unfolding(crate::specs::TellingTexts::stream_report, depot_base::specs::Format::number, depot_base::specs::Format::list_of))]
pub fn put_report(out: &mut Bytes, report: &Report) -> Result<(), Memory>
    ensures { OnOk result (out.new ≡ out.old ++ stream_report.text report.now) }
{
    let refused = report.refused.as_slice();
    let Ok(count) = u32::try_from(refused.len()) else {
        return Err(Memory);
    };
    out.push_u32(report.accepted)?;
    out.push_u32(report.known)?;
    put_ending(out, &report.ending)?;
    out.push_u32(count)?;
    put_refusals(out, refused)
}

/// A limit that was met.
#[tactic(auto, using(depot_base::proofs::Writing::texts), unfolding(crate::specs::TellingTexts::limit_text, crate::specs::TellingTexts::limit_behind, depot_base::specs::Format::number, depot_base::specs::Format::bytes_of))]
fn put_limit(out: &mut Bytes, met: &NodeLimit) -> Result<(), Memory>
    ensures { OnOk result (out.new ≡ out.old ++ limit_text.text met.now) }
{
    match met {
        NodeLimit::Spent(count) => put_u32_behind(out, 1, *count),
        NodeLimit::Tips(count) => put_u32_behind(out, 2, *count),
        NodeLimit::Collides(id) => put_id_behind(out, 3, id),
        NodeLimit::Full(what) => {
            out.push_u8(4)?;
            put_full(out, what)
        }
    }
}

/// Why something isn't done.
#[tactic(auto, using(depot_base::proofs::Writing::texts), unfolding(crate::specs::TellingTexts::reason_text, crate::specs::TellingTexts::reason_behind, depot_base::specs::Format::number, depot_base::specs::Format::bytes_of))]
pub fn put_reason(out: &mut Bytes, reason: &Reason) -> Result<(), Memory>
    ensures { OnOk result (out.new ≡ out.old ++ reason_text.text reason.now) }
{
    match reason {
        Reason::Limit(met) => {
            out.push_u8(1)?;
            put_limit(out, met)
        }
        Reason::IllFormed(at) => put_u32_behind(out, 2, *at),
        Reason::OtherRoster(given) => put_id_behind(out, 3, given),
        Reason::Unknown(id) => put_id_behind(out, 4, id),
        Reason::NoValue(id) => put_id_behind(out, 5, id),
        Reason::Empty => out.push_u8(6),
        Reason::Many(count) => put_u32_behind(out, 7, *count),
    }
}
