//! Writes what answers have.
ghost use Rattle.std.specs.Prelude.{◌≡◌, ◌++◌, OnOk, length};
ghost use Rattle.std.specs.List.{flat_map};
ghost use Rattle.std.specs.Int.{w8, w32};
ghost use Rattle.depot_base.specs.Cursor.{numeral};
ghost use Rattle.depot_questions.specs.QuestionAnswers.{conviction_at_text, conviction_page_text, flags_text, found_text, key_page_text, latest_write_text, latest_writes_text, long_text, named_text, says_text, status_text, update_facts_text, update_keys_text, update_page_text};
ghost use Rattle.depot_requests.specs.ChangeTexts.{key_text};
ghost use Rattle.depot_requests.specs.TellingTexts.{flag_text};

use crate::{
    ConvictionAt, ConvictionPage, KeyPage, LatestWrite, NodeStatus, UpdateFacts, UpdateKeys,
    UpdatePage, WriteSays,
};
use depot_base::entry::put_entries;
use depot_base::{Bytes, Memory, NamedValue};
use depot_requests::put_flag;

/// Writes a number of entries. For more than 4,294,967,295 it writes none and returns `Memory`.
#[tactic(auto, using(depot_base::proofs::Writing::texts))]
fn put_count(out: &mut Bytes, count: usize) -> Result<(), Memory>
    ensures { OnOk result (out.new ≡ out.old ++ numeral w32 count) }
{
    let Ok(count) = u32::try_from(count) else {
        return Err(Memory);
    };
    out.push_u32(count)
}

/// Writes who a node is, and how much it has. For more than 65,535 convicted nodes it writes none and returns `Memory`.
#[tactic(auto, using(depot_base::proofs::Writing::texts), unfolding(crate::specs::QuestionAnswers::status_text, depot_base::specs::Format::number, depot_base::specs::Format::bytes_of, depot_base::specs::Format::list_of))]
pub fn put_status(out: &mut Bytes, status: &NodeStatus) -> Result<(), Memory>
    ensures { OnOk result (out.new ≡ out.old ++ status_text.text status.now) }
{
    let convicted = status.convicted.as_slice();
    let Ok(count) = u16::try_from(convicted.len()) else {
        return Err(Memory);
    };
    out.push_u16(status.node.number())?;
    out.push_all(status.roster.bytes())?;
    out.push_u32(status.statements)?;
    out.push_u32(status.signable)?;
    out.push_u32(status.records)?;
    out.push_u32(status.bytes)?;
    out.push_u32(status.updates)?;
    out.push_u32(status.leaves)?;
    out.push_u16(count)?;
    put_entries(out, convicted)
}

/// Bytes preceded by their number.
#[tactic(auto, using(depot_base::proofs::Writing::texts), unfolding(crate::specs::QuestionAnswers::long_text, depot_base::specs::Format::number, depot_base::specs::Format::bytes_of, depot_base::specs::Format::list_of))]
fn put_long(out: &mut Bytes, text: &[u8]) -> Result<(), Memory>
    ensures { OnOk result (out.new ≡ out.old ++ long_text.text text.now) }
{
    put_count(out, text.len())?;
    out.push_all(text)
}

/// A conviction.
#[tactic(auto, using(depot_base::proofs::Writing::texts), unfolding(crate::specs::QuestionAnswers::conviction_at_text, depot_base::specs::Format::number, depot_base::specs::Format::bytes_of, depot_base::specs::Format::list_of))]
fn put_conviction(out: &mut Bytes, conviction: &ConvictionAt) -> Result<(), Memory>
    ensures { OnOk result (out.new ≡ out.old ++ conviction_at_text.text conviction.now) }
{
    out.push_u32(conviction.place)?;
    out.push_u16(conviction.node.number())?;
    put_long(out, conviction.text.as_slice())
}

/// Convictions, one after another.
fn put_convictions(out: &mut Bytes, convictions: &[ConvictionAt]) -> Result<(), Memory>
    ensures { OnOk result (out.new ≡ out.old ++ flat_map conviction_at_text.text convictions.now) }
{
    for conviction in convictions {
        put_conviction(out, conviction)?;
    }
    Ok(())
}

/// Convictions preceded by their count, and whether there are more.
#[tactic(auto, using(depot_base::proofs::Writing::texts), unfolding(crate::specs::QuestionAnswers::conviction_page_text, depot_base::specs::Format::number, depot_base::specs::Format::bytes_of, depot_base::specs::Format::list_of))]
pub fn put_conviction_page(out: &mut Bytes, page: &ConvictionPage) -> Result<(), Memory>
    ensures { OnOk result (out.new ≡ out.old ++ conviction_page_text.text page.now) }
{
    let convictions = page.convictions.as_slice();
    put_count(out, convictions.len())?;
    put_convictions(out, convictions)?;
    put_flag(out, page.more)
}

/// Writes a key preceded by its length. For more than 255 bytes it writes none and returns `Memory`.
#[tactic(auto, using(depot_base::proofs::Writing::texts), unfolding(depot_requests::specs::ChangeTexts::key_text, depot_base::specs::Format::number, depot_base::specs::Format::bytes_of, depot_base::specs::Format::list_of))]
fn put_key(out: &mut Bytes, key: &[u8]) -> Result<(), Memory>
    ensures { OnOk result (out.new ≡ out.old ++ key_text.text key.now) }
{
    let Ok(length) = u8::try_from(key.len()) else {
        return Err(Memory);
    };
    out.push_u8(length)?;
    out.push_all(key)
}

/// Keys, one after another.
fn put_keys(out: &mut Bytes, keys: &[Bytes]) -> Result<(), Memory>
    ensures { OnOk result (out.new ≡ out.old ++ flat_map key_text.text keys.now) }
{
    for key in keys {
        put_key(out, key.as_slice())?;
    }
    Ok(())
}

/// Keys preceded by their count, and whether there are more.
#[tactic(auto, using(depot_base::proofs::Writing::texts), unfolding(crate::specs::QuestionAnswers::key_page_text, depot_base::specs::Format::number, depot_base::specs::Format::bytes_of, depot_base::specs::Format::list_of))]
pub fn put_key_page(out: &mut Bytes, page: &KeyPage) -> Result<(), Memory>
    ensures { OnOk result (out.new ≡ out.old ++ key_page_text.text page.now) }
{
    let keys = page.keys.as_slice();
    put_count(out, keys.len())?;
    put_keys(out, keys)?;
    put_flag(out, page.more)
}

/// A hash and a length.
#[tactic(auto, using(depot_base::proofs::Writing::texts), unfolding(crate::specs::QuestionAnswers::named_text, depot_base::specs::Format::number, depot_base::specs::Format::bytes_of, depot_base::specs::Format::list_of))]
fn put_named(out: &mut Bytes, name: &NamedValue) -> Result<(), Memory>
    ensures { OnOk result (out.new ≡ out.old ++ named_text.text name.now) }
{
    out.push_all(name.hash.bytes())?;
    out.push_u32(name.size)
}

/// What a latest write says of its key.
#[tactic(auto, using(depot_base::proofs::Writing::texts), unfolding(crate::specs::QuestionAnswers::says_text, crate::specs::QuestionAnswers::says_behind, depot_base::specs::Format::number, depot_base::specs::Format::bytes_of, depot_base::specs::Format::list_of))]
fn put_says(out: &mut Bytes, says: &WriteSays) -> Result<(), Memory>
    ensures { OnOk result (out.new ≡ out.old ++ says_text.text says.now) }
{
    match says {
        WriteSays::Deleted => out.push_u8(0),
        WriteSays::Value(value) => {
            out.push_u8(1)?;
            put_long(out, value.as_slice())
        }
        WriteSays::NotHeld(name) => {
            out.push_u8(2)?;
            put_named(out, name)
        }
    }
}

/// One of the latest writes of a key.
#[tactic(auto, using(depot_base::proofs::Writing::texts), unfolding(crate::specs::QuestionAnswers::latest_write_text, depot_base::specs::Format::number, depot_base::specs::Format::bytes_of, depot_base::specs::Format::list_of))]
fn put_latest(out: &mut Bytes, write: &LatestWrite) -> Result<(), Memory>
    ensures { OnOk result (out.new ≡ out.old ++ latest_write_text.text write.now) }
{
    out.push_all(write.id.bytes())?;
    out.push_u16(write.writer.number())?;
    out.push_u32(write.seq)?;
    out.push_u64(write.clock)?;
    put_says(out, &write.says)
}

/// Latest writes, one after another.
fn put_each_latest(out: &mut Bytes, writes: &[LatestWrite]) -> Result<(), Memory>
    ensures { OnOk result (out.new ≡ out.old ++ flat_map latest_write_text.text writes.now) }
{
    for write in writes {
        put_latest(out, write)?;
    }
    Ok(())
}

/// Latest writes preceded by their count.
#[tactic(auto, using(depot_base::proofs::Writing::texts), unfolding(crate::specs::QuestionAnswers::latest_writes_text, depot_base::specs::Format::number, depot_base::specs::Format::bytes_of, depot_base::specs::Format::list_of))]
pub fn put_latest_writes(out: &mut Bytes, writes: &[LatestWrite]) -> Result<(), Memory>
    ensures { OnOk result (out.new ≡ out.old ++ latest_writes_text.text writes.now) }
{
    put_count(out, writes.len())?;
    put_each_latest(out, writes)
}

/// Writes a number of writes or of keys of an update. For more than 255 it writes none and returns `Memory`.
#[tactic(auto, using(depot_base::proofs::Writing::texts))]
fn put_few(out: &mut Bytes, count: usize) -> Result<(), Memory>
    ensures { OnOk result (out.new ≡ out.old ++ numeral w8 count) }
{
    let Ok(count) = u8::try_from(count) else {
        return Err(Memory);
    };
    out.push_u8(count)
}

/// An accepted update.
#[tactic(auto, using(depot_base::proofs::Writing::texts), unfolding(crate::specs::QuestionAnswers::update_facts_text, depot_base::specs::Format::number, depot_base::specs::Format::bytes_of, depot_base::specs::Format::list_of))]
fn put_facts(out: &mut Bytes, facts: &UpdateFacts) -> Result<(), Memory>
    ensures { OnOk result (out.new ≡ out.old ++ update_facts_text.text facts.now) }
{
    let writes = facts.writes.as_slice();
    out.push_u32(facts.item)?;
    out.push_u16(facts.writer.number())?;
    out.push_u32(facts.seq)?;
    out.push_u64(facts.clock)?;
    put_few(out, writes.len())?;
    put_entries(out, writes)
}

/// The accepted update that was asked for, if there is one.
#[tactic(auto, using(depot_base::proofs::Writing::texts), unfolding(crate::specs::QuestionAnswers::found_text, crate::specs::QuestionAnswers::found_behind, depot_base::specs::Format::number, depot_base::specs::Format::bytes_of, depot_base::specs::Format::list_of))]
pub fn put_update(out: &mut Bytes, facts: &Option<UpdateFacts>) -> Result<(), Memory>
    ensures { OnOk result (out.new ≡ out.old ++ found_text.text facts.now) }
{
    match facts {
        None => out.push_u8(0),
        Some(facts) => {
            out.push_u8(1)?;
            put_facts(out, facts)
        }
    }
}

/// Bytes of whether, one after another.
fn put_each_flag(out: &mut Bytes, flags: &[bool]) -> Result<(), Memory>
    ensures { OnOk result (out.new ≡ out.old ++ flat_map flag_text.text flags.now) }
{
    for flag in flags {
        put_flag(out, *flag)?;
    }
    Ok(())
}

/// Bytes of whether, preceded by their count.
#[tactic(auto, using(depot_base::proofs::Writing::texts), unfolding(crate::specs::QuestionAnswers::flags_text, depot_base::specs::Format::number, depot_base::specs::Format::bytes_of, depot_base::specs::Format::list_of))]
pub fn put_flags(out: &mut Bytes, flags: &[bool]) -> Result<(), Memory>
    ensures { OnOk result (out.new ≡ out.old ++ flags_text.text flags.now) }
{
    put_few(out, flags.len())?;
    put_each_flag(out, flags)
}

/// An accepted update, and which keys it writes.
#[tactic(auto, using(depot_base::proofs::Writing::texts), unfolding(crate::specs::QuestionAnswers::update_keys_text, depot_base::specs::Format::number, depot_base::specs::Format::bytes_of, depot_base::specs::Format::list_of))]
fn put_update_keys(out: &mut Bytes, update: &UpdateKeys) -> Result<(), Memory>
    ensures { OnOk result (out.new ≡ out.old ++ update_keys_text.text update.now) }
{
    let keys = update.keys.as_slice();
    out.push_all(update.id.bytes())?;
    out.push_u16(update.writer.number())?;
    out.push_u32(update.seq)?;
    out.push_u64(update.clock)?;
    put_few(out, keys.len())?;
    put_keys(out, keys)
}

/// Accepted updates, one after another.
fn put_updates(out: &mut Bytes, updates: &[UpdateKeys]) -> Result<(), Memory>
    ensures { OnOk result (out.new ≡ out.old ++ flat_map update_keys_text.text updates.now) }
{
    for update in updates {
        put_update_keys(out, update)?;
    }
    Ok(())
}

/// Accepted updates preceded by their count, and whether there are more.
#[tactic(auto, using(depot_base::proofs::Writing::texts), unfolding(crate::specs::QuestionAnswers::update_page_text, depot_base::specs::Format::number, depot_base::specs::Format::bytes_of, depot_base::specs::Format::list_of))]
pub fn put_update_page(out: &mut Bytes, page: &UpdatePage) -> Result<(), Memory>
    ensures { OnOk result (out.new ≡ out.old ++ update_page_text.text page.now) }
{
    let updates = page.updates.as_slice();
    put_count(out, updates.len())?;
    put_updates(out, updates)?;
    put_flag(out, page.more)
}
