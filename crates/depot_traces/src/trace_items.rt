//! The items of a trace's lists: record texts, reads, and the writes that a read listed.
ghost use Rattle.depot_base.specs.Format.{list_of};
ghost use Rattle.depot_base.specs.Reading.{Reads, GoesOn};
ghost use Rattle.depot_traces.specs.TraceTexts.{any_follows, answered_text, read_text, record_piece};

use crate::items::{Item, items_in, put_items};
use crate::trace::{Answered, Listing, ReadTrace, Shown};
use depot_base::fault::Fault;
use depot_base::limits::{MOST_KEY, MOST_LEAVES, MOST_VALUE};
use depot_base::reading::{bytes_in, hash_in, u8_in, u16_in, u32_in};
use depot_base::{Bytes, Fields, Key, Memory, Value};
use std::alloc::Global;

/// The text of a record, after its length.
impl Item for Bytes {
    ghost fits = { λ text. record_piece.fits text };

    ghost text = { λ text. record_piece.text text };

    ghost read = { λ c. record_piece.read c };

    #[tactic(auto, unfolding(crate::specs::TraceTexts::record_piece))]
    fn read(alloc: Global, fields: &mut Fields<'_>) -> Result<Bytes, Fault> {
        let size = u32_in(fields, 0, u32::MAX)?;
        let text = bytes_in(alloc, fields, size as usize)?;
        Ok(text)
    }

    #[tactic(auto, using(depot_base::proofs::Writing::texts), unfolding(crate::specs::TraceTexts::record_piece, depot_base::specs::Format::number, depot_base::specs::Format::bytes_of))]
    fn put(&self, out: &mut Bytes) -> Result<(), Memory> {
        let text = self.as_slice();
        out.push_u32(text.len() as u32)?;
        out.push_all(text)
    }
}

/// A write that a read listed: its id, a mark, and a value after its length where the mark calls for one.
impl Item for Answered {
    ghost fits = { λ a. answered_text.fits a };

    ghost text = { λ a. answered_text.text a };

    ghost read = { λ c. answered_text.read c };

    #[tactic(auto, unfolding(crate::specs::TraceTexts::answered_text, crate::specs::TraceTexts::behind_mark))]
    fn read(alloc: Global, fields: &mut Fields<'_>) -> Result<Answered, Fault> {
        let id = hash_in(fields)?;
        let mark = u8_in(fields, 0, 2)?;
        if mark == 0 {
            return Ok(Answered {
                id,
                shown: Shown::NotHeld,
            });
        }
        if mark == 2 {
            return Ok(Answered {
                id,
                shown: Shown::Gone,
            });
        }
        let size = u32_in(fields, 0, MOST_VALUE as u32)?;
        let value = Value::from_bytes(bytes_in(alloc, fields, size as usize)?);
        Ok(Answered {
            id,
            shown: Shown::Held(value),
        })
    }

    #[tactic(auto, using(depot_base::proofs::Writing::texts), unfolding(crate::specs::TraceTexts::answered_text, crate::specs::TraceTexts::behind_mark, depot_base::specs::Format::number, depot_base::specs::Format::bytes_of))]
    fn put(&self, out: &mut Bytes) -> Result<(), Memory> {
        out.push_all(self.id.bytes())?;
        match &self.shown {
            Shown::NotHeld => out.push_u8(0),
            Shown::Held(value) => {
                let value = value.bytes();
                out.push_u8(1)?;
                out.push_u32(value.len() as u32)?;
                out.push_all(value)
            }
            Shown::Gone => out.push_u8(2),
        }
    }
}

/// Reads `count` writes that a read listed.
#[tactic(auto, unfolding(depot_base::specs::Format::list_of))]
fn listing_in(alloc: Global, fields: &mut Fields<'_>, count: u16) -> Result<Listing, Fault>
    ensures stays { GoesOn fields.old fields.new }
    ensures reads { Reads result fields.new ((list_of count answered_text any_follows).read fields.old) }
{
    let list = items_in(alloc, fields, count as u32)?;
    Ok(Listing::from_vec(list))
}

/// A read: the number of records, the key after its length, and the writes that it listed after their number.
impl Item for ReadTrace {
    ghost fits = { λ r. read_text.fits r };

    ghost text = { λ r. read_text.text r };

    ghost read = { λ c. read_text.read c };

    #[tactic(auto, unfolding(crate::specs::TraceTexts::read_text))]
    fn read(alloc: Global, fields: &mut Fields<'_>) -> Result<ReadTrace, Fault> {
        let length = u32_in(fields, 0, u32::MAX)?;
        let size = u8_in(fields, 1, MOST_KEY as u8)?;
        let key = Key::from_bytes(bytes_in(alloc, fields, size as usize)?);
        let count = u16_in(fields, 0, MOST_LEAVES)?;
        let answer = listing_in(alloc, fields, count)?;
        Ok(ReadTrace {
            length,
            key,
            answer,
        })
    }

    #[tactic(auto, using(depot_base::proofs::Writing::texts), unfolding(crate::specs::TraceTexts::read_text, depot_base::specs::Format::number, depot_base::specs::Format::bytes_of, depot_base::specs::Format::list_of))]
    fn put(&self, out: &mut Bytes) -> Result<(), Memory> {
        let key = self.key.bytes();
        let answer = self.answer.as_slice();
        out.push_u32(self.length)?;
        out.push_u8(key.len() as u8)?;
        out.push_all(key)?;
        out.push_u16(answer.len() as u16)?;
        put_items(out, answer)
    }
}
