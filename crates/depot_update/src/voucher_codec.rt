//! Fields of vouchers.
ghost use Rattle.std.specs.Prelude.{◌≡◌, ◌++◌, OnOk};
ghost use Rattle.depot_base.specs.Parts.{digests};
ghost use Rattle.depot_base.specs.Format.{whole};
ghost use Rattle.depot_base.specs.Reading.{Reads, Gives};
ghost use Rattle.depot_model.specs.texts.Texts.{voucher_fields, voucher_body};

use depot_base::entry::{entries_in, put_entries};
use depot_base::fault::Fault;
use depot_base::limits::MOST_IDS;
use depot_base::reading::{at_end, node_in, u8_in, u16_in, u32_in};
use depot_base::{Bytes, Fields, Ids, Memory, Voucher};
use std::alloc::Global;

/// Reads `count` ids, rising strictly.
#[tactic(auto, unfolding(depot_base::specs::Format::list_of))]
fn ids_in(alloc: Global, fields: &mut Fields<'_>, count: u16) -> Result<Ids, Fault>
    ensures { Reads result fields.new ((digests count).read fields.old) }
{
    let ids = entries_in(alloc, fields, count, 0)?;
    Ok(Ids::from_vec(ids))
}

/// Reads the fields of a voucher after its version and kind.
#[tactic(auto, unfolding(depot_model::specs::texts::Texts::voucher_fields))]
pub(crate) fn voucher_fields_in(alloc: Global, fields: &mut Fields<'_>) -> Result<Voucher, Fault>
    ensures { Reads result fields.new (voucher_fields.read fields.old) }
{
    let node = node_in(fields)?;
    let seq = u32_in(fields, 0, u32::MAX)?;
    let count = u16_in(fields, 1, MOST_IDS)?;
    let ids = ids_in(alloc, fields, count)?;
    Ok(Voucher { node, seq, ids })
}

/// Reads the body of a voucher, where nothing else may be.
#[tactic(auto, unfolding(depot_model::specs::texts::Texts::voucher_body))]
fn voucher_in(alloc: Global, fields: &mut Fields<'_>) -> Result<Voucher, Fault>
    ensures { Reads result fields.new (voucher_body.read fields.old) }
{
    u8_in(fields, 1, 1)?;
    u8_in(fields, 2, 2)?;
    voucher_fields_in(alloc, fields)
}

/// Reads the body of a voucher from all the bytes that are left.
pub(crate) fn whole_voucher(alloc: Global, fields: &mut Fields<'_>) -> Result<Voucher, Fault>
    ensures { Gives result (whole voucher_body fields.old) }
{
    let voucher = voucher_in(alloc, fields)?;
    at_end(fields, voucher)
}

/// Writes the fields of a voucher after its version and kind.
#[tactic(auto, using(depot_base::proofs::Writing::texts), unfolding(depot_model::specs::texts::Texts::voucher_fields, depot_base::specs::Format::number, depot_base::specs::Format::list_of))]
pub(crate) fn put_voucher_fields(out: &mut Bytes, voucher: &Voucher) -> Result<(), Memory>
    requires { voucher_fields.fits voucher.now }
    ensures { OnOk result (out.new ≡ out.old ++ voucher_fields.text voucher.now) }
{
    out.push_u16(voucher.node.number())?;
    out.push_u32(voucher.seq)?;
    let ids = voucher.ids.as_slice();
    out.push_u16(ids.len() as u16)?;
    put_entries(out, ids)
}

/// Writes the body of a voucher.
#[tactic(auto, using(depot_base::proofs::Writing::texts), unfolding(depot_model::specs::texts::Texts::voucher_body, depot_base::specs::Format::number))]
pub(crate) fn put_voucher(out: &mut Bytes, voucher: &Voucher) -> Result<(), Memory>
    requires { voucher_body.fits voucher.now }
    ensures { OnOk result (out.new ≡ out.old ++ voucher_body.text voucher.now) }
{
    out.push_u8(1)?;
    out.push_u8(2)?;
    put_voucher_fields(out, voucher)
}
