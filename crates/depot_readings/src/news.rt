//! The records of a growth as they are kept.
ghost use Rattle.std.specs.Prelude.{◌≡◌, ◌∷◌, [], length, map, IfOk};
ghost use Rattle.std.specs.List.{AllByRecursion};
ghost use Rattle.depot_base.specs.WithRest.{with_rest};
ghost use Rattle.depot_base.specs.declared.record.Record.TheVariants.{Foreign};
ghost use Rattle.depot_base.specs.declared.statement.Signed.{Signed};
ghost use Rattle.depot_model.specs.texts.Records.{IsRecord, text_of_record};
ghost use Rattle.depot_model.specs.texts.Texts.{text_of_signed};
ghost use Rattle.depot_model.specs.checks.Vouching.{records_of};
ghost use Rattle.depot_readings.specs.NewRecords.{records_in, vouchers_of};
ghost use Rattle.depot_readings.specs.RecordTexts.{given_of};

use depot_base::{
    Bytes, Hash32, Memory, NodeId, Proof, Record, Sequence, Signed, Update, Value, ValueList,
    Voucher,
};
use depot_update::{
    encode_conviction, encode_held, encode_own_put, encode_own_voucher, encode_record, foreign_tag,
};
use std::alloc::Global;

/// The records of a growth, with the hashes by which they are kept: the id of a statement, SHA-256 of a value of others. Where one brings
/// an update, the items of its parents go with it.
#[derive(Drop)]
pub enum News {
    /// None.
    Nothing,
    /// The birth of the node.
    Birth {
        node: NodeId,
        roster: Hash32,
    },
    /// An own update and its values.
    Put {
        update: Update,
        values: ValueList,
        id: Hash32,
        parents: Vec<u32>,
    },
    /// A statement of another.
    Foreign {
        signed: Signed,
        id: Hash32,
        parents: Vec<u32>,
    },
    /// The conviction of a writer, and after it a statement of another.
    Convicting {
        proof: Proof,
        signed: Signed,
        id: Hash32,
        parents: Vec<u32>,
    },
    /// A conviction.
    Conviction(Proof),
    /// A value of others.
    Held {
        value: Value,
        hash: Hash32,
    },
    /// Own vouchers.
    Vouchers(Sequence<NewVoucher>),
}

/// An own voucher, and its id.
#[derive(Drop)]
pub struct NewVoucher {
    pub(crate) voucher: Voucher,
    pub(crate) id: Hash32,
}

impl News {
    /// How many records there are.
    pub(crate) fn count(&self) -> usize
        ensures { result ≡ length (records_in self.now) }
    {
        match self {
            News::Nothing => 0,
            News::Convicting { .. } => 2,
            News::Vouchers(vouchers) => vouchers.as_slice().len(),
            _ => 1,
        }
    }

    /// The texts of the records, but of a statement of another the tag alone.
    pub(crate) fn texts(&self, alloc: Global) -> Result<Vec<Bytes>, Memory>
        requires { AllByRecursion IsRecord (records_in self.now) }
        ensures { IfOk result (λ texts. with_rest texts.items (given_of (records_in self.now)) ≡ map text_of_record (records_in self.now)) }
    {
        match self {
            News::Nothing => Ok(Vec::new(alloc)),
            News::Birth { node, roster } => {
                let item = Record::Birth {
                    node: *node,
                    roster: *roster,
                };
                alone(alloc, encode_record(alloc, &item)?)
            }
            News::Put { update, values, .. } => {
                alone(alloc, encode_own_put(alloc, update, values)?.text)
            }
            News::Foreign { .. } => alone(alloc, foreign_tag(alloc)?),
            News::Convicting { proof, .. } => with_tag(alloc, encode_conviction(alloc, proof)?),
            News::Conviction(proof) => alone(alloc, encode_conviction(alloc, proof)?),
            News::Held { value, .. } => alone(alloc, encode_held(alloc, value)?),
            News::Vouchers(vouchers) => voucher_texts(alloc, vouchers.as_slice()),
        }
    }
}

/// One text.
pub(crate) fn alone(alloc: Global, text: Bytes) -> Result<Vec<Bytes>, Memory>
    ensures { IfOk result (λ texts. texts.items ≡ text ∷ []) }
{
    let texts = vec![in alloc; text]?;
    Ok(texts)
}

/// A text, and after it the tag of the record of another's statement.
pub(crate) fn with_tag(alloc: Global, text: Bytes) -> Result<Vec<Bytes>, Memory>
    ensures { IfOk result (λ texts. (s : Signed) → with_rest texts.items (text_of_signed s) ≡ text ∷ text_of_record (Foreign s) ∷ []) }
{
    let tag = foreign_tag(alloc)?;
    let texts = vec![in alloc; text, tag]?;
    Ok(texts)
}

/// The texts of the records of own vouchers.
fn voucher_texts(alloc: Global, vouchers: &[NewVoucher]) -> Result<Vec<Bytes>, Memory>
    requires { AllByRecursion IsRecord (records_of (vouchers_of vouchers.now)) }
    ensures { IfOk result (λ texts. texts.items ≡ map text_of_record (records_of (vouchers_of vouchers.now))) }
{
    let mut texts = Vec::with_capacity(alloc, vouchers.len())?;
    for item in vouchers {
        texts.push(encode_own_voucher(alloc, &item.voucher)?)?;
    }
    Ok(texts)
}
