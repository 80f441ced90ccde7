//! What a journal grows by in one call.
ghost use Rattle.std.specs.Prelude.{◌≡◌, ◌≤◌, ◌+◌, ◌*◌, ◌++◌, ◌^◌, List, [], ◌∷◌, length, map, None, IfOk};
ghost use Rattle.std.specs.List.{AllByRecursion};
ghost use Rattle.sha2.specs.Sha256.{sha256};
ghost use Rattle.depot_base.specs.WithRest.{with_rest};
ghost use Rattle.depot_base.specs.declared.limits.TheConstants.{MOST_RECORDS, MOST_RECORD};
ghost use Rattle.depot_base.specs.declared.record.Record.{Record};
ghost use Rattle.depot_base.specs.declared.record.Record.TheVariants.{Birth, OwnPut, OwnVoucher, Foreign, Conviction, Held};
ghost use Rattle.depot_base.specs.declared.statement.Statement.TheVariants as statements;
ghost use Rattle.depot_model.specs.texts.Records.{IsRecord, journal_bytes, text_of_record, IsTextOf};
ghost use Rattle.depot_model.specs.texts.Texts.{IsProof, IsSigned, id_of_statement, id_of_update, text_of_proof, text_of_signed};
ghost use Rattle.depot_model.specs.checks.Vouching.{records_of};
ghost use Rattle.depot_readings.specs.NewRecords.{bytes_of_records, records_in, IsGrowth};
ghost use Rattle.depot_readings.specs.RecordTexts.{IsGiven, given_of};

use crate::news::{NewVoucher, News, alone, with_tag};
use depot_base::{
    Bytes, Hash32, Memory, NodeId, Proof, Sequence, Signed, Update, Value, ValueList, Voucher,
};
use depot_update::{encode_conviction, encode_own_voucher, id_in_own_voucher};
use std::alloc::Global;
use std::marker::Model;

/// What a journal grows by in one call: up to two records, or own vouchers. Each is decoded, with the hash that keeping
/// it needs, so that it isn't hashed again; an update comes with the places of its parents, so that they aren't
/// searched again. A growth is seen as the list of the records. It knows how many bytes they take, and has those of
/// their texts that were encoded to make it.
#[derive(Drop)]
pub struct Growth {
    pub(crate) news: News,
    pub(crate) bytes: u64,
    // The texts to append, where all of them are encoded already.
    pub(crate) texts: Option<Vec<Bytes>>,
}

impl Model for Growth {
    ghost use Rattle.std.specs.Prelude.{List};
    ghost use Rattle.depot_base.specs.declared.record.Record.{Record};
    ghost use Rattle.depot_readings.specs.NewRecords.{records_in, IsGrowth};

    ghost Value = { List Record };

    ghost view = { λ g. records_in g.news };

    ghost invariant = { λ g. IsGrowth g.news g.bytes g.texts };
}

impl Growth {
    /// No records. It takes no memory.
    pub fn nothing() -> Growth
        ensures { result ≡ [] }
    {
        Growth::unencoded(News::Nothing, 0)
    }

    /// The birth of a node. It takes no memory.
    pub fn birth(node: NodeId, roster: Hash32) -> Growth
        requires text { IsRecord (Birth node roster) }
        ensures { result ≡ Birth node roster ∷ [] }
    {
        Growth::unencoded(News::Birth { node, roster }, BIRTH)
    }

    /// An own update and its values, just encoded: `text` is the text of their record. `parents` hints at the items of
    /// its parents, for the graph.
    pub fn put(
        alloc: Global,
        update: Update,
        values: ValueList,
        id: Hash32,
        parents: Vec<u32>,
        text: Bytes,
    ) -> Result<Growth, Memory>
        requires text { IsTextOf (OwnPut update values) text }
        requires id { id ≡ id_of_update update }
        ensures { IfOk result (λ g. g ≡ OwnPut update values ∷ []) }
    {
        let bytes = size_of(text.as_slice().len());
        let texts = alone(alloc, text)?;
        Ok(Growth {
            news: News::Put {
                update,
                values,
                id,
                parents,
            },
            bytes,
            texts: Some(texts),
        })
    }

    /// An own update and its values, read from a record of this text. Only the text's length is used. It takes no
    /// memory.
    pub fn read_put(
        update: Update,
        values: ValueList,
        id: Hash32,
        parents: Vec<u32>,
        text: &[u8],
    ) -> Growth
        requires text { IsTextOf (OwnPut update values) text.now }
        requires id { id ≡ id_of_update update }
        ensures { result ≡ OwnPut update values ∷ [] }
    {
        let news = News::Put {
            update,
            values,
            id,
            parents,
        };
        Growth::unencoded(news, size_of(text.len()))
    }

    /// An own voucher, read from a record of this text. Only the text's length is used.
    pub fn read_voucher(
        alloc: Global,
        voucher: Voucher,
        id: Hash32,
        text: &[u8],
    ) -> Result<Growth, Memory>
        requires text { IsTextOf (OwnVoucher voucher) text.now }
        requires id { id ≡ id_of_statement (statements.Voucher voucher) }
        ensures { IfOk result (λ g. g ≡ OwnVoucher voucher ∷ []) }
    {
        let vouchers = vec![in alloc; NewVoucher { voucher, id }]?;
        let news = News::Vouchers(Sequence::from_vec(vouchers));
        Ok(Growth::unencoded(news, size_of(text.len())))
    }

    /// A statement of another, of this text. Only the text's length is used. `parents` hints at the items of an
    /// update's parents, for counting leaves and for the graph. It takes no memory.
    pub fn foreign(signed: Signed, id: Hash32, parents: Vec<u32>, text: &[u8]) -> Growth
        requires signed { IsSigned signed }
        requires id { id ≡ id_of_statement signed.statement }
        requires text { text.now ≡ text_of_signed signed }
        ensures { result ≡ Foreign signed ∷ [] }
    {
        let news = News::Foreign {
            signed,
            id,
            parents,
        };
        Growth::unencoded(news, tagged_size(text))
    }

    /// The conviction of a writer, and after it a statement of this text. The proof is encoded. `parents` is as in
    /// `foreign`.
    pub fn convicting(
        alloc: Global,
        proof: Proof,
        signed: Signed,
        id: Hash32,
        parents: Vec<u32>,
        text: &[u8],
    ) -> Result<Growth, Memory>
        requires proof { IsProof proof }
        requires signed { IsSigned signed }
        requires id { id ≡ id_of_statement signed.statement }
        requires text { text.now ≡ text_of_signed signed }
        ensures { IfOk result (λ g. g ≡ Conviction proof ∷ Foreign signed ∷ []) }
    {
        let proof_text = encode_conviction(alloc, &proof)?;
        let bytes = size_of(proof_text.as_slice().len()) + tagged_size(text);
        let texts = with_tag(alloc, proof_text)?;
        Ok(Growth {
            news: News::Convicting {
                proof,
                signed,
                id,
                parents,
            },
            bytes,
            texts: Some(texts),
        })
    }

    /// A conviction by a proof that was just made. It is encoded.
    pub fn conviction(alloc: Global, proof: Proof) -> Result<Growth, Memory>
        requires proof { IsProof proof }
        ensures { IfOk result (λ g. g ≡ Conviction proof ∷ []) }
    {
        let text = encode_conviction(alloc, &proof)?;
        let bytes = size_of(text.as_slice().len());
        let texts = alone(alloc, text)?;
        Ok(Growth {
            news: News::Conviction(proof),
            bytes,
            texts: Some(texts),
        })
    }

    /// A conviction by a proof that was given, of this text. Only the text's length is used. It takes no memory.
    pub fn given_conviction(proof: Proof, text: &[u8]) -> Growth
        requires proof { IsProof proof }
        requires text { text.now ≡ text_of_proof proof }
        ensures { result ≡ Conviction proof ∷ [] }
    {
        Growth::unencoded(News::Conviction(proof), tagged_size(text))
    }

    /// A value of others. It takes no memory.
    pub fn held(value: Value, hash: Hash32) -> Growth
        requires hash { hash ≡ sha256 value }
        ensures { result ≡ Held value ∷ [] }
    {
        let bytes = tagged_size(value.bytes());
        Growth::unencoded(News::Held { value, hash }, bytes)
    }

    /// Own vouchers, no more than a journal may have records. Each is encoded once, and hashed once.
    pub fn vouchers(alloc: Global, vouchers: Vec<Voucher>) -> Result<Growth, Memory>
        requires texts { AllByRecursion (λ v. IsRecord (OwnVoucher v)) vouchers.items }
        requires few { length vouchers.items ≤ MOST_RECORDS }
        ensures { IfOk result (λ g. g ≡ records_of vouchers.items) }
    {
        let mut items = Vec::with_capacity(alloc, vouchers.len())?;
        let mut texts = Vec::with_capacity(alloc, vouchers.len())?;
        let mut bytes = 0;
        for voucher in vouchers {
            let text = encode_own_voucher(alloc, &voucher)?;
            let id = id_in_own_voucher(text.as_slice());
            bytes += size_of(text.as_slice().len());
            items.push(NewVoucher { voucher, id })?;
            texts.push(text)?;
        }
        Ok(Growth {
            news: News::Vouchers(Sequence::from_vec(items)),
            bytes,
            texts: Some(texts),
        })
    }

    /// Records of `bytes` bytes, whose texts aren't encoded yet.
    fn unencoded(news: News, bytes: u64) -> Growth
        requires { IsGrowth news bytes None }
        ensures { result ≡ records_in news }
    {
        Growth {
            news,
            bytes,
            texts: None,
        }
    }

    /// How many records there are. It takes no memory.
    pub fn count(&self) -> usize
        ensures count { result ≡ length self.now }
        ensures few { result ≤ MOST_RECORDS }
    {
        self.news.count()
    }

    /// How many bytes its records take in a journal. It takes no memory.
    pub fn bytes(&self) -> u64
        ensures bytes { result ≡ bytes_of_records self.now }
        ensures least { 5 * length self.now ≤ result }
        ensures small { result ≤ 2 ^ 38 }
        ensures behind { (J : List Record) → journal_bytes (J ++ self.now) ≡ journal_bytes J + result }
    {
        self.bytes
    }

    /// The texts of the records, as a journal appends them: one for each. Of another's statement, which comes last, it
    /// is the tag alone, and the text as it was given (`given`) is appended to that. Texts that were encoded to make
    /// the growth are given away, the others are encoded now. The records stay, also on `Memory`.
    pub fn take_texts(&mut self, alloc: Global) -> Result<Vec<Bytes>, Memory>
        ensures same { self.new ≡ self.old }
        ensures texts { IfOk result (λ texts. with_rest texts.items (given_of self.old) ≡ map text_of_record self.old) }
    {
        match self.texts.take() {
            Some(texts) => Ok(texts),
            None => self.news.texts(alloc),
        }
    }

    /// What is appended to the last of the texts: all of `text`, which the node was given, where the growth ends with a
    /// statement of another of this text; else nothing. It takes no memory.
    pub fn given<'a>(&self, text: &'a [u8]) -> &'a [u8]
        requires { IsGiven self.now text.now }
        ensures { result.now ≡ given_of self.now }
    {
        match &self.news {
            News::Foreign { .. } | News::Convicting { .. } => text,
            _ => &[],
        }
    }
}

/// The bytes that a record takes in a journal besides its text: its length, and the gate after it.
pub const RECORD_OVERHEAD: u32 = 5;

/// The bytes that a birth takes: its tag, a node and a hash.
const BIRTH: u64 = RECORD_OVERHEAD as u64 + 1 + 2 + 32;

/// The bytes that a record of a text of this length takes.
fn size_of(length: usize) -> u64
    requires { length ≤ MOST_RECORD }
    ensures size { result ≡ 5 + length }
    ensures small { result ≤ 5 + MOST_RECORD }
{
    RECORD_OVERHEAD as u64 + length as u64
}

/// The bytes that a record of this text after a tag takes.
fn tagged_size(text: &[u8]) -> u64
    requires { 1 + length text.now ≤ MOST_RECORD }
    ensures size { result ≡ 6 + length text.now }
    ensures small { result ≤ 5 + MOST_RECORD }
{
    size_of(1 + text.len())
}
