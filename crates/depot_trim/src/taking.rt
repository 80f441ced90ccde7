//! A reader takes what it is given.
ghost use Rattle.std.specs.Prelude.{◌≡◌};
ghost use Rattle.depot_base.specs.Sized.{IsValue};
ghost use Rattle.depot_model.specs.checks.Checks.{given_statement, given_value};
ghost use Rattle.depot_model.specs.readers.Pruning.{pruned};
ghost use Rattle.depot_model.specs.readers.Readers.{Reader, reader_outcome};
ghost use Rattle.depot_model.specs.checks.Taking.{as_statement, as_proof, as_value};
ghost use Rattle.depot_model.specs.texts.Texts.{IsSigned, id_of_statement, text_of_signed};
ghost use Rattle.depot_accept.specs.ToSignature.{PassesEarly};
ghost use Rattle.depot_trim.specs.ReaderView.{IsReaderOf};
ghost use Rattle.depot_trim.specs.ReaderAnswers.{Becomes, ReaderTakes};

use crate::naming::first_named;
use crate::trim_error::TrimTake;
use crate::trimmed::Trimmed;
use depot_accept::Front;
use depot_base::limits::MOST_VALUE;
use depot_base::{Bytes, Check, DecodeError, Hash32, Signed, Value};
use depot_decide::{decide_checked, decide_judged};
use depot_model::{Scheme, Taken, hash_of};
use depot_update::{decode_proof, decode_signed};

impl<S: Scheme> Trimmed<S> {
    /// Takes the text of a signed statement of another writer. `BelowCheckpoint` is returned exactly when the statement
    /// passes the checks of text, writer and signature, is new, and names a trimmed update: as a parent, or as one of
    /// its own writer with the same seq or prev. Each other answer but `Memory` is that of a node with the whole
    /// journal; the reader is then that of the journal with what the node would have appended. `Full` counts the
    /// records of the whole journal.
    pub fn take_statement(&mut self, text: &[u8]) -> Result<Taken, TrimTake>
        requires { (R : Reader) × IsReaderOf S.verifies R self.old }
        ensures { (R : Reader) → IsReaderOf S.verifies R self.old → ReaderTakes S.verifies R as_statement text.now result self.new }
    {
        match decode_signed(self.alloc, text) {
            Ok(signed) => self.take_signed(signed, text),
            Err(DecodeError::Memory) => Err(TrimTake::Memory),
            Err(DecodeError::IllFormed(at)) => Err(TrimTake::Refused(Check::IllFormed(at))),
        }
    }

    /// Takes a signed statement of this text. Its body is hashed once.
    fn take_signed(&mut self, signed: Signed, text: &[u8]) -> Result<Taken, TrimTake>
        requires reader { (R : Reader) × IsReaderOf S.verifies R self.old }
        requires signed { IsSigned signed }
        requires text { text.now ≡ text_of_signed signed }
        ensures { (R : Reader) → IsReaderOf S.verifies R self.old → Becomes S.verifies R (reader_outcome R (given_statement signed)) result self.new }
    {
        let id = hash_of(signed.body.as_slice());
        match self.state.check_to_signature(&signed, &id) {
            Front::Known => Ok(Taken::Known),
            Front::Refused(check) => Err(TrimTake::Refused(check)),
            Front::Passed => self.take_passed(signed, id, text),
        }
    }

    /// Takes a new statement that passes the checks up to the signature. It is below if it names a trimmed update; else
    /// the remaining checks run.
    fn take_passed(&mut self, signed: Signed, id: Hash32, text: &[u8]) -> Result<Taken, TrimTake>
        requires reader { (R : Reader) × IsReaderOf S.verifies R self.old }
        requires signed { IsSigned signed }
        requires text { text.now ≡ text_of_signed signed }
        requires id { id ≡ id_of_statement signed.statement }
        requires passed { (R : Reader) → IsReaderOf S.verifies R self.old → PassesEarly R.here (pruned R.trimmed R.journal) signed }
        ensures { (R : Reader) → IsReaderOf S.verifies R self.old → Becomes S.verifies R (reader_outcome R (given_statement signed)) result self.new }
    {
        if let Some(below) = first_named(&self.marks, &signed.statement) {
            return Err(TrimTake::BelowCheckpoint(below));
        }
        let checked = self.state.check_after_signature(&signed, &id);
        let decision = decide_checked(self.alloc, &self.state, signed, id, text, checked)?;
        self.carry_out(decision)
    }

    /// Takes the text of a proof, which is never below. All else is as for a statement.
    pub fn take_proof(&mut self, text: &[u8]) -> Result<Taken, TrimTake>
        requires { (R : Reader) × IsReaderOf S.verifies R self.old }
        ensures { (R : Reader) → IsReaderOf S.verifies R self.old → ReaderTakes S.verifies R as_proof text.now result self.new }
    {
        match decode_proof(self.alloc, text) {
            Ok(proof) => {
                let decision = decide_judged(self.alloc, &self.state, proof, text)?;
                self.carry_out(decision)
            }
            Err(DecodeError::Memory) => Err(TrimTake::Memory),
            Err(DecodeError::IllFormed(at)) => Err(TrimTake::Refused(Check::IllFormed(at))),
        }
    }

    /// Takes a value, whose text is its bytes, at most 65,536. It is known if a value of its hash is held, new if a
    /// kept update names its hash and length, and else refused as unwanted. It takes no room in the journal. On
    /// `Memory` and after a refusal the reader is unchanged.
    pub fn take_value(&mut self, text: &[u8]) -> Result<Taken, TrimTake>
        ensures { (R : Reader) → IsReaderOf S.verifies R self.old → ReaderTakes S.verifies R as_value text.now result self.new }
    {
        if text.len() > MOST_VALUE {
            return Err(TrimTake::Refused(Check::IllFormed(MOST_VALUE as u32)));
        }
        self.take_short(text)
    }

    /// The same of at most 65,536 bytes. They are hashed once.
    fn take_short(&mut self, bytes: &[u8]) -> Result<Taken, TrimTake>
        requires { IsValue bytes.now }
        ensures { (R : Reader) → IsReaderOf S.verifies R self.old → Becomes S.verifies R (reader_outcome R (given_value bytes.now)) result self.new }
    {
        let hash = hash_of(bytes);
        if self.values.get(&hash).is_some() {
            return Ok(Taken::Known);
        }
        if !self.named.names(&hash, bytes.len() as u32) {
            return Err(TrimTake::Refused(Check::Unwanted(hash)));
        }
        let value = Value::from_bytes(Bytes::from_slice(self.alloc, bytes)?);
        self.values.add_hashed(hash, value)?;
        Ok(Taken::New)
    }
}
