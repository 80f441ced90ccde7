//! A node as others see it: what they read of its journal, and what they give it.
ghost use Rattle.std.specs.Prelude.{◌≡◌, ◌<◌, ◌≤◌, ◌^◌, ◌++◌, ℕ, List, [], IsTrue, true, false, length, map, Some, slice_get};
ghost use Rattle.depot_base.specs.Calls.{Made};
ghost use Rattle.depot_base.specs.declared.limits.TheConstants.{MOST_SIGNATURE};
ghost use Rattle.depot_model.specs.journals.Lawful.{IsLawful, is_empty};
ghost use Rattle.depot_model.specs.texts.Records.{text_of_record};
ghost use Rattle.depot_model.specs.journals.Replicas.{IsTakeCall};
ghost use Rattle.depot_model.specs.texts.Roster.{key_of, has_node};
ghost use Rattle.depot_model.specs.journals.Stops.{LeavesAll};
ghost use Rattle.depot_model.specs.checks.Taking.{TakesStatement, TakesProof, TakesValue, as_statement, as_proof, as_value};
ghost use Rattle.depot_model.specs.texts.Texts.{IsRoster, hash_of_roster};

use crate::{NodeState, Scheme, TakeError, Taken};
use depot_base::{Hash32, NodeId};

/// A replica: a node with a journal, which takes what others give it. A call that never returns Memory takes none. A
/// node whose disk failed is stopped: each call that would change it returns Stopped.
pub trait Replica: NodeState {
    /// The scheme by which it verifies signatures.
    type Of: Scheme;

    /// Its own number.
    fn me(&self) -> NodeId
        ensures { result ≡ (Self.stands self.now).me };

    /// SHA-256 of its roster's text.
    fn roster_hash(&self) -> &Hash32
        ensures { result.now ≡ hash_of_roster (Self.stands self.now).listed };

    /// Whether its roster has a node.
    fn has_node(&self, node: NodeId) -> bool
        ensures { result ≡ has_node (Self.stands self.now).listed node };

    /// Whether it is stopped. Its records are in every crash image.
    fn is_stopped(&self) -> bool
        ensures stopped { result ≡ Self.stopped self.now }
        ensures stable { IsTrue (Self.tells self.now) → LeavesAll (Self.records self.now) (Self.stopped self.now) (Self.may_leave self.now) };

    /// How many records its journal has, 1 to 131,072.
    fn record_count(&self) -> u32
        ensures { result ≡ length (Self.records self.now) };

    /// The text of the record of a place, from 0.
    fn record_text(&self, place: u32) -> &[u8]
        requires { place < length (Self.records self.now) }
        ensures { slice_get (map text_of_record (Self.records self.now)) place ≡ Some result.now };

    /// Takes the text of a signed statement of others. Known, New, the first check that fails, and Full come exactly
    /// where the definition says, and the journal grows by what it says. On `Memory` and `Full` the node is unchanged;
    /// so it is after a failed check, except where a fork or a step back convicts the writer. On `Disk` the records
    /// before the failing one are appended, and the node is stopped. Every crash image of the call has the records from
    /// before and a prefix of those that are appended; on `Memory`, none of these. On the disk the call makes the calls
    /// that append records, and no other.
    fn take_statement(&mut self, text: &[u8]) -> Result<Taken, TakeError>
        ensures takes { TakesStatement (Self.stands self.old) (Self.records self.old) text.now result (Self.records self.new) }
        ensures call { IsTakeCall Self.NodeState as_statement self.old self.new text.now result };

    /// The same for the text of a proof.
    fn take_proof(&mut self, text: &[u8]) -> Result<Taken, TakeError>
        ensures takes { TakesProof (Self.stands self.old) (Self.records self.old) text.now result (Self.records self.new) }
        ensures call { IsTakeCall Self.NodeState as_proof self.old self.new text.now result };

    /// The same for a value, whose text is its bytes.
    fn take_value(&mut self, text: &[u8]) -> Result<Taken, TakeError>
        ensures takes { TakesValue (Self.stands self.old) (Self.records self.old) text.now result (Self.records self.new) }
        ensures call { IsTakeCall Self.NodeState as_value self.old self.new text.now result };

    /// Its journal is lawful, whether it is stopped or not.
    ghost lawful: { (r : Self) → IsLawful (Self.stands r) (Self.records r) };

    /// Its journal isn't empty: the birth comes first.
    ghost some: { (r : Self) → is_empty (Self.records r) ≡ false };

    /// Its roster has a text, and its own key is in the roster.
    ghost formed: { (r : Self) → IsRoster (Self.stands r).listed };

    /// The key under which it signs is the roster's for it.
    ghost keyed: { (r : Self) → key_of (Self.stands r).listed (Self.stands r).me ≡ Some (Self.key r) };

    /// It verifies by its scheme.
    ghost verifies_by: { (r : Self) → (Self.stands r).verifies ≡ Self.Of.verifies };

    /// Since this moment there is no other.
    ghost only_now: { (r : Self) (file : List ℕ) → Self.left_since r (Self.moment r) file → Self.may_leave r file };

    /// This moment is one of those since an earlier one.
    ghost counts_now: { (r : Self) (t : ℕ) (file : List ℕ) → t ≤ Self.moment r → Self.may_leave r file → Self.left_since r t file };

    /// By no call on its disk it becomes itself.
    ghost after_none: { (r : Self) → Self.after r [] r };

    /// Calls on its disk may follow one another.
    ghost after_more: { (old between new : Self) (calls more : List Made) → Self.after old calls between → Self.after between more new → Self.after old (calls ++ more) new };

    /// What it signs by a leaf of its tree verifies under its key.
    ghost signs: { (r : Self) (seq : ℕ) (body : List ℕ) → seq < 2 ^ (Self.key r).height → Self.Of.verifies (Self.key r) seq body (Self.signature_of r seq body) ≡ true };

    /// Its signatures are short enough for a text.
    ghost short: { (r : Self) (seq : ℕ) (body : List ℕ) → length (Self.signature_of r seq body) ≤ MOST_SIGNATURE };
}
