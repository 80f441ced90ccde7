//! The audit: what it finds in a world, and when it says yes.
ghost use Rattle.std.specs.Prelude.{◌≡◌, ℕ, List, [], Bool, true, Some, None, ◌↔◌, slice_get, find, option_map};
ghost use Rattle.depot_base.specs.declared.update.Update.{Update};
ghost use Rattle.depot_model.specs.lists.Lists.{IsIn};
ghost use Rattle.depot_model.specs.updates.Order.{Precedes};
ghost use Rattle.depot_model.specs.worlds.World.{Read, Correct, World, IsWorld, IsAuthentic, IsCollisionFree, writes_of};
ghost use Rattle.depot_model.specs.worlds.Causality.{Operation, write, read_at, IsOperation, ObservedBefore, IsExact, IsForkJoinCausal, ConvictsNoCorrectNode};
ghost use Rattle.depot_base.specs.declared.key.RosterEntry.{RosterEntry};
ghost use Rattle.depot_base.specs.declared.record.Record.{Record};
ghost use Rattle.depot_model.specs.declared.record_fault.RecordFault.{RecordFault};
ghost use Rattle.depot_model.specs.checks.Checks.{Setting};
ghost use Rattle.depot_model.specs.checks.RecordFaults.{IsFault};
ghost use Rattle.depot_model.specs.texts.Roster.{Verifies};
ghost use Rattle.depot_model.specs.worlds.Traces.{Trace, AreTraced, IsFindingOf, IsCausalWorldOf};
ghost use Rattle.depot_laws.specs.OneText.{HaveOneText};
ghost use Rattle.depot_model.specs.worlds.Audit.{Finding, HasPath, writes_once, closed, observed, observed_by_parents, op_of, yes_found, circle_found, circle, unordered, unseen, is_exact, split_finding, finding_in};
ghost use Rattle.depot_laws.specs.ToReads.{IsUpToRead};
ghost use Rattle.depot_laws.specs.AuditFacts.{ListsPuts, ReadsLookAtWrites, AreOfNodes};

/// A closure over a list of intermediate elements finds a path exactly where one leads through these.
pub fn closures_find_paths()
    ensures { (edge : Operation → Operation → Bool) (among : List Operation) (a b : Operation) → (closed edge among a b ≡ true ↔ HasPath edge among a b) }
{}

/// In a world the test of observation passes for two of its operations exactly where one is observed before the other.
pub fn observed_is_observation()
    ensures { (W : World) (a b : Operation) → IsWorld W → IsOperation W a → IsOperation W b → (observed W a b ≡ true ↔ ObservedBefore W a b) }
{}

/// In a world each node's operations are observed in the order in which it made them, all that a node accepted is observed before
/// what it then put, and each journal's updates are separate branches. Nothing is assumed of signatures or of hashes.
pub fn lawful_worlds_are_in_line()
    ensures unordered { (W : World) → IsWorld W → unordered W ≡ None }
    ensures unseen { (W : World) → IsWorld W → unseen W ≡ None }
    ensures split { (W : World) → IsWorld W → split_finding W ≡ None }
{}

/// In a world a write is observed before another exactly where a path of parents leads from it to the other, and before a read
/// exactly where it is a write that the read's records accepted, or such a path leads to one. A read is observed before itself
/// only where a path of parents leads from a write to itself. Nothing is assumed of signatures or of hashes.
pub fn writes_are_observed_by_parents()
    ensures writes { (W : World) (t u : Update) → IsWorld W → (ObservedBefore W (write t) (write u) ↔ Precedes (writes_of W) t u) }
    ensures reads { (W : World) (t : Update) (c : Correct) (place : ℕ) (r : Read) → IsWorld W → IsOperation W (read_at c place r) → (ObservedBefore W (write t) (read_at c place r) ↔ IsUpToRead W t c r) }
    ensures circles { (W : World) (c : Correct) (place : ℕ) (r : Read) → IsWorld W → ObservedBefore W (read_at c place r) (read_at c place r) → (t : Update) × Precedes (writes_of W) t t }
{}

/// Where no two different texts of a world have one hash, nothing is observed before itself, and a read is exact exactly where each
/// write that it lists of a node of the world is one that this node put.
pub fn worlds_apart_are_ordered()
    ensures circle { (W : World) → IsWorld W → HaveOneText W → circle W ≡ None }
    ensures exact { (W : World) (c : Correct) (place : ℕ) (r : Read) → IsWorld W → HaveOneText W → IsIn c W.nodes → slice_get c.reads place ≡ Some r → (is_exact W c place r ≡ true ↔ ListsPuts W r) }
{}

/// In a world the test of a read passes exactly where the read is exact.
pub fn exact_reads_pass()
    ensures { (W : World) (c : Correct) (place : ℕ) (r : Read) → IsWorld W → IsIn c W.nodes → slice_get c.reads place ≡ Some r → (is_exact W c place r ≡ true ↔ IsExact W c place r) }
{}

/// So an audit may look at writes alone: a write is observed before another exactly where the closure of parents over
/// all writes finds a path, and before a read exactly where the read's records accepted it, or accepted a write to
/// which such a path leads. The least operation that is observed before itself is a write.
pub fn audits_look_at_writes_alone()
    ensures writes { (W : World) (t u : Update) → IsWorld W → IsIn t (writes_of W) → IsIn u (writes_of W) → observed W (write t) (write u) ≡ observed_by_parents W t u }
    ensures reads { (W : World) → IsWorld W → ReadsLookAtWrites W }
    ensures circle { (W : World) → IsWorld W → circle W ≡ option_map (λ u. circle_found (op_of W (write u))) (find (λ u. observed_by_parents W u u) (writes_once W)) }
{}

/// The audit of a world without judged proofs says yes exactly where the world is fork-join causal and no conviction
/// names one of its nodes.
pub fn audits_say_yes()
    ensures { (W : World) → IsWorld W → W.judged ≡ [] → (finding_in W ≡ yes_found ↔ (IsForkJoinCausal W × ConvictsNoCorrectNode W)) }
{}

/// Where no correct node's signature was forged and no two hashed texts collide, the audit says yes.
pub fn causal_worlds_get_yes()
    ensures { (W : World) → IsWorld W → IsAuthentic W → IsCollisionFree W → finding_in W ≡ yes_found }
{}

/// A text that follows the records of a lawful journal has at most one fault, and none exactly where it may follow.
pub fn texts_have_one_fault()
    ensures { (here : Setting) (J : List Record) (text : List ℕ) (f g : RecordFault) → IsFault here J text f → IsFault here J text g → f ≡ g }
{}

/// Traces have one finding: the first node with a fault in its records, else the first read that isn't what its journal showed,
/// else what is found in the one world that they make.
pub fn traces_have_one_finding()
    ensures { (verifies : Verifies) (listed : List RosterEntry) (traces : List Trace) (f g : Finding) → IsFindingOf verifies listed traces f → IsFindingOf verifies listed traces g → f ≡ g }
{}

/// Let the traces be of distinct nodes of the roster, each with a record. Then they make a world where each node's
/// records are lawful and its reads are what its journal showed, and their finding is yes exactly where this world is
/// fork-join causal and no conviction in it names one of its nodes.
pub fn traces_get_yes()
    ensures world { (verifies : Verifies) (listed : List RosterEntry) (ts : List Trace) (W : World) → AreOfNodes listed ts → AreTraced verifies listed ts W → IsWorld W }
    ensures yes { (verifies : Verifies) (listed : List RosterEntry) (ts : List Trace) → AreOfNodes listed ts → (IsFindingOf verifies listed ts yes_found ↔ IsCausalWorldOf verifies listed ts) }
{}
