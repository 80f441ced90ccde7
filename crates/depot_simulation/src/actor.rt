//! A correct node at work.
ghost use Rattle.std.specs.Prelude.{◌≡◌, ◌<◌, ◌≤◌, Some, IfOk, length, option_copied, slice_get};
ghost use Rattle.depot_base.specs.declared.limits.TheConstants.{MOST_STOP_CALL};
ghost use Rattle.depot_model.specs.lists.Items.{at};
ghost use Rattle.depot_model.specs.journals.Journal.{accepted};
ghost use Rattle.depot_model.specs.journals.Lawful.{IsLawful};
ghost use Rattle.depot_model.specs.readers.Readers.{trim_of};
ghost use Rattle.depot_model.specs.texts.Texts.{id_of_update};
ghost use Rattle.depot_traces.specs.SeenTraces as seen_traces;
ghost use Rattle.depot_traces.specs.TraceTexts.{IsTrace, read_text};
ghost use Rattle.depot_traces.specs.declared.trace.TheConstants.{MOST_READS};
ghost use Rattle.depot_world.specs.Audits.{traced_read};
ghost use Rattle.depot_requests.specs.Effects.{read_at_end};
ghost use Rattle.depot_requests.specs.Requests.{IsRequest, effect_of};
ghost use Rattle.depot_world.specs.ScheduleStops.{restart_by};
ghost use Rattle.depot_world.specs.Run.{PendingStop, own_update};
ghost use Rattle.depot_simulation.specs.Acting.{Acts, HaveTexts, ActorView};
ghost use Rattle.depot_simulation.specs.Readers.{HasTrimmed};
ghost use Rattle.depot_simulation.specs.Auditing.{handed_in};

use crate::reading::{Reading, Trimming};
use depot_base::{Bytes, Hash32, Key, Memory, Update};
use depot_requests::Request;
use depot_scenario::Numbered;
use depot_traces::{ReadTrace, Trace};

/// The outcome of an event of a node.
#[derive(Drop)]
pub struct EventOutcome<A> {
    /// The node after it.
    pub actor: A,
    /// What is printed after the arrow, and the lines after that line, each with its LF.
    pub lines: Bytes,
    /// What a label is given.
    pub bytes: Bytes,
}

/// A correct node at work, with its journal on a disk in memory. Each event that it takes part in has the outcome that
/// the definitions of runs give (`depot_world`): after a stop in an event the node is started again. On `Memory` it is
/// gone.
pub trait Actor: Drop + Numbered {
    /// A reader that is made of it.
    type Reader: Reading;

    /// Its setting, its signer, its journal, and the stop that is set on its disk.
    ghost view: { Self → ActorView };

    /// How many updates it accepted. It takes no memory.
    fn update_count(&self) -> u32
        ensures { result ≡ length (accepted (view self.now).journal) };

    /// An update that it accepted, from 0. It takes no memory.
    fn update(&self, item: u32) -> &Update
        requires { item < length (accepted (view self.now).journal) }
        ensures { slice_get (accepted (view self.now).journal) item ≡ Some result.now };

    /// The id of that update. It takes no memory.
    fn id(&self, item: u32) -> &Hash32
        requires { item < length (accepted (view self.now).journal) }
        ensures { at (accepted (view self.now).journal) item (λ u. id_of_update u ≡ result.now) };

    /// Its own update of a number. `None` exactly when there is none. It takes no memory.
    fn own_update(&self, seq: u32) -> Option<&Update>
        ensures { option_copied result ≡ own_update (view self.now).journal seq };

    /// It does what it is asked.
    fn serve(self, request: Request) -> Result<EventOutcome<Self>, Memory>
        requires { IsRequest request }
        ensures { IfOk result (λ outcome. Acts view self (λ here sign correct. effect_of here sign correct request) outcome) };

    /// A read of a key at its current records, as a trace records it.
    fn read(&self, key: &Key) -> Result<ReadTrace, Memory>
        ensures { IfOk result (λ r. read_text.fits r × (seen_traces.read_of r ≡ traced_read (read_at_end (view self.now).journal key.now))) };

    /// Returns what it hands in for an audit: its records, and these of its reads, which are copied.
    fn trace(&self, reads: &[ReadTrace]) -> Result<Trace, Memory>
        requires few { length reads.now ≤ MOST_READS }
        requires fit { HaveTexts reads.now }
        ensures { IfOk result (λ t. IsTrace t × (seen_traces.trace_of t ≡ handed_in (record { view = view self.now; reads = reads.now }))) };

    /// A reader is made of it, below the checkpoint of this text.
    fn trim(&self, text: &[u8]) -> Result<Trimming<Self::Reader>, Memory>
        ensures { IfOk result (λ t. HasTrimmed Self.Reader.reads (trim_of (view self.now).here (view self.now).journal text.now) t) };

    /// It is started again from its disk.
    fn restart(self) -> Result<EventOutcome<Self>, Memory>
        ensures { IfOk result (λ outcome. Acts view self (λ here sign correct. restart_by correct) outcome) };

    /// Sets a stop on its disk and starts it again. The stop comes in this call from then on, from 1, and leaves this
    /// image; it replaces one that was set.
    fn stop_at(self, call: u32, image: u8) -> Result<Self, Memory>
        requires call { 1 ≤ call }
        requires most { call ≤ MOST_STOP_CALL }
        requires image { image ≤ 2 }
        ensures { IfOk result (λ a. view a ≡ record (view self) { pending = Some (record { call = call; image = image }) }) };

    /// Its number is that of the node that it is.
    ghost named: { (a : Self) → Self.number_of a ≡ (view a).here.me };

    /// Its journal is lawful.
    ghost lawful: { (a : Self) → IsLawful (view a).here (view a).journal };

    /// A stop that is set on its disk comes in a later call.
    ghost to_come: { (a : Self) (stop : PendingStop) → (view a).pending ≡ Some stop → 1 ≤ stop.call };
}
