//! All that is read off the records of a journal.
ghost use Rattle.std.specs.Prelude.{◌≡◌, ◌++◌, [], length, is_none, option_copied, IfOk, OnOk, OnErr};
ghost use Rattle.depot_model.specs.exchange.Hello.{wanted_of};
ghost use Rattle.depot_model.specs.journals.Journal.{accepted, held, is_wanted, value_with};
ghost use Rattle.depot_model.specs.journals.Lawful.{IsLawful};
ghost use Rattle.depot_model.specs.checks.Room.{foreign_leaves, full_by};
ghost use Rattle.depot_model.specs.checks.Vouching.{is_mine_vouched};
ghost use Rattle.depot_accept.specs.StateView.{IsStateOf, setting};
ghost use Rattle.depot_graph.specs.UpdateRows.{IsJoinedRow};
ghost use Rattle.depot_readings.specs.Counts.{AreCountsOf};
ghost use Rattle.depot_readings.specs.FrontPlaces.{AddsPlaces, convictions_from};
ghost use Rattle.depot_readings.specs.LeavesWith.{leaves_with};
ghost use Rattle.depot_readings.specs.NewRecords.{AreNew};
ghost use Rattle.depot_readings.specs.Places.{accept_places};
ghost use Rattle.depot_readings.specs.ReadingsView.{standing, with_more_records};
ghost use Rattle.depot_readings.specs.Totals.{AreTotals};

use crate::counts::JournalCounts;
use crate::front_places::ConvictedAt;
use crate::growth::Growth;
use crate::leaves::leaves_with;
use crate::parts::ReadingsParts;
use crate::recorded::Recorded;
use crate::totals::Totals;
use depot_accept::{Parents, State};
use depot_base::{Full, Hash32, Ids, Memory, NodeId};
use depot_model::Scheme;
use depot_sign::Roster;
use std::alloc::Global;
use std::marker::Model;

/// All that is read off the records of a lawful journal of a node, wherever its texts are: what the checks look at, the
/// values by their hash, the names of values and which of these aren't held, the places of the records that accepted
/// updates and of those that bundles begin with, the ids that own vouchers name, and counts. It grows by `read` alone.
#[derive(Drop)]
pub struct Readings<S: Scheme> {
    parts: ReadingsParts<S>,
    // How many records were read, and the bytes that they take in a journal, with the last gate.
    count: u32,
    bytes: u64,
    records: Recorded,
}

impl<S: Scheme> Model for Readings<S> {
    ghost use Rattle.depot_readings.specs.ReadingsView.{Known};
    ghost use Rattle.depot_readings.specs.ReadingsParts.{AreParts, AreCounted};

    ghost Value = { Known };

    ghost view = { λ r. record { me = r.parts.kept.state.me; listed = r.parts.kept.state.listed; records = r.records.items } };

    ghost invariant = { λ r. AreParts r.records.items r.parts × AreCounted S.verifies r.records.items r.parts.kept.state r.count r.bytes };
}

impl<S: Scheme> Readings<S> {
    /// What is read off no records. It takes no memory.
    pub fn new(alloc: Global, state: State<S>) -> Readings<S>
        requires { IsStateOf [] state }
        ensures { result ≡ record { me = state.me; listed = state.listed; records = [] } }
    {
        Readings {
            parts: ReadingsParts::new(alloc, state),
            count: 0,
            bytes: 1,
            records: Recorded::new(),
        }
    }

    /// Reads the records of a growth after those that were read: all, or on `Memory` none.
    pub fn read(&mut self, new: Growth) -> Result<(), Memory>
        requires lawful { IsLawful (standing S.verifies self.old) (self.old.records ++ new) }
        ensures ok { OnOk result (self.new ≡ with_more_records self.old (self.old.records ++ new)) }
        ensures err { OnErr result (self.new ≡ self.old) }
    {
        let leaves = self.leaves_with(&new);
        let records = self.records.with(&new);
        let count = new.count() as u32;
        let Growth { news, bytes, .. } = new;
        self.parts.read(news, self.count, leaves)?;
        self.count += count;
        self.bytes += bytes;
        self.records = records;
        Ok(())
    }

    /// Keeps the joined row of a checked update's parents until this update is read. It takes no memory.
    pub fn keep_row(&mut self, parents: Parents)
        requires { IsJoinedRow (accepted self.old.records) parents.items.items parents.row.items }
        ensures { self.new ≡ self.old }
    {
        self.parts.kept.state.keep_row(parents);
    }

    /// The node's own number. It takes no memory.
    pub fn me(&self) -> NodeId
        ensures { result ≡ self.now.me }
    {
        self.parts.kept.state.me()
    }

    /// The roster. It takes no memory.
    pub fn roster(&self) -> &Roster
        ensures { result.now ≡ self.now.listed }
    {
        self.parts.kept.state.roster()
    }

    /// How many records were read. It takes no memory.
    pub fn count(&self) -> u32
        ensures count { result ≡ length self.now.records }
        ensures lawful { IsLawful (standing S.verifies self.now) self.now.records }
    {
        self.count
    }

    /// What the checks look at. It takes no memory.
    pub fn state(&self) -> &State<S>
        ensures state { IsStateOf self.now.records result.now }
        ensures stands { setting S.verifies result.now ≡ standing S.verifies self.now }
        ensures lawful { IsLawful (standing S.verifies self.now) self.now.records }
    {
        &self.parts.kept.state
    }

    /// What is counted of the journal's statements. It takes no memory.
    pub fn totals(&self) -> &Totals
        ensures { AreTotals self.now.me self.now.records result.now }
    {
        &self.parts.kept.totals
    }

    /// The places, from 0, of the records that accepted the updates, in the order of the accepted updates. It takes no memory.
    pub fn places(&self) -> &[u32]
        ensures { result.now ≡ accept_places self.now.records }
    {
        self.parts.places.as_slice()
    }

    /// The value with this hash, the first that a record brought. None exactly where there is none. It takes no memory.
    pub fn value(&self, hash: &Hash32) -> Option<&[u8]>
        ensures { option_copied result ≡ value_with hash.now (held self.now.records) }
    {
        self.parts.kept.values.get(hash)
    }

    /// Whether an accepted update names a value of this hash and this length. It takes no memory.
    pub fn is_wanted(&self, hash: &Hash32, size: u32) -> bool
        ensures { result ≡ is_wanted (accepted self.now.records) hash.now size }
    {
        self.parts.named.names(hash, size)
    }

    /// The hashes of the values that accepted updates name and that aren't held in that length, the first 1,024 in
    /// rising order.
    pub fn wanted(&self) -> Result<Ids, Memory>
        ensures { IfOk result (λ hashes. hashes ≡ wanted_of self.now.records) }
    {
        self.parts.lacking.first_hashes()
    }

    /// Whether one of the node's own vouchers names this id. It takes no memory.
    pub fn is_mine_vouched(&self, id: &Hash32) -> bool
        ensures { result ≡ is_mine_vouched self.now.records id.now }
    {
        self.parts.mine.contains(id)
    }

    /// The convicted nodes, each with the place, from 0, of the record that convicts it, in the order of the records. It takes no
    /// memory.
    pub fn convictions(&self) -> &[ConvictedAt]
        ensures { result.now ≡ convictions_from 0 self.now.records }
    {
        self.parts.front.convictions.as_slice()
    }

    /// Adds the places, from 0, of the own vouchers that name this id. It takes logarithmic time for each.
    pub fn push_voucher_places(&self, id: &Hash32, found: &mut Vec<u32>) -> Result<(), Memory>
        ensures { OnOk result (AddsPlaces self.now.records id.now found.old.items found.new.items) }
    {
        self.parts.front.vouchers.push_places(id, found)
    }

    /// How much the journal takes. It takes no memory.
    pub fn counts(&self) -> JournalCounts
        ensures counts { AreCountsOf self.now.me self.now.records result }
        ensures lawful { IsLawful (standing S.verifies self.now) self.now.records }
    {
        let bytes = self.bytes as u32;
        JournalCounts {
            records: self.count,
            bytes,
            leaves: self.parts.kept.totals.leaves,
        }
    }

    /// How many leaves of other writers there are with a growth, where it takes an update of another.
    fn leaves_with(&self, new: &Growth) -> Option<u32>
        ensures { result ≡ leaves_with (accepted self.now.records) (length (foreign_leaves self.now.me self.now.records)) new.now }
    {
        leaves_with(
            self.parts.kept.state.graph(),
            self.parts.kept.totals.leaves,
            new,
        )
    }

    /// The limit that the journal would pass with a growth whose statements are new to it: the first of records, bytes
    /// and leaves of other writers, with the number now. None where there is room. It takes no memory.
    pub fn limit(&self, new: &Growth) -> Option<Full>
        requires { AreNew (standing S.verifies self.now) self.now.records new.now }
        ensures { result ≡ full_by self.now.me self.now.records new.now }
    {
        self.counts().limit(new, self.leaves_with(new))
    }

    /// Whether there is room for a growth, whose statements are new to the journal. It takes no memory.
    pub fn has_room(&self, new: &Growth) -> bool
        requires { AreNew (standing S.verifies self.now) self.now.records new.now }
        ensures { result ≡ is_none (full_by self.now.me self.now.records new.now) }
    {
        self.limit(new).is_none()
    }
}
