//! The table of what the records of traces brought.
ghost use Rattle.std.specs.Prelude.{◌↔◌, List, [], ◌∷◌, ◌++◌, map, IsTrue, OnOk, IfOk};
ghost use Rattle.std.specs.List.{flat_map};
ghost use Rattle.depot_base.specs.declared.record.Record.{Record};
ghost use Rattle.depot_base.specs.declared.record.Record.TheVariants.{OwnPut, Foreign};
ghost use Rattle.depot_laws.specs.OneText.{HaveOneText};
ghost use Rattle.depot_model.specs.texts.Records.{IsRecord, IsTextOf};
ghost use Rattle.depot_model.specs.worlds.World.{Correct, World, IsWorld};
ghost use Rattle.depot_model.specs.worlds.Traces.{IsWorldOf};
ghost use Rattle.depot_traces.specs.SeenTraces.{trace_of};
ghost use Rattle.depot_audit.specs.MetTexts.{AreTexts, AreToldBy, IsMetOf};
ghost use Rattle.depot_audit.specs.TracedWorlds.{IsMetIn};

use crate::met_updates::MetUpdates;
use crate::met_values::MetValues;
use crate::record_text::record_of;
use depot_base::{Bytes, Memory, Record, Signed, Statement, Update, ValueList};
use depot_model::hash_of;
use depot_traces::Trace;
use depot_update::id_in_own_put;
use std::alloc::Global;

/// A table by hash of what the records of traces brought: each update under its id, with whether its node put it, and each value under
/// its hash, each once.
#[derive(Drop)]
pub struct Met {
    pub(crate) updates: MetUpdates,
    pub(crate) values: MetValues,
}

impl Met {
    /// Makes the table of the records of traces. It scans their texts in order, and decodes each once.
    pub fn of_traces(alloc: Global, traces: &[&Trace]) -> Result<Met, Memory>
        requires { (W : World) × IsWorldOf (map (λ t. trace_of t.now) traces.now) W }
        ensures { IfOk result (λ met. (W : World) → IsWorldOf (map (λ t. trace_of t.now) traces.now) W → IsMetIn W met) }
    {
        met_of(alloc, traces)
    }

    /// Whether no two different updates, and no two different values, had one hash.
    pub fn is_apart(&self) -> bool
        ensures { (W : World) → IsWorld W → IsMetIn W self.now → IsTrue result ↔ HaveOneText W }
    {
        let updates = self.updates.is_apart();
        let values = self.values.is_apart();
        updates && values
    }

    /// Adds what the records of texts brought.
    fn take_texts(&mut self, alloc: Global, texts: &[Bytes]) -> Result<(), Memory>
        requires { (K : List Record) × AreTexts K texts.now }
        ensures { OnOk result ((rs K : List Record) → AreTexts K texts.now → IsMetOf rs self.old → IsMetOf (rs ++ K) self.new) }
    {
        for text in texts {
            self.take_text(alloc, text.as_slice())?;
        }
        Ok(())
    }

    /// Adds what the record of a text brought.
    fn take_text(&mut self, alloc: Global, text: &[u8]) -> Result<(), Memory>
        requires { (r : Record) × IsTextOf r text.now }
        ensures { OnOk result ((rs : List Record) (r : Record) → IsTextOf r text.now → IsMetOf rs self.old → IsMetOf (rs ++ r ∷ []) self.new) }
    {
        let item = record_of(alloc, text)?;
        self.take(text, item)
    }

    /// Adds what a record brought, whose text this is.
    fn take(&mut self, text: &[u8], item: Record) -> Result<(), Memory>
        requires { IsTextOf item text.now }
        ensures { OnOk result ((rs : List Record) → IsMetOf rs self.old → IsMetOf (rs ++ item ∷ []) self.new) }
    {
        match item {
            Record::OwnPut { update, values } => self.take_put(text, update, values),
            Record::Foreign { signed } => self.take_foreign(signed),
            Record::Held { value } => self.values.add(value),
            Record::Birth { .. } => Ok(()),
            Record::OwnVoucher { .. } => Ok(()),
            Record::Conviction { .. } => Ok(()),
        }
    }

    /// Adds an own update and its values; the text is that of their record.
    fn take_put(&mut self, text: &[u8], update: Update, values: ValueList) -> Result<(), Memory>
        requires { IsTextOf (OwnPut update values) text.now }
        ensures { OnOk result ((rs : List Record) → IsMetOf rs self.old → IsMetOf (rs ++ OwnPut update values ∷ []) self.new) }
    {
        self.updates.add(id_in_own_put(text), update, true)?;
        self.values.add_all(values)
    }

    /// Adds the update of another, where the statement is one.
    fn take_foreign(&mut self, signed: Signed) -> Result<(), Memory>
        requires { IsRecord (Foreign signed) }
        ensures { OnOk result ((rs : List Record) → IsMetOf rs self.old → IsMetOf (rs ++ Foreign signed ∷ []) self.new) }
    {
        let Signed {
            statement,
            body,
            signature: _,
        } = signed;
        match statement {
            Statement::Update(update) => {
                self.updates.add(hash_of(body.as_slice()), update, false)
            }
            Statement::Voucher(_) => Ok(()),
        }
    }
}

/// The table of the records of traces.
fn met_of(alloc: Global, traces: &[&Trace]) -> Result<Met, Memory>
    requires { (cs : List Correct) × AreToldBy cs (map (λ t. t.now) traces.now) }
    ensures { IfOk result (λ met. (cs : List Correct) → AreToldBy cs (map (λ t. t.now) traces.now) → IsMetOf (flat_map (λ c. c.journal) cs) met) }
{
    let mut met = Met {
        updates: MetUpdates::new(alloc),
        values: MetValues::new(alloc),
    };
    for trace in traces {
        met.take_texts(alloc, trace.texts.as_slice())?;
    }
    Ok(met)
}
