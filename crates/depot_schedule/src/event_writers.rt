//! Writes the words after the name of an event: one function a line of the table.
ghost use Rattle.std.specs.Prelude.{◌≡◌, [], ◌∷◌, OnOk};
ghost use Rattle.std.specs.Fmt.{decimal};
ghost use Rattle.depot_schedule.specs.EventLines.{behind_event_name};
ghost use Rattle.depot_lines.specs.LineReading.{with_words};

use crate::event::{Event, HistoryWord, Ref, Refs};
use crate::reference_writers::{deps, history, prev, reference, references};
use depot_base::{Change, Key, Kind, Memory, NodeId, Value};
use depot_lines::{Label, LineWriter};

/// The label that a statement makes, its writer and its number.
fn statement(out: &mut LineWriter, name: &Label, writer: NodeId, seq: u32) -> Result<(), Memory>
    ensures { OnOk result (out.new ≡ with_words out.old (name.now ∷ decimal writer ∷ decimal seq ∷ [])) }
{
    out.label(name)?;
    out.node(writer)?;
    out.number(seq as u64)
}

/// `put N KEY VALUE`
#[tactic(auto, unfolding(crate::specs::EventLines::put_line))]
fn put(out: &mut LineWriter, id: NodeId, key: &Key, value: &Value) -> Result<(), Memory>
    ensures { OnOk result (out.new ≡ with_words out.old (behind_event_name (Event.Put id key.now value.now))) }
{
    out.node(id)?;
    out.key_and_value(key, value)
}

/// `puts N WRITES`
#[tactic(auto, unfolding(crate::specs::EventLines::puts_line))]
fn puts(out: &mut LineWriter, id: NodeId, changes: &[Change]) -> Result<(), Memory>
    ensures { OnOk result (out.new ≡ with_words out.old (behind_event_name (Event.Puts id changes.now))) }
{
    out.node(id)?;
    out.changes(changes)
}

/// `get N KEY`
#[tactic(auto, unfolding(crate::specs::EventLines::get_line))]
fn get(out: &mut LineWriter, id: NodeId, key: &Key) -> Result<(), Memory>
    ensures { OnOk result (out.new ≡ with_words out.old (behind_event_name (Event.Get id key.now))) }
{
    out.node(id)?;
    out.hex(key.bytes())
}

/// `hello N LABEL`
#[tactic(auto, unfolding(crate::specs::EventLines::hello_line))]
fn hello(out: &mut LineWriter, id: NodeId, name: &Label) -> Result<(), Memory>
    ensures { OnOk result (out.new ≡ with_words out.old (behind_event_name (Event.Hello id name.now))) }
{
    out.node(id)?;
    out.label(name)
}

/// `bundle N HELLO LABEL`
#[tactic(auto, unfolding(crate::specs::EventLines::bundle_line))]
fn bundle(out: &mut LineWriter, id: NodeId, source: &Label, name: &Label) -> Result<(), Memory>
    ensures { OnOk result (out.new ≡ with_words out.old (behind_event_name (Event.Bundle id source.now name.now))) }
{
    out.node(id)?;
    out.label(source)?;
    out.label(name)
}

/// `give N LABEL` or `give N LABEL SIZE`
#[tactic(auto, unfolding(crate::specs::EventLines::give_line))]
fn give(out: &mut LineWriter, id: NodeId, name: &Label, size: Option<u32>) -> Result<(), Memory>
    ensures { OnOk result (out.new ≡ with_words out.old (behind_event_name (Event.Give id name.now size))) }
{
    out.node(id)?;
    out.label(name)?;
    match size {
        None => Ok(()),
        Some(n) => out.number(n as u64),
    }
}

/// `restart N`
#[tactic(auto, unfolding(crate::specs::EventLines::restart_line))]
fn restart(out: &mut LineWriter, id: NodeId) -> Result<(), Memory>
    ensures { OnOk result (out.new ≡ with_words out.old (behind_event_name (Event.Restart id))) }
{
    out.node(id)
}

/// `update LABEL W SEQ CLOCK PREV KEY VALUE DEPS HISTORY`
#[tactic(auto, unfolding(crate::specs::EventLines::update_line))]
fn update(
    out: &mut LineWriter,
    name: &Label,
    writer: NodeId,
    seq: u32,
    clock: u64,
    before: &Option<Ref>,
    key: &Key,
    value: &Value,
    refs: &Refs,
    past: &HistoryWord,
) -> Result<(), Memory>
    ensures { OnOk result (out.new ≡ with_words out.old (behind_event_name (Event.Update name.now writer seq clock before.now key.now value.now refs.now past.now))) }
{
    statement(out, name, writer, seq)?;
    out.number(clock)?;
    prev(out, before)?;
    out.key_and_value(key, value)?;
    deps(out, refs.as_slice())?;
    history(out, past)
}

/// `updates LABEL W SEQ CLOCK PREV WRITES DEPS HISTORY`
#[tactic(auto, unfolding(crate::specs::EventLines::updates_line))]
fn updates(
    out: &mut LineWriter,
    name: &Label,
    writer: NodeId,
    seq: u32,
    clock: u64,
    before: &Option<Ref>,
    changes: &[Change],
    refs: &Refs,
    past: &HistoryWord,
) -> Result<(), Memory>
    ensures { OnOk result (out.new ≡ with_words out.old (behind_event_name (Event.Updates name.now writer seq clock before.now changes.now refs.now past.now))) }
{
    statement(out, name, writer, seq)?;
    out.number(clock)?;
    prev(out, before)?;
    out.changes(changes)?;
    deps(out, refs.as_slice())?;
    history(out, past)
}

/// `voucher LABEL W SEQ REFS`
#[tactic(auto, unfolding(crate::specs::EventLines::voucher_line))]
fn voucher(
    out: &mut LineWriter,
    name: &Label,
    writer: NodeId,
    seq: u32,
    refs: &Refs,
) -> Result<(), Memory>
    ensures { OnOk result (out.new ≡ with_words out.old (behind_event_name (Event.Voucher name.now writer seq refs.now))) }
{
    statement(out, name, writer, seq)?;
    references(out, refs.as_slice())
}

/// `proof LABEL KIND A B`
#[tactic(auto, unfolding(crate::specs::EventLines::proof_line))]
fn proof(
    out: &mut LineWriter,
    name: &Label,
    found: Kind,
    first: &Label,
    second: &Label,
) -> Result<(), Memory>
    ensures { OnOk result (out.new ≡ with_words out.old (behind_event_name (Event.Proof name.now found first.now second.now))) }
{
    out.label(name)?;
    out.kind(found)?;
    out.label(first)?;
    out.label(second)
}

/// `hollow LABEL V T`
#[tactic(auto, unfolding(crate::specs::EventLines::hollow_line))]
fn hollow(out: &mut LineWriter, name: &Label, voucher: &Label, text: &Label) -> Result<(), Memory>
    ensures { OnOk result (out.new ≡ with_words out.old (behind_event_name (Event.Hollow name.now voucher.now text.now))) }
{
    out.label(name)?;
    out.label(voucher)?;
    out.label(text)
}

/// `judge LABEL`
#[tactic(auto, unfolding(crate::specs::EventLines::judge_line))]
fn judge(out: &mut LineWriter, name: &Label) -> Result<(), Memory>
    ensures { OnOk result (out.new ≡ with_words out.old (behind_event_name (Event.Judge name.now))) }
{
    out.label(name)
}

/// `raw LABEL HEX`
#[tactic(auto, unfolding(crate::specs::EventLines::raw_line))]
fn raw(out: &mut LineWriter, name: &Label, bytes: &[u8]) -> Result<(), Memory>
    ensures { OnOk result (out.new ≡ with_words out.old (behind_event_name (Event.Raw name.now bytes.now))) }
{
    out.label(name)?;
    out.hex_or_dash(bytes)
}

/// `cut LABEL FROM START COUNT`
#[tactic(auto, unfolding(crate::specs::EventLines::cut_line))]
fn cut(
    out: &mut LineWriter,
    name: &Label,
    source: &Label,
    start: u32,
    count: u32,
) -> Result<(), Memory>
    ensures { OnOk result (out.new ≡ with_words out.old (behind_event_name (Event.Cut name.now source.now start count))) }
{
    out.label(name)?;
    out.label(source)?;
    out.number(start as u64)?;
    out.number(count as u64)
}

/// `flip LABEL FROM PLACE`
#[tactic(auto, unfolding(crate::specs::EventLines::flip_line))]
fn flip(out: &mut LineWriter, name: &Label, source: &Label, place: u32) -> Result<(), Memory>
    ensures { OnOk result (out.new ≡ with_words out.old (behind_event_name (Event.Flip name.now source.now place))) }
{
    out.label(name)?;
    out.label(source)?;
    out.number(place as u64)
}

/// `join LABEL A B`
#[tactic(auto, unfolding(crate::specs::EventLines::join_line))]
fn join(out: &mut LineWriter, name: &Label, first: &Label, second: &Label) -> Result<(), Memory>
    ensures { OnOk result (out.new ≡ with_words out.old (behind_event_name (Event.Join name.now first.now second.now))) }
{
    out.label(name)?;
    out.label(first)?;
    out.label(second)
}

/// `stop N K IMAGE`
#[tactic(auto, unfolding(crate::specs::EventLines::stop_line))]
fn stop(out: &mut LineWriter, id: NodeId, call: u32, image: u8) -> Result<(), Memory>
    ensures { OnOk result (out.new ≡ with_words out.old (behind_event_name (Event.Stop id call image))) }
{
    out.node(id)?;
    out.number(call as u64)?;
    out.number(image as u64)
}

/// `receipt N REFS`
#[tactic(auto, unfolding(crate::specs::EventLines::receipt_line))]
fn receipt(out: &mut LineWriter, id: NodeId, refs: &Refs) -> Result<(), Memory>
    ensures { OnOk result (out.new ≡ with_words out.old (behind_event_name (Event.Receipt id refs.now))) }
{
    out.node(id)?;
    references(out, refs.as_slice())
}

/// `settled N REF K`
#[tactic(auto, unfolding(crate::specs::EventLines::settled_line))]
fn settled(out: &mut LineWriter, id: NodeId, update: &Ref, k: u32) -> Result<(), Memory>
    ensures { OnOk result (out.new ≡ with_words out.old (behind_event_name (Event.Settled id update.now k))) }
{
    out.node(id)?;
    reference(out, update)?;
    out.number(k as u64)
}

/// `checkpoint N LABEL`
#[tactic(auto, unfolding(crate::specs::EventLines::checkpoint_line))]
fn checkpoint(out: &mut LineWriter, id: NodeId, name: &Label) -> Result<(), Memory>
    ensures { OnOk result (out.new ≡ with_words out.old (behind_event_name (Event.Checkpoint id name.now))) }
{
    out.node(id)?;
    out.label(name)
}

/// `sign N LABEL`
#[tactic(auto, unfolding(crate::specs::EventLines::sign_line))]
fn sign(out: &mut LineWriter, id: NodeId, name: &Label) -> Result<(), Memory>
    ensures { OnOk result (out.new ≡ with_words out.old (behind_event_name (Event.Sign id name.now))) }
{
    out.node(id)?;
    out.label(name)
}

/// `trim N LABEL NAME`
#[tactic(auto, unfolding(crate::specs::EventLines::trim_line))]
fn trim(out: &mut LineWriter, id: NodeId, text: &Label, name: &Label) -> Result<(), Memory>
    ensures { OnOk result (out.new ≡ with_words out.old (behind_event_name (Event.Trim id text.now name.now))) }
{
    out.node(id)?;
    out.label(text)?;
    out.label(name)
}

/// `tgive NAME LABEL`
#[tactic(auto, unfolding(crate::specs::EventLines::tgive_line))]
fn tgive(out: &mut LineWriter, name: &Label, stream: &Label) -> Result<(), Memory>
    ensures { OnOk result (out.new ≡ with_words out.old (behind_event_name (Event.Tgive name.now stream.now))) }
{
    out.label(name)?;
    out.label(stream)
}

/// `tget NAME KEY`
#[tactic(auto, unfolding(crate::specs::EventLines::tget_line))]
fn tget(out: &mut LineWriter, name: &Label, key: &Key) -> Result<(), Memory>
    ensures { OnOk result (out.new ≡ with_words out.old (behind_event_name (Event.Tget name.now key.now))) }
{
    out.label(name)?;
    out.hex(key.bytes())
}

/// The words after the name of an event.
#[tactic(auto, unfolding(crate::specs::EventLines::audit_line))]
pub fn words_of_event(out: &mut LineWriter, event: &Event) -> Result<(), Memory>
    ensures { OnOk result (out.new ≡ with_words out.old (behind_event_name event.now)) }
{
    match event {
        Event::Put { node, key, value } => put(out, *node, key, value),
        Event::Puts { node, changes } => puts(out, *node, changes.as_slice()),
        Event::Get { node, key } => get(out, *node, key),
        Event::Hello { node, label } => hello(out, *node, label),
        Event::Bundle { node, hello, label } => bundle(out, *node, hello, label),
        Event::Give { node, label, size } => give(out, *node, label, *size),
        Event::Restart { node } => restart(out, *node),
        Event::Update {
            label,
            writer,
            seq,
            clock,
            prev,
            key,
            value,
            deps,
            history,
        } => update(
            out, label, *writer, *seq, *clock, prev, key, value, deps, history,
        ),
        Event::Updates {
            label,
            writer,
            seq,
            clock,
            prev,
            changes,
            deps,
            history,
        } => {
            let changes = changes.as_slice();
            updates(
                out, label, *writer, *seq, *clock, prev, changes, deps, history,
            )
        }
        Event::Voucher {
            label,
            writer,
            seq,
            refs,
        } => voucher(out, label, *writer, *seq, refs),
        Event::Proof {
            label,
            kind,
            first,
            second,
        } => proof(out, label, *kind, first, second),
        Event::Hollow {
            label,
            voucher,
            text,
        } => hollow(out, label, voucher, text),
        Event::Judge { label } => judge(out, label),
        Event::Raw { label, bytes } => raw(out, label, bytes.as_slice()),
        Event::Cut {
            label,
            source,
            start,
            count,
        } => cut(out, label, source, *start, *count),
        Event::Flip {
            label,
            source,
            place,
        } => flip(out, label, source, *place),
        Event::Join {
            label,
            first,
            second,
        } => join(out, label, first, second),
        Event::Stop { node, call, image } => stop(out, *node, *call, *image),
        Event::Receipt { node, refs } => receipt(out, *node, refs),
        Event::Settled { node, reference, k } => settled(out, *node, reference, *k),
        Event::Audit => Ok(()),
        Event::Checkpoint { node, label } => checkpoint(out, *node, label),
        Event::Sign { node, label } => sign(out, *node, label),
        Event::Trim { node, label, name } => trim(out, *node, label, name),
        Event::Tgive { name, label } => tgive(out, name, label),
        Event::Tget { name, key } => tget(out, name, key),
    }
}
