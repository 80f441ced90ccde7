//! The rounds of a load.
ghost use Rattle.std.specs.Prelude.{◌≡◌, ◌^◌, ◌<◌, ◌≤◌, IsTrue, OnOk, IfOk};
ghost use Rattle.depot_world.specs.Loads.{bundled, drawn, exchange_round, faulty_round, get_round, given, label_of, other_than, put_round, round, round_by, some_key, some_node, update_round, draft_with};
ghost use Rattle.depot_lines.specs.Spelling.{is_letter};
ghost use Rattle.depot_schedule.specs.declared.event.Event.TheVariants.{Give};

use crate::event_parts::{key, label, node, value};
use crate::load_draft::LoadDraft;
use depot_base::{Key, Memory, NodeId, Sequence};
use depot_schedule::{Event, HistoryWord};
use std::alloc::Global;

/// How many nodes are correct.
const CORRECT: u16 = 5;

/// How many keys there are.
const KEYS: u16 = 40;

/// The number of the faulty node.
pub const FAULTY: u16 = 9;

/// The size of the pieces in which some bundles are given, in bytes.
const PIECE: u32 = 1460;

/// Draws a correct node.
fn some_node(draft: &mut LoadDraft) -> NodeId
    ensures draft { draft.new ≡ drawn draft.old }
    ensures node { result ≡ some_node draft.new }
    ensures few { result ≤ 5 }
{
    node(1 + draft.draw(CORRECT))
}

/// Draws a key.
fn some_key(alloc: Global, draft: &mut LoadDraft) -> Result<Key, Memory>
    ensures draft { draft.new ≡ drawn draft.old }
    ensures key { IfOk result (λ key. key ≡ some_key draft.new) }
{
    key(alloc, draft.draw(KEYS))
}

/// The correct node of place `place`, from 1, among those but for one.
pub fn other_than(one: NodeId, place: u16) -> NodeId
    requires { (0 < place) × (place < 5) }
    ensures { result ≡ other_than one place }
{
    if one.number() <= place {
        node(place + 1)
    } else {
        node(place)
    }
}

/// A node puts the number of the round under a key.
fn put_round(alloc: Global, draft: &mut LoadDraft, round: u32) -> Result<(), Memory>
    ensures { OnOk result (draft.new ≡ put_round round draft.old) }
{
    let node = some_node(draft);
    let key = some_key(alloc, draft)?;
    let value = value(alloc, round)?;
    draft.push(Event::Put { node, key, value })
}

/// A node reads a key.
fn get_round(alloc: Global, draft: &mut LoadDraft) -> Result<(), Memory>
    ensures { OnOk result (draft.new ≡ get_round draft.old) }
{
    let node = some_node(draft);
    let key = some_key(alloc, draft)?;
    draft.push(Event::Get { node, key })
}

/// A node makes a bundle for another's hello.
pub fn bundle(
    alloc: Global,
    draft: &mut LoadDraft,
    giver: NodeId,
    taker: NodeId,
    letters: (u8, u8),
    number: u32,
) -> Result<(), Memory>
    requires { IsTrue (is_letter letters.0) × IsTrue (is_letter letters.1) }
    ensures { OnOk result (draft.new ≡ bundled giver taker (label_of letters.0 number) (label_of letters.1 number) draft.old) }
{
    let made = label(alloc, letters.0, number)?;
    draft.push(Event::Hello {
        node: taker,
        label: made,
    })?;
    let hello = label(alloc, letters.0, number)?;
    let made = label(alloc, letters.1, number)?;
    draft.push(Event::Bundle {
        node: giver,
        hello,
        label: made,
    })
}

/// A node takes the bytes of the label of a letter and a number, whole or in pieces.
pub fn give(
    alloc: Global,
    draft: &mut LoadDraft,
    node: NodeId,
    letter: u8,
    number: u32,
    size: Option<u32>,
) -> Result<(), Memory>
    requires { IsTrue (is_letter letter) }
    ensures { OnOk result (draft.new ≡ draft_with draft.old (Give node (label_of letter number) size)) }
{
    let label = label(alloc, letter, number)?;
    draft.push(Event::Give { node, label, size })
}

/// A node takes the bundle of a round, by the number drawn for it.
fn given(
    alloc: Global,
    draft: &mut LoadDraft,
    how: u16,
    taker: NodeId,
    round: u32,
) -> Result<(), Memory>
    ensures { OnOk result (draft.new ≡ given how taker (label_of 98 round) draft.old) }
{
    match how {
        0 => Ok(()),
        1 => {
            give(alloc, draft, taker, b'b', round, None)?;
            give(alloc, draft, taker, b'b', round, None)
        }
        2 => give(alloc, draft, taker, b'b', round, Some(PIECE)),
        _ => give(alloc, draft, taker, b'b', round, None),
    }
}

/// A node takes another's bundle, or doesn't.
fn exchange_round(alloc: Global, draft: &mut LoadDraft, round: u32) -> Result<(), Memory>
    ensures { OnOk result (draft.new ≡ exchange_round round draft.old) }
{
    let giver = some_node(draft);
    let taker = other_than(giver, 1 + draft.draw(CORRECT - 1));
    bundle(alloc, draft, giver, taker, (b'h', b'b'), round)?;
    let how = draft.draw(8);
    given(alloc, draft, how, taker, round)
}

/// A node takes an update of the faulty node.
fn update_round(
    alloc: Global,
    draft: &mut LoadDraft,
    round: u32,
    taker: NodeId,
) -> Result<(), Memory>
    requires { draft.old.updates < 2 ^ 12 }
    ensures { OnOk result (draft.new ≡ update_round round taker draft.old) }
{
    let key = some_key(alloc, draft)?;
    let event = Event::Update {
        label: label(alloc, b'f', round)?,
        writer: node(FAULTY),
        seq: draft.updates,
        clock: 1,
        prev: None,
        key,
        value: value(alloc, round)?,
        deps: Sequence::new(alloc),
        history: HistoryWord::Right,
    };
    draft.push(event)?;
    give(alloc, draft, taker, b'f', round, None)?;
    draft.updates += 1;
    Ok(())
}

/// A node starts again, or takes an update of the faulty node.
fn faulty_round(alloc: Global, draft: &mut LoadDraft, round: u32) -> Result<(), Memory>
    requires { draft.old.updates < 2 ^ 12 }
    ensures { OnOk result (draft.new ≡ faulty_round round draft.old) }
{
    let node = some_node(draft);
    if draft.draw(4) == 0 {
        draft.push(Event::Restart { node })
    } else {
        update_round(alloc, draft, round, node)
    }
}

/// A round by the number drawn for it.
fn round_by(alloc: Global, draft: &mut LoadDraft, kind: u16, round: u32) -> Result<(), Memory>
    requires { draft.old.updates < 2 ^ 12 }
    ensures { OnOk result (draft.new ≡ round_by kind round draft.old) }
{
    if kind < 5 {
        put_round(alloc, draft, round)
    } else if kind < 7 {
        get_round(alloc, draft)
    } else if kind < 9 {
        exchange_round(alloc, draft, round)
    } else {
        faulty_round(alloc, draft, round)
    }
}

/// Adds a round.
#[tactic(auto, unfolding(crate::specs::Loads::round))]
pub fn round(alloc: Global, draft: &mut LoadDraft, number: u32) -> Result<(), Memory>
    requires { draft.old.updates < 2 ^ 12 }
    ensures { OnOk result (draft.new ≡ round number draft.old) }
{
    let kind = draft.draw(10);
    round_by(alloc, draft, kind, number)
}
