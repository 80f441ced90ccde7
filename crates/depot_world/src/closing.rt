//! The end of a load.
ghost use Rattle.std.specs.Prelude.{◌≡◌, ◌<◌, OnOk};
ghost use Rattle.depot_world.specs.Loads.{exchange, greet, read};

use crate::event_parts::{key, label, node};
use crate::load_draft::LoadDraft;
use crate::rounds::{bundle, give, other_than};
use depot_base::Memory;
use depot_schedule::Event;
use std::alloc::Global;

/// Adds the exchange of this number.
#[tactic(auto, unfolding(crate::specs::Loads::exchange))]
pub fn exchange(alloc: Global, draft: &mut LoadDraft, number: u16) -> Result<(), Memory>
    ensures { OnOk result (draft.new ≡ exchange number draft.old) }
{
    let giver = node(1 + number % 20 / 4);
    let taker = other_than(giver, 1 + number % 4);
    let number = u32::from(number);
    bundle(alloc, draft, giver, taker, (b'e', b'g'), number)?;
    give(alloc, draft, taker, b'g', number, None)
}

/// Adds the read of this number.
#[tactic(auto, unfolding(crate::specs::Loads::read))]
pub fn read(alloc: Global, draft: &mut LoadDraft, number: u16) -> Result<(), Memory>
    ensures { OnOk result (draft.new ≡ read number draft.old) }
{
    let node = node(1 + number % 5);
    let key = key(alloc, number / 5)?;
    draft.push(Event::Get { node, key })
}

/// Adds the hello of this number.
#[tactic(auto, unfolding(crate::specs::Loads::greet))]
pub fn greet(alloc: Global, draft: &mut LoadDraft, number: u16) -> Result<(), Memory>
    requires { number < 5 }
    ensures { OnOk result (draft.new ≡ greet number draft.old) }
{
    let node = node(1 + number);
    let label = label(alloc, b'z', u32::from(1 + number))?;
    draft.push(Event::Hello { node, label })
}
