//! The order of the updates of a graph.
ghost use Rattle.std.specs.Prelude.{◌≡◌, ◌<◌, [], length, map, true};
ghost use Rattle.std.specs.Map.{keys_of};
ghost use Rattle.depot_model.specs.texts.Texts.{id_of_update};
ghost use Rattle.depot_model.specs.updates.Order.{listed};
ghost use Rattle.depot_model.specs.lists.Items.{PrecedesAt};
ghost use Rattle.depot_graph.specs.Causal.{is_causal, causal_from_test};
ghost use Rattle.depot_graph.specs.Clocked.{clock_items, are_items-prop};
ghost use Rattle.depot_graph.specs.Kept.{updates_in};
ghost use Rattle.depot_graph.specs.Listing.{ListedAt};

use crate::item::item_at;
use depot_base::{Hash32, Precedes, Steps, Update};
use depot_order::Clocks;
use indexmap::IndexMap;
use std::cmp::Ordering;
use std::sync::ledger::Ledger;

/// The updates of a graph, by paths of parents, and as a read lists them.
#[derive(Drop)]
pub struct Order<'a> {
    /// The updates under their ids, in the order in which they came.
    pub items: &'a IndexMap<Hash32, Update>,
    /// Which of them precedes which.
    pub clocks: &'a Clocks,
    ghost ids: { keys_of items.now.entries ≡ map id_of_update (updates_in items.now.entries) },
    ghost causal: { is_causal [] (updates_in items.now.entries) ≡ true },
    ghost clocked: { clocks.now ≡ clock_items (updates_in items.now.entries) } by { are_items-prop clocks.now (clock_items (updates_in items.now.entries)) },
}

impl Precedes for Order<'_> {
    ghost use Rattle.depot_graph.specs.OrderLaws.{precedes_no_self as no_self_precedes, precedes_on as precedes_through, lists_no_self as no_self_listed, lists_on as lists_through, lists_all as one_is_first};

    ghost has = { λ o a. a < length (updates_in o.items.now.entries) };

    ghost precedes = { λ o a b. PrecedesAt (updates_in o.items.now.entries) a b };

    ghost listed = { λ o a b. ListedAt (updates_in o.items.now.entries) a b };

    fn before<L: Ledger>(&self, a: u32, b: u32, steps: &mut Steps<L>) -> bool {
        self.clocks.before(a, b, steps)
    }

    fn lists_first(&self, a: u32, b: u32) -> bool {
        let (id, update) = item_at(self.items, a);
        let (other_id, other) = item_at(self.items, b);
        compare(update, id, other, other_id).is_lt()
    }

    ghost precedes_no_self = { λ o a has before. no_self_precedes (updates_in o.items.now.entries) a (causal_from_test [] (updates_in o.items.now.entries) o.causal) before };

    ghost precedes_on = { λ o a b c has_a has_b has_c first second. precedes_through (updates_in o.items.now.entries) a b c first second };

    ghost lists_no_self = { λ o a has before. no_self_listed (updates_in o.items.now.entries) a before };

    ghost lists_on = { λ o a b c has_a has_b has_c first second. lists_through (updates_in o.items.now.entries) a b c first second };

    ghost lists_all = { λ o a b has_a has_b. one_is_first (updates_in o.items.now.entries) a b (causal_from_test [] (updates_in o.items.now.entries) o.causal) has_a has_b };
}

/// How two updates with these ids are in the listed order: by clock, writer, seq and id.
fn compare(update: &Update, id: &Hash32, other: &Update, other_id: &Hash32) -> Ordering
    requires id { id.now ≡ id_of_update update.now }
    requires other_id { other_id.now ≡ id_of_update other.now }
    ensures { result ≡ listed update.now other.now }
{
    update
        .clock
        .cmp(&other.clock)
        .then(update.writer.cmp(&other.writer))
        .then(update.seq.cmp(&other.seq))
        .then(id.cmp(other_id))
}
