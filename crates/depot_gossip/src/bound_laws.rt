//! What holds of bounded bundles and of far hellos. Each law is a function that does nothing; its contract is the law.
ghost use Rattle.std.specs.Prelude.{◌≡◌, List, ℕ, false};
ghost use Rattle.depot_base.specs.declared.record.Record.{Record};
ghost use Rattle.depot_base.specs.declared.update.Update.{Update};
ghost use Rattle.depot_laws.specs.Rejoin.{updates_of};
ghost use Rattle.depot_model.specs.declared.hello.Hello.{Hello};
ghost use Rattle.depot_model.specs.exchange.Bundle.{Signs, bundle_answer, parcels};
ghost use Rattle.depot_model.specs.checks.Checks.{Setting};
ghost use Rattle.depot_model.specs.exchange.Hello.{IsHello};
ghost use Rattle.depot_model.specs.journals.Lawful.{IsLawful, is_empty};
ghost use Rattle.depot_model.specs.lists.Lists.{IsIn};
ghost use Rattle.depot_model.specs.texts.Texts.{IsRoster};
ghost use Rattle.depot_gossip.specs.BoundFacts.{IsSpared, KeepsBounds, KeepsLeaves, NamesAccepted, SendsFirst, SendsFront, unbounded};
ghost use Rattle.depot_gossip.specs.Bounding.{bounded_answer, bounded_sent};
ghost use Rattle.depot_gossip.specs.FarHellos.{far_hello};
ghost use Rattle.depot_gossip.specs.declared.bounds.Bounds.{Bounds};

/// Without bounds a bounded bundle is the bundle.
pub fn no_bounds_law()
    ensures { (here : Setting) (sign : Signs) (J : List Record) (text : List ℕ) → bounded_answer here sign J text unbounded ≡ bundle_answer here sign J text }
{}

/// What is sent within bounds is a prefix of all that there is to send, or of the node's own updates; and it is all of
/// it if the answer says that there is no more.
pub fn bounded_bundles_are_fronts()
    ensures { (here : Setting) (sign : Signs) (J : List Record) (h : Hello) (b : Bounds) → SendsFront here sign J h b }
{}

/// Bounds are kept. The first parcel is sent if it fits into a bundle and needs no more vouchers than allowed, whatever
/// bytes it takes.
pub fn bounds_are_kept()
    ensures kept { (here : Setting) (sign : Signs) (J : List Record) (h : Hello) (b : Bounds) → KeepsBounds here J b (bounded_sent here sign J h b) }
    ensures first { (here : Setting) (sign : Signs) (J : List Record) (h : Hello) (b : Bounds) → SendsFirst here sign J h b }
{}

/// The answer to a hello, be it a far one or not, has no update that the hello names, and none that precedes an update
/// which it names and which was accepted there.
pub fn named_updates_are_spared()
    ensures { (sign : Signs) (K : List Record) (h : Hello) (u : Update) → IsIn u (updates_of (parcels sign K h)) → IsSpared K h u }
{}

/// The far hello of a lawful journal has a text, names only accepted updates, and names each leaf.
pub fn far_hellos_have_a_text()
    ensures text { (here : Setting) (J : List Record) → IsRoster here.listed → IsLawful here J → is_empty J ≡ false → IsHello (far_hello here J) }
    ensures accepted { (here : Setting) (J : List Record) → NamesAccepted here J }
    ensures leaves { (here : Setting) (J : List Record) → KeepsLeaves here J }
{}
