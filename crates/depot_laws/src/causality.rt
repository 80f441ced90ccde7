//! What holds of each world of correct nodes.
ghost use Rattle.std.specs.Prelude.{◌≡◌, ℕ, List, [], ◌∷◌, ◌++◌, take, map, None, ◌↔◌};
ghost use Rattle.depot_base.specs.declared.update.Update.{Update};
ghost use Rattle.depot_base.specs.declared.statement.Statement.TheVariants as statement;
ghost use Rattle.depot_base.specs.declared.record.Record.{Record};
ghost use Rattle.depot_base.specs.declared.record.Record.TheVariants.{OwnPut};
ghost use Rattle.depot_model.specs.lists.Lists.{IsIn, first};
ghost use Rattle.depot_model.specs.texts.Texts.{id_of_update};
ghost use Rattle.depot_model.specs.updates.Order.{Precedes, past};
ghost use Rattle.depot_model.specs.lists.Items.{AreDistinct};
ghost use Rattle.depot_model.specs.journals.Journal.{accepted};
ghost use Rattle.depot_model.specs.checks.Own.{next_with, IsFresh};
ghost use Rattle.depot_model.specs.checks.Checks.{Setting, sight, content_of};
ghost use Rattle.depot_model.specs.journals.Lawful.{IsLawful};
ghost use Rattle.depot_model.specs.worlds.World.{Correct, World, IsWorld, IsAuthentic, IsCollisionFree};
ghost use Rattle.depot_model.specs.worlds.Causality.{puts_of, IsForkJoinCausal, ConvictsNoCorrectNode};
ghost use Rattle.depot_laws.specs.Parents.{ShareParents};
ghost use Rattle.depot_laws.specs.WorldFacts.{OwnPutsFollowAll, PutsPassAt, AreCorrect, AreJudged, PairsConvictNoCorrectNode};

/// All that a correct node accepted precedes its next own update, and is that update's past: each leaf is the last own
/// update, an entry, or precedes the last own update. So in a lawful journal an own update has in its past all that was
/// accepted before it. Where its id is fresh, the next own update passes the checks of its content at its own node.
pub fn own_puts_follow_all()
    ensures precedes { (here : Setting) (J : List Record) (u t : Update) → IsLawful here J → u ≡ next_with here.me J u.writes → IsIn t (accepted J) → Precedes (accepted J ++ u ∷ []) t u }
    ensures recorded { (here : Setting) (J : List Record) → IsLawful here J → OwnPutsFollowAll J }
    ensures past { (here : Setting) (J : List Record) (u : Update) → IsLawful here J → u ≡ next_with here.me J u.writes → past u (accepted J) ≡ accepted J }
    ensures content { (here : Setting) (J : List Record) (u : Update) → IsLawful here J → u ≡ next_with here.me J u.writes → IsFresh J (id_of_update u) → first (content_of J (statement.Update u)) ≡ None }
{}

/// Exactly one record of a lawful journal puts an update of the node.
pub fn own_puts_stand_once()
    ensures { (here : Setting) (before after : List Record) (u : Update) (values : List (List ℕ)) → IsLawful here (before ++ OwnPut u values ∷ after) → IsIn u (puts_of (before ++ after)) → ⊥ }
{}

/// Where no two hashed texts of a world collide, an update has one past at all nodes: any two nodes that accepted its
/// parents, each by some prefix of its journal, compute the same past. What they see of the updates that it names is
/// the same too, and so are the answers of the checks of its content, which look at nothing else.
pub fn pasts_agree()
    ensures past { (c d : Correct) (m n : ℕ) (u t : Update) → ShareParents c d m n u → (IsIn t (past u (accepted (take m c.journal))) ↔ IsIn t (past u (accepted (take n d.journal)))) }
    ensures sight { (c d : Correct) (m n : ℕ) (u : Update) → ShareParents c d m n u → sight (accepted (take m c.journal)) u ≡ sight (accepted (take n d.journal)) u }
    ensures content { (c d : Correct) (m n : ℕ) (u : Update) → ShareParents c d m n u → content_of (take m c.journal) (statement.Update u) ≡ content_of (take n d.journal) (statement.Update u) }
{}

/// So an update that a correct node put passes the checks of its content at each node that has accepted its parents.
pub fn own_puts_pass_everywhere()
    ensures { (W : World) (c d : Correct) → IsWorld W → IsCollisionFree W → IsIn c W.nodes → IsIn d W.nodes → PutsPassAt c d }
{}

/// Correct nodes under one scheme and one roster make a world, each with its reads, as long as no two have one number.
/// Any proofs with a text and a verdict may belong to it too, as judged.
pub fn correct_nodes_make_a_world()
    ensures { (W : World) → AreDistinct (map (λ c. c.node) W.nodes) → AreCorrect W → AreJudged W → IsWorld W }
{}

/// Fork-join causality, as the article names it. Let no correct node's signature be forged and no two hashed texts
/// collide. Then, whatever the nodes of a world were given: observation is one strict partial order; each correct
/// node's operations form a chain in it; all that a correct node accepted precedes what it then writes; each read
/// returns exactly the latest writes that precede it; and forks are separate branches. No conviction and no judged
/// proof names a correct node. For proofs of two statements that holds whether hashes collide or not. A voucher names
/// updates by their hashes, so another text with the hash of one of them would seem to show that its node misbehaved.
pub fn fjc_law()
    ensures causal { (W : World) → IsWorld W → IsAuthentic W → IsCollisionFree W → IsForkJoinCausal W }
    ensures convicts { (W : World) → IsWorld W → IsAuthentic W → IsCollisionFree W → ConvictsNoCorrectNode W }
    ensures pairs { (W : World) → IsWorld W → IsAuthentic W → PairsConvictNoCorrectNode W }
{}
