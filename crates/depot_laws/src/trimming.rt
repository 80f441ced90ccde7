//! Checkpoints, and what is trimmed below them.
ghost use Rattle.std.specs.Prelude.{◌↔◌, ◌≡◌, ℕ, List, ◌++◌, true};
ghost use Rattle.depot_base.specs.declared.update.Update.{Update};
ghost use Rattle.depot_base.specs.declared.statement.Statement.{Statement};
ghost use Rattle.depot_model.specs.lists.Lists.{IsIn};
ghost use Rattle.depot_model.specs.journals.Journal.{accepted};
ghost use Rattle.depot_model.specs.checks.Checks.{Setting, Given, given_proof, growth};
ghost use Rattle.depot_model.specs.journals.Lawful.{IsLawful};
ghost use Rattle.depot_base.specs.declared.record.Record.{Record};
ghost use Rattle.depot_model.specs.worlds.World.{World, IsWorld, IsAuthentic, IsCollisionFree};
ghost use Rattle.depot_base.specs.declared.statement.Statement.TheVariants as statement;
ghost use Rattle.depot_base.specs.declared.proof.Kind.{Kind};
ghost use Rattle.depot_base.specs.declared.proof.Proof.{Proof};
ghost use Rattle.depot_model.specs.updates.Contradictions.{contradicts};
ghost use Rattle.depot_model.specs.readers.Pruning.{pruned, AnswersAlike};
ghost use Rattle.depot_model.specs.readers.Trimming.{trimmed};
ghost use Rattle.depot_laws.specs.TrimFacts.{NoneNamesBelow, NoneStandsBelow, IsClosedBelow, IsSuperseded, IsLatestIn, NamesOrIsKept, AreAccepted, AboveAnswersAlike};

/// Let every node of the roster have signed a checkpoint of what a correct node's journal then was. Then no own
/// statement of a correct node that this journal lacked names an update below: each node's signing update has all
/// listed ids in its past, so its later updates name none of them. So a reader that was made then, whatever it has
/// taken since, never answers that an own statement of a correct node is below. This assumes that no correct node's
/// signature was forged, and that no two hashed texts collide.
pub fn trim_law()
    ensures names { (W : World) → IsWorld W → IsAuthentic W → IsCollisionFree W → NoneNamesBelow W }
    ensures below { (W : World) → IsWorld W → IsAuthentic W → IsCollisionFree W → NoneStandsBelow W }
{}

/// What precedes an update below a checkpoint is below it, and precedes it there. An update is trimmed exactly where it is below
/// and is a latest write of none of its keys there.
pub fn superseded_updates_are_trimmed()
    ensures closed { (here : Setting) (J : List Record) (ids : List (List ℕ)) → IsLawful here J → IsClosedBelow J ids }
    ensures trimmed { (here : Setting) (J : List Record) (ids : List (List ℕ)) (u : Update) → IsLawful here J → (IsIn u (trimmed J ids) ↔ IsSuperseded J ids u) }
{}

/// A trimmed update is a latest write of no key in any lawful journal that extends the trimmed one. So each read of
/// such a journal lists kept updates alone, as the whole journal's reads do.
pub fn trimmed_updates_are_never_latest()
    ensures { (here : Setting) (J more : List Record) (ids : List (List ℕ)) (u : Update) (key : List ℕ) → IsLawful here (J ++ more) → IsIn u (trimmed J ids) → IsLatestIn key (accepted (J ++ more)) u → ⊥ }
{}

/// A statement that contradicts an accepted update, in whatever kind, names it, or is kept itself.
pub fn contrary_statements_name()
    ensures { (here : Setting) (J : List Record) (k : Kind) (t : Update) (s : Statement) → IsLawful here J → IsIn t (accepted J) → contradicts k (statement.Update t) s ≡ true → NamesOrIsKept J s t }
{}

/// A reader may give up the signed statements of trimmed updates. Each proof, and each statement that isn't below, gets
/// the same answer and the same growth as without this, and the growth isn't changed by it.
pub fn pruned_journals_answer_alike()
    ensures statements { (here : Setting) (J : List Record) (ts : List Update) → IsLawful here J → AreAccepted J ts → AboveAnswersAlike here J ts }
    ensures proofs { (here : Setting) (J : List Record) (ts : List Update) (p : Proof) → AnswersAlike here J (pruned ts J) (given_proof p) }
    ensures grows { (here : Setting) (J : List Record) (ts : List Update) (x : Given) → AreAccepted J ts → pruned ts (J ++ growth here J x) ≡ pruned ts J ++ growth here J x }
{}
