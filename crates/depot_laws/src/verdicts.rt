//! What convicts.
ghost use Rattle.std.specs.Prelude.{◌≡◌, ℕ, List, true, false, ◌↔◌};
ghost use Rattle.depot_base.specs.declared.statement.Signed.{Signed};
ghost use Rattle.depot_base.specs.declared.statement.Statement.{Statement};
ghost use Rattle.depot_base.specs.declared.proof.Kind.{Kind};
ghost use Rattle.depot_base.specs.declared.proof.Proof.{Proof};
ghost use Rattle.depot_base.specs.declared.record.Record.{Record};
ghost use Rattle.depot_base.specs.declared.record.Record.TheVariants.{Conviction};
ghost use Rattle.depot_base.specs.declared.check.Check.TheVariants as check;
ghost use Rattle.depot_model.specs.checks.Checks.{Setting};
ghost use Rattle.depot_model.specs.journals.Lawful.{IsAllowed, IsLawful, is_empty};
ghost use Rattle.depot_model.specs.updates.Contradictions.{IsHollow, is_hollow};
ghost use Rattle.depot_laws.specs.Streams.{AreBytes};
ghost use Rattle.depot_laws.specs.Verdicts.{IsVerdict, RefusalConvicts};

/// A conviction record may follow a journal exactly where its proof has a text and a judge's verdict, the accused is
/// another node that nobody convicted before, and there is room for it. So each conviction of a lawful journal is a
/// verdict, and no node is in two.
pub fn convictions_are_verdicts()
    ensures { (here : Setting) (J : List Record) (p : Proof) → is_empty J ≡ false → (IsAllowed here J (Conviction p) ↔ IsVerdict here J p) }
{}

/// Where a lawful journal refuses a statement as a fork, or as a step back from its prev, and the writer isn't convicted, the
/// journal grows by one conviction record and nothing else, of that writer.
pub fn forks_and_steps_back_convict()
    ensures forks { (here : Setting) (J : List Record) (s : Signed) (kept came : List ℕ) (kind : Kind) → IsLawful here J → RefusalConvicts here J s (check.Forked kept came kind) }
    ensures steps_back { (here : Setting) (J : List Record) (s : Signed) (h : List ℕ) → IsLawful here J → RefusalConvicts here J s (check.Backward h) }
{}

/// A statement and a text convict exactly where the statement is a voucher, one of its ids is SHA-256 of the text, and no update
/// has this text, in either version.
pub fn hollow_proofs_are_for_no_update()
    ensures { (s : Statement) (text : List ℕ) → AreBytes text → (is_hollow s text ≡ true ↔ IsHollow s text) }
{}
