//! What holds of all bundles. The law is a function that does nothing; its contract is the law.
ghost use Rattle.std.specs.Prelude.{List};
ghost use Rattle.depot_base.specs.declared.record.Record.{Record};
ghost use Rattle.depot_base.specs.declared.statement.Signed.{Signed};
ghost use Rattle.depot_model.specs.exchange.Bundle.{Signs, Bundle, with_vouchers};
ghost use Rattle.depot_model.specs.checks.Checks.{Setting};
ghost use Rattle.depot_gossip.specs.OwnStatements.{AnswersBundle, HasOwnStatement, IsSignedOwn};

/// Whatever text a node is given as a hello: each own statement in the bytes of its bundle is in its journal, which
/// includes the bundle's vouchers, and carries the signature that its signer gives for its seq and its body. So a node
/// sends nothing as its own that it hasn't journaled.
pub fn bundles_tell_own_statements()
    ensures { (here : Setting) (sign : Signs) (J : List Record) (b : Bundle) (s : Signed) → AnswersBundle here sign J b → HasOwnStatement here b s → IsSignedOwn sign (with_vouchers J b.vouchers) s }
{}
