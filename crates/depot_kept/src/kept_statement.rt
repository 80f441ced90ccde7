//! A kept statement.
ghost use Rattle.std.specs.Prelude.{◌≡◌};
ghost use Rattle.depot_model.specs.texts.Texts.{IsStatement, id_of_statement};
ghost use Rattle.depot_model.specs.updates.Contradictions.{kind_of};

use crate::kinds::{have_one_body, kind_between};
use depot_base::{Bytes, Hash32, Kind, Statement};

/// A kept statement with its signature and its id. Its text isn't kept: it is encoded again where it is asked for.
#[derive(Drop)]
pub struct KeptStatement {
    /// The statement.
    pub statement: Statement,
    /// The signature, at most 8,192 bytes. Nothing is said of whether it verifies.
    pub signature: Bytes,
    /// SHA-256 of the statement's text.
    pub id: Hash32,
}

impl KeptStatement {
    ghost use Rattle.depot_kept.specs.Entries.{kept_signed, IsEntry};
    ghost use Rattle.depot_kept.specs.Opponents.{has_body_of};

    /// How a statement contradicts this one.
    pub(crate) fn kind_with(&self, statement: &Statement, id: &Hash32) -> Option<Kind>
        requires entry { IsEntry self.now }
        requires text { IsStatement statement.now }
        requires id { id.now ≡ id_of_statement statement.now }
        ensures { result ≡ kind_of self.now.statement statement.now }
    {
        kind_between(&self.statement, &self.id, statement, id)
    }

    /// Whether a statement has the same body as this one.
    pub(crate) fn has_body_of(&self, statement: &Statement, id: &Hash32) -> bool
        requires entry { IsEntry self.now }
        requires text { IsStatement statement.now }
        requires id { id.now ≡ id_of_statement statement.now }
        ensures { result ≡ has_body_of statement.now (kept_signed self.now) }
    {
        have_one_body(&self.statement, &self.id, statement, id)
    }
}
