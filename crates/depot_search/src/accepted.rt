//! An update that a record accepted.
ghost use Rattle.std.specs.Prelude.{◌≡◌, IfOk};
ghost use Rattle.depot_model.specs.worlds.Audit.{same_body};
ghost use Rattle.depot_model.specs.texts.Texts.{IsUpdate, id_of_update};

use depot_base::{Hash32, Memory, Update};
use depot_update::id_of;
use std::alloc::Global;
use std::marker::Model;

/// An update that has a text, as every accepted one has.
#[derive(Debug, Drop)]
pub struct Accepted(Update);

impl Model for Accepted {
    ghost use Rattle.depot_base.specs.declared.update.Update.{Update};
    ghost use Rattle.depot_model.specs.texts.Texts.{IsUpdate};

    ghost Value = { Update };

    ghost view = { λ a. a.0 };

    ghost invariant = { λ a. IsUpdate a.0 };
}

impl Accepted {
    /// A copy of an update that has a text.
    pub fn new(update: &Update) -> Result<Accepted, Memory>
        requires { IsUpdate update.now }
        ensures { IfOk result (λ a. a ≡ update.now) }
    {
        Ok(Accepted(update.copy()?))
    }

    /// The update.
    pub fn update(&self) -> &Update
        ensures same { result.now ≡ self.now }
        ensures fits { IsUpdate self.now }
    {
        &self.0
    }

    /// Its id.
    pub fn id(&self, alloc: Global) -> Result<Hash32, Memory>
        ensures { IfOk result (λ id. id ≡ id_of_update self.now) }
    {
        id_of(alloc, &self.0)
    }
}

/// Whether two updates that have texts are one by their bodies.
pub fn is_one_body(some: &Update, other: &Update) -> bool
    requires some { IsUpdate some.now }
    requires other { IsUpdate other.now }
    ensures { result ≡ same_body some.now other.now }
{
    some.is_same(other)
}
