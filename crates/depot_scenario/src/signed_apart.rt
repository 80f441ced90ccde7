//! Signed statements stored apart from their owners.
ghost use Rattle.std.specs.Prelude.{◌≡◌, IfOk};

use depot_base::{Memory, Signed};
use std::alloc::Global;
use std::marker::Model;

/// A signed statement, seen as it is, stored apart from its owner: an owner that may have one and has none takes no
/// room for it.
#[derive(Drop)]
pub struct Apart(Box<Signed>);

impl Model for Apart {
    ghost use Rattle.depot_base.specs.declared.statement.Signed.{Signed};

    ghost Value = { Signed };

    ghost view = { λ a. a.0.value };
}

impl Apart {
    /// The statement. It takes no memory.
    pub fn get(&self) -> &Signed
        ensures { result.now ≡ self.now }
    {
        self.0.as_ref()
    }
}

/// A signed statement stored apart, if there is one.
pub fn put_apart(alloc: Global, signed: Option<Signed>) -> Result<Option<Apart>, Memory>
    ensures { IfOk result (λ kept. kept ≡ signed) }
{
    match signed {
        Some(signed) => Ok(Some(Apart(Box::new(alloc, signed)?))),
        None => Ok(None),
    }
}
