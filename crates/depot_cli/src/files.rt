//! Loads the files that words name.
ghost use Rattle.std.specs.Prelude.{◌≡◌, ◌++◌, ◌∷◌, [], IfOk, IfSome};
ghost use Rattle.depot_outside.specs.Told.{shelves};
ghost use Rattle.depot_cli.specs.Runs.{IsFileLoaded};

use depot_base::{Bytes, Memory};
use depot_outside::{OutError, Shelf};

/// The bytes of the file of that name, or `None` if it can't be had: it isn't on the shelf, or the shelf failed.
pub fn load<F: Shelf>(shelf: &mut F, name: &str) -> Result<Option<Bytes>, Memory>
    ensures loaded { IfOk result (IsFileLoaded (shelves F.Shelf shelf.old shelf.new) name.now) }
    ensures loads { F.loads shelf.new ≡ F.loads shelf.old ++ name.now ∷ [] }
    ensures stores { F.stores shelf.new ≡ F.stores shelf.old }
    ensures files { F.file shelf.new ≡ F.file shelf.old }
    ensures tells { F.tells shelf.new ≡ F.tells shelf.old }
    ensures calm { IfOk result (λ found. IfSome found (λ _. F.failed shelf.new ≡ F.failed shelf.old)) }
{
    match shelf.load(name) {
        Ok(found) => Ok(found),
        Err(OutError::Failed) => Ok(None),
        Err(OutError::Memory) => Err(Memory),
    }
}
