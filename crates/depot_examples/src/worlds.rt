//! Worlds that meet what laws ask for.
ghost use Rattle.std.specs.Prelude.{ℕ};
ghost use Rattle.depot_model.specs.worlds.World.{World};
ghost use Rattle.depot_examples.specs.Met.{HasSettledPut, HasSignedCheckpoint};

/// Some world meets the conditions of the law of settled puts: in it a correct node has receipts of more nodes than
/// aren't correct.
pub fn some_put_is_settled()
    ensures { (W : World) × ((k : ℕ) × HasSettledPut W k) }
{}

/// Some world meets the conditions of the law of checkpoints: in it every node has signed one, and an update is
/// trimmed.
pub fn some_checkpoint_is_signed()
    ensures { (W : World) × HasSignedCheckpoint W }
{}
