//! `key SEED HEIGHT`: the root of a Winternitz key.
ghost use Rattle.std.specs.Prelude.{IfOk};
ghost use Rattle.depot_cli.specs.Runs.{PrintsKey};

use crate::height::Height;
use crate::outcome::CommandOutcome;
use crate::status::Status;
use depot_base::{Hash32, Memory};
use depot_sign::Signer;
use depot_winter::WinterSigner;
use std::alloc::Global;

/// The root of the key of a seed, printed in lower-case hex.
pub fn key(alloc: Global, seed: &Hash32, height: Height) -> Result<CommandOutcome, Memory>
    ensures { IfOk result (λ o. PrintsKey seed.now height o.status o.text) }
{
    let signer = WinterSigner::from_seed(alloc, seed, height.number())?;
    let root = hex::encode(alloc, signer.key().root.bytes().as_slice())?;
    let line = format!(in alloc; "{root}\n")?;
    CommandOutcome::of_line(alloc, Status::Done, line.as_str())
}
