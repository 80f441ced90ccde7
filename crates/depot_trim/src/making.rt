//! A node makes a checkpoint.
ghost use Rattle.std.specs.Prelude.{◌≡◌, false};
ghost use Rattle.depot_trim.specs.Making.{Makes};

use crate::checkpoint_text::{Checkpoint, MOST_NAMED, encode_checkpoint};
use crate::make_error::MakeError;
use depot_base::Bytes;
use depot_model::{Peer, Replica};
use std::alloc::Global;

/// Returns the text of the checkpoint over all leaves of what a running node accepted. `Empty` is returned exactly when
/// it accepted nothing, and `Many` exactly when there are more than 1,024 leaves, with their number.
pub fn make_checkpoint<P: Peer>(alloc: Global, node: &P) -> Result<Bytes, MakeError>
    requires { P.stopped node.now ≡ false }
    ensures { Makes (P.stands node.now) (P.records node.now) result }
{
    let leaves = node.leaves()?;
    let count = leaves.as_slice().len();
    if count == 0 {
        return Err(MakeError::Empty);
    }
    if count > MOST_NAMED as usize {
        return Err(MakeError::Many(count as u32));
    }
    let roster = *node.roster_hash();
    let text = encode_checkpoint(alloc, &Checkpoint { roster, leaves })?;
    Ok(text)
}
