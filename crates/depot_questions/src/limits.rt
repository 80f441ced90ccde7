//! The limits of answers. `docs/FORMATS.md` has them too.

use depot_base::limits::MOST_PROOF;

/// The most bytes of the texts of a page's proofs, with ten bytes added for each: more than the longest proof takes.
pub const MOST_PROOFS_TOLD: u32 = 1_048_576;

/// A page has room for each proof.
const _: () = prove!(MOST_PROOF + 10 <= MOST_PROOFS_TOLD);

/// The most keys of a page.
pub const MOST_KEYS_TOLD: usize = 1_024;

/// The most updates of a page.
pub const MOST_UPDATES_TOLD: u32 = 256;
