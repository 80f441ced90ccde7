//! A reader of a node, which gave up what was trimmed.
ghost use Rattle.std.specs.Prelude.{◌≡◌, IfOk, OnOk};
ghost use Rattle.depot_model.specs.readers.Readers.{Reader};
ghost use Rattle.depot_requests.specs.ReaderRequests.{used_by};

use depot_base::Memory;
use depot_requests::{ReaderReply, ReaderUse};

/// The state of a reader of a node, in memory alone. It takes and shows what the definitions of readers say
/// (`depot_model`).
pub trait Reading: Drop {
    /// Whose reader it is.
    ghost reads: { Reader → Self → Type 0 };

    /// It is used. On `Memory` it isn't a reader any more.
    fn serve(&mut self, asked: &ReaderUse) -> Result<ReaderReply, Memory>
        requires { (r : Reader) × reads r self.old }
        ensures reply { (r : Reader) → reads r self.old → IfOk result (λ reply. reply ≡ (used_by r asked.now).reply) }
        ensures goes_on { (r : Reader) → reads r self.old → OnOk result (reads (used_by r asked.now).reader self.new) };
}

/// What a node answered where a reader was to be made of it.
#[derive(Drop)]
pub struct Trimming<R> {
    /// The reply.
    pub reply: ReaderReply,
    /// The reader, where it was made.
    pub reader: Option<R>,
}
