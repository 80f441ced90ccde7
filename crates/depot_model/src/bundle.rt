//! What a node reports of a bundle, and of a stream that it was fed.
ghost use Rattle.std.specs.Prelude.{◌≡◌};
ghost use Rattle.depot_model.specs.declared.bundle.VoucherError.TheVariants as voucher_error;

use depot_base::{Check, Full, Memory, Sequence};

/// Why a node makes no vouchers. It is unchanged, except on `Disk`.
#[derive(Clone, Copy, Debug, PartialEq, Eq)]
pub enum VoucherError {
    /// Memory ran out.
    Memory,
    /// The disk failed; the node is stopped.
    Disk,
    /// The disk failed in an earlier call.
    Stopped,
    /// There is no room for their records.
    Full(Full),
    /// The node has made this many statements, and too few leaves are left to sign the vouchers.
    Spent(u32),
}

impl From<Memory> for VoucherError {
    ghost from_gives = { λ _ e. e ≡ voucher_error.Memory };

    fn from(_e: Memory) -> VoucherError {
        VoucherError::Memory
    }
}

/// How many frames of each sort a bundle has, beside its End frame.
#[derive(Clone, Copy, Debug, PartialEq, Eq)]
pub struct Counts {
    /// Proofs.
    pub proofs: u32,
    /// The sender's own vouchers.
    pub vouchers: u32,
    /// Updates.
    pub updates: u32,
    /// Values.
    pub values: u32,
}

/// A frame that was refused.
#[derive(Clone, Copy, Debug, PartialEq, Eq)]
pub struct Refusal {
    /// Which frame of the stream it is, from 0.
    pub frame: u32,
    /// The first check that it failed.
    pub check: Check,
}

/// Refusals, in the order of their frames, seen as a list.
pub type Refusals = Sequence<Refusal>;

/// How a stream ended.
#[derive(Clone, Copy, Debug, PartialEq, Eq)]
pub enum Ending {
    /// A piece got an error.
    Closed,
    /// An End frame said that nothing was left.
    Whole,
    /// An End frame said that there is more.
    More,
    /// No End frame came; the stream ends between frames.
    Bare,
    /// No End frame came; the stream ends after this many bytes of a frame.
    Cut(u32),
}

/// What became of the frames of a stream.
#[derive(Debug, Drop)]
pub struct Report {
    /// How many frames were new.
    pub accepted: u32,
    /// How many were here before.
    pub known: u32,
    /// The refused ones.
    pub refused: Refusals,
    /// How the stream ended.
    pub ending: Ending,
}
