//! Why no bundle is made.

ghost use Rattle.std.specs.Prelude.{◌≡◌};
ghost use Rattle.depot_gossip.specs.declared.bundle_error.BundleError.TheVariants as error;
ghost use Rattle.depot_gossip.specs.Errors.{from_decoding, from_vouching};

use depot_base::{DecodeError, Full, Hash32, Memory};
use depot_model::VoucherError;
use thiserror::Error;

/// Why a node makes no bundle. No byte is handed out.
#[derive(Clone, Copy, Debug, Drop, PartialEq, Eq, Error)]
pub enum BundleError {
    /// No memory was found.
    #[error("no memory was found")]
    Memory,
    /// The disk failed; the node is stopped.
    #[error("the disk failed")]
    Disk,
    /// The disk failed in an earlier call.
    #[error("an earlier call failed on the disk")]
    Stopped,
    /// The text is no hello's: its first fault starts at this offset in bytes. Offset 2 may also mean that the roster
    /// lacks its node.
    #[error("no hello: the fault is at offset {0}")]
    IllFormed(u32),
    /// The hello's roster is another one than the node's.
    #[error("the hello goes by another roster")]
    OtherRoster {
        /// SHA-256 of the hello's.
        given: Hash32,
        /// SHA-256 of the node's.
        mine: Hash32,
    },
    /// The node has made so many statements and has too few unused leaves to sign the vouchers.
    #[error("{0} statements are made, and too few leaves are left")]
    Spent(u32),
    /// There is no room for the vouchers.
    #[error("the journal is full")]
    Full(Full),
}

impl From<Memory> for BundleError {
    ghost from_gives = { λ _ e. e ≡ error.Memory };

    fn from(_e: Memory) -> BundleError {
        BundleError::Memory
    }
}

impl From<DecodeError> for BundleError {
    ghost from_gives = { λ d e. e ≡ from_decoding d };

    fn from(e: DecodeError) -> BundleError {
        match e {
            DecodeError::Memory => BundleError::Memory,
            DecodeError::IllFormed(at) => BundleError::IllFormed(at),
        }
    }
}

impl From<VoucherError> for BundleError {
    ghost from_gives = { λ v e. e ≡ from_vouching v };

    fn from(e: VoucherError) -> BundleError {
        match e {
            VoucherError::Memory => BundleError::Memory,
            VoucherError::Disk => BundleError::Disk,
            VoucherError::Stopped => BundleError::Stopped,
            VoucherError::Full(full) => BundleError::Full(full),
            VoucherError::Spent(count) => BundleError::Spent(count),
        }
    }
}
