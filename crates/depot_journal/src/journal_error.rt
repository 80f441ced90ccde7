//! Why a journal refuses.
ghost use Rattle.std.specs.Prelude.{◌≡◌};
ghost use Rattle.depot_journal.specs.declared.journal_error.JournalError.TheVariants as journal_error;

use depot_base::{Full, Memory};
use depot_outside::Failed;
use std::alloc::{AllocError, AllocFailed};
use thiserror::Error;

/// Why a disk gives no journal.
#[derive(Clone, Copy, Debug, Drop, PartialEq, Eq, Error)]
pub enum JournalError {
    /// Memory ran out.
    #[error("no memory was found")]
    Memory,
    /// The disk failed.
    #[error("the disk failed")]
    Disk,
    /// At this offset in bytes is an open gate, with no whole record after it that keeps to the journal's limits.
    #[error("the journal is damaged at offset {0}")]
    Damaged(u64),
}

/// Why records weren't appended.
#[derive(Clone, Copy, Debug, Drop, PartialEq, Eq, Error)]
pub enum AppendError {
    /// Memory ran out. Nothing has changed.
    #[error("no memory was found")]
    Memory,
    /// The disk failed. The records before the failing one are stable, that one may be, and the journal is stopped.
    #[error("the disk failed")]
    Disk,
    /// A limit would be passed. Nothing has changed.
    #[error("the journal is full")]
    Full(Full),
    /// The disk failed in an earlier call.
    #[error("an earlier call failed on the disk")]
    Stopped,
}

impl From<Memory> for JournalError {
    ghost from_gives = { λ _ e. e ≡ journal_error.Memory };

    fn from(_e: Memory) -> JournalError {
        JournalError::Memory
    }
}

impl From<AllocError> for JournalError {
    ghost from_gives = { λ _ e. e ≡ journal_error.Memory };

    fn from(_e: AllocError) -> JournalError {
        JournalError::Memory
    }
}

impl<T: Drop> From<AllocFailed<T>> for JournalError {
    ghost from_gives = { λ _ e. e ≡ journal_error.Memory };

    fn from(_e: AllocFailed<T>) -> JournalError {
        JournalError::Memory
    }
}

impl From<Failed> for JournalError {
    ghost from_gives = { λ _ e. e ≡ journal_error.Disk };

    fn from(_e: Failed) -> JournalError {
        JournalError::Disk
    }
}
