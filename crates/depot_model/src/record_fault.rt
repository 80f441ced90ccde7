//! What is wrong with a record of a journal.

use depot_base::Check;

/// Why a record may not follow those before it: the first of these faults that it has, in this order.
#[derive(Clone, Copy, Debug, PartialEq, Eq)]
pub enum RecordFault {
    /// The text isn't a record's; its first fault starts at this offset in bytes.
    Ill(u32),
    /// A birth that isn't the first record, a first record that is no birth, or a birth of another node or roster.
    Birth,
    /// It isn't the next own update with its values: another update, one whose id isn't fresh, or one past the leaves
    /// of the tree.
    NotNext,
    /// An own voucher of another node or seq, past the leaves of the tree, or for an id that is no accepted update's of another node.
    OwnVoucher,
    /// A check refuses what the record took.
    Refused(Check),
    /// The conviction of the writer was due before it.
    ProofDue,
    /// What it took was known.
    Idle,
    /// There is no room for it.
    NoRoom,
}
