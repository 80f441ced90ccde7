//! Why a text is no roster.

use depot_base::NodeId;

/// Why a text is no roster. Of several faults the first from the left is reported.
#[derive(Clone, Copy, Debug, PartialEq, Eq)]
pub enum RosterError {
    /// Memory ran out.
    Memory,
    /// The offset in bytes of the first field that is cut short or out of its range, of the first entry that is out of
    /// order, or of the first byte after the text. A count of 0 is at offset 2.
    IllFormed(u32),
    /// An entry, whose fields are good, names the node that the entry before it names.
    TwiceNode(NodeId),
    /// The count of entries, over 256. It is reported before any entry is read.
    TooMany(u32),
}
