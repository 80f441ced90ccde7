//! The span of a record's body.

/// A range of bytes, as two offsets: the first byte, and the one after the last.
#[derive(Clone, Copy, Debug, PartialEq, Eq)]
pub struct Span {
    pub start: u32,
    pub end: u32,
}
