//! How much a bundle may bring, and what it may cost.

/// How much a bundle may bring, and what it may cost.
#[derive(Clone, Copy, Debug, PartialEq, Eq)]
pub struct Bounds {
    /// The most bytes that the frames of its updates and values may take. A first parcel is sent even if it alone takes
    /// more.
    pub bytes: u32,
    /// The most vouchers to make for it, and never more than the node has unused leaves. `None`: as many as needed.
    pub vouchers: Option<u32>,
    /// Whether only the node's own updates are sent, with their values.
    pub own: bool,
}
