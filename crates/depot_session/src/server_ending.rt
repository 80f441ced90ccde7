//! How a run ends.

/// What cut a run short.
#[derive(Clone, Copy, Debug, PartialEq, Eq)]
pub enum ServeEnding {
    /// No memory was found.
    Memory,
    /// The source failed.
    Source,
    /// The disk failed.
    Disk,
    /// The sink failed.
    Sink,
    /// What came is no request.
    Input {
        /// The offset of its message among all input bytes, capped at 2^64 - 1.
        at: u64,
        /// The offset of the first fault in the message's body; 0 for what is no message.
        within: u32,
    },
}

/// How the run of a server ends, from the start of its node on.
#[derive(Clone, Copy, Debug, PartialEq, Eq)]
pub enum ServerEnding {
    /// The end of the input was found, and each request was answered.
    Done,
    /// No memory was found.
    Memory,
    /// The source failed.
    Source,
    /// The disk failed.
    Disk,
    /// The sink failed.
    Sink,
    /// What came is no request.
    Input {
        /// The offset of its message among all input bytes, capped at 2^64 - 1.
        at: u64,
        /// The offset of the first fault in the message's body; 0 for what is no message.
        within: u32,
    },
    /// The journal on the disk is damaged, or isn't lawful.
    NotLawful,
    /// The node, its key or a roster is another.
    Identity,
}
