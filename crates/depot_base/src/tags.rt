//! The tag bytes before frames and before records' texts, which say what follows.
ghost use Rattle.std.specs.Prelude.{◌≡◌, ◌<◌, ◌⊎◌, ◌↔◌, IsNone, IfSome};
ghost use Rattle.depot_base.specs.Tags.{frame_byte, record_byte};

/// The kind of a frame's payload. Its byte, 1 to 4, begins the frame.
#[derive(Clone, Copy, Debug, PartialEq, Eq)]
pub enum FrameTag {
    /// A proof: 1.
    Proof,
    /// A signed statement: 2.
    Statement,
    /// A value: 3.
    Value,
    /// End, which says whether there was more to send: 4.
    End,
}

impl FrameTag {
    /// Its byte.
    pub fn byte(self) -> u8
        ensures { result ≡ frame_byte self }
    {
        match self {
            FrameTag::Proof => 1,
            FrameTag::Statement => 2,
            FrameTag::Value => 3,
            FrameTag::End => 4,
        }
    }

    /// The tag of this byte. None exactly for 0 and for bytes above 4.
    pub fn of(byte: u8) -> Option<FrameTag>
        ensures some { IfSome result (λ tag. frame_byte tag ≡ byte) }
        ensures none { IsNone result ↔ ((byte ≡ 0) ⊎ (4 < byte)) }
    {
        match byte {
            1 => Some(FrameTag::Proof),
            2 => Some(FrameTag::Statement),
            3 => Some(FrameTag::Value),
            4 => Some(FrameTag::End),
            _ => None,
        }
    }
}

/// The kind of a record: the byte before its text, 1 to 6.
#[derive(Clone, Copy, Debug, PartialEq, Eq)]
pub enum RecordTag {
    /// A node's birth: 1.
    Birth,
    /// An update of the node's own, and its values: 2.
    OwnPut,
    /// A voucher of the node's own: 3.
    OwnVoucher,
    /// Another's signed statement: 4.
    Foreign,
    /// A proof that convicts a writer: 5.
    Conviction,
    /// A value of another's update: 6.
    Held,
}

impl RecordTag {
    /// Its byte.
    pub fn byte(self) -> u8
        ensures { result ≡ record_byte self }
    {
        match self {
            RecordTag::Birth => 1,
            RecordTag::OwnPut => 2,
            RecordTag::OwnVoucher => 3,
            RecordTag::Foreign => 4,
            RecordTag::Conviction => 5,
            RecordTag::Held => 6,
        }
    }

    /// The tag of this byte. None exactly for 0 and for bytes above 6.
    pub fn of(byte: u8) -> Option<RecordTag>
        ensures some { IfSome result (λ tag. record_byte tag ≡ byte) }
        ensures none { IsNone result ↔ ((byte ≡ 0) ⊎ (6 < byte)) }
    {
        match byte {
            1 => Some(RecordTag::Birth),
            2 => Some(RecordTag::OwnPut),
            3 => Some(RecordTag::OwnVoucher),
            4 => Some(RecordTag::Foreign),
            5 => Some(RecordTag::Conviction),
            6 => Some(RecordTag::Held),
            _ => None,
        }
    }
}
