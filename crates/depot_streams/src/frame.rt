//! Recognising a frame at its start.
ghost use Rattle.std.specs.Prelude.{◌≡◌, ◌≤◌, ◌++◌, ◌-◌, take, drop, length, replicate};
ghost use Rattle.std.specs.Int.{w32, from_be_bytes};
ghost use Rattle.depot_base.specs.Tags.{frame_byte};
ghost use Rattle.depot_model.specs.texts.Frames.{frame_at, least_length, most_length, is_no_flag, goes_astray};
ghost use Rattle.depot_streams.specs.FrameHeads.{bytes_missing, IsFrameStart, StandsAt};

use depot_base::FrameTag;
use depot_base::limits::MOST_PAYLOAD;

/// What bytes are, from the start of a frame.
#[derive(Clone, Copy)]
pub enum FrameStart<'a> {
    /// The beginning of a frame, as yet incomplete.
    Open,
    /// A whole frame.
    Whole {
        /// Its tag.
        tag: FrameTag,
        /// Its payload.
        payload: &'a [u8],
    },
    /// No frame's beginning, whatever may follow.
    Nothing,
}

/// What is at a place of a stream of frames.
#[derive(Clone, Copy, Debug, PartialEq, Eq)]
pub enum FrameAt {
    /// A whole frame.
    Frame {
        /// Its tag.
        tag: FrameTag,
        /// The place after it. Its payload begins five bytes after its start.
        end: usize,
    },
    /// The beginning of a frame, or no byte.
    Open,
    /// No frame's beginning, whatever may follow.
    Ill,
}

/// The least and the greatest number whose four bytes begin with these.
fn reach(bytes: &[u8]) -> (u32, u32)
    ensures least { result.0 ≡ from_be_bytes w32 (take 4 bytes.now ++ replicate (4 - length (take 4 bytes.now)) 0) }
    ensures greatest { result.1 ≡ from_be_bytes w32 (take 4 bytes.now ++ replicate (4 - length (take 4 bytes.now)) 255) }
{
    match bytes {
        [] => (0, u32::MAX),
        [a] => (
            u32::from_be_bytes([*a, 0, 0, 0]),
            u32::from_be_bytes([*a, 255, 255, 255]),
        ),
        [a, b] => (
            u32::from_be_bytes([*a, *b, 0, 0]),
            u32::from_be_bytes([*a, *b, 255, 255]),
        ),
        [a, b, c] => (
            u32::from_be_bytes([*a, *b, *c, 0]),
            u32::from_be_bytes([*a, *b, *c, 255]),
        ),
        [a, b, c, d, ..] => {
            let number = u32::from_be_bytes([*a, *b, *c, *d]);
            (number, number)
        }
    }
}

/// The least and the greatest length of the payload of a frame with this tag.
fn lengths(tag: FrameTag) -> (u32, u32)
    ensures least { result.0 ≡ least_length (frame_byte tag) }
    ensures most { result.1 ≡ most_length (frame_byte tag) }
{
    match tag {
        FrameTag::Proof | FrameTag::Statement | FrameTag::Value => (0, MOST_PAYLOAD),
        FrameTag::End => (1, 1),
    }
}

/// Whether a payload's first byte is neither 0 nor 1.
fn is_no_flag(payload: &[u8]) -> bool
    ensures { result ≡ is_no_flag payload.now }
{
    match payload {
        [] => false,
        [flag, ..] => *flag > 1,
    }
}

/// Whether no frame with this tag continues with these bytes.
fn goes_astray(tag: FrameTag, bytes: &[u8]) -> bool
    ensures { result ≡ goes_astray (frame_byte tag) (take 4 bytes.now) (drop 4 bytes.now) }
{
    let (low, high) = lengths(tag);
    let (least, greatest) = reach(bytes);
    let within = least <= high && low <= greatest;
    !within || (tag == FrameTag::End && is_no_flag(bytes.get(4..).unwrap_or(&[])))
}

/// What these bytes are, from the start of a frame. That they are no frame's is reported at the first byte that decides
/// it.
#[tactic(auto, unfolding(depot_model::specs::texts::Frames::frame_at))]
pub fn frame_start(bytes: &[u8]) -> FrameStart<'_>
    ensures { IsFrameStart (frame_at bytes.now) result }
{
    let [tag, rest @ ..] = bytes else {
        return FrameStart::Open;
    };
    let Some(tag) = FrameTag::of(*tag) else {
        return FrameStart::Nothing;
    };
    if goes_astray(tag, rest) {
        return FrameStart::Nothing;
    }
    let [a, b, c, d, payload @ ..] = rest else {
        return FrameStart::Open;
    };
    let count = u32::from_be_bytes([*a, *b, *c, *d]) as usize;
    if payload.len() < count {
        FrameStart::Open
    } else {
        FrameStart::Whole {
            tag,
            payload: &payload[..count],
        }
    }
}

/// What is at a place of a stream: whether a frame is there depends on its tag, its length and End's byte alone,
/// whatever its payload is. The place is at most the stream's length. It takes no memory.
pub fn frame_at(stream: &[u8], at: usize) -> FrameAt
    requires { at ≤ length stream.now }
    ensures { StandsAt (frame_at (drop at stream.now)) at result }
{
    let bytes = &stream[at..];
    match frame_start(bytes) {
        FrameStart::Open => FrameAt::Open,
        FrameStart::Whole { tag, payload } => {
            let behind = bytes.len() - 5 - payload.len();
            FrameAt::Frame {
                tag,
                end: stream.len() - behind,
            }
        }
        FrameStart::Nothing => FrameAt::Ill,
    }
}

/// The most bytes that a reader may ask for at once after these of an open frame: those of the payload that are
/// missing, or one of its head.
#[tactic(auto, unfolding(crate::specs::FrameHeads::bytes_missing))]
pub fn missing(begun: &[u8]) -> usize
    ensures { result ≡ bytes_missing begun.now }
{
    match begun {
        [_, a, b, c, d, ..] => {
            let whole = 5 + u32::from_be_bytes([*a, *b, *c, *d]) as usize;
            whole.saturating_sub(begun.len())
        }
        _ => 1,
    }
}
