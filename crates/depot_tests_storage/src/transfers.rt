//! The loops over read and write, on a device that moves a few bytes, is interrupted or breaks.

use depot_base::{Bytes, Memory};
use depot_outside::transfer::{read_piece_at, read_whole, write_whole, write_whole_at};
use std::alloc::Global;
use std::io::{self, Cursor, ErrorKind, Read, Write};

/// The bytes that are moved.
const TEXT: &[u8] = b"transferred";

/// What one read or write of a broken device does.
#[derive(Clone, Copy, Debug, PartialEq, Eq)]
enum TransferTurn {
    /// It moves at most so many bytes.
    Move(usize),
    Interrupted,
    Broken,
}

/// A reader of some bytes and a writer to others, which goes by its turns and then moves nothing.
#[derive(Drop)]
struct Device<'a> {
    turns: &'a [TransferTurn],
    left: &'a [u8],
    taken: Bytes,
}

impl<'a> Device<'a> {
    fn new(alloc: Global, turns: &'a [TransferTurn], left: &'a [u8]) -> Device<'a> {
        Device {
            turns,
            left,
            taken: Bytes::new(alloc),
        }
    }

    fn next(&mut self) -> io::Result<usize> {
        let [turn, turns @ ..] = self.turns else {
            return Ok(0);
        };
        self.turns = turns;
        match *turn {
            TransferTurn::Move(most) => Ok(most),
            TransferTurn::Interrupted => Err(ErrorKind::Interrupted.into()),
            TransferTurn::Broken => Err(ErrorKind::Other.into()),
        }
    }
}

impl Read for Device<'_> {
    fn read(&mut self, into: &mut [u8]) -> io::Result<usize> {
        let most = self.next()?;
        let count = most.min(into.len()).min(self.left.len());
        let (front, rest) = self.left.split_at(count);
        into[..count].copy_from_slice(front);
        self.left = rest;
        Ok(count)
    }
}

impl Write for Device<'_> {
    fn write(&mut self, bytes: &[u8]) -> io::Result<usize> {
        let most = self.next()?;
        let count = most.min(bytes.len());
        match self.taken.push_all(&bytes[..count]) {
            Ok(()) => Ok(count),
            Err(Memory) => Err(ErrorKind::OutOfMemory.into()),
        }
    }

    fn flush(&mut self) -> io::Result<()> {
        Ok(())
    }
}

/// Turns, how many bytes they move, and whether the device breaks then.
static CASES: [(&[TransferTurn], usize, bool); 4] = [
    (
        &[
            TransferTurn::Move(4),
            TransferTurn::Interrupted,
            TransferTurn::Move(99),
        ],
        11,
        false,
    ),
    (&[TransferTurn::Move(4)], 4, false),
    (
        &[
            TransferTurn::Move(4),
            TransferTurn::Broken,
            TransferTurn::Move(7),
        ],
        4,
        true,
    ),
    (&[TransferTurn::Broken], 0, true),
];

/// Whether so many bytes are read to the end of a device, or a fault is reported.
fn is_read(alloc: Global, turns: &[TransferTurn], moved: usize, breaks: bool) -> bool {
    let mut device = Device::new(alloc, turns, TEXT);
    match read_whole(alloc, 11, &mut device) {
        Ok(bytes) => !breaks && TEXT.get(..moved) == Some(bytes.as_slice()),
        Err(_) => breaks,
    }
}

/// Whether so many bytes are written to a device, and less than all is a fault.
fn is_written(alloc: Global, turns: &[TransferTurn], moved: usize) -> bool {
    let mut device = Device::new(alloc, turns, b"");
    let is_whole = write_whole(&mut device, TEXT).is_ok();
    is_whole == (moved == 11) && TEXT.get(..moved) == Some(device.taken.as_slice())
}

/// Whether bytes past the most that may be read are a fault.
fn is_too_long(alloc: Global) -> bool {
    let mut device = Device::new(alloc, &[TransferTurn::Move(5), TransferTurn::Move(6)], TEXT);
    read_whole(alloc, 10, &mut device).is_err()
}

/// Whether bytes are written and read at an offset, and neither is reported where there is no room for all of them.
fn is_moved_at() -> bool {
    let mut file = Cursor::new(*b"transferred");
    let mut piece = [0u8; 4];
    let mut rest = [0u8; 7];
    write_whole_at(&mut file, 5, b"FER").is_ok()
        && read_piece_at(&mut file, 3, &mut piece).is_ok()
        && piece.as_slice() == b"nsFE".as_slice()
        && write_whole_at(&mut file, 9, b"EDS").is_err()
        && read_piece_at(&mut file, 5, &mut rest).is_err()
}

#[test]
fn transfers_go_on_to_the_end_or_to_a_fault(rt: HostRuntime) {
    let alloc = rt.alloc();
    for (turns, moved, breaks) in CASES.iter() {
        assert!(rt; is_read(alloc, turns, *moved, *breaks), "{turns:?}");
        assert!(rt; is_written(alloc, turns, *moved), "{turns:?}");
    }
    assert!(rt; is_too_long(alloc));
    assert!(rt; is_moved_at());
}
