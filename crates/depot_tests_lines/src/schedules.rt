//! Schedules from outside: each fault of a line, by tables, and a schedule of all kinds of events.

use depot_base::{Bytes, Memory};
use depot_lines::{Label, LineFault, TextError};
use depot_schedule::{Schedule, print_schedule};
use depot_schedule_parser::parse_schedule;
use std::alloc::Global;
use std::test::Fail;

/// Two correct nodes and a faulty one, whose trees have 16 leaves.
const HEADER: &str = "depot schedule 1\nscheme plain 4\nnode 1\nnode 2\nfaulty 9\n";

/// A schedule of all kinds of events, with each kind of word.
const SCHEDULE: &str = "depot schedule 1\nscheme winter 12\nnode 1\nfaulty 9\nnode 65535\n\
    put 1 6b 61\nput 65535 00ff -\nputs 1 6b=61,6b00=-,6c!\nputs 65535 00!\nget 1 6b\nhello 1 h\nbundle 65535 h b\ngive 1 b\ngive 1 b 1460\nrestart 1\nstop 1 1000000 2\n\
    update u 9 0 1 - 6b 61 - right\nupdate v 9 4095 9223372036854775807 1.0 6b - u,65535.4095,u \
    5555555555555555555555555555555555555555555555555555555555555555\nupdate w 9 1 2 u 6b 61 1.0 right\n\
    updates z 9 3 1 - 6b=61 - right\nupdates y 9 4 2 u 00!,6b=-,ff=00ff 1.0,u,z \
    5555555555555555555555555555555555555555555555555555555555555555\n\
    voucher x 9 2 u,v\nproof p SamePrev u x\nproof q SameNumber v u\nproof s Backward x z\njudge p\nraw r 00ff\nraw empty -\n\
    cut c r 0 4294967295\nflip f c 1\njoin abcdefghijklmnopqrstuvwxyz012345 c f\n\
    voucher k 9 5 r,u,1.0,c,f,abcdefghijklmnopqrstuvwxyz012345,empty,z\nhollow m k r\nhollow n x f\n\
    receipt 1 u,1.0\nsettled 65535 u 256\naudit\ncheckpoint 1 g\nsign 65535 g\ntrim 65535 g t\ntgive t h\ntget t 6b\n";

/// Texts, and the number of the first faulty line of each and its fault.
static TEXTS: [(&str, u32, LineFault); 22] = [
    ("", 1, LineFault::Header),
    ("depot schedule 1", 1, LineFault::End),
    ("depot schedule 2\n", 1, LineFault::Number),
    ("depot schedule \n", 1, LineFault::Header),
    ("depot  schedule 1\n", 1, LineFault::Header),
    ("depot schedule 1\n", 2, LineFault::Header),
    ("depot schedule 1\nscheme plain 1\n", 2, LineFault::Number),
    ("depot schedule 1\nscheme plain 04\n", 2, LineFault::Number),
    ("depot schedule 1\nscheme winter 18\n", 2, LineFault::Number),
    ("depot schedule 1\nscheme other 13\n", 2, LineFault::Header),
    ("depot schedule 1\nscheme plain\n", 2, LineFault::Header),
    ("depot schedule 1\nscheme plain 4\n", 3, LineFault::Header),
    (
        "depot schedule 1\nscheme plain 4\nfaulty 9\n",
        4,
        LineFault::Header,
    ),
    (
        "depot schedule 1\nscheme plain 4\nnode 0\n",
        3,
        LineFault::Number,
    ),
    (
        "depot schedule 1\nscheme plain 4\nnode 65536\n",
        3,
        LineFault::Number,
    ),
    (
        "depot schedule 1\nscheme plain 4\nnode  1\n",
        3,
        LineFault::Header,
    ),
    (
        "depot schedule 1\nscheme plain 4\nnode 1\nfaulty 1\n",
        4,
        LineFault::Header,
    ),
    (
        "depot schedule 1\nscheme plain 4\nput  1\n",
        3,
        LineFault::Header,
    ),
    (
        "depot schedule 1\nscheme plain 4\nnod 1\n",
        3,
        LineFault::Word,
    ),
    (
        "depot schedule 1\nscheme plain 4\nscheme plain 4\n",
        3,
        LineFault::Header,
    ),
    (
        "depot schedule 1\nscheme plain 4\nnode 1\nget 1 6b\nnode 0\n",
        5,
        LineFault::Header,
    ),
    (
        "depot schedule 1\nscheme plain 4\nnode 1\nput 1 6b x\nput 1 6b 61",
        4,
        LineFault::Hex,
    ),
];

/// Lines after the header, and the same of the text.
static LINES: [(&str, u32, LineFault); 112] = [
    ("put 1 6b 61", 6, LineFault::End),
    ("\n", 6, LineFault::Word),
    ("put  1 6b\n", 6, LineFault::Word),
    ("put 1 6b 61 \n", 6, LineFault::Word),
    ("putt 1\n", 6, LineFault::Word),
    ("put 0 6b\n", 6, LineFault::Fields),
    ("put 0 6b 61 62\n", 6, LineFault::Fields),
    ("put 01 6b 61\n", 6, LineFault::Number),
    ("put 9 6B 61\n", 6, LineFault::Node),
    ("put 3 6b 61\n", 6, LineFault::Node),
    ("put 1 6B 61\n", 6, LineFault::Hex),
    ("put 1 6 61\n", 6, LineFault::Hex),
    ("put 1 - 61\n", 6, LineFault::Hex),
    ("get 1 6b\nget 9 6b\n", 7, LineFault::Node),
    ("hello 1 0h\n", 6, LineFault::Label),
    (
        "hello 1 abcdefghijklmnopqrstuvwxyz0123456\n",
        6,
        LineFault::Label,
    ),
    ("hello 1 h\nhello 2 h\n", 7, LineFault::Label),
    ("bundle 1 h h\n", 6, LineFault::Label),
    ("raw r -\ngive 1 r 0\n", 7, LineFault::Number),
    ("raw r -\ngive 1 r 1000001\n", 7, LineFault::Number),
    ("give 1 r 1 1\n", 6, LineFault::Fields),
    ("restart 9\n", 6, LineFault::Node),
    ("update u 1 0 1 - 6b 61 - right\n", 6, LineFault::Node),
    ("update u 9 16 1 - 6b 61 - right\n", 6, LineFault::Number),
    ("update u 9 15 0 - 6b 61 - right\n", 6, LineFault::Number),
    (
        "update u 9 15 9223372036854775808 - 6b 61 - right\n",
        6,
        LineFault::Number,
    ),
    ("update u 9 0 1 u 6b 61 - right\n", 6, LineFault::Label),
    ("update u 9 0 1 9.16 6b 61 - right\n", 6, LineFault::Number),
    ("update u 9 0 1 9.0 6b 61 - right\n", 6, LineFault::Node),
    ("update u 9 0 1 1.0.0 6b 61 - right\n", 6, LineFault::Number),
    (
        "update u 9 0 1 - 6b 61 x,9.0,0.0 right\n",
        6,
        LineFault::Number,
    ),
    ("update u 9 0 1 - 6b 61 x,9.0 right\n", 6, LineFault::Node),
    ("update u 9 0 1 - 6b 61 1.0, right\n", 6, LineFault::Label),
    ("update u 9 0 1 - 6b 61 - 00\n", 6, LineFault::Hex),
    ("voucher v 9 0 -\n", 6, LineFault::Label),
    ("voucher v 9 0 1.0\nvoucher w 9 1 v\n", 7, LineFault::Label),
    ("voucher v 9 0 1.0\nproof p Same v v\n", 7, LineFault::Label),
    ("raw r 00\nproof p SamePrev r r\n", 7, LineFault::Label),
    ("judge r\n", 6, LineFault::Label),
    ("raw r 0\n", 6, LineFault::Hex),
    ("raw r -\ncut c r 0 4294967296\n", 7, LineFault::Number),
    ("raw r -\nflip f r x\n", 7, LineFault::Number),
    ("join j j j\n", 6, LineFault::Label),
    ("stop 1 0 3\n", 6, LineFault::Number),
    ("stop 1 1000001 0\n", 6, LineFault::Number),
    ("stop 1 1 3\n", 6, LineFault::Label),
    ("stop 1 1 00\n", 6, LineFault::Label),
    ("puts 1\n", 6, LineFault::Fields),
    ("puts 1 6b=61 6c=62\n", 6, LineFault::Fields),
    ("puts 0 6b\n", 6, LineFault::Number),
    ("puts 9 6b\n", 6, LineFault::Node),
    ("puts 1 6b\n", 6, LineFault::Hex),
    ("puts 1 -\n", 6, LineFault::Hex),
    ("puts 1 !\n", 6, LineFault::Hex),
    ("puts 1 =61\n", 6, LineFault::Hex),
    ("puts 1 6b=\n", 6, LineFault::Hex),
    ("puts 1 -=61\n", 6, LineFault::Hex),
    ("puts 1 -!\n", 6, LineFault::Hex),
    ("puts 1 6b=61!\n", 6, LineFault::Hex),
    ("puts 1 6b!=61\n", 6, LineFault::Hex),
    ("puts 1 6b!61\n", 6, LineFault::Hex),
    ("puts 1 6b!!\n", 6, LineFault::Hex),
    ("puts 1 6b=61=62\n", 6, LineFault::Hex),
    ("puts 1 6b=6\n", 6, LineFault::Hex),
    ("puts 1 6B=61\n", 6, LineFault::Hex),
    ("puts 1 6b=61,\n", 6, LineFault::Hex),
    ("puts 1 ,6b=61\n", 6, LineFault::Hex),
    ("puts 1 6b=61,,6c!\n", 6, LineFault::Hex),
    ("puts 1 6c=61,6b=62\n", 6, LineFault::Hex),
    ("puts 1 6b00=61,6b!\n", 6, LineFault::Hex),
    ("puts 1 6b=61,6b=61\n", 6, LineFault::Hex),
    ("puts 1 6b=61,6b!\n", 6, LineFault::Hex),
    ("puts 1 6b!,6c!,6b!\n", 6, LineFault::Hex),
    (
        "puts 1 00!,01!,02!,03!,04!,05!,06!,07!,08!,09!,0a!,0b!,0c!,0d!,0e!,0f!\n\
        puts 1 00!,01!,02!,03!,04!,05!,06!,07!,08!,09!,0a!,0b!,0c!,0d!,0e!,0f!,10!\n",
        7,
        LineFault::Hex,
    ),
    ("update u 9 0 1 - 6b! - right\n", 6, LineFault::Fields),
    ("updates u 9 0 1 - 6b 61 - right\n", 6, LineFault::Fields),
    ("updates u 1 0 1 - 6b! - right\n", 6, LineFault::Node),
    ("updates u 9 16 1 - 6b! - right\n", 6, LineFault::Number),
    ("updates u 9 0 0 - 6b! - right\n", 6, LineFault::Number),
    ("updates u 9 0 1 u 6b! - right\n", 6, LineFault::Label),
    ("updates u 9 0 1 - 6b x right\n", 6, LineFault::Hex),
    ("updates u 9 0 1 - 6c!,6b! x right\n", 6, LineFault::Hex),
    ("updates u 9 0 1 - 6b! x right\n", 6, LineFault::Label),
    ("updates u 9 0 1 - 6b! - 00\n", 6, LineFault::Hex),
    (
        "updates u 9 0 1 - 6b! - right\nvoucher u 9 1 u\n",
        7,
        LineFault::Label,
    ),
    (
        "raw r -\nupdate u 9 0 1 r 6b 61 - right\n",
        7,
        LineFault::Label,
    ),
    (
        "raw r -\nupdates u 9 0 1 - 6b! r right\n",
        7,
        LineFault::Label,
    ),
    ("hello 1 h\nvoucher v 9 0 h\n", 7, LineFault::Label),
    (
        "voucher v 9 0 1.0\nproof p NotUpdate v v\n",
        7,
        LineFault::Label,
    ),
    ("hollow k v\n", 6, LineFault::Fields),
    ("raw r -\nhollow k r r\n", 7, LineFault::Label),
    (
        "update u 9 0 1 - 6b 61 - right\nraw r -\nhollow k u r\n",
        8,
        LineFault::Label,
    ),
    ("voucher v 9 0 1.0\nhollow k v v\n", 7, LineFault::Label),
    (
        "voucher v 9 0 1.0\nhello 1 h\nhollow k v h\n",
        8,
        LineFault::Label,
    ),
    (
        "voucher v 9 0 1.0\nraw r -\nhollow r v r\n",
        8,
        LineFault::Label,
    ),
    (
        "voucher v 9 0 1.0\nraw r -\nhollow k v r\nproof p SamePrev k v\n",
        9,
        LineFault::Label,
    ),
    (
        "voucher v 9 0 1.0\nraw r -\nhollow k v r\nvoucher w 9 1 k\n",
        9,
        LineFault::Label,
    ),
    ("checkpoint 1\n", 6, LineFault::Fields),
    ("checkpoint 9 k\n", 6, LineFault::Node),
    ("raw k -\ncheckpoint 1 k\n", 7, LineFault::Label),
    ("sign 1 k\n", 6, LineFault::Label),
    ("raw k -\nsign 9 k\n", 7, LineFault::Node),
    ("trim 1 k t\n", 6, LineFault::Label),
    ("raw k -\ntrim 1 k\n", 7, LineFault::Fields),
    ("raw k -\ntrim 1 k k\n", 7, LineFault::Label),
    ("raw k -\ntrim 1 k t\nraw t -\n", 8, LineFault::Label),
    ("raw k -\ntgive k k\n", 7, LineFault::Label),
    ("raw k -\ntrim 1 k t\ntgive t t\n", 8, LineFault::Label),
    ("raw k -\ntget k 6b\n", 7, LineFault::Label),
    ("raw k -\ntrim 1 k t\ntget t -\n", 8, LineFault::Hex),
    (
        "put 1 636865636b706f696e743a0000000000000000000000000000000000000000000000000000000000000000 61\n",
        6,
        LineFault::Hex,
    ),
    (
        "puts 1 636865636b706f696e743a0000000000000000000000000000000000000000000000000000000000000000!\n",
        6,
        LineFault::Hex,
    ),
];

/// Lines in which a piece occurs so many times: a prefix, the piece, its times, a suffix, and whether the line is
/// faulty, which is Hex.
static LONG: [(&str, &str, u32, &str, bool); 8] = [
    ("puts 1 ", "0a", 255, "=61\n", false),
    ("puts 1 ", "0a", 256, "=61\n", true),
    ("puts 1 ", "0a", 256, "!\n", true),
    ("puts 1 6b=", "ff", 65_536, "\n", false),
    ("puts 1 6b=", "ff", 65_537, "\n", true),
    ("put 1 ", "0a", 256, " -\n", true),
    ("updates u 9 0 1 - ", "0a", 255, "! - right\n", false),
    ("updates u 9 0 1 - ", "0a", 256, "! - right\n", true),
];

/// The number of the first faulty line and its fault. None where there is none.
fn fault(alloc: Global, text: &str) -> Option<(u32, LineFault)> {
    match parse_schedule(alloc, text.as_bytes()) {
        Err(TextError::Line(number, fault)) => Some((number, fault)),
        _ => None,
    }
}

/// The same of lines after the header.
fn fault_behind(alloc: Global, lines: &str) -> Result<Option<(u32, LineFault)>, Fail> {
    let text = format!(in alloc; "{HEADER}{lines}")?;
    Ok(fault(alloc, text.as_str()))
}

#[test]
fn the_first_faulty_line_of_the_header_is_told(rt: HostRuntime) {
    for (text, number, right) in TEXTS.iter() {
        let told = fault(rt.alloc(), text);
        assert!(rt; told == Some((*number, *right)), "{text}");
    }
}

#[test]
fn the_first_faulty_line_of_the_events_is_told(rt: HostRuntime) -> Result<(), Fail> {
    for (lines, number, right) in LINES.iter() {
        let told = fault_behind(rt.alloc(), lines)?;
        assert!(rt; told == Some((*number, *right)), "{lines}");
    }
    Ok(())
}

/// Adds a piece so many times.
fn push_pieces(text: &mut String, piece: &str, times: u32) -> Result<(), Fail> {
    for _ in 0..times {
        text.push_str(piece)?;
    }
    Ok(())
}

#[test]
fn a_line_after_100_000_is_told(rt: HostRuntime) -> Result<(), Fail> {
    let mut lines = String::new(rt.alloc());
    push_pieces(&mut lines, "restart 1\n", 99_996)?;
    let told = fault_behind(rt.alloc(), lines.as_str())?;
    assert!(rt; told == Some((100_001, LineFault::Long)));
    Ok(())
}

/// The fault of a line in which a piece occurs so many times.
fn long_fault(
    alloc: Global,
    front: &str,
    piece: &str,
    times: u32,
    back: &str,
) -> Result<Option<(u32, LineFault)>, Fail> {
    let mut line = String::new(alloc);
    line.push_str(front)?;
    push_pieces(&mut line, piece, times)?;
    line.push_str(back)?;
    fault_behind(alloc, line.as_str())
}

#[test]
fn keys_and_values_have_their_greatest_lengths(rt: HostRuntime) -> Result<(), Fail> {
    for (front, piece, times, back, faulty) in LONG.iter() {
        let told = long_fault(rt.alloc(), front, piece, *times, back)?;
        let right = if *faulty {
            Some((6, LineFault::Hex))
        } else {
            None
        };
        assert!(rt; told == right, "{front}{times}");
    }
    Ok(())
}

/// Whether a schedule has the scheme, the members and the events of the worked one.
fn is_worked(schedule: &Schedule) -> bool {
    schedule.winter
        && schedule.height == 12
        && schedule.members.as_slice().len() == 3
        && schedule.events.as_slice().len() == 37
}

/// Whether the worked schedule is read, and printed with the same bytes.
fn is_printed_again(alloc: Global) -> Result<bool, Fail> {
    let schedule = parse_schedule(alloc, SCHEDULE.as_bytes())?;
    let text = print_schedule(alloc, &schedule)?;
    Ok(is_worked(&schedule) && text.as_slice() == SCHEDULE.as_bytes())
}

#[test]
fn a_schedule_is_printed_as_its_own_bytes(rt: HostRuntime) -> Result<(), Fail> {
    assert!(rt; is_printed_again(rt.alloc())?);
    Ok(())
}

/// Whether these bytes are a label's, which has them.
fn is_label(alloc: Global, bytes: &[u8]) -> Result<bool, Memory> {
    match Label::new(Bytes::from_slice(alloc, bytes)?) {
        Some(label) => Ok(label.bytes() == bytes),
        None => Ok(false),
    }
}

#[test]
fn a_label_has_its_bytes(rt: HostRuntime) -> Result<(), Fail> {
    assert!(rt; is_label(rt.alloc(), b"h0")?);
    Ok(())
}
