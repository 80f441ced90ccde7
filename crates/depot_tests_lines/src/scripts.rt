//! Scripts from outside, as tables: good ones, and each fault of a line. A text is a prefix, a piece so many times, and
//! a suffix.

use depot_base::{Bytes, Memory};
use depot_lines::{LineFault, TextError};
use depot_script::{Script, parse_script, print_script};
use std::alloc::Global;
use std::test::Fail;

/// Scripts, and how many commands each has.
static GOOD: [(&[u8], &[u8], usize, &[u8], usize); 15] = [
    (b"", b"", 0, b"", 0),
    (
        b"put 6b 61\nput 00ff -\nget 6b\nhello h.bin\nbundle h.bin b.bin\ntake b.bin\n",
        b"",
        0,
        b"",
        6,
    ),
    (b"take \xc3\xa9\t\r,=\x00\n", b"", 0, b"", 1),
    (b"take take\n", b"hello -\n", 2, b"", 3),
    (b"get ", b"0a", 255, b"\n", 1),
    (b"put 0a ", b"ff", 65_536, b"\n", 1),
    (b"bundle a ", b"x", 4096, b"\n", 1),
    (b"", b"get 0a\n", 100_000, b"", 100_000),
    (b"puts 6b=61,6b00=-,6c!\nputs 00!\n", b"", 0, b"", 2),
    (
        b"puts 00!,01!,02!,03!,04!,05!,06!,07!,08!,09!,0a!,0b!,0c!,0d!,0e!,0f!\n",
        b"",
        0,
        b"",
        1,
    ),
    (b"puts ", b"0a", 255, b"!\n", 1),
    (b"puts 0a=", b"ff", 65_536, b",0b!\n", 1),
    (
        b"checkpoint k\nsign k\ntrim k\ntgive b\ntget 6b\n",
        b"",
        0,
        b"",
        5,
    ),
    (b"tget 636865636b706f696e743a", b"00", 32, b"\n", 1),
    (b"put 636865636b706f696e743a", b"00", 31, b" 61\n", 1),
];

/// Texts, and the number of the first faulty line of each and its fault.
static FAULTY: [(&[u8], &[u8], usize, &[u8], u32, LineFault); 62] = [
    (b"get 6b", b"", 0, b"", 1, LineFault::End),
    (b"get 6b\ngot", b"", 0, b"", 2, LineFault::End),
    (
        b"",
        b"get 0a\n",
        100_000,
        b"get 0a",
        100_001,
        LineFault::End,
    ),
    (b"", b"get 0a\n", 100_000, b"\n", 100_001, LineFault::Long),
    (b"\n", b"", 0, b"", 1, LineFault::Word),
    (b"get 6b\n\nget 6b\n", b"", 0, b"", 2, LineFault::Word),
    (b"got 6b\n", b"", 0, b"", 1, LineFault::Word),
    (b"Get 6b\n", b"", 0, b"", 1, LineFault::Word),
    (b" get 6b\n", b"", 0, b"", 1, LineFault::Word),
    (b"get  6b\n", b"", 0, b"", 1, LineFault::Word),
    (b"get 6b \n", b"", 0, b"", 1, LineFault::Word),
    (b"get\t6b\n", b"", 0, b"", 1, LineFault::Word),
    (b"depot script 1\n", b"", 0, b"", 1, LineFault::Word),
    (b"give 6b\n", b"", 0, b"", 1, LineFault::Word),
    (b"get\n", b"", 0, b"", 1, LineFault::Fields),
    (b"get - 6b\n", b"", 0, b"", 1, LineFault::Fields),
    (b"put 6B\n", b"", 0, b"", 1, LineFault::Fields),
    (b"put 6b 61 62\n", b"", 0, b"", 1, LineFault::Fields),
    (b"bundle h\n", b"", 0, b"", 1, LineFault::Fields),
    (b"take a b\n", b"", 0, b"", 1, LineFault::Fields),
    (b"get -\n", b"", 0, b"", 1, LineFault::Hex),
    (b"get 6B\n", b"", 0, b"", 1, LineFault::Hex),
    (b"get 6\n", b"", 0, b"", 1, LineFault::Hex),
    (b"get 6g\n", b"", 0, b"", 1, LineFault::Hex),
    (b"get ", b"0a", 256, b"\n", 1, LineFault::Hex),
    (b"put 6b --\n", b"", 0, b"", 1, LineFault::Hex),
    (b"put 6b 6\nget\n", b"", 0, b"", 1, LineFault::Hex),
    (b"put 0a ", b"ff", 65_537, b"\n", 1, LineFault::Hex),
    (b"take \xff\n", b"", 0, b"", 1, LineFault::Label),
    (b"take \xed\xa0\x80\n", b"", 0, b"", 1, LineFault::Label),
    (b"hello ", b"x", 4097, b"\n", 1, LineFault::Label),
    (b"bundle ", b"x", 4097, b" b\n", 1, LineFault::Label),
    (b"puts\n", b"", 0, b"", 1, LineFault::Fields),
    (b"puts 6b=61 6c=62\n", b"", 0, b"", 1, LineFault::Fields),
    (b"puts 6b\n", b"", 0, b"", 1, LineFault::Hex),
    (b"puts -\n", b"", 0, b"", 1, LineFault::Hex),
    (b"puts 6b=\n", b"", 0, b"", 1, LineFault::Hex),
    (b"puts -=61\n", b"", 0, b"", 1, LineFault::Hex),
    (b"puts -!\n", b"", 0, b"", 1, LineFault::Hex),
    (b"puts 6b=61!\n", b"", 0, b"", 1, LineFault::Hex),
    (b"puts 6b=61,\n", b"", 0, b"", 1, LineFault::Hex),
    (b"puts 6b!,,6c!\n", b"", 0, b"", 1, LineFault::Hex),
    (b"puts 6c!,6b!\n", b"", 0, b"", 1, LineFault::Hex),
    (b"puts 6b=61,6b!\n", b"", 0, b"", 1, LineFault::Hex),
    (
        b"puts 00!,01!,02!,03!,04!,05!,06!,07!,08!,09!,0a!,0b!,0c!,0d!,0e!,0f!,10!\n",
        b"",
        0,
        b"",
        1,
        LineFault::Hex,
    ),
    (b"updates 6b=61\n", b"", 0, b"", 1, LineFault::Word),
    (b"put 6b=61\n", b"", 0, b"", 1, LineFault::Fields),
    (b"puts ", b"0a", 256, b"!\n", 1, LineFault::Hex),
    (b"puts ", b"0a", 256, b"=61\n", 1, LineFault::Hex),
    (b"puts 0a=", b"ff", 65_537, b"\n", 1, LineFault::Hex),
    (b"checkpoint\n", b"", 0, b"", 1, LineFault::Fields),
    (b"sign k k\n", b"", 0, b"", 1, LineFault::Fields),
    (b"trim k t\n", b"", 0, b"", 1, LineFault::Fields),
    (b"tgive\n", b"", 0, b"", 1, LineFault::Fields),
    (b"tget t 6b\n", b"", 0, b"", 1, LineFault::Fields),
    (b"checkpoint \xff\n", b"", 0, b"", 1, LineFault::Label),
    (b"sign \xff\n", b"", 0, b"", 1, LineFault::Label),
    (b"trim \xff\n", b"", 0, b"", 1, LineFault::Label),
    (b"tgive \xff\n", b"", 0, b"", 1, LineFault::Label),
    (b"tget -\n", b"", 0, b"", 1, LineFault::Hex),
    (
        b"put 636865636b706f696e743a",
        b"00",
        32,
        b" 61\n",
        1,
        LineFault::Hex,
    ),
    (
        b"puts 636865636b706f696e743a",
        b"00",
        32,
        b"!\n",
        1,
        LineFault::Hex,
    ),
];

/// A prefix, a piece so many times, and a suffix.
fn text_of(
    alloc: Global,
    front: &[u8],
    piece: &[u8],
    times: usize,
    back: &[u8],
) -> Result<Bytes, Memory> {
    let mut text = Bytes::new(alloc);
    text.push_all(front)?;
    for _ in 0..times {
        text.push_all(piece)?;
    }
    text.push_all(back)?;
    Ok(text)
}

/// Whether a script is printed so.
fn is_printed(alloc: Global, script: &Script, text: &[u8]) -> bool {
    match print_script(alloc, script) {
        Ok(printed) => printed.as_slice() == text,
        Err(_) => false,
    }
}

/// Whether a script with so many commands is read, and printed with the same bytes.
fn is_kept(alloc: Global, text: &[u8], count: usize) -> bool {
    match parse_script(alloc, text) {
        Ok(script) => script.as_slice().len() == count && is_printed(alloc, &script, text),
        Err(_) => false,
    }
}

#[test]
fn scripts_are_read_and_printed_as_their_own_bytes(rt: HostRuntime) -> Result<(), Fail> {
    for (front, piece, times, back, count) in GOOD.iter() {
        let text = text_of(rt.alloc(), front, piece, *times, back)?;
        assert!(rt; is_kept(rt.alloc(), text.as_slice(), *count), "{front:?}");
    }
    Ok(())
}

/// The number of the first faulty line, and its fault.
fn fault(alloc: Global, text: &[u8]) -> Option<(u32, LineFault)> {
    match parse_script(alloc, text) {
        Err(TextError::Line(number, fault)) => Some((number, fault)),
        _ => None,
    }
}

#[test]
fn the_first_faulty_line_is_told(rt: HostRuntime) -> Result<(), Fail> {
    for (front, piece, times, back, number, right) in FAULTY.iter() {
        let text = text_of(rt.alloc(), front, piece, *times, back)?;
        let told = fault(rt.alloc(), text.as_slice());
        assert!(rt; told == Some((*number, *right)), "{front:?}");
    }
    Ok(())
}
