//! Numbers are written and read from the high end, a field is read or reported by its start, and entries are read back.

use depot_base::entry::{Entry, entries_in, put_entries};
use depot_base::fault::Fault;
use depot_base::reading::{at_end, bytes_in, hash_in, node_in, u8_in, u16_in, u32_in, u64_in};
use depot_base::{Bytes, Dep, Fields, Hash32, Memory, NodeId, PublicKey, RosterEntry};
use std::alloc::Global;
use std::test::Fail;

/// The numbers 1 to 15: as four numbers of 1, 2, 4 and 8 bytes they begin with 1, 2, 4 and 8.
const COUNTED: [u8; 15] = [1, 2, 3, 4, 5, 6, 7, 8, 9, 10, 11, 12, 13, 14, 15];

/// The four numbers, written.
fn four_numbers(alloc: Global) -> Result<Bytes, Memory> {
    let mut bytes = Bytes::new(alloc);
    bytes.push_u8(0x01)?;
    bytes.push_u16(0x0203)?;
    bytes.push_u32(0x0405_0607)?;
    bytes.push_u64(0x0809_0a0b_0c0d_0e0f)?;
    bytes.copy()
}

/// Whether a text is the four numbers and no more.
fn are_four_numbers(text: &[u8]) -> bool {
    let mut fields = Fields::new(text);
    fields.take_u8() == Some(0x01)
        && fields.take_u16() == Some(0x0203)
        && fields.take_u32() == Some(0x0405_0607)
        && fields.take_u64() == Some(0x0809_0a0b_0c0d_0e0f)
        && fields.take_u8().is_none()
}

#[test]
fn numbers_have_their_high_end_first(rt: HostRuntime) -> Result<(), Fail> {
    let text = four_numbers(rt.alloc())?;
    assert!(rt; text.as_slice() == COUNTED.as_slice());
    assert!(rt; are_four_numbers(&COUNTED));
    Ok(())
}

/// Whether a part of four bytes goes on counting after three, and has no digest.
fn goes_on(fields: &mut Fields<'_>) -> bool {
    let Some(mut part) = fields.take_part(4) else {
        return false;
    };
    part.take_u8() == Some(4)
        && part.at() == 4
        && part.rest().len() == 3
        && part.take_hash().is_none()
}

/// Whether bytes and a part are taken, and a fault after them is reported at their end.
fn parts_are_taken() -> bool {
    let mut fields = Fields::new(COUNTED.as_slice());
    matches!(fields.take_bytes(3), Some([1, 2, 3]))
        && goes_on(&mut fields)
        && at_end(&fields, 1) == Err(Fault::At(7))
}

/// Whether numbers are read, or reported by their start where they are out of their range or absent.
fn numbers_are_told() -> bool {
    let text = [0u8; 15];
    let mut fields = Fields::new(text.as_slice());
    u8_in(&mut fields, 0, 0) == Ok(0)
        && u16_in(&mut fields, 1, 9) == Err(Fault::At(1))
        && u32_in(&mut fields, 0, 9) == Ok(0)
        && u64_in(&mut fields, 1, 9) == Err(Fault::At(7))
        && node_in(&mut fields) == Err(Fault::At(15))
}

/// Whether bytes are read, and a digest that is cut is reported by its start.
fn bytes_are_told(alloc: Global) -> bool {
    let mut fields = Fields::new(COUNTED.as_slice());
    bytes_in(alloc, &mut fields, 5).is_ok() && hash_in(&mut fields) == Err(Fault::At(5))
}

#[test]
fn fields_are_read_or_told_by_their_start(rt: HostRuntime) {
    assert!(rt; parts_are_taken());
    assert!(rt; numbers_are_told());
    assert!(rt; bytes_are_told(rt.alloc()));
}

/// How many entries are read back from the text of these.
fn read_back<E: Entry>(alloc: Global, list: &[E], count: u16) -> Result<usize, Fault> {
    let mut text = Bytes::new(alloc);
    put_entries(&mut text, list)?;
    let read = entries_in::<E>(alloc, &mut Fields::new(text.as_slice()), count, 1)?;
    Ok(read.len())
}

#[test]
fn entries_are_read_back(rt: HostRuntime) -> Result<(), Fail> {
    let node = NodeId::new(2).ok_or("2")?;
    let id = Hash32::zeros();
    let entry = Dep {
        writer: node,
        clock: 3,
        id,
    };
    let key = PublicKey {
        root: id,
        height: 2,
    };
    let rising = [id, Hash32::new([5; 32])];
    assert!(rt; read_back(rt.alloc(), &rising, 2) == Ok(2));
    assert!(rt; read_back(rt.alloc(), &[id, id], 2) == Err(Fault::At(32)));
    assert!(rt; read_back(rt.alloc(), &[entry], 1) == Ok(1));
    assert!(rt; read_back(rt.alloc(), &[RosterEntry { node, key }], 1) == Ok(1));
    Ok(())
}
