//! Keys, values and digests have their lengths; copies of statements, vouchers and changes are equal; what an update
//! writes is found by its key; and a count of steps takes no bytes.

ghost use Rattle.std.specs.Prelude.{◌≡◌, ◌<◌};

use depot_base::{
    Bytes, Change, Changes, Deps, Hash32, Ids, Key, LengthError, Memory, NodeId, Signed, Statement,
    Steps, Texts, Update, Value, ValueList, Voucher, Write, Writes, Wrote,
};
use std::alloc::Global;
use std::marker::Brand;
use std::sync::ledger::{Blank, Ledger};
use std::test::Fail;

/// So many bytes.
fn ones(alloc: Global, count: usize) -> Result<Vec<u8>, Memory> {
    Ok(vec![in alloc; 1u8; count]?)
}

/// How many bytes a copy of a key of so many bytes has.
fn key_length(alloc: Global, length: usize) -> Result<usize, LengthError> {
    let bytes = ones(alloc, length)?;
    let key = Key::new(alloc, &bytes)?;
    Ok(key.copy()?.bytes().len())
}

/// The same of a value.
fn value_length(alloc: Global, length: usize) -> Result<usize, LengthError> {
    let bytes = ones(alloc, length)?;
    let value = Value::new(alloc, &bytes)?;
    Ok(value.copy()?.bytes().len())
}

#[test]
fn values_have_their_lengths(rt: HostRuntime) {
    let alloc = rt.alloc();
    for length in [0, 256] {
        assert!(rt; key_length(alloc, length) == Err(LengthError::Length(length)));
    }
    assert!(rt; key_length(alloc, 255) == Ok(255));
    assert!(rt; value_length(alloc, 65_536) == Ok(65_536));
    assert!(rt; value_length(alloc, 65_537) == Err(LengthError::Length(65_537)));
    assert!(rt; Hash32::from_slice(&[0u8; 32]) == Some(Hash32::zeros()));
    assert!(rt; Hash32::from_slice(&[0u8; 31]).is_none());
    assert!(rt; Hash32::zeros().is_zeros());
    assert!(rt; NodeId::new(0).is_none());
}

/// What is said of a key that gets a value of 6 bytes.
fn put() -> Wrote {
    Wrote::Put {
        hash: Hash32::new([7; 32]),
        length: 6,
    }
}

/// Two writes: `log` gets that value, and `old` is deleted.
fn writes(alloc: Global) -> Result<Writes, LengthError> {
    let mut writes = Writes::new(alloc);
    for (key, what) in [(b"log", put()), (b"old", Wrote::Gone)] {
        let key = Key::new(alloc, key)?;
        writes.push(Write { key, what })?;
    }
    Ok(writes)
}

/// An update of node 1, with seq 4.
fn update(alloc: Global, writer: NodeId) -> Result<Update, LengthError> {
    Ok(Update {
        writer,
        seq: 4,
        clock: 5,
        prev: Hash32::zeros(),
        writes: writes(alloc)?,
        deps: Deps::new(alloc),
        history: Hash32::new([8; 32]),
    })
}

/// It as a statement, with a signature of 9 bytes.
fn signed(alloc: Global, writer: NodeId) -> Result<Signed, LengthError> {
    let signature = Bytes::from_slice(alloc, &[1; 9])?;
    Ok(Signed {
        statement: Statement::Update(update(alloc, writer)?),
        body: Bytes::new(alloc),
        signature,
    })
}

/// Whether a copy of a statement with seq 4 and a signature of 9 bytes is the same.
fn is_same(signed: &Signed) -> Result<bool, LengthError> {
    let copy = signed.copy()?;
    Ok(
        copy.statement.writer() == signed.statement.writer()
            && copy.statement.seq() == 4
            && copy.signature.as_slice().len() == 9,
    )
}

/// Whether a copy of that statement is the same.
fn is_copied(alloc: Global, writer: NodeId) -> Result<bool, LengthError> {
    let signed = signed(alloc, writer)?;
    is_same(&signed)
}

/// How many ids a copy of a voucher for one has, and the voucher itself.
fn ids_of_copy(alloc: Global, node: NodeId) -> Result<[usize; 2], Memory> {
    let mut ids = Ids::from_vec(Vec::new(alloc));
    ids.push(Hash32::zeros())?;
    let voucher = Voucher { node, seq: 11, ids };
    let copied = voucher.copy()?.ids.as_slice().len();
    Ok([copied, voucher.ids.into_vec().len()])
}

#[test]
fn statements_are_copied(rt: HostRuntime) -> Result<(), Fail> {
    let node = NodeId::new(1).ok_or("1")?;
    assert!(rt; is_copied(rt.alloc(), node)?);
    assert_eq!(rt; ids_of_copy(rt.alloc(), node)?, [1, 1]);
    Ok(())
}

/// What a copy of that update writes under a key.
fn wrote(alloc: Global, writer: NodeId, key: &[u8]) -> Result<Option<Wrote>, LengthError> {
    let update = update(alloc, writer)?;
    Ok(update.copy()?.wrote(key))
}

/// Whether a copy of that update is the same update.
fn is_the_same_update(alloc: Global, writer: NodeId) -> Result<bool, LengthError> {
    let update = update(alloc, writer)?;
    let copy = update.copy()?;
    Ok(update.is_same(&copy))
}

/// The length of the value that a write names.
fn named_length(what: Wrote) -> Option<u32> {
    match what.named() {
        Some(value) => Some(value.size),
        None => None,
    }
}

#[test]
fn a_write_is_found_by_its_key(rt: HostRuntime) -> Result<(), Fail> {
    let node = NodeId::new(1).ok_or("1")?;
    for (key, right) in [
        (b"log", Some(put())),
        (b"old", Some(Wrote::Gone)),
        (b"new", None),
    ] {
        assert!(rt; wrote(rt.alloc(), node, key)? == right);
    }
    assert!(rt; is_the_same_update(rt.alloc(), node)?);
    assert!(rt; named_length(put()) == Some(6));
    assert!(rt; named_length(Wrote::Gone).is_none());
    Ok(())
}

/// Two changes: `k` gets a value of 3 bytes, and `l` is deleted.
fn changes(alloc: Global) -> Result<Changes, LengthError> {
    let key = Key::new(alloc, b"k")?;
    let mut changes = Changes::one(alloc, key, Value::new(alloc, b"abc")?)?;
    let key = Key::new(alloc, b"l")?;
    changes.push(Change { key, value: None })?;
    Ok(changes)
}

/// How many bytes the value of a change has; none of a deletion.
fn length_of(change: &Change) -> Option<usize> {
    match &change.value {
        Some(value) => Some(value.bytes().len()),
        None => None,
    }
}

/// The lengths of the values of a copy of two changes.
fn copied_lengths(changes: &Changes) -> Result<[Option<usize>; 2], Memory> {
    let copy = changes.copy()?;
    match copy.as_slice() {
        [first, second] => Ok([length_of(first), length_of(second)]),
        _ => Ok([None, None]),
    }
}

/// Whether a copy of those changes is the same.
fn are_copied(alloc: Global) -> Result<bool, LengthError> {
    let changes = changes(alloc)?;
    Ok(copied_lengths(&changes)? == [Some(3), None])
}

/// How many values a copy of a list of one has.
fn copied_values(alloc: Global) -> Result<usize, LengthError> {
    let mut values = ValueList::new(alloc);
    values.push(Value::new(alloc, b"abc")?)?;
    Ok(values.copy()?.as_slice().len())
}

/// Whether a copy of a list of two texts is the same.
fn texts_are_copied(alloc: Global) -> Result<bool, Memory> {
    let mut texts = Texts::new(alloc);
    texts.push(Bytes::from_slice(alloc, b"abc")?)?;
    texts.push(Bytes::new(alloc))?;
    let copy = texts.copy()?;
    Ok(match copy.as_slice() {
        [first, second] => first.as_slice() == b"abc".as_slice() && second.as_slice().is_empty(),
        _ => false,
    })
}

#[test]
fn texts_of_a_list_are_copied(rt: HostRuntime) -> Result<(), Fail> {
    assert!(rt; texts_are_copied(rt.alloc())?);
    Ok(())
}

#[test]
fn changes_are_copied(rt: HostRuntime) -> Result<(), Fail> {
    assert!(rt; are_copied(rt.alloc())?);
    assert!(rt; copied_values(rt.alloc())? == 1);
    Ok(())
}

/// The size of a count of two steps.
fn size_of_two<L: Ledger>(blank: Blank) -> usize
    requires name { blank.name ≡ L.name }
    requires parts { blank.parts ≡ L.parts }
    requires some { 0 < blank.parts }
{
    let mut steps = Steps::<L>::new(blank);
    steps.tick();
    steps.tick();
    size_of::<Steps<L>>()
}

#[test]
fn steps_take_no_bytes(rt: HostRuntime) {
    assert_eq!(rt; size_of_two::<Brand>(Blank::new(1)), 0);
}
