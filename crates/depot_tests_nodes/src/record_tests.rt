//! Texts that are those of a lawful journal, and texts that aren't.

use crate::faults::{Told, bare};
use crate::journals::{
    BIRTH, BIRTH_ONE, DELETION, FOREIGN, HELD, PUT, PUT_ONE, TWO, node, push_texts, roster,
};
use depot_audit::{PlaceFault, check_records};
use depot_base::Texts;
use depot_sign::PlainScheme;
use std::alloc::Global;
use std::test::Fail;

/// The update of node 1 with another last byte of its signature.
const FORGED: &str = "0400000078010100010000000000000000000000010000000000000000000000000000\
    000000000000000000000000000000000000016b\
    ca978112ca1bbdcafac231b39a23dc4da786eff8147c4e72b9807785afee48bb000000010000\
    e3b0c44298fc1c149afbf4c8996fb92427ae41e4649b934ca495991b7852b855\
    0000002097499ba9850cabae4546d6119f9a108138bdc80243560ee8fd3662a2b4a7b2d2";

/// The put of node 2 with another value.
const CHANGED: &str = "0200000078010100020000000000000000000000010000000000000000000000000000\
    000000000000000000000000000000000000016b\
    3e23e8160039594a33894f6564e1b1348bbd7a0088d42c4acb73eeaed59c009d000000010000\
    e3b0c44298fc1c149afbf4c8996fb92427ae41e4649b934ca495991b7852b85563";

/// Texts, and the place and the fault of the first that isn't the record of a lawful journal of node 2.
static JOURNALS: [(&[&str], Option<(u32, Told)>); 21] = [
    (&[BIRTH, PUT, FOREIGN, HELD, DELETION], None),
    (&[], None),
    (&[BIRTH], None),
    (&[BIRTH, PUT, FOREIGN], None),
    // A journal never needs the value of another writer's update: it may be missing.
    (&[BIRTH, PUT, FOREIGN, DELETION], None),
    (&[PUT, FOREIGN, HELD, DELETION], Some((0, Told::Birth))),
    (&[BIRTH, FOREIGN, HELD, DELETION], Some((3, Told::NotNext))),
    (&[BIRTH, PUT, HELD, DELETION], Some((2, Told::Unwanted))),
    (&[BIRTH, PUT, HELD, FOREIGN], Some((2, Told::Unwanted))),
    (&[BIRTH, PUT, FOREIGN, FOREIGN], Some((3, Told::Idle))),
    (&[BIRTH, PUT, FOREIGN, HELD, HELD], Some((4, Told::Idle))),
    (&[BIRTH, PUT, BIRTH], Some((2, Told::Birth))),
    (&[BIRTH, PUT, PUT], Some((2, Told::NotNext))),
    (&[BIRTH, PUT, DELETION], Some((2, Told::NotNext))),
    (&[BIRTH_ONE], Some((0, Told::Birth))),
    (&[BIRTH, PUT_ONE], Some((1, Told::NotNext))),
    (&[BIRTH, CHANGED], Some((1, Told::NotNext))),
    (&[BIRTH, PUT, FORGED], Some((2, Told::BadSignature(1)))),
    (&[BIRTH, ""], Some((1, Told::Ill(0)))),
    (&[BIRTH, PUT, "0700"], Some((2, Told::Ill(0)))),
    (&["01000100"], Some((0, Told::Ill(3)))),
];

/// The place and the fault of the first of these texts that isn't the record of a lawful journal of the node of this number.
fn first_fault(alloc: Global, number: u16, journal: &[&str]) -> Result<Option<(u32, Told)>, Fail> {
    let mut texts = Texts::new(alloc);
    push_texts(alloc, &mut texts, journal)?;
    match check_records(alloc, node(number)?, &roster(alloc)?, &PlainScheme, &texts)? {
        None => Ok(None),
        Some(PlaceFault { place, fault }) => Ok(Some((place, bare(&fault)))),
    }
}

#[test]
fn the_first_record_that_is_not_lawful_is_told(rt: HostRuntime) -> Result<(), Fail> {
    for (journal, right) in JOURNALS.iter() {
        let found = first_fault(rt.alloc(), 2, *journal)?;
        assert!(rt; found == *right, "{found:?}");
    }
    Ok(())
}

#[test]
fn a_node_that_the_roster_lacks_has_no_lawful_birth(rt: HostRuntime) -> Result<(), Fail> {
    assert!(rt; first_fault(rt.alloc(), 3, &[])?.is_none());
    assert!(rt; first_fault(rt.alloc(), 3, &TWO)? == Some((0, Told::Birth)));
    Ok(())
}
