//! Loads whose texts were made elsewhere, from the words of docs/FORMATS.md, and summaries of transcripts by hand. A whole load is run by the program.

use depot_base::Memory;
use depot_schedule::print_schedule;
use depot_world::{loads_are_schedules, make_load, summary};
use sha2::{Digest, Sha256};
use std::alloc::Global;

/// Numbers, and the digests of the texts of their loads.
static LOADS: [(u32, &str); 3] = [
    (
        0,
        "f5b0fe436a4922a0facb1fd4981110168686b6c7efa3761c2855dea8fa2e0924",
    ),
    (
        1,
        "a300217c1a31c85b73adf89bb5ceeb6f36556dc62ac6c8e035bda25a81e0051d",
    ),
    (
        4_294_967_295,
        "639cdc272cb696afdd18ea62ce3780ac451498aa18a1446a80d2d131cf67f42d",
    ),
];

/// Transcripts, and what is summed up of each.
static SUMMARIES: [(&[u8], &[u8]); 5] = [
    (
        b"",
        b"load 7 puts 0 accepted 0 known 0 refused 0 convicted 0 agree yes\n",
    ),
    (
        b"put 1 6b -> 0/1\nput 1 6b -> Spent 4096\nput 1 6b -> full bytes 9\nput 1 6b -> 1/2 3\nput 1 6b ->\nget 1 0/1 ->\nput 2 6b -> 0/2\n",
        b"load 7 puts 2 accepted 0 known 0 refused 0 convicted 0 agree yes\n",
    ),
    (
        b"give 2 b0 -> accepted 2 known 1 refused 1 whole\n refused 0 4 BadSignature 9\ngive 2 b1 -> accepted 3 known 0 refused 2 cut 12\ngive 2 b1 -> stopped records 5\ngive 2 b1 -> accepted 1 known 1\n",
        b"load 7 puts 0 accepted 5 known 1 refused 3 convicted 0 agree yes\n",
    ),
    (
        b"hello 1 a -> convicted 9 leaves 1 wanted 0\nhello 1 b -> convicted 1 leaves 0 wanted 0\nhello 1 c -> convicted 0 leaves 0 wanted 0\nhello 1 d -> stopped records 5\nhello 1 e -> convicted 1 leaves 0 wanted 0\nhello 1 f -> convicted 1 leaves 0 wanted 0\nhello 1 g -> convicted 0 leaves 0 wanted 0\nget 1 01 -> 1/0/1=61\nget 1 01 ->\nget 2 01 ->\nget 3 01 ->\nget 4 01 ->\nget 5 02 -> 1/0/1=61\nget 5 01 ->\n",
        b"load 7 puts 0 accepted 0 known 0 refused 0 convicted 3 agree yes\n",
    ),
    (
        b"get 1 01 -> 1/0/1=61\nget 1 02 ->\nget 2 01 -> 1/0/1=61 2/0/1=62\ngive 1 a -> accepted 9223372036854775807 known 0 refused 0 bare\ngive 1 a -> accepted 9223372036854775807 known 0 refused 0 bare\ngive 1 a -> accepted 9223372036854775807 known 0 refused 0 bare\ngive 1 a -> accepted 9223372036854775808 known 0 refused 0 bare\n",
        b"load 7 puts 0 accepted 27670116110564327421 known 0 refused 0 convicted 0 agree no\n",
    ),
];

/// Whether this is the digest of a text.
fn is_digest(alloc: Global, text: &[u8], right: &str) -> bool {
    match hex::encode(alloc, &Sha256::digest(text)) {
        Ok(digest) => digest.as_str() == right,
        Err(_) => false,
    }
}

/// Whether the text of a number's load has this digest.
fn has_digest(alloc: Global, number: u32, right: &str) -> Result<bool, Memory> {
    loads_are_schedules();
    let schedule = make_load(alloc, number)?;
    let text = print_schedule(alloc, &schedule)?;
    Ok(is_digest(alloc, text.as_slice(), right))
}

#[test]
fn loads_are_those_of_their_numbers(rt: HostRuntime) {
    for (number, right) in LOADS.iter() {
        assert!(rt;
            has_digest(rt.alloc(), *number, right) == Ok(true),
            "{number}"
        );
    }
}

/// Whether this is summed up of a transcript.
fn is_summed_up(alloc: Global, transcript: &[u8], right: &[u8]) -> bool {
    match summary(alloc, 7, transcript) {
        Ok(line) => line.as_slice() == right,
        Err(_) => false,
    }
}

#[test]
fn transcripts_are_summed_up(rt: HostRuntime) {
    for (transcript, right) in SUMMARIES.iter() {
        assert!(rt; is_summed_up(rt.alloc(), transcript, right), "{right:?}");
    }
}
