//! Each text once, as docs/FORMATS.md or the worked schedules of `depot_world` have it.

use depot_answers::{
    Closing, ReaderCounts, Seen, check, collides, counts, empty, faulty_line, full, kept, many,
    named, numbered, point, put, reader_feed, record_fault, records, refusal, report, roster_error,
    spent, tips, unsigned, verdict, write,
};
use depot_base::{
    Bytes, Check, Deps, Full, FullOf, Hash32, Ids, Kind, Memory, NodeId, Nodes, Update, Writes,
};
use depot_lines::LineFault;
use depot_model::{
    Counts, Ending, Half, Hello, HelloLeaf, HelloLeaves, JudgeError, RecordFault, Refusal,
    Refusals, Report, RosterError, Verdict,
};
use std::alloc::Global;
use std::test::Fail;

/// What is answered, and what else is printed with it.
#[derive(Clone, Copy)]
enum PrintedAnswer {
    Check(Check),
    Refusal(Refusal),
    Full(Full),
    Spent(u32),
    Tips(u32),
    Collides,
    Put(u32, u64),
    Write(NodeId, Seen<'static>),
    Records(u32),
    RecordFault(RecordFault),
    Named(NodeId),
    Counts(Counts, bool),
    Report(Ending, Option<Closing>),
    FaultyLine(u32, LineFault),
    Point(JudgeError),
    Verdict(Verdict),
    RosterError(RosterError),
    Numbered(&'static str, u64),
    Empty,
    Many(u32),
    Unsigned(NodeId),
    Kept(u32, u32),
    ReaderFeed(ReaderCounts, Option<Full>),
}

/// The update of a node with seq 0 and clock 2; what it writes is no matter.
fn update(alloc: Global, writer: NodeId) -> Update {
    Update {
        writer,
        seq: 0,
        clock: 2,
        prev: Hash32::zeros(),
        writes: Writes::new(alloc),
        deps: Deps::new(alloc),
        history: Hash32::new([8; 32]),
    }
}

/// Two leaves of a node.
fn two_leaves(alloc: Global, writer: NodeId) -> Result<HelloLeaves, Memory> {
    let mut leaves = HelloLeaves::new(alloc);
    for first in [5, 6] {
        let id = Hash32::new([first; 32]);
        leaves.push(HelloLeaf { writer, id })?;
    }
    Ok(leaves)
}

/// A hello with a convicted node and two leaves.
fn hello(alloc: Global, node: NodeId) -> Result<Hello, Memory> {
    let leaves = two_leaves(alloc, node)?;
    let mut convicted = Nodes::new(alloc);
    convicted.push(node)?;
    Ok(Hello {
        node,
        roster: Hash32::new([4; 32]),
        convicted,
        leaves,
        wanted: Ids::new(alloc),
    })
}

/// Prints it.
fn print_hello(alloc: Global, out: &mut Bytes, node: NodeId) -> bool {
    match hello(alloc, node) {
        Ok(hello) => named(alloc, out, &hello).is_ok(),
        Err(_) => false,
    }
}

/// The report of a stream of which two frames were new, and one was refused.
fn report_of(alloc: Global, ending: Ending) -> Result<Report, Memory> {
    let mut refused = Refusals::new(alloc);
    refused.push(Refusal {
        frame: 2,
        check: Check::AgainstMe,
    })?;
    Ok(Report {
        accepted: 2,
        known: 0,
        refused,
        ending,
    })
}

/// Prints it.
fn print_report(alloc: Global, out: &mut Bytes, ending: Ending, closing: Option<Closing>) -> bool {
    match report_of(alloc, ending) {
        Ok(told) => report(alloc, out, &told, closing).is_ok(),
        Err(_) => false,
    }
}

/// Prints an answer, where memory is found.
fn print(alloc: Global, out: &mut Bytes, answer: &PrintedAnswer) -> bool {
    match answer {
        PrintedAnswer::Check(failed) => check(alloc, out, failed).is_ok(),
        PrintedAnswer::Refusal(refused) => refusal(alloc, out, refused).is_ok(),
        PrintedAnswer::Full(what) => full(alloc, out, what).is_ok(),
        PrintedAnswer::Spent(count) => spent(alloc, out, *count).is_ok(),
        PrintedAnswer::Tips(count) => tips(alloc, out, *count).is_ok(),
        PrintedAnswer::Collides => collides(out).is_ok(),
        PrintedAnswer::Put(seq, clock) => put(alloc, out, *seq, *clock).is_ok(),
        PrintedAnswer::Write(writer, seen) => {
            write(alloc, out, &update(alloc, *writer), *seen).is_ok()
        }
        PrintedAnswer::Records(count) => records(alloc, out, *count).is_ok(),
        PrintedAnswer::RecordFault(fault) => record_fault(alloc, out, fault).is_ok(),
        PrintedAnswer::Named(node) => print_hello(alloc, out, *node),
        PrintedAnswer::Counts(found, more) => counts(alloc, out, found, *more).is_ok(),
        PrintedAnswer::Report(ending, closing) => print_report(alloc, out, *ending, *closing),
        PrintedAnswer::FaultyLine(number, fault) => faulty_line(
            alloc, out, *number, *fault,
        ).is_ok(),
        PrintedAnswer::Point(failed) => point(alloc, out, failed).is_ok(),
        PrintedAnswer::Verdict(found) => verdict(alloc, out, found).is_ok(),
        PrintedAnswer::RosterError(error) => roster_error(alloc, out, error).is_ok(),
        PrintedAnswer::Numbered(name, n) => numbered(alloc, out, name, *n).is_ok(),
        PrintedAnswer::Empty => empty(out).is_ok(),
        PrintedAnswer::Many(count) => many(alloc, out, *count).is_ok(),
        PrintedAnswer::Unsigned(node) => unsigned(alloc, out, *node).is_ok(),
        PrintedAnswer::Kept(left, all) => kept(alloc, out, *left, *all).is_ok(),
        PrintedAnswer::ReaderFeed(found, met) => reader_feed(alloc, out, *found, *met).is_ok(),
    }
}

/// Whether this is the text of an answer.
fn has_text(alloc: Global, answer: &PrintedAnswer, text: &str) -> bool {
    let mut out = Bytes::new(alloc);
    print(alloc, &mut out, answer) && out.as_slice() == text.as_bytes()
}

#[test]
fn each_answer_has_its_text(rt: HostRuntime) -> Result<(), Fail> {
    let node = NodeId::new(9).ok_or("9")?;
    let one = NodeId::new(1).ok_or("1")?;
    let kind = Kind::SamePrev;
    let hash = Hash32::zeros();
    let what = Full {
        what: FullOf::Records,
        number: 131_072,
    };
    let sent = Counts {
        proofs: 1,
        vouchers: 2,
        updates: 3,
        values: 4,
    };
    let taken = ReaderCounts {
        accepted: 1,
        known: 2,
        refused: 3,
        below: 4,
    };
    let forked = Check::Forked {
        kept: hash,
        came: hash,
        kind,
    };
    let refused = Refusal {
        frame: 1,
        check: Check::Missing(hash),
    };
    let rows = [
        (
            PrintedAnswer::Check(Check::BadSignature(node)),
            "4 BadSignature 9",
        ),
        (PrintedAnswer::Check(Check::ClockFar(0)), "9 ClockFar 0"),
        (
            PrintedAnswer::FaultyLine(2, LineFault::Number),
            "line 2 Number",
        ),
        (PrintedAnswer::Check(forked), "11 Forked SamePrev"),
        (PrintedAnswer::Check(Check::AgainstMe), "16 AgainstMe"),
        (PrintedAnswer::Refusal(refused), " refused 1 5 Missing"),
        (PrintedAnswer::Full(what), "full records 131072"),
        (PrintedAnswer::Spent(4), "Spent 4"),
        (PrintedAnswer::Tips(1025), "Tips 1025"),
        (PrintedAnswer::Collides, "Collides"),
        (PrintedAnswer::Put(0, 1), "0/1"),
        (
            PrintedAnswer::Write(one, Seen::Held(b"\x0f\xab")),
            "1/0/2=0fab",
        ),
        (PrintedAnswer::Write(one, Seen::Held(b"")), "1/0/2="),
        (PrintedAnswer::Write(one, Seen::NotHeld), "1/0/2=?"),
        (PrintedAnswer::Write(one, Seen::Gone), "1/0/2!"),
        (PrintedAnswer::Records(2), "records 2"),
        (PrintedAnswer::RecordFault(RecordFault::Ill(3)), "Ill 3"),
        (
            PrintedAnswer::RecordFault(RecordFault::Refused(Check::BadSignature(node))),
            "4 BadSignature 9",
        ),
        (PrintedAnswer::Named(node), "convicted 1 leaves 2 wanted 0"),
        (
            PrintedAnswer::Counts(sent, true),
            "proofs 1 vouchers 2 updates 3 values 4 more",
        ),
        (
            PrintedAnswer::Report(Ending::Cut(3), None),
            "accepted 2 known 0 refused 1 cut 3",
        ),
        (
            PrintedAnswer::Report(Ending::Closed, Some(Closing::IllFormed(7))),
            "accepted 2 known 0 refused 1 ill-formed 7",
        ),
        (
            PrintedAnswer::Report(Ending::Closed, Some(Closing::Full(what))),
            "accepted 2 known 0 refused 1 full records 131072",
        ),
        (
            PrintedAnswer::Point(JudgeError::BadSignature(Half::First)),
            "BadSignature first",
        ),
        (
            PrintedAnswer::Point(JudgeError::TwoWriters(node, node)),
            "TwoWriters 9 9",
        ),
        (
            PrintedAnswer::Point(JudgeError::NotContradictory(kind)),
            "NotContradictory SamePrev",
        ),
        (
            PrintedAnswer::Point(JudgeError::NotContradictory(Kind::NotUpdate)),
            "NotContradictory NotUpdate",
        ),
        (PrintedAnswer::Verdict(Verdict { node, kind }), "9 SamePrev"),
        (
            PrintedAnswer::Verdict(Verdict {
                node,
                kind: Kind::NotUpdate,
            }),
            "9 NotUpdate",
        ),
        (
            PrintedAnswer::RosterError(RosterError::TwiceNode(node)),
            "twice 9",
        ),
        (
            PrintedAnswer::Numbered("stopped records", 2),
            "stopped records 2",
        ),
        (PrintedAnswer::Empty, "Empty"),
        (PrintedAnswer::Many(1025), "Many 1025"),
        (PrintedAnswer::Unsigned(node), "Unsigned 9"),
        (PrintedAnswer::Kept(3, 4), "kept 3 of 4"),
        (
            PrintedAnswer::ReaderFeed(taken, None),
            "accepted 1 known 2 refused 3 below 4",
        ),
        (
            PrintedAnswer::ReaderFeed(taken, Some(what)),
            "accepted 1 known 2 refused 3 below 4 full records 131072",
        ),
    ];
    for (answer, text) in &rows {
        assert!(rt; has_text(rt.alloc(), answer, text), "{text}");
    }
    Ok(())
}
