//! Reads the words after the name of an event: one function a line of the table.
ghost use Rattle.depot_lines.specs.Language.{nothing, last};
ghost use Rattle.depot_schedule.specs.EventWords.{piece_size};
ghost use Rattle.depot_schedule.specs.EventLines.{put_line, puts_line, get_line, hello_line, bundle_line, give_line, restart_line, update_line, updates_line, voucher_line, proof_line, hollow_line, judge_line, raw_line, cut_line, flip_line, join_line, stop_line, receipt_line, settled_line, audit_line, checkpoint_line, sign_line, trim_line, tgive_line, tget_line, line_of};
ghost use Rattle.depot_lines.specs.LineReading.{AnswersReading};
ghost use Rattle.depot_schedule.specs.declared.schedule.Schedule.{Schedule};

use crate::draft::Draft;
use crate::references::{deps, one_update, prev, some_updates, vouched};
use crate::schedule_words::{
    correct, faulty, history, image, label_for, new_label, seq, stop_call,
};
use depot_base::limits::MOST_PIECE;
use depot_lines::word_readers::{
    any_u32, changes, clock, key, kind, node_count, number_of, put_key, raw_bytes, value,
};
use depot_lines::{Keys, LineError, LineFault, Parts, counted, made};
use depot_schedule::{Event, Verb, Wanted};
use std::alloc::Global;

/// `put N KEY VALUE`
#[tactic(auto, unfolding(depot_schedule::specs::EventLines::put_line))]
fn put(alloc: Global, words: &mut Parts<'_>, behind: &Draft) -> Result<Event, LineError>
    ensures { AnswersReading result (put_line.read behind.now words.old) }
{
    counted(words, 3, 3)?;
    let node = correct(words, behind)?;
    let key = put_key(alloc, words)?;
    let value = value(alloc, words)?;
    made(words, Event::Put { node, key, value })
}

/// `puts N WRITES`
#[tactic(auto, unfolding(depot_schedule::specs::EventLines::puts_line))]
fn puts(alloc: Global, words: &mut Parts<'_>, behind: &Draft) -> Result<Event, LineError>
    ensures { AnswersReading result (puts_line.read behind.now words.old) }
{
    counted(words, 2, 2)?;
    let node = correct(words, behind)?;
    let changes = changes(alloc, words, Keys::Put)?;
    made(words, Event::Puts { node, changes })
}

/// `get N KEY`
#[tactic(auto, unfolding(depot_schedule::specs::EventLines::get_line))]
fn get(alloc: Global, words: &mut Parts<'_>, behind: &Draft) -> Result<Event, LineError>
    ensures { AnswersReading result (get_line.read behind.now words.old) }
{
    counted(words, 2, 2)?;
    let node = correct(words, behind)?;
    let key = key(alloc, words)?;
    made(words, Event::Get { node, key })
}

/// `hello N LABEL`
#[tactic(auto, unfolding(depot_schedule::specs::EventLines::hello_line))]
fn hello(alloc: Global, words: &mut Parts<'_>, behind: &Draft) -> Result<Event, LineError>
    ensures { AnswersReading result (hello_line.read behind.now words.old) }
{
    counted(words, 2, 2)?;
    let node = correct(words, behind)?;
    let label = new_label(alloc, words, behind)?;
    made(words, Event::Hello { node, label })
}

/// `bundle N HELLO LABEL`
#[tactic(auto, unfolding(depot_schedule::specs::EventLines::bundle_line))]
fn bundle(alloc: Global, words: &mut Parts<'_>, behind: &Draft) -> Result<Event, LineError>
    ensures { AnswersReading result (bundle_line.read behind.now words.old) }
{
    counted(words, 3, 3)?;
    let node = correct(words, behind)?;
    let hello = label_for(alloc, words, behind, Wanted::Any)?;
    let label = new_label(alloc, words, behind)?;
    made(words, Event::Bundle { node, hello, label })
}

/// The last word as the size of a piece, if there is one.
fn last_size(words: &mut Parts<'_>) -> Result<Option<u32>, LineError>
    ensures { AnswersReading result (last (piece_size.read nothing) words.old) }
{
    let Some(word) = words.next() else {
        return Ok(None);
    };
    let size = number_of(word, 1, MOST_PIECE as u64)?;
    if words.is_done() {
        Ok(Some(size as u32))
    } else {
        Err(LineError::In(LineFault::Fields))
    }
}

/// `give N LABEL` or `give N LABEL SIZE`
#[tactic(auto, unfolding(depot_schedule::specs::EventLines::give_line))]
fn give(alloc: Global, words: &mut Parts<'_>, behind: &Draft) -> Result<Event, LineError>
    ensures { AnswersReading result (give_line.read behind.now words.old) }
{
    counted(words, 2, 3)?;
    let node = correct(words, behind)?;
    let label = label_for(alloc, words, behind, Wanted::Any)?;
    let size = last_size(words)?;
    Ok(Event::Give { node, label, size })
}

/// `restart N`
#[tactic(auto, unfolding(depot_schedule::specs::EventLines::restart_line))]
fn restart(words: &mut Parts<'_>, behind: &Draft) -> Result<Event, LineError>
    ensures { AnswersReading result (restart_line.read behind.now words.old) }
{
    counted(words, 1, 1)?;
    let node = correct(words, behind)?;
    made(words, Event::Restart { node })
}

/// `update LABEL W SEQ CLOCK PREV KEY VALUE DEPS HISTORY`
#[tactic(auto, unfolding(depot_schedule::specs::EventLines::update_line))]
fn update(alloc: Global, words: &mut Parts<'_>, behind: &Draft) -> Result<Event, LineError>
    ensures { AnswersReading result (update_line.read behind.now words.old) }
{
    counted(words, 9, 9)?;
    let label = new_label(alloc, words, behind)?;
    let writer = faulty(words, behind)?;
    let seq = seq(words, behind)?;
    let clock = clock(words)?;
    let prev = prev(alloc, words, behind)?;
    let key = key(alloc, words)?;
    let value = value(alloc, words)?;
    let deps = deps(alloc, words, behind)?;
    let history = history(alloc, words)?;
    made(
        words,
        Event::Update {
            label,
            writer,
            seq,
            clock,
            prev,
            key,
            value,
            deps,
            history,
        },
    )
}

/// `updates LABEL W SEQ CLOCK PREV WRITES DEPS HISTORY`
#[tactic(auto, unfolding(depot_schedule::specs::EventLines::updates_line))]
fn updates(alloc: Global, words: &mut Parts<'_>, behind: &Draft) -> Result<Event, LineError>
    ensures { AnswersReading result (updates_line.read behind.now words.old) }
{
    counted(words, 8, 8)?;
    let label = new_label(alloc, words, behind)?;
    let writer = faulty(words, behind)?;
    let seq = seq(words, behind)?;
    let clock = clock(words)?;
    let prev = prev(alloc, words, behind)?;
    let changes = changes(alloc, words, Keys::Any)?;
    let deps = deps(alloc, words, behind)?;
    let history = history(alloc, words)?;
    made(
        words,
        Event::Updates {
            label,
            writer,
            seq,
            clock,
            prev,
            changes,
            deps,
            history,
        },
    )
}

/// `voucher LABEL W SEQ REFS`
#[tactic(auto, unfolding(depot_schedule::specs::EventLines::voucher_line))]
fn voucher(alloc: Global, words: &mut Parts<'_>, behind: &Draft) -> Result<Event, LineError>
    ensures { AnswersReading result (voucher_line.read behind.now words.old) }
{
    counted(words, 4, 4)?;
    let label = new_label(alloc, words, behind)?;
    let writer = faulty(words, behind)?;
    let seq = seq(words, behind)?;
    let refs = vouched(alloc, words, behind)?;
    made(
        words,
        Event::Voucher {
            label,
            writer,
            seq,
            refs,
        },
    )
}

/// `proof LABEL KIND A B`
#[tactic(auto, unfolding(depot_schedule::specs::EventLines::proof_line))]
fn proof(alloc: Global, words: &mut Parts<'_>, behind: &Draft) -> Result<Event, LineError>
    ensures { AnswersReading result (proof_line.read behind.now words.old) }
{
    counted(words, 4, 4)?;
    let label = new_label(alloc, words, behind)?;
    let kind = kind(words)?;
    let first = label_for(alloc, words, behind, Wanted::Signed)?;
    let second = label_for(alloc, words, behind, Wanted::Signed)?;
    made(
        words,
        Event::Proof {
            label,
            kind,
            first,
            second,
        },
    )
}

/// `hollow LABEL V T`
#[tactic(auto, unfolding(depot_schedule::specs::EventLines::hollow_line))]
fn hollow(alloc: Global, words: &mut Parts<'_>, behind: &Draft) -> Result<Event, LineError>
    ensures { AnswersReading result (hollow_line.read behind.now words.old) }
{
    counted(words, 3, 3)?;
    let label = new_label(alloc, words, behind)?;
    let voucher = label_for(alloc, words, behind, Wanted::Voucher)?;
    let text = label_for(alloc, words, behind, Wanted::Plain)?;
    made(
        words,
        Event::Hollow {
            label,
            voucher,
            text,
        },
    )
}

/// `judge LABEL`
#[tactic(auto, unfolding(depot_schedule::specs::EventLines::judge_line))]
fn judge(alloc: Global, words: &mut Parts<'_>, behind: &Draft) -> Result<Event, LineError>
    ensures { AnswersReading result (judge_line.read behind.now words.old) }
{
    counted(words, 1, 1)?;
    let label = label_for(alloc, words, behind, Wanted::Any)?;
    made(words, Event::Judge { label })
}

/// `raw LABEL HEX`
#[tactic(auto, unfolding(depot_schedule::specs::EventLines::raw_line))]
fn raw(alloc: Global, words: &mut Parts<'_>, behind: &Draft) -> Result<Event, LineError>
    ensures { AnswersReading result (raw_line.read behind.now words.old) }
{
    counted(words, 2, 2)?;
    let label = new_label(alloc, words, behind)?;
    let bytes = raw_bytes(alloc, words)?;
    made(words, Event::Raw { label, bytes })
}

/// `cut LABEL FROM START COUNT`
#[tactic(auto, unfolding(depot_schedule::specs::EventLines::cut_line))]
fn cut(alloc: Global, words: &mut Parts<'_>, behind: &Draft) -> Result<Event, LineError>
    ensures { AnswersReading result (cut_line.read behind.now words.old) }
{
    counted(words, 4, 4)?;
    let label = new_label(alloc, words, behind)?;
    let source = label_for(alloc, words, behind, Wanted::Any)?;
    let start = any_u32(words)?;
    let count = any_u32(words)?;
    made(
        words,
        Event::Cut {
            label,
            source,
            start,
            count,
        },
    )
}

/// `flip LABEL FROM PLACE`
#[tactic(auto, unfolding(depot_schedule::specs::EventLines::flip_line))]
fn flip(alloc: Global, words: &mut Parts<'_>, behind: &Draft) -> Result<Event, LineError>
    ensures { AnswersReading result (flip_line.read behind.now words.old) }
{
    counted(words, 3, 3)?;
    let label = new_label(alloc, words, behind)?;
    let source = label_for(alloc, words, behind, Wanted::Any)?;
    let place = any_u32(words)?;
    made(
        words,
        Event::Flip {
            label,
            source,
            place,
        },
    )
}

/// `join LABEL A B`
#[tactic(auto, unfolding(depot_schedule::specs::EventLines::join_line))]
fn join(alloc: Global, words: &mut Parts<'_>, behind: &Draft) -> Result<Event, LineError>
    ensures { AnswersReading result (join_line.read behind.now words.old) }
{
    counted(words, 3, 3)?;
    let label = new_label(alloc, words, behind)?;
    let first = label_for(alloc, words, behind, Wanted::Any)?;
    let second = label_for(alloc, words, behind, Wanted::Any)?;
    made(
        words,
        Event::Join {
            label,
            first,
            second,
        },
    )
}

/// `stop N K IMAGE`
#[tactic(auto, unfolding(depot_schedule::specs::EventLines::stop_line))]
fn stop(words: &mut Parts<'_>, behind: &Draft) -> Result<Event, LineError>
    ensures { AnswersReading result (stop_line.read behind.now words.old) }
{
    counted(words, 3, 3)?;
    let node = correct(words, behind)?;
    let call = stop_call(words)?;
    let image = image(words)?;
    made(words, Event::Stop { node, call, image })
}

/// `receipt N REFS`
#[tactic(auto, unfolding(depot_schedule::specs::EventLines::receipt_line))]
fn receipt(alloc: Global, words: &mut Parts<'_>, behind: &Draft) -> Result<Event, LineError>
    ensures { AnswersReading result (receipt_line.read behind.now words.old) }
{
    counted(words, 2, 2)?;
    let node = correct(words, behind)?;
    let refs = some_updates(alloc, words, behind)?;
    made(words, Event::Receipt { node, refs })
}

/// `settled N REF K`
#[tactic(auto, unfolding(depot_schedule::specs::EventLines::settled_line))]
fn settled(alloc: Global, words: &mut Parts<'_>, behind: &Draft) -> Result<Event, LineError>
    ensures { AnswersReading result (settled_line.read behind.now words.old) }
{
    counted(words, 3, 3)?;
    let node = correct(words, behind)?;
    let reference = one_update(alloc, words, behind)?;
    let k = node_count(words)?;
    made(words, Event::Settled { node, reference, k })
}

/// `audit`
#[tactic(auto, unfolding(depot_schedule::specs::EventLines::audit_line))]
fn audit(words: &Parts<'_>) -> Result<Event, LineError>
    ensures { (behind : Schedule) → AnswersReading result (audit_line.read behind words.now) }
{
    counted(words, 0, 0)?;
    made(words, Event::Audit)
}

/// `checkpoint N LABEL`
#[tactic(auto, unfolding(depot_schedule::specs::EventLines::checkpoint_line))]
fn checkpoint(alloc: Global, words: &mut Parts<'_>, behind: &Draft) -> Result<Event, LineError>
    ensures { AnswersReading result (checkpoint_line.read behind.now words.old) }
{
    counted(words, 2, 2)?;
    let node = correct(words, behind)?;
    let label = new_label(alloc, words, behind)?;
    made(words, Event::Checkpoint { node, label })
}

/// `sign N LABEL`
#[tactic(auto, unfolding(depot_schedule::specs::EventLines::sign_line))]
fn sign(alloc: Global, words: &mut Parts<'_>, behind: &Draft) -> Result<Event, LineError>
    ensures { AnswersReading result (sign_line.read behind.now words.old) }
{
    counted(words, 2, 2)?;
    let node = correct(words, behind)?;
    let label = label_for(alloc, words, behind, Wanted::Any)?;
    made(words, Event::Sign { node, label })
}

/// `trim N LABEL NAME`
#[tactic(auto, unfolding(depot_schedule::specs::EventLines::trim_line))]
fn trim(alloc: Global, words: &mut Parts<'_>, behind: &Draft) -> Result<Event, LineError>
    ensures { AnswersReading result (trim_line.read behind.now words.old) }
{
    counted(words, 3, 3)?;
    let node = correct(words, behind)?;
    let label = label_for(alloc, words, behind, Wanted::Any)?;
    let name = new_label(alloc, words, behind)?;
    made(words, Event::Trim { node, label, name })
}

/// `tgive NAME LABEL`
#[tactic(auto, unfolding(depot_schedule::specs::EventLines::tgive_line))]
fn tgive(alloc: Global, words: &mut Parts<'_>, behind: &Draft) -> Result<Event, LineError>
    ensures { AnswersReading result (tgive_line.read behind.now words.old) }
{
    counted(words, 2, 2)?;
    let name = label_for(alloc, words, behind, Wanted::Reader)?;
    let label = label_for(alloc, words, behind, Wanted::Any)?;
    made(words, Event::Tgive { name, label })
}

/// `tget NAME KEY`
#[tactic(auto, unfolding(depot_schedule::specs::EventLines::tget_line))]
fn tget(alloc: Global, words: &mut Parts<'_>, behind: &Draft) -> Result<Event, LineError>
    ensures { AnswersReading result (tget_line.read behind.now words.old) }
{
    counted(words, 2, 2)?;
    let name = label_for(alloc, words, behind, Wanted::Reader)?;
    let key = key(alloc, words)?;
    made(words, Event::Tget { name, key })
}

/// The event of the words after its name.
pub fn event_of(
    alloc: Global,
    verb: Verb,
    words: &mut Parts<'_>,
    behind: &Draft,
) -> Result<Event, LineError>
    ensures { AnswersReading result ((line_of verb).read behind.now words.old) }
{
    match verb {
        Verb::Put => put(alloc, words, behind),
        Verb::Puts => puts(alloc, words, behind),
        Verb::Get => get(alloc, words, behind),
        Verb::Hello => hello(alloc, words, behind),
        Verb::Bundle => bundle(alloc, words, behind),
        Verb::Give => give(alloc, words, behind),
        Verb::Restart => restart(words, behind),
        Verb::Update => update(alloc, words, behind),
        Verb::Updates => updates(alloc, words, behind),
        Verb::Voucher => voucher(alloc, words, behind),
        Verb::Proof => proof(alloc, words, behind),
        Verb::Hollow => hollow(alloc, words, behind),
        Verb::Judge => judge(alloc, words, behind),
        Verb::Raw => raw(alloc, words, behind),
        Verb::Cut => cut(alloc, words, behind),
        Verb::Flip => flip(alloc, words, behind),
        Verb::Join => join(alloc, words, behind),
        Verb::Stop => stop(words, behind),
        Verb::Receipt => receipt(alloc, words, behind),
        Verb::Settled => settled(alloc, words, behind),
        Verb::Audit => audit(words),
        Verb::Checkpoint => checkpoint(alloc, words, behind),
        Verb::Sign => sign(alloc, words, behind),
        Verb::Trim => trim(alloc, words, behind),
        Verb::Tgive => tgive(alloc, words, behind),
        Verb::Tget => tget(alloc, words, behind),
    }
}
