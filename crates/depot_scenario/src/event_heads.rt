//! The head of an event's line.
ghost use Rattle.std.specs.Prelude.{◌≡◌, ◌+◌, ◌++◌, IfOk, OnOk, codes, take};
ghost use Rattle.depot_lines.specs.Language.{join};
ghost use Rattle.depot_schedule.specs.Schedules.{event_words};
ghost use Rattle.depot_world.specs.Transcript.{head_count, head_words};

use depot_base::{Bytes, Memory};
use depot_lines::word_writers::word;
use depot_schedule::{Event, event_head};
use std::alloc::Global;

/// How many words of an event's line precede the arrow, besides its name: of `trim` those before the label that is left
/// out.
fn count_behind_name(event: &Event) -> usize
    ensures { head_count event.now ≡ 1 + result }
{
    match event {
        Event::Bundle { .. } | Event::Settled { .. } => 3,
        Event::Put { .. } | Event::Get { .. } | Event::Hello { .. } | Event::Give { .. } => 2,
        Event::Checkpoint { .. } | Event::Sign { .. } => 2,
        Event::Tgive { .. } | Event::Tget { .. } => 2,
        _ => 1,
    }
}

/// Adds what follows the label that is left out: of `trim` the name of its reader.
#[tactic(auto, using(depot_base::proofs::Writing::texts), unfolding(depot_schedule::specs::EventLines::trim_line))]
fn name_of_reader(head: &mut Bytes, event: &Event) -> Result<(), Memory>
    requires { head.old ≡ join 32 (take (head_count event.now) (event_words event.now)) }
    ensures { OnOk result (head.new ≡ join 32 (head_words event.now)) }
{
    match event {
        Event::Trim { name, .. } => word(head, name.bytes()),
        _ => Ok(()),
    }
}

/// An event's name and the words that precede the arrow, with spaces between them, and the arrow. This takes them from
/// the line that the event has in a schedule.
pub fn head_and_arrow(alloc: Global, event: &Event) -> Result<Bytes, Memory>
    ensures { IfOk result (λ head. head ≡ join 32 (head_words event.now) ++ codes " ->") }
{
    let mut head = event_head(alloc, event, count_behind_name(event))?;
    name_of_reader(&mut head, event)?;
    head.push_all(b" ->")?;
    Ok(head)
}
