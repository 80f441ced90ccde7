//! Which events ask for right histories.
ghost use Rattle.std.specs.Prelude.{◌≡◌};
ghost use Rattle.std.specs.List.{list_any};
ghost use Rattle.depot_simulation.specs.Asking.{asks_right_history, asks_past, names_parents};

use depot_schedule::{Event, HistoryWord, Ref};

/// Whether a prev and entries name parents.
fn names_parents(prev: &Option<Ref>, deps: &[Ref]) -> bool
    ensures { result ≡ names_parents prev.now deps.now }
{
    match prev {
        Some(_) => true,
        None => match deps {
            [] => false,
            [_, ..] => true,
        },
    }
}

/// Whether the right history of an update with this prev and these entries is needed, and it has parents.
fn asks_past(prev: &Option<Ref>, deps: &[Ref], history: HistoryWord) -> bool
    ensures { result ≡ asks_past prev.now deps.now history }
{
    match history {
        HistoryWord::Right => names_parents(prev, deps),
        HistoryWord::Given(_) => false,
    }
}

/// Whether an event asks for the right history of an update with parents.
fn asks_right_history(event: &Event) -> bool
    ensures { result ≡ asks_right_history event.now }
{
    match event {
        Event::Update {
            prev,
            deps,
            history,
            ..
        } => asks_past(prev, deps.as_slice(), *history),
        Event::Updates {
            prev,
            deps,
            history,
            ..
        } => asks_past(prev, deps.as_slice(), *history),
        _ => false,
    }
}

/// Whether one of these events needs the right history of an update with parents.
pub fn any_asks_right_history(events: &[Event]) -> bool
    ensures { result ≡ list_any asks_right_history events.now }
{
    events.iter().any(|event| asks_right_history(event))
}
