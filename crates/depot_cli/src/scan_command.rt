//! `scan LOG KEY`: the latest writes of a key in a log.
ghost use Rattle.std.specs.Prelude.{◌≡◌, ◌++◌, ◌∷◌, [], IfOk, codes};
ghost use Rattle.std.specs.Fmt.{decimal};
ghost use Rattle.depot_outside.specs.Told.{shelves, loads, HasLoaded};
ghost use Rattle.depot_cli.specs.Runs.{EndsAtFault, Scans, ScanOf};

use crate::files::load;
use crate::outcome::CommandOutcome;
use crate::status::Status;
use depot_base::{Key, Memory};
use depot_outside::Shelf;
use depot_scan::Scanned;
use std::alloc::Global;

/// The file of that name is no log, printed.
fn no_log(alloc: Global, name: &str, at: usize) -> Result<CommandOutcome, Memory>
    ensures { IfOk result (λ o. o ≡ record { status = Status.Input; text = codes "input " ++ name.now ++ codes " at " ++ decimal at ++ codes "\n" }) }
{
    let line = format!(in alloc; "input {name} at {at}\n")?;
    CommandOutcome::of_line(alloc, Status::Input, line.as_str())
}

/// A body's parent doesn't precede it, printed.
fn no_parent(alloc: Global, place: usize) -> Result<CommandOutcome, Memory>
    ensures { IfOk result (λ o. o ≡ record { status = Status.NotLawful; text = codes "not lawful " ++ decimal place ++ codes " 5 Missing\n" }) }
{
    let line = format!(in alloc; "not lawful {place} 5 Missing\n")?;
    CommandOutcome::of_line(alloc, Status::NotLawful, line.as_str())
}

/// The outcome of a scan of these bytes; `name` is the log's.
fn scan_bytes(alloc: Global, log: &[u8], name: &str, key: &Key) -> Result<CommandOutcome, Memory>
    ensures { IfOk result (λ o. ScanOf name.now key.now log.now o.status o.text) }
{
    match depot_scan::scan(alloc, log, key)? {
        Scanned::Lines(text) => Ok(CommandOutcome {
            status: Status::Done,
            text,
        }),
        Scanned::NoLog(at) => no_log(alloc, name, at),
        Scanned::Orphan(place) => no_parent(alloc, place),
    }
}

/// Scans the log of that name.
pub fn scan<F: Shelf>(
    alloc: Global,
    shelf: &mut F,
    name: &str,
    key: &Key,
) -> Result<CommandOutcome, Memory>
    ensures scans { IfOk result (λ o. Scans (shelves F.Shelf shelf.old shelf.new) name.now key.now o.status o.text) }
    ensures first_fault { IfOk result (λ o. EndsAtFault (shelves F.Shelf shelf.old shelf.new) o.status) }
    ensures loads { HasLoaded (loads F.Shelf shelf.old shelf.new) (name.now ∷ []) }
    ensures files { F.file shelf.new ≡ F.file shelf.old }
    ensures stores { F.stores shelf.new ≡ F.stores shelf.old }
{
    match load(shelf, name)? {
        Some(log) => scan_bytes(alloc, log.as_slice(), name, key),
        None => CommandOutcome::no_file(alloc, name),
    }
}
