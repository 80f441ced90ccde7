//! What a reader shows.
ghost use Rattle.std.specs.Prelude.{◌≡◌, ℕ, List};
ghost use Rattle.depot_base.specs.declared.record.Record.{Record};
ghost use Rattle.depot_model.specs.checks.Checks.{Setting};
ghost use Rattle.depot_model.specs.journals.Lawful.{IsLawful};
ghost use Rattle.depot_model.specs.readers.Readers.{reader_of, shown_by_reader};
ghost use Rattle.depot_model.specs.journals.ShownWrites.{shown_of};

/// A reader made of a lawful journal shows of each key what the journal shows: the latest writes, each with its value,
/// or that it isn't held, or that the key was deleted. So no value that a read shows was dropped with the trimmed
/// updates.
pub fn readers_show_as_before()
    ensures { (here : Setting) (J : List Record) (ids : List (List ℕ)) (key : List ℕ) → IsLawful here J → shown_by_reader (reader_of here J ids) key ≡ shown_of J key }
{}
