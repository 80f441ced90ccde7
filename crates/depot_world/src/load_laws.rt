//! Laws over definitions alone.
ghost use Rattle.std.specs.Prelude.{ℕ};
ghost use Rattle.depot_world.specs.Loads.{load_of};
ghost use Rattle.depot_schedule.specs.Schedules.{IsSchedule};

/// Each load has a text, so it is printed and replayed.
pub fn loads_are_schedules()
    ensures { (number : ℕ) → IsSchedule (load_of number) }
{}
