//! Laws over definitions alone.
ghost use Rattle.std.specs.Prelude.{◌≡◌, ℕ, List, Ok};
ghost use Rattle.depot_schedule.specs.declared.schedule.Schedule.{Schedule};
ghost use Rattle.depot_schedule.specs.Schedules.{IsSchedule, text_of_schedule, schedule_of, IsTextOfSchedule};

/// A schedule that has a text is read back from it. So no text loses anything, and no two schedules have the same text.
pub fn schedules_are_read_back()
    ensures { (s : Schedule) → IsSchedule s → schedule_of (text_of_schedule s) ≡ Ok s }
{}

/// A text that is read is the text of the resulting schedule. So each schedule has one spelling.
pub fn schedules_have_one_spelling()
    ensures { (text : List ℕ) (s : Schedule) → schedule_of text ≡ Ok s → IsTextOfSchedule text s }
{}
