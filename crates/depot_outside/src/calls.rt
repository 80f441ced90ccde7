//! The calls of a fake.
ghost use Rattle.std.specs.Prelude.{◌≡◌, ◌+◌, ◌-◌, ◌^◌, ◌↔◌, min, Contains, IsErr, is_err, if◌then◌else◌};

use crate::Failed;
use crate::faults::Faults;
use depot_base::Items;

/// The calls on an object in memory, numbered from 1, of which some fail.
#[derive(Debug, Drop)]
pub struct Calls {
    fails: Items,
    made: u64,
    faults: Faults,
}

impl Calls {
    /// No calls yet. Those with these numbers will fail.
    pub fn new(fails: Items) -> Calls
        ensures fails { result.fails ≡ fails }
        ensures made { result.made ≡ 0 }
        ensures faults { result.faults.number ≡ 0 }
    {
        Calls {
            fails,
            made: 0,
            faults: Faults::new(),
        }
    }

    /// Begins the next call and fails it, whatever its number is.
    pub fn fail(&mut self)
        ensures fails { self.new.fails ≡ self.old.fails }
        ensures made { self.new.made ≡ min (self.old.made + 1) (2 ^ 64 - 1) }
        ensures faults { self.new.faults.number ≡ self.old.faults.number + 1 }
    {
        self.made = self.made.saturating_add(1);
        self.faults.raise();
    }

    /// Begins the next call. It fails exactly where its number is among those that do.
    pub fn begin(&mut self) -> Result<(), Failed>
        ensures fails { self.new.fails ≡ self.old.fails }
        ensures made { self.new.made ≡ min (self.old.made + 1) (2 ^ 64 - 1) }
        ensures failed { IsErr result ↔ Contains self.old.fails self.new.made }
        ensures faults { self.new.faults.number ≡ self.old.faults.number + (if is_err result then 1 else 0) }
    {
        self.made = self.made.saturating_add(1);
        let number = self.made;
        if self
            .fails
            .as_slice()
            .iter()
            .any(|failing| u64::from(*failing) == number)
        {
            self.faults.raise();
            return Err(Failed);
        }
        Ok(())
    }
}
