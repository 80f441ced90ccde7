//! The calls of a disk in memory, in one of which it may stop.
ghost use Rattle.std.specs.Prelude.{◌≡◌, ◌≤◌, ◌+◌, ◌-◌, ◌^◌, ◌↔◌, min, [], None, Contains};
ghost use Rattle.depot_outside.specs.StopImages.{IsTurn, counted_down, image_due, faults_in, image_of_number};

use crate::Failed;
use crate::calls::Calls;
use depot_base::Items;

/// Which crash image of a disk in memory a stop gives.
#[derive(Clone, Copy, Debug, PartialEq, Eq)]
pub enum Image {
    /// The file after the last sync.
    Synced,
    /// The file with all writes since.
    Written,
    /// The file with FF in place of each byte written since.
    Blanked,
}

impl Image {
    /// The image of a number, 0, 1 or 2.
    pub fn numbered(number: u8) -> Image
        requires { number ≤ 2 }
        ensures { result ≡ image_of_number number }
    {
        match number {
            0 => Image::Synced,
            1 => Image::Written,
            _ => Image::Blanked,
        }
    }
}

/// A stop that is set: in which call, the next one being 1, and which image it gives.
#[derive(Clone, Copy, Debug, PartialEq, Eq)]
pub struct Stop {
    pub call: u32,
    pub image: Image,
}

/// What becomes of a call.
#[derive(Clone, Copy, Debug, PartialEq, Eq)]
pub enum Turn {
    /// It is made.
    Made,
    /// It fails, and changes nothing.
    Fails,
    /// The disk stops in it with this image.
    Stops(Image),
}

/// The calls on a disk in memory, some of which fail, and the stop that is set.
#[derive(Debug, Drop)]
pub struct DiskCalls {
    pub calls: Calls,
    pub next: Option<Stop>,
}

impl DiskCalls {
    /// No calls yet. Those with these numbers will fail, and no stop is set.
    pub fn new(fails: Items) -> DiskCalls
        ensures fails { result.calls.fails ≡ fails }
        ensures made { result.calls.made ≡ 0 }
        ensures faults { result.calls.faults.number ≡ 0 }
        ensures next { result.next ≡ None }
    {
        DiskCalls {
            calls: Calls::new(fails),
            next: None,
        }
    }

    /// The image of the stop, if it is set in the call that begins. Any other stop is then one call nearer.
    fn count_down(&mut self) -> Option<Image>
        ensures due { result ≡ image_due self.old.next }
        ensures next { self.new.next ≡ counted_down self.old.next }
        ensures calls { self.new.calls ≡ self.old.calls }
    {
        let Some(stop) = self.next else {
            return None;
        };
        if stop.call <= 1 {
            self.next = None;
            return Some(stop.image);
        }
        self.next = Some(Stop {
            call: stop.call - 1,
            image: stop.image,
        });
        None
    }

    /// Begins the next call. A stop that is set in it comes first, whatever the call's number is.
    pub fn begin(&mut self) -> Turn
        ensures turn { IsTurn (image_due self.old.next) result }
        ensures next { self.new.next ≡ counted_down self.old.next }
        ensures made { self.new.calls.made ≡ min (self.old.calls.made + 1) (2 ^ 64 - 1) }
        ensures failing { (result ≡ Turn.Fails) ↔ ((image_due self.old.next ≡ None) × Contains self.old.calls.fails self.new.calls.made) }
        ensures fails { self.new.calls.fails ≡ self.old.calls.fails }
        ensures faults { self.new.calls.faults.number ≡ self.old.calls.faults.number + faults_in result }
        ensures faultless { self.old.calls.fails ≡ [] → self.old.next ≡ None → result ≡ Turn.Made }
    {
        if let Some(image) = self.count_down() {
            self.calls.fail();
            return Turn::Stops(image);
        }
        match self.calls.begin() {
            Ok(()) => Turn::Made,
            Err(Failed) => Turn::Fails,
        }
    }
}
