// The steps of a scan list: its fields (frames), what their doubles are worth (judging), and the step that stands at a place
// (reading). What each of these is stands in specs/.

#![tactic(auto)]

ghost use Rattle.std.specs.Prelude.{◌≡◌};
ghost use Rattle.steps.specs.Numbers.{number_of, fault_at};

pub mod frames;
pub mod judging;
pub mod reading;

// What refuses a list, by the number that is printed for it.
#[derive(Clone, Copy, PartialEq, Eq)]
pub enum Cause {
    CutShort = 20,
    TagOrOrder = 21,
    WrongLength = 22,
    WrongChannel = 23,
    NotWhole = 24,
    OutOfRange = 25,
    TooMany = 26,
}

impl Cause {
    pub fn number(self) -> u32
        ensures { result ≡ number_of self }
    {
        self as u32
    }

    // The fault of the field at a place.
    pub fn at(self, offset: usize) -> Fault
        ensures { result ≡ fault_at self offset }
    {
        Fault {
            cause: self,
            offset,
        }
    }
}

// What refuses a list: the cause, and the offset of its field.
#[derive(Clone, Copy, PartialEq, Eq)]
pub struct Fault {
    pub cause: Cause,
    pub offset: usize,
}

// A set-point, with the double that it came with.
#[derive(Clone, Copy)]
pub enum SetPoint {
    Target(f64),
    Distance(f64),
    Dwell(f64),
}

// The target, or the distance, and the speed of a move, as the two doubles that they came in.
#[derive(Clone, Copy)]
pub struct Pair {
    pub target: f64,
    pub speed: f64,
}

// The first field of a step: a channel, or a dwell with its double and its number. The channel is the byte of a list.
#[derive(Clone, Copy)]
pub enum Opening {
    Channel(u8),
    Dwelling(f64, u32),
}

// A move of a channel to a target or by a distance, each by its place, and at a speed.
#[derive(Clone, Copy)]
pub struct Move {
    pub channel: u8,
    pub relative: bool,
    pub place: u32,
    pub speed: u32,
}

// A step of the list: a move, or a dwell with its double and its number.
#[derive(Clone, Copy)]
pub enum Step {
    Drive(Move),
    Wait(f64, u32),
}
