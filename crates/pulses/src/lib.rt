// One tick of one motor: the pulses that it is given and the motor after it. No function asks that the motor is sound. What each
// rule of the bench says stands in specs/.

#![tactic(auto)]

ghost use Rattle.std.specs.Prelude.{◌≡◌, false, ◌+◌, ◌^◌, ◌<◌};
ghost use Rattle.pulses.specs.Ticks.{tick_speed, due, rest, given, reached, used_up, advanced};
ghost use Rattle.pulses.specs.Ticks.{goes_on, driven_on, tick_motor};

use digits::places::{CW, place_ahead, pulses_ahead};
use drive::{LSEND, end_drive};
use motor::{is_moving, room_of};
use record::{Drive, Motor};

// A motor after one tick, and the pulses that it was given.
#[derive(Clone, Copy)]
pub struct Ticked {
    pub motor: Motor,
    pub pulses: u32,
}

// The speed that a tick goes at: none if the motor does not move.
#[tactic(auto, unfolding(crate::specs::Ticks::tick_speed))]
fn tick_speed(m: Motor) -> u32
    ensures { result ≡ tick_speed m }
{
    if is_moving(m) { m.drive.speed } else { 0 }
}

// The fraction and the speed together, in thousandths of a pulse.
fn thousandths(m: Motor) -> u64
    ensures { (result ≡ m.drive.fraction + tick_speed m) × (result < 2 ^ 32 + 2 ^ 16) }
{
    (m.drive.fraction as u64) + (tick_speed(m) as u64)
}

// The whole pulses that are due.
#[tactic(auto, unfolding(crate::specs::Ticks::due))]
fn due_pulses(m: Motor) -> u32
    ensures { result ≡ due m }
{
    (thousandths(m) / 1000) as u32
}

// The pulses that a tick gives a moving motor: what is due, as far as room and, for a target, the distance left allow. It is given the
// direction of the drive beside the motor, so that `tick` can name it and the code for CW and the code for CCW need not ask again.
#[tactic(auto, unfolding(crate::specs::Ticks::given, crate::specs::Ticks::distance_left))]
fn given_pulses(going: u8, m: Motor) -> u32
    requires { going ≡ m.drive.going }
    ensures { result ≡ given m }
{
    let room = room_of(going, m);
    let left = pulses_ahead(going, m.place, m.drive.target);
    let allowed = if m.drive.kind == 1 {
        room.min(left)
    } else {
        room
    };
    due_pulses(m).min(allowed)
}

// A moving motor in a tick: beside it the direction of its drive, and the pulses that it is given.
#[derive(Clone, Copy)]
struct Moving {
    motor: Motor,
    going: u8,
    pulses: u32,
    ghost same: { going ≡ motor.drive.going },
    ghost exact: { pulses ≡ given motor },
}

impl Moving {
    // Whether this tick reaches the target.
    #[tactic(auto, unfolding(crate::specs::Ticks::reached, crate::specs::Ticks::distance_left))]
    fn is_reached(self) -> bool
        ensures { result ≡ reached self.motor }
    {
        let m = self.motor;
        m.drive.kind == 1 && self.pulses == pulses_ahead(self.going, m.place, m.drive.target)
    }

    // Whether this tick uses up the room.
    #[tactic(auto, unfolding(crate::specs::Ticks::used_up))]
    fn is_used_up(self) -> bool
        ensures { result ≡ used_up self.motor }
    {
        self.pulses == room_of(self.going, self.motor)
    }

    // What is carried to the next tick by a drive that goes on, and so was given the pulses that were due.
    fn rest(self) -> u16
        requires { (reached self.motor ≡ false) × (used_up self.motor ≡ false) }
        ensures { result ≡ rest self.motor }
    {
        (thousandths(self.motor) - 1000 * (self.pulses as u64)) as u16
    }

    // The motor moved by the pulses of this tick.
    fn advanced(self) -> Motor
        ensures { result ≡ advanced self.motor }
    {
        let to = place_ahead(self.going, self.motor.place, self.pulses);
        self.motor.with_place(to as u32)
    }

    // The motor moved, with its drive going on and the new fraction carried.
    fn goes_on(self) -> Motor
        requires { (reached self.motor ≡ false) × (used_up self.motor ≡ false) }
        ensures { result ≡ goes_on self.motor }
    {
        let drive = Drive {
            fraction: self.rest(),
            ..self.motor.drive
        };
        self.advanced().with_drive(self.motor.ended, drive)
    }

    // The motor after this tick.
    #[tactic(auto, unfolding(crate::specs::Ticks::driven_on))]
    fn driven_on(self) -> Motor
        ensures { result ≡ driven_on self.motor }
    {
        if self.is_reached() {
            end_drive(self.advanced(), 0)
        } else if self.is_used_up() {
            end_drive(self.advanced(), LSEND)
        } else {
            self.goes_on()
        }
    }
}

// One tick of a moving motor, in the direction of its drive.
fn tick_moving(going: u8, m: Motor) -> Ticked
    requires { going ≡ m.drive.going }
    ensures { result ≡ record { motor = driven_on m; pulses = given m } }
{
    let moving = Moving {
        motor: m,
        going,
        pulses: given_pulses(going, m),
    };
    Ticked {
        motor: moving.driven_on(),
        pulses: moving.pulses,
    }
}

// One tick of one motor: the motor after it and the pulses that it was given; one that does not move stays and gets none.
#[tactic(auto, unfolding(crate::specs::Ticks::tick_motor))]
pub fn tick(m: Motor) -> Ticked
    ensures { result ≡ tick_motor m }
{
    if !is_moving(m) {
        return Ticked {
            motor: m,
            pulses: 0,
        };
    }
    if m.drive.going == CW {
        tick_moving(CW, m)
    } else {
        tick_moving(m.drive.going, m)
    }
}
