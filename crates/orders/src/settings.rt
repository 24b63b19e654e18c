// What a start or a setting means for the motor that it names. Each takes a value in its range, as an accepted order has; that it is in range
// is asked beside it, since a Start and a Setting hold what was written, in range or not.

ghost use Rattle.std.specs.Prelude.{◌≡◌, true, ◌<◌};
ghost use Rattle.record.specs.Record.{with_limits};
ghost use Rattle.motor.specs.Sound.{is_speed};
ghost use Rattle.orders.specs.Values.{signed_in_range, binary_digits, start_in_range, setting_in_range};
ghost use Rattle.orders.specs.Settings.{direction_of, place_written, course_of, with_speed, binary, with_setting};

use crate::values::setup_written;
use digits::places::{CCW, CW, ORIGIN};
use drive::{Course, course_to};
use line::{Four, Setting, Start, Written};
use record::{Limits, Motor, Speeds, Wiring};

// The direction that a sign means.
fn direction_of(w: Written) -> u8
    ensures { result ≡ direction_of w }
{
    if w.minus { CCW } else { CW }
}

// How far a number with a sign lies from 0.
fn distance_written(w: Written) -> u32
    requires { signed_in_range w ≡ true }
    ensures { result ≡ w.digits }
{
    w.digits as u32
}

// The place of the position that a number with a sign names.
#[tactic(auto, using(crate::proofs::ValueLaws::signed_bound))]
fn place_written(w: Written) -> u32
    requires { signed_in_range w ≡ true }
    ensures { result ≡ place_written w }
{
    if w.minus {
        ORIGIN - w.digits as u32
    } else {
        ORIGIN + w.digits as u32
    }
}

// Where a start wants to go.
pub fn course_of(m: Motor, s: Start) -> Course
    requires { start_in_range s ≡ true }
    ensures { result ≡ course_of m s }
{
    match s {
        Start::Abs(w) => course_to(m, direction_of(w), ORIGIN, distance_written(w)),
        Start::Rel(w) => course_to(m, direction_of(w), m.place, distance_written(w)),
        Start::Scan(going) => Course::Along(going),
        Start::Jog(going) => course_to(m, going, m.place, 1),
    }
}

// The speeds with one of LSPD, MSPD and HSPD replaced, by its number.
fn with_speed(s: Speeds, k: u8, v: u32) -> Speeds
    ensures { result ≡ with_speed s k v }
{
    match k {
        0 => Speeds { low: v, ..s },
        1 => Speeds { middle: v, ..s },
        2 => Speeds { high: v, ..s },
        _ => s,
    }
}

// Four digits of 0 and 1 read as binary.
#[tactic(auto, using(crate::proofs::ValueLaws::binary_bound))]
fn binary_of(q: Four) -> u8
    requires { binary_digits q ≡ true }
    ensures { (result ≡ binary q) × (result < 16) }
{
    8 * q.a + 4 * q.b + 2 * q.c + q.d
}

// A speed as a motor holds it.
pub fn speed_written(v: u64) -> u32
    requires { is_speed v ≡ true }
    ensures { result ≡ v }
{
    v as u32
}

// The motor with other limits. Written into the match below, each of its two calls would take seven lines.
fn with_limits(m: Motor, cw: u32, ccw: u32) -> Motor
    ensures { result ≡ with_limits m (record { cw = cw; ccw = ccw }) }
{
    Motor {
        limits: Limits { cw, ccw },
        ..m
    }
}

// The motor after an accepted setting. SETLS leaves the contacts, known or not.
#[tactic(auto, unfolding(crate::specs::Settings::with_setting))]
pub fn with_setting(m: Motor, s: Setting) -> Motor
    requires { setting_in_range s ≡ true }
    ensures { result ≡ with_setting m s }
{
    match s {
        Setting::Preset(w) => m.with_place(place_written(w)),
        Setting::SetCwLimit(w) => with_limits(m, place_written(w), m.limits.ccw),
        Setting::SetCcwLimit(w) => with_limits(m, m.limits.cw, place_written(w)),
        Setting::Select(k) => Motor {
            speeds: Speeds {
                selected: k,
                ..m.speeds
            },
            ..m
        },
        Setting::SetSpeed(k, v) => Motor {
            speeds: with_speed(m.speeds, k, speed_written(v)),
            ..m
        },
        Setting::SetSwitches(q, r) => Motor {
            wiring: Wiring {
                setls: 16 * binary_of(q) + binary_of(r),
                ..m.wiring
            },
            ..m
        },
        Setting::SetMotor(q) => Motor {
            setup: setup_written(q),
            ..m
        },
    }
}
