// What starts a drive, what changes it and what ends it. Every function takes a motor and gives the motor after, or says how
// it is judged; none of them asks that the motor is sound. What each rule of the bench says stands
// in specs/.

#![tactic(auto)]

pub mod numbers;

ghost use Rattle.std.specs.Prelude.{◌≡◌};
ghost use Rattle.drive.specs.Drives.{speed_numbered, course_to, towards, hindrance, judge_start, launched, started, released};
ghost use Rattle.drive.specs.Drives.{ended_with, judge_speed_change, speed_changed, contacted, switch_read};

use digits::places::{CCW, CW, HIGHEST, LOWEST, ORIGIN, place_ahead};
use motor::{is_blocked, is_busy, is_unread, range_end, room_of};
use record::{Drive, Motor, Speeds, Wiring, no_drive};

// The end flag of a drive that a switch or the end of its room ended. It is a bit among others in a record's byte.
pub const LSEND: u8 = 0x20;

// Where a start wants a motor to go: nowhere, since it is there; beyond the positions' range; to a place; or on in a
// direction until something ends it. The direction is a byte because a Scan's is one, and it is handed on as it is.
#[derive(Clone, Copy)]
pub enum Course {
    Stay,
    Beyond,
    To(u32),
    Along(u8),
}

// What refuses a call. Each cause has its own name here, with the number that is handed back for it.
#[derive(Clone, Copy)]
pub enum Refusal {
    NoForm = 1,
    Busy = 2,
    OutOfRange = 3,
    WrongSize = 5,
    NotSound = 6,
    LocalMode = 7,
    Disabled = 8,
    Unread = 9,
    SwitchAhead = 10,
    AtLimit = 11,
    AtRangeEnd = 12,
    NotDriving = 13,
    Full = 14,
}

// How a call is judged: it is done, or refused by a cause.
pub type Verdict = Result<(), Refusal>;

// One of LSPD, MSPD and HSPD, by its number.
#[tactic(auto, unfolding(crate::specs::Drives::speed_numbered))]
pub fn speed_numbered(k: u8, s: Speeds) -> u32
    ensures { result ≡ speed_numbered k s }
{
    match k {
        0 => s.low,
        1 => s.middle,
        _ => s.high,
    }
}

// Where n pulses from the place p in a direction lead a motor: nowhere if it stands there, or beyond the range, or there.
#[tactic(auto, unfolding(crate::specs::Drives::course_to))]
pub fn course_to(m: Motor, going: u8, p: u32, n: u32) -> Course
    ensures { result ≡ course_to m going p n }
{
    let to = place_ahead(going, p, n);
    if to == m.place as u64 {
        Course::Stay
    } else if to < LOWEST as u64 {
        Course::Beyond
    } else if to <= HIGHEST as u64 {
        Course::To(to as u32)
    } else {
        Course::Beyond
    }
}

// The direction in which a place lies from here.
#[tactic(auto, unfolding(crate::specs::Drives::towards))]
fn direction_to(m: Motor, p: u32) -> u8
    ensures { result ≡ towards m p }
{
    if m.place < p { CW } else { CCW }
}

// What keeps a stopped motor from leaving in a direction, if something does; whether the card is full comes last.
#[tactic(auto, unfolding(crate::specs::Drives::hindrance))]
fn hindrance_to(full: bool, m: Motor, going: u8) -> Verdict
    ensures { result ≡ hindrance full m going }
{
    if m.setup.a == 0 {
        return Err(Refusal::Disabled);
    }
    if is_unread(m.wiring) {
        return Err(Refusal::Unread);
    }
    if is_blocked(going, m) {
        return Err(Refusal::SwitchAhead);
    }
    if m.place == range_end(going) {
        return Err(Refusal::AtRangeEnd);
    }
    if room_of(going, m) == 0 {
        return Err(Refusal::AtLimit);
    }
    if full {
        return Err(Refusal::Full);
    }
    Ok(())
}

// How a start of a stopped motor is judged, where as many motors are busy as may be or not.
#[tactic(auto, unfolding(crate::specs::Drives::judge_start))]
pub fn judge_start(full: bool, m: Motor, c: Course) -> Verdict
    ensures { result ≡ judge_start full m c }
{
    match c {
        Course::Stay => Ok(()),
        Course::Beyond => Err(Refusal::OutOfRange),
        Course::To(p) => hindrance_to(full, m, direction_to(m, p)),
        Course::Along(going) => hindrance_to(full, m, going),
    }
}

// The motor as it leaves, or as it waits for its release: at the selected speed, with nothing carried and the end flags clear.
fn launch(paused: bool, m: Motor, going: u8, kind: u8, target: u32) -> Motor
    ensures { result ≡ launched paused m going kind target }
{
    let speeds = m.speeds;
    let speed = speed_numbered(speeds.selected, speeds);
    let d = Drive {
        going,
        held: paused,
        kind,
        fraction: 0,
        speed,
        target,
    };
    m.with_drive(0, d)
}

// The motor after an accepted start: a scan either way, to a target, or nowhere; held where pause is on.
#[tactic(auto, unfolding(crate::specs::Drives::started))]
pub fn start(paused: bool, m: Motor, c: Course) -> Motor
    ensures { result ≡ started paused m c }
{
    match c {
        Course::Stay => m,
        Course::Beyond => m,
        Course::To(p) => launch(paused, m, direction_to(m, p), 1, p),
        Course::Along(going) => launch(paused, m, going, 0, ORIGIN),
    }
}

// The motor with its drive held no more; every other motor stays as it is.
#[tactic(auto, unfolding(crate::specs::Drives::released))]
pub fn release(m: Motor) -> Motor
    ensures { result ≡ released m }
{
    if m.drive.held {
        let drive = Drive {
            held: false,
            ..m.drive
        };
        Motor { drive, ..m }
    } else {
        m
    }
}

// The motor with its drive ended: the flags say how, and nothing of the drive is left.
pub fn end_drive(m: Motor, flags: u8) -> Motor
    ensures { result ≡ ended_with flags m }
{
    m.with_drive(flags, no_drive())
}

// How a change of the speed in force is judged.
#[tactic(auto, unfolding(crate::specs::Drives::judge_speed_change))]
pub fn judge_speed_change(m: Motor) -> Verdict
    ensures { result ≡ judge_speed_change m }
{
    if is_busy(m) {
        Ok(())
    } else {
        Err(Refusal::NotDriving)
    }
}

// The motor with another speed in force; what is carried stays.
#[tactic(auto, unfolding(crate::specs::Drives::speed_changed))]
pub fn change_speed(m: Motor, v: u32) -> Motor
    ensures { result ≡ speed_changed m v }
{
    let drive = Drive {
        speed: v,
        ..m.drive
    };
    Motor { drive, ..m }
}

// The motor with other contacts, which are known from now on.
fn with_contacts(m: Motor, contacts: u8) -> Motor
    ensures { result ≡ contacted m contacts }
{
    let wiring = Wiring {
        contacts,
        read: 1,
        ..m.wiring
    };
    Motor { wiring, ..m }
}

// The motor after a switch reading: a switch ahead that is now active and enabled ends the drive.
#[tactic(auto, unfolding(crate::specs::Drives::switch_read))]
pub fn read_switches(m: Motor, contacts: u8) -> Motor
    ensures { result ≡ switch_read m contacts }
{
    let n = with_contacts(m, contacts);
    let hit = is_busy(m) & is_blocked(m.drive.going, n);
    if hit { end_drive(n, LSEND) } else { n }
}
