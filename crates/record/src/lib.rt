// One channel's motor, by value: what the 64 bytes of its record hold, topic by topic, and the way from the bytes to the
// motor and back. A position, a limit and a target are kept as places (crate digits): the number plus 2,147,483,648. What
// stands where is said in specs/.

#![tactic(auto)]

ghost use Rattle.std.specs.Prelude.{◌≡◌, ◌||◌, ◌+◌, ◌≤◌, eqb, length};
ghost use Rattle.digits.specs.Bytes.{put};
ghost use Rattle.digits.specs.Places.{cw};
ghost use Rattle.record.specs.Record.{byte_at, place_at, limits_of, speeds_of, wiring_of, setup_of, held_of, going_of, drive_of, motor_of};
ghost use Rattle.record.specs.Record.{place_bytes, limit_bytes, speed_bytes, wiring_bytes, setup_bytes, setting_bytes};
ghost use Rattle.record.specs.Record.{going_byte, drive_bytes, rest_bytes, record_of, with_place, with_drive, standing};
ghost use Rattle.record.specs.Progress.{flags_and_drive, progressed};

use digits::places::{CCW, CW, ORIGIN, place_of, word_of};
use digits::words::Word;

// Fields of one byte are numbers, and not enums: a table may hold any byte there, and `motor_of` keeps it.

// The digital limits.
#[derive(Clone, Copy)]
pub struct Limits {
    pub cw: u32,
    pub ccw: u32,
}

// HSPD, MSPD and LSPD in pulses per second, and which of them is selected: 0 L, 1 M, 2 H.
#[derive(Clone, Copy)]
pub struct Speeds {
    pub high: u32,
    pub middle: u32,
    pub low: u32,
    pub selected: u8,
}

// The SETLS digits DYYY0yyy read as a binary byte, and the contacts, closed = 1: bit 0 CW, bit 1 CCW, bit 2 HP; read is 0
// while the contacts are unknown, and 1 once a reading has told them.
#[derive(Clone, Copy)]
pub struct Wiring {
    pub setls: u8,
    pub contacts: u8,
    pub read: u8,
}

// The SETMT digits A, B, C and D.
#[derive(Clone, Copy)]
pub struct Setup {
    pub a: u8,
    pub b: u8,
    pub c: u8,
    pub d: u8,
}

// The drive: going is 0 stopped, 1 CW, 2 CCW; held is whether it waits for its release; kind is 0 a scan, 1 to a target.
// Stopped, all of it is zero, and the target is the place of position 0.
#[derive(Clone, Copy)]
pub struct Drive {
    pub going: u8,
    pub held: bool,
    pub kind: u8,
    pub fraction: u16,
    pub speed: u32,
    pub target: u32,
}

// The motor of one channel; ended holds the end flags.
#[derive(Clone, Copy)]
pub struct Motor {
    pub place: u32,
    pub limits: Limits,
    pub speeds: Speeds,
    pub wiring: Wiring,
    pub setup: Setup,
    pub ended: u8,
    pub drive: Drive,
}

impl Motor {
    // The motor at another place.
    pub fn with_place(self, place: u32) -> Motor
        ensures { result ≡ with_place self place }
    {
        Motor { place, ..self }
    }

    // The motor with other end flags and another drive.
    pub fn with_drive(self, ended: u8, drive: Drive) -> Motor
        ensures { result ≡ with_drive self ended drive }
    {
        Motor {
            ended,
            drive,
            ..self
        }
    }
}

// The drive of a stopped motor.
pub fn no_drive() -> Drive
    ensures { result ≡ standing }
{
    Drive {
        going: 0,
        held: false,
        kind: 0,
        fraction: 0,
        speed: 0,
        target: ORIGIN,
    }
}

// The place of the signed number in the four bytes from an offset on.
pub fn place_at(b: &[u8], at: usize) -> u32
    requires { at + 4 ≤ length b.now }
    ensures { result ≡ place_at b.now at }
{
    place_of(Word::read_at(b, at))
}

// The topics of a record, each from its own bytes.
pub fn read_limits(b: &[u8; 64]) -> Limits
    ensures { result ≡ limits_of b.now }
{
    Limits {
        cw: place_at(b, 4),
        ccw: place_at(b, 8),
    }
}

fn read_speeds(b: &[u8; 64]) -> Speeds
    ensures { result ≡ speeds_of b.now }
{
    Speeds {
        high: Word::read_at(b, 12),
        middle: Word::read_at(b, 16),
        low: Word::read_at(b, 20),
        selected: Word::read_at(b, 24),
    }
}

fn read_wiring(b: &[u8; 64]) -> Wiring
    ensures { result ≡ wiring_of b.now }
{
    Wiring {
        setls: Word::read_at(b, 25),
        contacts: Word::read_at(b, 26),
        read: Word::read_at(b, 44),
    }
}

fn read_setup(b: &[u8; 64]) -> Setup
    ensures { result ≡ setup_of b.now }
{
    Setup {
        a: Word::read_at(b, 27),
        b: Word::read_at(b, 28),
        c: Word::read_at(b, 29),
        d: Word::read_at(b, 30),
    }
}

// What byte 32 tells: 1 and 2 are drives that go, 3 and 4 the same held.
fn is_held(n: u8) -> bool
    ensures { result ≡ held_of n }
{
    matches!(n, 3 | 4)
}

fn going_of(n: u8) -> u8
    ensures { result ≡ going_of n }
{
    match n {
        3 => CW,
        4 => CCW,
        going => going,
    }
}

// The byte that tells it of a drive.
fn going_byte(d: Drive) -> u8
    ensures { result ≡ going_byte d }
{
    match (d.held, d.going) {
        (true, CW) => 3,
        (true, _) => 4,
        (false, going) => going,
    }
}

pub fn read_drive(b: &[u8; 64]) -> Drive
    ensures { result ≡ drive_of b.now }
{
    let way = Word::read_at(b, 32);
    Drive {
        going: going_of(way),
        held: is_held(way),
        kind: Word::read_at(b, 33),
        fraction: Word::read_at(b, 34),
        speed: Word::read_at(b, 36),
        target: place_at(b, 40),
    }
}

// The motor that a record holds.
pub fn read_motor(b: &[u8; 64]) -> Motor
    ensures { result ≡ motor_of b.now }
{
    Motor {
        place: place_at(b, 0),
        limits: read_limits(b),
        speeds: read_speeds(b),
        wiring: read_wiring(b),
        setup: read_setup(b),
        ended: Word::read_at(b, 31),
        drive: read_drive(b),
    }
}

// Whether a record holds no drive, moving or held: its byte 32 tells, and nothing else of it is read.
pub fn is_standing(b: &[u8; 64]) -> bool
    ensures { result ≡ eqb (motor_of b.now).drive.going 0 }
{
    u8::read_at(b, 32) == 0
}

// Whether a record holds a drive that goes, CW or CCW, by its byte 32.
pub fn is_going(b: &[u8; 64]) -> bool
    ensures { result ≡ (eqb (byte_at b.now 32) 1 || eqb (byte_at b.now 32) 2) }
{
    matches!(u8::read_at(b, 32), CW | CCW)
}

// Whether a record holds a drive CW, going or held, by its byte 32: of 0 to 4 those that tell CW are odd.
pub fn is_cw(b: &[u8; 64]) -> bool
    requires { byte_at b.now 32 ≤ 4 }
    ensures { result ≡ eqb (drive_of b.now).going cw }
{
    u8::read_at(b, 32) % 2 == 1
}

// Writes the signed number of a place into the four bytes from an offset on.
fn put_place(b: &mut [u8], at: usize, p: u32)
    requires { at + 4 ≤ length b.old }
    ensures { b.new ≡ put b.old at (place_bytes p) }
{
    word_of(p).put_at(b, at)
}

// The topics again, each into its own bytes; every other byte stays as it is. Byte 44 of the wiring is written with the rest.
fn put_limits(b: &mut [u8; 64], l: Limits)
    ensures { b.new ≡ put b.old 4 (limit_bytes l) }
{
    put_place(b, 4, l.cw);
    put_place(b, 8, l.ccw);
}

fn put_speeds(b: &mut [u8; 64], s: Speeds)
    ensures { b.new ≡ put b.old 12 (speed_bytes s) }
{
    s.high.put_at(b, 12);
    s.middle.put_at(b, 16);
    s.low.put_at(b, 20);
    s.selected.put_at(b, 24);
}

fn put_wiring(b: &mut [u8; 64], w: Wiring)
    ensures { b.new ≡ put b.old 25 (wiring_bytes w) }
{
    b[25] = w.setls;
    b[26] = w.contacts;
}

fn put_setup(b: &mut [u8; 64], s: Setup)
    ensures { b.new ≡ put b.old 27 (setup_bytes s) }
{
    b[27] = s.a;
    b[28] = s.b;
    b[29] = s.c;
    b[30] = s.d;
}

// Writes the position and the settings, bytes 0 to 30.
fn put_settings(b: &mut [u8; 64], m: Motor)
    ensures { b.new ≡ put b.old 0 (setting_bytes m) }
{
    put_place(b, 0, m.place);
    put_limits(b, m.limits);
    put_speeds(b, m.speeds);
    put_wiring(b, m.wiring);
    put_setup(b, m.setup);
}

fn put_drive(b: &mut [u8; 64], d: Drive)
    ensures { b.new ≡ put b.old 32 (drive_bytes d) }
{
    going_byte(d).put_at(b, 32);
    d.kind.put_at(b, 33);
    d.fraction.put_at(b, 34);
    d.speed.put_at(b, 36);
    put_place(b, 40, d.target);
}

// Writes what comes after the drive, bytes 44 to 63: whether the contacts are read, and zeros.
fn put_rest(b: &mut [u8; 64], m: Motor)
    ensures { b.new ≡ put b.old 44 (rest_bytes m) }
{
    b[44] = m.wiring.read;
    b[45..].fill(0);
}

// Writes a motor's record: every one of its 64 bytes.
pub fn write_motor(b: &mut [u8; 64], m: Motor)
    ensures { b.new ≡ record_of m }
{
    put_settings(b, m);
    m.ended.put_at(b, 31);
    put_drive(b, m.drive);
    put_rest(b, m);
}

// Writes the end flags and the drive alone, bytes 31 to 43: all that a stop changes.
pub fn write_drive(b: &mut [u8; 64], ended: u8, d: Drive)
    ensures { b.new ≡ put b.old 31 (flags_and_drive ended d) }
{
    ended.put_at(b, 31);
    put_drive(b, d);
}

// Writes what a tick changes in the record of a driving motor, given the motor after it: the position, and the fraction or, if the
// drive has ended, the end flags and no drive.
pub fn write_progress(b: &mut [u8; 64], m: Motor)
    ensures { b.new ≡ progressed b.old m }
{
    put_place(b, 0, m.place);
    if m.drive.going == 0 {
        write_drive(b, m.ended, no_drive());
    } else {
        m.drive.fraction.put_at(b, 34);
    }
}
