// Switches, room and soundness of one motor. What each rule of the bench says stands in specs/.

#![tactic(auto)]

ghost use Rattle.std.specs.Prelude.{◌≡◌, ◌≤◌, not, ◌&&◌, length, if◌then◌else◌, ◌==◌, bit_and, nat_eq, nat_le};
ghost use Rattle.digits.specs.Bytes.{part, all_zero};
ghost use Rattle.digits.specs.Words.{word};
ghost use Rattle.digits.specs.Places.{cw, is_position};
ghost use Rattle.record.specs.Record.{byte_at, motor_of};
ghost use Rattle.motor.specs.Switches.{switch_of, unread, active, blocked, range_end, edge, room};
ghost use Rattle.motor.specs.Sound.{is_speed, limits_in_range, wiring_in_range, setup_in_range, settings_in_range, end_flags_in_range};
ghost use Rattle.motor.specs.Sound.{busy, moving};
ghost use Rattle.motor.specs.Judged.{fields_right, clear_ahead, aimed, free, drives_right, way_allowed, driving_judged, told, standing_judged, sound_listed};

use digits::is_set;
use digits::places::{CCW, CW, HIGHEST, LOWEST, ORIGIN, is_position, lies_ahead, pulses_ahead};
use digits::words::Word;
use record::{
    Drive, Limits, Motor, Setup, Speeds, Wiring, is_cw, place_at, read_drive, read_limits,
    read_motor,
};

// The switch that a direction runs into, by its bit: 0 CW, 1 CCW.
fn switch_of(going: u8) -> u8
    ensures { (result ≡ switch_of going) × (result ≤ 1) }
{
    if going == CW { 0 } else { 1 }
}

// Whether no reading has told the contacts yet.
pub fn is_unread(w: Wiring) -> bool
    ensures { result ≡ unread w }
{
    w.read == 0
}

// Whether a switch is active, enabled or not: closed and N.O., or open and N.C.
#[tactic(auto, unfolding(crate::specs::Switches::active))]
pub fn is_active(s: u8, w: Wiring) -> bool
    ensures { result ≡ active s w }
{
    let closed = is_set(s, w.contacts);
    let nc = is_set(s, w.setls);
    closed != nc
}

// Whether an active enabled switch stands in a direction.
#[tactic(auto, unfolding(crate::specs::Switches::blocked))]
pub fn is_blocked(going: u8, m: Motor) -> bool
    ensures { result ≡ blocked going m }
{
    let s = switch_of(going);
    is_set(4 + s, m.wiring.setls) && is_active(s, m.wiring)
}

// The last place that a motor may reach in a direction: the end of the range or, if D = 1, a digital limit before it.
#[tactic(auto, unfolding(crate::specs::Switches::edge))]
pub fn edge_of(going: u8, m: Motor) -> u32
    ensures { result ≡ edge going m }
{
    match (going, is_set(7, m.wiring.setls)) {
        (CW, true) => HIGHEST.min(m.limits.cw),
        (CW, false) => HIGHEST,
        (_, true) => LOWEST.max(m.limits.ccw),
        (_, false) => LOWEST,
    }
}

// How many pulses a motor may go in a direction.
#[tactic(auto, unfolding(crate::specs::Switches::room))]
pub fn room_of(going: u8, m: Motor) -> u32
    ensures { result ≡ room going m }
{
    pulses_ahead(going, m.place, edge_of(going, m))
}

// Whether a number is a speed.
pub fn is_speed(v: u32) -> bool
    ensures { result ≡ is_speed v }
{
    1 <= v && v <= 5000000
}

// Whether the digital limits are positions.
#[tactic(auto, unfolding(crate::specs::Sound::limits_in_range))]
fn limits_in_range(l: Limits) -> bool
    ensures { result ≡ limits_in_range l }
{
    is_position(l.cw) && is_position(l.ccw)
}

// Whether the position and the digital limits are positions.
fn places_in_range(m: Motor) -> bool
    ensures { result ≡ (is_position m.place && limits_in_range m.limits) }
{
    is_position(m.place) && limits_in_range(m.limits)
}

// Whether HSPD, MSPD and LSPD are speeds.
fn are_speeds(s: Speeds) -> bool
    ensures { result ≡ (is_speed s.high && is_speed s.middle && is_speed s.low) }
{
    is_speed(s.high) && is_speed(s.middle) && is_speed(s.low)
}

// Whether SETMT digits are in range.
#[tactic(auto, unfolding(crate::specs::Sound::setup_in_range))]
pub fn setup_in_range(s: Setup) -> bool
    ensures { result ≡ setup_in_range s }
{
    s.a <= 1 && s.b <= 1 && s.c == 0 && s.d <= 2
}

// The bits of bytes 24 to 31, read as one number, that no sound record has set: selected and D are at most 2, SETLS has a 0 at
// bit 3, the contacts are three bits, A and B one, C is 0, and the end flags are the upper three.
const NEVER_SET: u64 = 0x1ffc_fffe_fef8_08fc;

// Whether none of them is set.
fn bits_clear(b: &[u8; 64]) -> bool
    ensures { result ≡ (bit_and (word (part b.now 24 8)) 0x1ffcfffefef808fc == 0) }
{
    u64::read_at(b, 24) & NEVER_SET == 0
}

// What those bits do not tell of bytes 24 to 31: the selected speed and D are not 3, and of the end flags one at most is set.
fn ends_in_range(m: Motor) -> bool
    ensures { result ≡ (nat_le m.speeds.selected 2 && nat_le m.setup.d 2 && (nat_le m.ended 0x80 && not (m.ended == 0x60))) }
{
    m.speeds.selected <= 2 && m.setup.d <= 2 && m.ended <= 0x80 && m.ended != 0x60
}

// Whether the fields of one byte are in their ranges, bytes 24 to 31: those of the motor that the record holds.
fn bytes_in_range(b: &[u8; 64], m: Motor) -> bool
    requires { m ≡ motor_of b.now }
    ensures { result ≡ (nat_le m.speeds.selected 2 && wiring_in_range m.wiring && setup_in_range m.setup && end_flags_in_range m.ended) }
{
    bits_clear(b) && ends_in_range(m)
}

// Whether the speeds and the fields of one byte are in their ranges, bytes 12 to 31.
fn fields_in_range(b: &[u8; 64]) -> bool
    ensures { result ≡ fields_right (motor_of b.now) }
{
    let m = read_motor(b);
    are_speeds(m.speeds) && bytes_in_range(b, m)
}

// Whether the position, the settings and the end flags are in their ranges, bytes 0 to 31.
fn settings_in_range(b: &[u8; 64]) -> bool
    ensures { result ≡ (settings_in_range (motor_of b.now) && end_flags_in_range (motor_of b.now).ended) }
{
    places_in_range(read_motor(b)) && fields_in_range(b)
}

// The end of the range in a direction.
pub fn range_end(going: u8) -> u32
    ensures { result ≡ range_end going }
{
    if going == CW { HIGHEST } else { LOWEST }
}

// The digital limit that a direction looks at.
fn limit_of(going: u8, l: Limits) -> u32
    ensures { result ≡ (if nat_eq going cw then l.cw else l.ccw) }
{
    if going == CW { l.cw } else { l.ccw }
}

// Whether a motor has a pulse of room in a direction: the end of the range lies ahead, and the digital limit too unless D = 0. D is
// asked for last, when the machine code is done with the place and the limit, and so needs no register more.
#[tactic(auto, using(crate::proofs::RoomLaws::room_ahead))]
fn has_room(going: u8, m: Motor) -> bool
    ensures { result ≡ nat_le 1 (room going m) }
{
    lies_ahead(going, m.place, range_end(going))
        && (lies_ahead(going, m.place, limit_of(going, m.limits)) || !is_set(7, m.wiring.setls))
}

// Whether a motor has room and no active enabled switch in a direction.
fn is_clear(going: u8, m: Motor) -> bool
    ensures { result ≡ clear_ahead going m }
{
    has_room(going, m) && !is_blocked(going, m)
}

// Whether a drive from a place has a target strictly ahead, or is a scan and has none.
fn is_aimed(going: u8, p: u32, d: Drive) -> bool
    ensures { result ≡ aimed going p d }
{
    match d.kind {
        0 => d.target == ORIGIN,
        1 => is_position(d.target) && lies_ahead(going, p, d.target),
        _ => false,
    }
}

// Whether the limits of a record are positions, and nothing is in its path in a direction. This and what follows read of the record
// what they ask for, where they ask: of a motor that is read before, the machine code keeps every field at hand, on the stack.
#[tactic(auto, unfolding(record::specs::Record::motor_of))]
fn has_path(going: u8, b: &[u8; 64]) -> bool
    ensures { result ≡ (limits_in_range (motor_of b.now).limits && clear_ahead going (motor_of b.now)) }
{
    limits_in_range(read_limits(b)) && is_clear(going, read_motor(b))
}

// Whether a record is free to drive on in a direction: its position is one, it is aimed, and it has a path.
#[tactic(auto, unfolding(record::specs::Record::motor_of))]
fn is_free(going: u8, b: &[u8; 64]) -> bool
    ensures { result ≡ free going (motor_of b.now) }
{
    let p = place_at(b, 0);
    is_position(p) && is_aimed(going, p, read_drive(b)) && has_path(going, b)
}

// Whether a driving record keeps the rules for one, byte 32, its contacts, its speeds and its fields of one byte aside. Each direction
// has a branch of its own, so that the machine code asks for it once and not at every rule.
#[tactic(auto, unfolding(record::specs::Record::motor_of), using(crate::proofs::DrivingLaws::way_same))]
fn drives_right(b: &[u8; 64]) -> bool
    requires { byte_at b.now 32 ≤ 4 }
    ensures { result ≡ drives_right (motor_of b.now) }
{
    let d = read_drive(b);
    let right = u8::read_at(b, 31) == 0
        && u8::read_at(b, 27) == 1
        && is_speed(d.speed)
        && d.fraction <= 999;
    right
        && if is_cw(b) {
            is_free(CW, b)
        } else {
            is_free(CCW, b)
        }
}

// Whether a motor is busy: it is not stopped.
pub fn is_busy(m: Motor) -> bool
    ensures { result ≡ busy m }
{
    m.drive.going != 0
}

// Whether a motor moves: a tick may give it pulses, as it may not while the drive is held.
#[tactic(auto, unfolding(crate::specs::Sound::moving))]
pub fn is_moving(m: Motor) -> bool
    ensures { result ≡ moving m }
{
    !m.drive.held && is_busy(m)
}

// Whether byte 32 is a drive's in a sound table: 3 and 4, held drives, under pause alone.
fn way_right(paused: bool, n: u8) -> bool
    ensures { result ≡ way_allowed paused n }
{
    let most = if paused { 4 } else { 2 };
    1 <= n && n <= most
}

// Whether a record with a drive is sound in a table, its bytes from 48 on aside. Byte 44 is 1, and 45 to 47 are zero, just where
// their word is 1.
fn driving_sound(paused: bool, b: &[u8; 64]) -> bool
    ensures { result ≡ driving_judged paused b.now }
{
    u32::read_at(b, 44) == 1
        && way_right(paused, u8::read_at(b, 32))
        && drives_right(b)
        && fields_in_range(b)
}

// Bytes 40 to 47 of a record with no target whose contacts are read, as one number.
const READ_AT_REST: u64 = 0x1_0000_0000;

// Whether a record has no target, and its contacts are read, as most are, or unknown and 0; 45 to 47 are zero with it.
fn contacts_told(b: &[u8; 64]) -> bool
    ensures { result ≡ told b.now }
{
    let target_on = u64::read_at(b, 40);
    target_on == READ_AT_REST || u8::read_at(b, 26) == 0 && target_on == 0
}

// Whether a record without a drive is sound, its bytes from 48 on aside: all of 32 to 43 is zero.
fn standing_sound(b: &[u8; 64]) -> bool
    ensures { result ≡ standing_judged b.now }
{
    u64::read_at(b, 32) == 0 && contacts_told(b) && settings_in_range(b)
}

// Whether bytes 48 to 63, which no topic has, are zero.
fn tail_zero(b: &[u8; 64]) -> bool
    ensures { result ≡ all_zero (part b.now 48 16) }
{
    u64::read_at(b, 48) == 0 && u64::read_at(b, 56) == 0
}

// Whether 64 bytes are a sound record of a table. What the busy set says of it is asked for, and not byte 32: where they differ, the
// rules for the one or the other are not kept.
fn sound_bytes(paused: bool, listed: bool, b: &[u8; 64]) -> bool
    ensures { result ≡ sound_listed paused listed b.now }
{
    tail_zero(b)
        && if listed {
            driving_sound(paused, b)
        } else {
            standing_sound(b)
        }
}

// Whether bytes are a sound record of a table, where pause is on or off and the busy set has the record or not: bytes of any number
// and any value are judged.
#[tactic(auto, unfolding(crate::specs::Sound::sound_under, crate::specs::Sound::sound_record))]
pub fn sound_record(paused: bool, listed: bool, b: &[u8]) -> bool
    ensures { result ≡ sound_listed paused listed b.now }
{
    match b.as_array() {
        Some(record) => sound_bytes(paused, listed, record),
        None => false,
    }
}
