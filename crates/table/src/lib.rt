// The table in the 1,088 bytes that the host lends: a head of 64 bytes and sixteen records of 64. Its layout, the fresh table
// and what makes a table sound are said in specs/.

#![tactic(auto)]

pub mod head;

ghost use Rattle.std.specs.Prelude.{◌≡◌, true, ◌&&◌, ◌≤◌, eqb, length, List, ℕ};
ghost use Rattle.std.specs.Fn.{FnOnceReturnsAtMut};
ghost use Rattle.digits.specs.Bytes.{put, every, gather};
ghost use Rattle.record.specs.declared.Motor.{Motor};
ghost use Rattle.record.specs.Record.{record_of, fresh_motor};
ghost use Rattle.record.specs.Progress.{flags_and_drive, progressed};
ghost use Rattle.motor.specs.Sound.{moving, sound_record, sound_under};
ghost use Rattle.motor.specs.Judged.{sound_listed};
ghost use Rattle.table.specs.Layout.{record_start, record_at, records, motor_at, busy_set, sealed, with_record, with_motor, fresh_table};
ghost use Rattle.table.specs.Marking.{marked_at};
ghost use Rattle.table.specs.Sound.{sound_table};

use digits::places::ORIGIN;
use digits::sets::mark;
use digits::words::zero_front;
use head::{is_paused, read_head, sound_head, write_busy, write_card};
use motor::sound_record;
use record::{
    Limits, Motor, Setup, Speeds, Wiring, is_going, is_standing, no_drive, read_motor, write_drive,
    write_motor, write_progress,
};

// The bytes of a table. It is no struct that keeps them sound: between the write of a record and its mark they are not. A channel of it is
// a number with `c ≤ 15` beside: an Order carries any byte there, and a type of its own would be made at each match of one.
pub type Table = [u8; 1088];

// Where the record of a channel starts.
fn record_start(c: u8) -> usize
    requires { c ≤ 15 }
    ensures { result ≡ record_start c }
{
    64 + 64 * (c as usize)
}

// The record of a channel.
#[tactic(auto, unfolding(digits::specs::Bytes::part))]
fn record(t: &Table, c: u8) -> &[u8; 64]
    requires { c ≤ 15 }
    ensures { result.now ≡ record_at t.now c }
{
    let start = record_start(c);
    let end = start + 64;
    t[start..end].as_array().unwrap()
}

// Lends the bytes of a record to what changes them. It is an else, and no `unwrap`, from which the proof of a closure's call learns nothing
// of what the slice ends as.
fn change_bytes<F: FnOnce(&mut [u8; 64])>(b: &mut [u8], f: F)
    requires size { length b.old ≡ 64 }
    requires callable { F.IsAlwaysCallable f }
    ensures { FnOnceReturnsAtMut F.FnOnce f b.old tt b.new }
{
    let Some(b) = b.as_mut_array() else {
        unreachable!()
    };
    f(b);
}

// Lends the record of a channel to what changes it; every other byte stays as it is.
fn change_record<F: FnOnce(&mut [u8; 64])>(t: &mut Table, c: u8, f: F)
    requires channel { c ≤ 15 }
    requires callable { F.IsAlwaysCallable f }
    ensures { (b : List ℕ) × FnOnceReturnsAtMut F.FnOnce f (record_at t.old c) tt b × (t.new ≡ with_record t.old c b) }
{
    let start = record_start(c);
    let end = start + 64;
    change_bytes(&mut t[start..end], f);
}

// The motor of a channel.
#[tactic(auto, unfolding(crate::specs::Layout::motor_at))]
pub fn motor_at(t: &Table, c: u8) -> Motor
    requires { c ≤ 15 }
    ensures { result ≡ motor_at t.now c }
{
    read_motor(record(t, c))
}

// Whether a channel has no drive, moving or held.
#[tactic(auto, unfolding(crate::specs::Layout::motor_at))]
pub fn is_standing_at(t: &Table, c: u8) -> bool
    requires { c ≤ 15 }
    ensures { result ≡ eqb (motor_at t.now c).drive.going 0 }
{
    is_standing(record(t, c))
}

// Whether the motor of a channel with a sound record moves.
#[tactic(auto, using(motor::proofs::RecordLaws::record_moves), unfolding(crate::specs::Layout::motor_at))]
pub fn is_moving_at(t: &Table, c: u8) -> bool
    requires { (c ≤ 15) × (sound_record (record_at t.now c) ≡ true) }
    ensures { result ≡ moving (motor_at t.now c) }
{
    is_going(record(t, c))
}

// Writes a channel's record anew; every other byte stays as it is.
fn write_record(t: &mut Table, c: u8, m: Motor)
    requires { c ≤ 15 }
    ensures { t.new ≡ with_record t.old c (record_of m) }
{
    change_record(t, c, |b| write_motor(b, m));
}

// Puts a channel whose record was written into the busy set, or takes it out, as the record tells; every other byte stays as it is.
pub fn mark_at(t: &mut Table, c: u8)
    requires { (c ≤ 15) }
    ensures { t.new ≡ marked_at t.old c }
{
    let h = read_head(t);
    let stands = is_standing_at(t, c);
    write_busy(t, mark(!stands, c, h.busy));
}

// Writes a channel's record anew and keeps the busy set; every other byte stays as it is.
#[tactic(auto, using(crate::proofs::SealLaws::marked_sealed, record::proofs::RoundTrip::record_length), unfolding(crate::specs::Layout::with_motor))]
pub fn put_motor(t: &mut Table, c: u8, m: Motor)
    requires { (c ≤ 15) × (sealed t.old ≡ t.old) }
    ensures { t.new ≡ with_motor t.old c m }
{
    write_record(t, c, m);
    mark_at(t, c);
}

// Changes the motor of a channel, and keeps the busy set; every other byte stays as it is.
pub fn change_motor<F: FnOnce(Motor) -> Motor>(t: &mut Table, c: u8, f: F)
    requires whole { (c ≤ 15) × (sealed t.old ≡ t.old) }
    requires callable { F.pre f (motor_at t.old c) }
    ensures { (m : Motor) × F.post f (motor_at t.old c) m × (t.new ≡ with_motor t.old c m) }
{
    let m = f(motor_at(t, c));
    put_motor(t, c, m);
}

// Writes the end flags and the drive of a channel's record, given the motor that has them; every other byte stays as it is.
pub fn put_drive(t: &mut Table, c: u8, m: Motor)
    requires { c ≤ 15 }
    ensures { t.new ≡ with_record t.old c (put (record_at t.old c) 31 (flags_and_drive m.ended m.drive)) }
{
    let drive = m.drive;
    change_record(t, c, |b| write_drive(b, m.ended, drive));
}

// Writes what a tick changes in a channel's record, given the motor after it; every other byte stays as it is.
pub fn put_progress(t: &mut Table, c: u8, m: Motor)
    requires { c ≤ 15 }
    ensures { t.new ≡ with_record t.old c (progressed (record_at t.old c) m) }
{
    change_record(t, c, |b| write_progress(b, m));
}

// Whether the record of a channel is sound, where pause is on or off, and the busy set has the channel or not.
fn sound_at(paused: bool, listed: bool, t: &Table, c: u8) -> bool
    requires { c ≤ 15 }
    ensures { result ≡ sound_listed paused listed (record_at t.now c) }
{
    sound_record(paused, listed, record(t, c))
}

// How many records are sound, and in the busy set where they are busy, from the first on up to one that is not: 16 where all are. The
// count is handed back, and not the verdict of `all`, because the compiler then has nothing to make ready at every test that may fail:
// with `all` each record took five instructions more.
fn sound_count(paused: bool, set: u16, t: &Table) -> u8
    ensures { eqb result 16 ≡ (every (sound_under paused) (records t.now) && eqb set (busy_set t.now)) }
{
    let mut left = set as u32;
    for judged in 0..16 {
        if !sound_at(paused, left % 2 == 1, t, judged) {
            return judged;
        }
        left /= 2;
    }
    16
}

// Whether 1,088 bytes are a sound table.
#[tactic(auto, unfolding(crate::specs::Sound::sound_table))]
fn sound_whole(t: &Table) -> bool
    ensures { result ≡ sound_table t.now }
{
    let h = read_head(t);
    sound_head(t) && sound_count(is_paused(h), h.busy, t) == 16
}

// Whether bytes are a sound table: bytes of any number and any value are judged.
#[tactic(auto, unfolding(crate::specs::Sound::sound_table))]
pub fn sound_table(t: &[u8]) -> bool
    ensures { result ≡ sound_table t.now }
{
    let Some(t) = t.as_array() else {
        return false;
    };
    sound_whole(t)
}

// The motor of each channel of a fresh table: what its switches tell is unknown.
#[tactic(auto, unfolding(record::specs::Record::fresh_motor))]
fn fresh_motor() -> Motor
    ensures { result ≡ fresh_motor }
{
    Motor {
        place: ORIGIN,
        limits: Limits {
            cw: ORIGIN + 1000000,
            ccw: ORIGIN - 1000000,
        },
        speeds: Speeds {
            high: 1000,
            middle: 800,
            low: 50,
            selected: 1,
        },
        wiring: Wiring {
            setls: 0b01110000,
            contacts: 0,
            read: 0,
        },
        setup: Setup {
            a: 1,
            b: 1,
            c: 0,
            d: 0,
        },
        ended: 0,
        drive: no_drive(),
    }
}

// Writes a fresh motor into all sixteen records.
fn fresh_records(t: &mut Table)
    ensures { t.new ≡ put t.old 64 (gather (λ c. record_of fresh_motor) 16) }
{
    let m = fresh_motor();
    for c in 0..16 {
        write_record(t, c, m);
    }
}

// Writes the fresh table of a card: every one of its bytes.
#[tactic(auto, using(crate::proofs::LoopLaws::fresh_all), unfolding(crate::proofs::LoopLaws::fresh_to))]
pub fn make_fresh(t: &mut Table, card: u8)
    ensures { t.new ≡ fresh_table card }
{
    zero_front(t);
    write_card(t, card);
    fresh_records(t);
}
