// One tick of all motors that the busy set has. What is known of a table (sound, sealed, of a channel's record) stands beside it and in no
// type, as in the crate commands: between two writes it is not so.

ghost use Rattle.std.specs.Prelude.{◌≡◌, true, ◌*◌, ◌≤◌};
ghost use Rattle.digits.specs.Bytes.{part, put};
ghost use Rattle.digits.specs.Words.{word_bytes};
ghost use Rattle.record.specs.Record.{record_of};
ghost use Rattle.record.specs.Progress.{progressed};
ghost use Rattle.motor.specs.Sound.{busy, moving, sound_motor, sound_record};
ghost use Rattle.pulses.specs.Ticks.{tick_motor, tick_count};
ghost use Rattle.table.specs.Layout.{record_at, motor_at, sealed, with_motor, with_motors};
ghost use Rattle.table.specs.Sound.{sound_table};
ghost use Rattle.urqolina.specs.Calls.{counts};

use digits::places::count_of;
use digits::words::{Word, zero_front};
use pulses::tick;
use record::Motor;
use table::head::read_head;
use table::{Table, is_moving_at, mark_at, motor_at, put_progress};

// The counts of the sixteen channels, four bytes of each.
pub type Pulses = [u8; 64];

// Writes what a tick has made of a motor that was busy; where its drive has ended, the channel leaves the busy set.
fn put_ticked(t: &mut Table, c: u8, m: Motor)
    requires whole { (c ≤ 15) × (sealed t.old ≡ t.old) × (busy (motor_at t.old c) ≡ true) }
    requires motor_ticked { (progressed (record_at t.old c) m ≡ record_of m) × (sound_motor m ≡ true) }
    ensures { t.new ≡ with_motor t.old c m }
{
    put_progress(t, c, m);
    if m.drive.going == 0 {
        mark_at(t, c);
    }
}

// Ticks a channel whose motor moves: what changes is written into the table, and the count into the pulse buffer.
fn drive_channel(t: &mut Table, pulses: &mut Pulses, c: u8)
    requires { (c ≤ 15) × (sealed t.old ≡ t.old) × (sound_record (record_at t.old c) ≡ true) × (moving (motor_at t.old c) ≡ true) }
    ensures t_after { t.new ≡ with_motor t.old c (tick_motor (motor_at t.old c)).motor }
    ensures pulses_after { pulses.new ≡ put pulses.old (4 * c) (word_bytes 4 (tick_count (motor_at t.old c))) }
{
    let m = motor_at(t, c);
    let after = tick(m);
    let motor = after.motor;
    put_ticked(t, c, motor);
    count_of(m.drive.going, after.pulses).put_at(pulses, 4 * (c as usize));
}

// Ticks a channel whose count is 0 so far. The record of one that the busy set has not is not looked at. A motor that is held gets no
// pulse, and its record is left unwritten: a tick leaves it as it is.
fn tick_channel(t: &mut Table, pulses: &mut Pulses, listed: bool, c: u8)
    requires whole { (c ≤ 15) × (sealed t.old ≡ t.old) × (listed ≡ busy (motor_at t.old c)) }
    requires ready { (sound_record (record_at t.old c) ≡ true) × (part pulses.old (4 * c) 4 ≡ word_bytes 4 0) }
    ensures t_after { t.new ≡ with_motor t.old c (tick_motor (motor_at t.old c)).motor }
    ensures pulses_after { pulses.new ≡ put pulses.old (4 * c) (word_bytes 4 (tick_count (motor_at t.old c))) }
{
    if listed && is_moving_at(t, c) {
        drive_channel(t, pulses, c);
    }
}

// Ticks all channels of a sound table: those that the busy set has, from the first to the last of them. What is left of the set ends
// the loop, and not the sixteenth channel: with `for` a tick of motors at rest took a hundred instructions more.
pub fn tick_all(t: &mut Table, pulses: &mut Pulses)
    requires { sound_table t.old ≡ true }
    ensures t_after { t.new ≡ with_motors t.old (λ m. (tick_motor m).motor) }
    ensures pulses_after { pulses.new ≡ counts t.old }
{
    let h = read_head(t);
    zero_front(pulses);
    let mut left = h.busy as u32;
    let mut c: u8 = 0;
    while left != 0 {
        tick_channel(t, pulses, left % 2 == 1, c);
        c += 1;
        left /= 2;
    }
}
