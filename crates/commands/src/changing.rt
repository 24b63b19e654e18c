// What an accepted order changes in the table. That the table is sound, or at least sealed, and the value in its range, stands beside them
// and not in types: between two writes a table is neither (`Table`), and an order is judged only after it is made.

ghost use Rattle.std.specs.Prelude.{◌≡◌, true, ◌≤◌};
ghost use Rattle.digits.specs.Words.{is_set};
ghost use Rattle.motor.specs.Sound.{is_speed, busy, sound_record};
ghost use Rattle.drive.specs.Drives.{started, released, stopped, speed_changed};
ghost use Rattle.line.specs.Made.{order_made};
ghost use Rattle.orders.specs.Values.{start_in_range, setting_in_range, head_value_in_range, value_in_range};
ghost use Rattle.orders.specs.Settings.{course_of, with_setting};
ghost use Rattle.table.specs.Layout.{head_of, paused, with_head, record_at, motor_at, sealed, with_motor, with_motors};
ghost use Rattle.table.specs.Sound.{sound_table};
ghost use Rattle.commands.specs.Changing.{head_changed, releases, motors_freed, changed};

use crate::flags::clear_flag;
use digits::sets::has;
use drive::{change_speed, end_drive, release, start};
use line::{HeadOrder, Order, Setting, Start};
use orders::settings::{course_of, speed_written, with_setting};
use table::head::{Head, is_paused, read_head, write_head};
use table::{Table, change_motor, mark_at, motor_at, put_drive};

// Starts a channel, or holds it where pause is on.
fn make_start(t: &mut Table, x: u8, s: Start)
    requires { (x ≤ 15) × (start_in_range s ≡ true) × (sealed t.old ≡ t.old) }
    ensures { t.new ≡ with_motor t.old x (started (paused (head_of t.old)) (motor_at t.old x) (course_of (motor_at t.old x) s)) }
{
    let paused = is_paused(read_head(t));
    change_motor(t, x, |m| start(paused, m, course_of(m, s)));
}

// Stops a channel that the busy set has, and takes it out; the record of another one is not looked at.
fn stop_listed(t: &mut Table, set: u16, x: u8, flags: u8)
    requires whole { (x ≤ 15) × (sound_record (record_at t.old x) ≡ true) × (sealed t.old ≡ t.old) }
    requires listed { is_set x set ≡ busy (motor_at t.old x) }
    ensures { t.new ≡ with_motor t.old x (stopped flags (motor_at t.old x)) }
{
    if has(set, x) {
        let m = motor_at(t, x);
        put_drive(t, x, end_drive(m, flags));
        mark_at(t, x);
    }
}

// Stops a channel.
#[tactic(auto, using(table::proofs::TableLaws::sound_record_at, table::proofs::TableLaws::sound_sealed, table::proofs::TableLaws::sound_set_at))]
fn make_stop(t: &mut Table, x: u8, flags: u8)
    requires { (sound_table t.old ≡ true) × (x ≤ 15) }
    ensures { t.new ≡ with_motor t.old x (stopped flags (motor_at t.old x)) }
{
    let h = read_head(t);
    stop_listed(t, h.busy, x, flags);
}

// Stops every channel.
fn stop_all(t: &mut Table, flags: u8)
    requires { sound_table t.old ≡ true }
    ensures { t.new ≡ with_motors t.old (stopped flags) }
{
    let h = read_head(t);
    for x in 0..16 {
        stop_listed(t, h.busy, x, flags);
    }
}

// Releases a channel; the record of one that is not held is left unwritten. It stays in the busy set.
fn make_release(t: &mut Table, x: u8)
    requires { (x ≤ 15) × (sound_record (record_at t.old x) ≡ true) × (sealed t.old ≡ t.old) }
    ensures { t.new ≡ with_motor t.old x (released (motor_at t.old x)) }
{
    let m = motor_at(t, x);
    if m.drive.held {
        put_drive(t, x, release(m));
    }
}

// Releases every channel.
fn release_all(t: &mut Table)
    requires { sound_table t.old ≡ true }
    ensures { t.new ≡ with_motors t.old released }
{
    for x in 0..16 {
        make_release(t, x);
    }
}

// Replaces the speed in force of a channel.
fn make_speed(t: &mut Table, x: u8, v: u64)
    requires { (x ≤ 15) × (is_speed v ≡ true) × (sealed t.old ≡ t.old) }
    ensures { t.new ≡ with_motor t.old x (speed_changed (motor_at t.old x) v) }
{
    change_motor(t, x, |m| change_speed(m, speed_written(v)));
}

// Makes a setting of a channel.
fn make_setting(t: &mut Table, x: u8, s: Setting)
    requires { (x ≤ 15) × (setting_in_range s ≡ true) × (sealed t.old ≡ t.old) }
    ensures { t.new ≡ with_motor t.old x (with_setting (motor_at t.old x) s) }
{
    change_motor(t, x, |m| with_setting(m, s));
}

// The head after an accepted order of it.
#[tactic(auto, unfolding(crate::specs::Changing::head_changed))]
fn head_changed(h: Head, o: HeadOrder) -> Head
    requires { head_value_in_range o ≡ true }
    ensures { result ≡ head_changed h o }
{
    match o {
        HeadOrder::Mode(k) => Head { mode: k, ..h },
        HeadOrder::AllReply(k) => Head { reply: k, ..h },
        HeadOrder::ClearErrors => Head { errors: 0, ..h },
        HeadOrder::ClearError(e) => clear_flag(h, e),
        HeadOrder::Pause(k) => Head { pause: k, ..h },
    }
}

// Whether an order of the head releases what is held: PAUSE OFF does.
fn is_release(o: HeadOrder) -> bool
    ensures { result ≡ releases o }
{
    matches!(o, HeadOrder::Pause(0))
}

// What an order of the head is to the motors.
fn free_motors(t: &mut Table, o: HeadOrder)
    requires { sound_table t.old ≡ true }
    ensures { t.new ≡ motors_freed t.old o }
{
    if is_release(o) {
        release_all(t);
    }
}

// Changes the head, and releases the motors that it holds where pause ends.
fn change_head(t: &mut Table, o: HeadOrder)
    requires { (sound_table t.old ≡ true) × (head_value_in_range o ≡ true) }
    ensures { t.new ≡ with_head (motors_freed t.old o) (head_changed (head_of t.old) o) }
{
    let h = read_head(t);
    free_motors(t, o);
    write_head(t, head_changed(h, o));
}

// What an accepted order changes in a sound table. Reads change nothing.
#[tactic(auto, unfolding(crate::specs::Changing::changed, orders::specs::Values::value_in_range))]
pub fn change(t: &mut Table, o: Order)
    requires { (sound_table t.old ≡ true) × (order_made o ≡ true) × (value_in_range o ≡ true) }
    ensures { t.new ≡ changed t.old o }
{
    match o {
        Order::Go(x, s) => make_start(t, x, s),
        Order::Stop(x, flags) => make_stop(t, x, flags),
        Order::StopAll(flags) => stop_all(t, flags),
        Order::ChangeSpeed(x, v) => make_speed(t, x, v),
        Order::Set(x, s) => make_setting(t, x, s),
        Order::Ask(_, _) | Order::AskHead(_) => {}
        Order::ForHead(h) => change_head(t, h),
    }
}
