// How an order is judged on a sound table: whether the card has its form, local mode, the value, busy, what lies in the motor, and for a
// start whether the card is full.

ghost use Rattle.std.specs.Prelude.{◌≡◌, true, cond, Ok, Err};
ghost use Rattle.motor.specs.Sound.{busy};
ghost use Rattle.drive.specs.declared.Refusal.TheVariants.{Busy, NoForm};
ghost use Rattle.drive.specs.Drives.{judge_start};
ghost use Rattle.line.specs.Forms.{has_form};
ghost use Rattle.line.specs.Made.{order_made};
ghost use Rattle.orders.specs.Values.{start_in_range, value_in_range};
ghost use Rattle.orders.specs.Settings.{course_of};
ghost use Rattle.table.specs.Layout.{head_of, card_full};
ghost use Rattle.commands.specs.Judging.{meets_busy, judge_motor, judge};

use drive::{Refusal, Verdict, judge_speed_change, judge_start};
use line::cards::has_form;
use line::{Order, Start};
use motor::is_busy;
use orders::settings::course_of;
use orders::values::{needs_remote, value_in_range};
use record::Motor;
use table::head::{is_full, read_head};
use table::{Table, motor_at};

// A setting or a selection: busy on a driving channel.
fn judge_set(m: Motor) -> Verdict
    ensures { result ≡ cond (busy m) (Err Busy) (Ok tt) }
{
    if is_busy(m) {
        Err(Refusal::Busy)
    } else {
        Ok(())
    }
}

// A start: busy on a driving channel too, else as the motor allows and then the card.
fn judge_go(full: bool, m: Motor, s: Start) -> Verdict
    requires { start_in_range s ≡ true }
    ensures { result ≡ cond (busy m) (Err Busy) (judge_start full m (course_of m s)) }
{
    judge_set(m)?;
    judge_start(full, m, course_of(m, s))
}

// What is judged of the channel that an order names, if it names one.
fn judge_channel(t: &Table, o: Order) -> Verdict
    requires { (order_made o ≡ true) × (value_in_range o ≡ true) }
    ensures { result ≡ cond (meets_busy t.now o) (Err Busy) (judge_motor (card_full (head_of t.now)) t.now o) }
{
    match o {
        Order::Go(x, s) => judge_go(is_full(read_head(t)), motor_at(t, x), s),
        Order::ChangeSpeed(x, _) => judge_speed_change(motor_at(t, x)),
        Order::Set(x, _) => judge_set(motor_at(t, x)),
        _ => Ok(()),
    }
}

// The verdict of an order: 1 where the table's card has not its form, and else by the rules.
pub fn judge_order(t: &Table, o: Order) -> Verdict
    requires { order_made o ≡ true }
    ensures { result ≡ cond (has_form (head_of t.now).card o) (judge t.now o) (Err NoForm) }
{
    let head = read_head(t);
    if !has_form(head.card, o) {
        return Err(Refusal::NoForm);
    }
    if needs_remote(o) & (head.mode == 0) {
        return Err(Refusal::LocalMode);
    }
    if value_in_range(o) {
        judge_channel(t, o)
    } else {
        Err(Refusal::OutOfRange)
    }
}
