// A line on a sound table: its order is judged, and then carried out and answered, or refused. What it leaves is one definition,
// `taken` of specs/Taking.antt. That the table is sound, that the reply has 32 bytes and that a line made the order is asked of each function,
// for the reasons that the crates table, replies and line give.

#![tactic(auto)]

ghost use Rattle.std.specs.Prelude.{◌≡◌, true, ◌+◌, ◌*◌, ◌≤◌, length, Some, Ok, Err};
ghost use Rattle.drive.specs.Numbers.{number_of};
ghost use Rattle.line.specs.declared.Order.TheVariants.{Ask, AskHead};
ghost use Rattle.line.specs.Forms.{on_card};
ghost use Rattle.line.specs.Made.{order_made, parsed_made};
ghost use Rattle.orders.specs.Values.{value_in_range};
ghost use Rattle.table.specs.Layout.{head_of};
ghost use Rattle.table.specs.Sound.{sound_table};
ghost use Rattle.commands.specs.Changing.{changed};
ghost use Rattle.commands.specs.Answers.{told};
ghost use Rattle.obeying.specs.Taking.{replied, refused, obeyed, taken};

use commands::changing::change;
use commands::flags::set_flag;
use commands::judging::judge_order;
use drive::numbers::number_of;
use drive::{Refusal, Verdict};
use line::{HeadQuestion, Order, Question};
use replies::{write_echo, write_head_question, write_question};
use table::head::read_head;
use table::{Table, motor_at};

// The number plus 256 times the reply's length.
fn result_of(v: Verdict, count: usize) -> u32
    requires { count ≤ 32 }
    ensures { result ≡ number_of v + 256 * count }
{
    number_of(v) + 256 * (count as u32)
}

// Refuses a line: its flag is set, and its text written if all-reply is on.
fn refuse(t: &mut Table, cause: Refusal, reply: &mut [u8]) -> u32
    requires { (sound_table t.old ≡ true) × (32 ≤ length reply.old) }
    ensures { record { result = result; table = t.new; reply = reply.new } ≡ refused t.old (Err cause) reply.old }
{
    let v = Err(cause);
    set_flag(t, v);
    let h = read_head(t);
    let count = write_echo(reply, h.reply, v);
    result_of(v, count)
}

// Answers a question about a channel; the table stays as it is.
fn tell_channel(t: &Table, x: u8, q: Question, reply: &mut [u8]) -> u32
    requires { (sound_table t.now ≡ true) × (32 ≤ length reply.old) × (x ≤ 15) }
    ensures { record { result = result; table = t.now; reply = reply.new } ≡ obeyed t.now (Ask x q) reply.old }
{
    let h = read_head(t);
    let count = write_question(reply, h.mode, x, motor_at(t, x), q);
    result_of(Ok(()), count)
}

// Answers a question about the head; the table stays as it is.
fn tell_head(t: &Table, q: HeadQuestion, reply: &mut [u8]) -> u32
    requires { (sound_table t.now ≡ true) × (32 ≤ length reply.old) }
    ensures { record { result = result; table = t.now; reply = reply.new } ≡ obeyed t.now (AskHead q) reply.old }
{
    let count = write_head_question(reply, read_head(t), q);
    result_of(Ok(()), count)
}

// Carries out an accepted order: the table is changed, and OK written if all-reply is on after it.
fn carry_out(t: &mut Table, o: Order, reply: &mut [u8]) -> u32
    requires { (sound_table t.old ≡ true) × (32 ≤ length reply.old) × (order_made o ≡ true) × (value_in_range o ≡ true) }
    ensures { record { result = result; table = t.new; reply = reply.new } ≡ replied (Ok tt) (changed t.old o) (told (changed t.old o) (Ok tt)) reply.old }
{
    change(t, o);
    let h = read_head(t);
    let count = write_echo(reply, h.reply, Ok(()));
    result_of(Ok(()), count)
}

// Obeys an accepted order and writes its answer.
fn obey(t: &mut Table, o: Order, reply: &mut [u8]) -> u32
    requires { (sound_table t.old ≡ true) × (32 ≤ length reply.old) × (order_made o ≡ true) × (value_in_range o ≡ true) }
    ensures { record { result = result; table = t.new; reply = reply.new } ≡ obeyed t.old o reply.old }
{
    match o {
        Order::Ask(x, q) => tell_channel(t, x, q, reply),
        Order::AskHead(q) => tell_head(t, q, reply),
        _ => carry_out(t, o, reply),
    }
}

// Judges an order, and obeys or refuses it.
fn take_order(t: &mut Table, o: Order, reply: &mut [u8]) -> u32
    requires { (sound_table t.old ≡ true) × (32 ≤ length reply.old) × (order_made o ≡ true) }
    ensures { record { result = result; table = t.new; reply = reply.new } ≡ taken t.old (on_card (head_of t.old).card (Some o)) reply.old }
{
    match judge_order(t, o) {
        Ok(()) => obey(t, o, reply),
        Err(cause) => refuse(t, cause, reply),
    }
}

// Takes what a line is: an order, or nothing.
pub fn take_line(t: &mut Table, p: Option<Order>, reply: &mut [u8]) -> u32
    requires { (sound_table t.old ≡ true) × (32 ≤ length reply.old) × (parsed_made p ≡ true) }
    ensures { record { result = result; table = t.new; reply = reply.new } ≡ taken t.old (on_card (head_of t.old).card p) reply.old }
{
    match p {
        Some(o) => take_order(t, o, reply),
        None => refuse(t, Refusal::NoForm, reply),
    }
}
