// What is answered, written straight into the reply buffer that the caller lends. What stands in each answer is said in specs/.

#![tactic(auto)]

pub mod free;
pub mod settings;
pub mod texts;

ghost use Rattle.std.specs.Prelude.{◌≡◌, true, ◌≤◌, length};
ghost use Rattle.text.specs.Text.{Wrote};
ghost use Rattle.motor.specs.Sound.{setup_in_range};
ghost use Rattle.replies.specs.Replies.{echo, head_text, question_text};

use crate::free::write_free;
use crate::settings::{write_selected, write_setup, write_switches};
use crate::texts::{write_either, write_error, write_verdict};
use drive::{Verdict, speed_numbered};
use line::{HeadQuestion, Question};
use record::Motor;
use status::write_status;
use table::head::{Head, is_paused};
use text::decimal::{write_decimal, write_signed};
use text::hex::{write_hex, write_hex_word};

// The text of a verdict where all-reply is on, else nothing. All-reply and the mode come as the bytes of the head.
pub fn write_echo(out: &mut [u8], all: u8, v: Verdict) -> usize
    requires { 32 ≤ length out.old }
    ensures wrote { Wrote out.old out.new (echo all v) result }
    ensures upper_bound { result ≤ 32 }
{
    if all == 1 { write_verdict(out, v) } else { 0 }
}

// What is answered to a question about the head.
pub fn write_head_question(out: &mut [u8], h: Head, q: HeadQuestion) -> usize
    requires { 32 ≤ length out.old }
    ensures wrote { Wrote out.old out.new (head_text h q) result }
    ensures upper_bound { result ≤ 32 }
{
    match q {
        HeadQuestion::AskAllReply => write_either(out, h.reply == 1, b"EN", b"DS"),
        HeadQuestion::AskFlags => {
            write_hex(out, h.errors);
            2
        }
        HeadQuestion::AskError => write_error(out, h.errors),
        HeadQuestion::AskPause => write_either(out, is_paused(h), b"ON", b"OFF"),
        HeadQuestion::AskBusy => {
            write_hex_word(out, h.busy);
            4
        }
        HeadQuestion::AskFree => write_free(out, h),
    }
}

// What is answered to a question about channel x, in the mode k and with the channel's motor.
pub fn write_question(out: &mut [u8], k: u8, x: u8, m: Motor, q: Question) -> usize
    requires in_bounds { 32 ≤ length out.old }
    requires x_bound { x ≤ 15 }
    requires setup_value { setup_in_range m.setup ≡ true }
    ensures wrote { Wrote out.old out.new (question_text k x m q) result }
    ensures upper_bound { result ≤ 32 }
{
    let speeds = m.speeds;
    let setup = m.setup;
    match q {
        Question::AskPosition => write_signed(out, 7, m.place),
        Question::AskCwLimit => write_signed(out, 7, m.limits.cw),
        Question::AskCcwLimit => write_signed(out, 7, m.limits.ccw),
        Question::AskSelected => write_selected(out, speeds.selected),
        Question::AskSpeed(n) => write_decimal(out, 6, speed_numbered(n, speeds)),
        Question::AskSwitches => write_switches(out, m.wiring.setls),
        Question::AskMotor => write_setup(out, setup),
        Question::AskStatus => write_status(out, k, x, m),
    }
}
