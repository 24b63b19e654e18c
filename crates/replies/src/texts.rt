// The texts of verdicts and errors, at the front of the buffer.

ghost use Rattle.std.specs.Prelude.{cond, ◌≤◌, length};
ghost use Rattle.text.specs.Text.{Wrote};
ghost use Rattle.drive.specs.Numbers.{number_of};
ghost use Rattle.replies.specs.Replies.{text_of, error_text};

use digits::is_set;
use drive::Verdict;
use drive::numbers::number_of;
use text::quoted::write_text;

// The text of a verdict, if it has one: by its number, so that a cause of a refusal needs no arm of its own. The buffer of a reply is a
// slice with 32 bytes at least, here and in the crate's other writers: a host may lend more, and an array of 32 would be less.
pub fn write_verdict(out: &mut [u8], v: Verdict) -> usize
    requires { 32 ≤ length out.old }
    ensures { Wrote out.old out.new (text_of (number_of v)) result }
{
    match number_of(v) {
        0 => write_text(out, b"OK"),
        1 => write_text(out, b"COMMAND ERROR"),
        2 => write_text(out, b"MCC06 BUSY ERROR"),
        3 => write_text(out, b"PARAMETER ERROR"),
        5 => 0,
        6 => 0,
        _ => write_text(out, b"NG"),
    }
}

// The text of the lowest error whose flag is set.
pub fn write_error(out: &mut [u8], flags: u8) -> usize
    requires { 32 ≤ length out.old }
    ensures { Wrote out.old out.new (error_text flags) result }
{
    if is_set(0, flags) {
        write_text(out, b"COMMAND ERROR")
    } else if is_set(1, flags) {
        write_text(out, b"MCC06 BUSY ERROR")
    } else if is_set(2, flags) {
        write_text(out, b"PARAMETER ERROR")
    } else if is_set(3, flags) {
        write_text(out, b"OTHER ERROR")
    } else {
        write_text(out, b"NO ERROR")
    }
}

// One of two texts, by what is on or off.
pub fn write_either(out: &mut [u8], on: bool, a: &[u8], b: &[u8]) -> usize
    requires { (length a.now ≤ length out.old) × (length b.now ≤ length out.old) }
    ensures { Wrote out.old out.new (cond on a.now b.now) result }
{
    if on {
        write_text(out, a)
    } else {
        write_text(out, b)
    }
}
