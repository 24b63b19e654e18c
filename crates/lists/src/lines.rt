// The lines of a scan list's steps, each at the front of the part that the caller lends, and the last line.

#![tactic(auto, using(crate::proofs::OutLaws::widths), unfolding(crate::specs::Lines::setting_text, crate::specs::Lines::going_text, crate::specs::Lines::move_text, crate::specs::Lines::wait_text, crate::specs::Lines::total_text, text::specs::Text::bytes))]

ghost use Rattle.std.specs.Prelude.{◌≡◌, [], ◌∷◌, ◌++◌, ◌+◌, ◌<◌, ◌≤◌, T, length};
ghost use Rattle.std.specs.Float.{binary64};
ghost use Rattle.std.specs.Float.Ieee.{in_unsigned, to_unsigned};
ghost use Rattle.text.specs.Text.{Wrote};
ghost use Rattle.jobs.specs.Texts.{plain_text, signed_text};
ghost use Rattle.lists.specs.Lines.{lined, head_text, start_word, setting_text, select_text, going_text, move_text, wait_text, total_text, fault_text};

use steps::Move;
use text::decimal::{write_decimal, write_signed};
use text::hex::hex_digit;
use text::quoted::write_text;

// A number and a byte after it.
fn write_then(out: &mut [u8], n: u32, b: u8) -> usize
    requires { 11 ≤ length out.old }
    ensures { Wrote out.old out.new (plain_text n ++ (b ∷ [])) result }
{
    let k = write_decimal(out, 1, n);
    out[k] = b;
    k + 1
}

// The position of a place, and the line's end.
fn write_place(out: &mut [u8], place: u32) -> usize
    requires { 12 ≤ length out.old }
    ensures { Wrote out.old out.new (lined (signed_text place)) result }
{
    let k = write_signed(out, 1, place);
    out[k] = b'\n';
    k + 1
}

// A text, a number after it and the line's end.
fn write_numbered(out: &mut [u8], head: &[u8], n: u32) -> usize
    requires { length head.now + 11 ≤ length out.old }
    ensures { Wrote out.old out.new (head.now ++ total_text n) result }
{
    let k = write_text(out, head);
    k + write_then(&mut out[k..], n, b'\n')
}

// A word of the script, and the channel that it is of. That it is one of sixteen is asked here and below: the definitions (`sped` of
// steps) make a Move of any channel, so that Move can't have it as an invariant.
fn write_head(out: &mut [u8], word: &[u8], channel: u8) -> usize
    requires { (length word.now + 1 ≤ length out.old) × (channel < 16) }
    ensures { Wrote out.old out.new (head_text word.now channel) result }
{
    let k = write_text(out, word);
    out[k] = hex_digit(channel);
    k + 1
}

// The speed of a move, as a setting.
fn write_setting(out: &mut [u8], m: Move) -> usize
    requires { (18 ≤ length out.old) × (m.channel < 16) }
    ensures { Wrote out.old out.new (setting_text m) result }
{
    let k = write_head(out, b"C SPDM", m.channel);
    k + write_then(&mut out[k..], m.speed, b'\n')
}

// The selection of that speed.
fn write_select(out: &mut [u8], m: Move) -> usize
    requires { (8 ≤ length out.old) × (m.channel < 16) }
    ensures { Wrote out.old out.new (select_text m) result }
{
    let k = write_head(out, b"C SPDM", m.channel);
    out[k] = b'\n';
    k + 1
}

// The word of a start.
fn start_word(relative: bool) -> &'static [u8]
    ensures { result.now ≡ start_word relative }
{
    if relative { b"C REL" } else { b"C ABS" }
}

// The start itself.
fn write_going(out: &mut [u8], m: Move) -> usize
    requires { (18 ≤ length out.old) × (m.channel < 16) }
    ensures { Wrote out.old out.new (going_text m) result }
{
    let k = write_head(out, start_word(m.relative), m.channel);
    k + write_place(&mut out[k..], m.place)
}

// The speed of a move: set, and selected.
fn write_speed(out: &mut [u8], m: Move) -> usize
    requires { (26 ≤ length out.old) × (m.channel < 16) }
    ensures { Wrote out.old out.new (setting_text m ++ select_text m) result }
{
    let k = write_setting(out, m);
    k + write_select(&mut out[k..], m)
}

// A move.
pub fn write_move(out: &mut [u8], m: Move) -> usize
    requires { (44 ≤ length out.old) × (m.channel < 16) }
    ensures { Wrote out.old out.new (move_text m) result }
{
    let k = write_speed(out, m);
    k + write_going(&mut out[k..], m)
}

// A dwell.
pub fn write_wait(out: &mut [u8], n: u32) -> usize
    requires { 13 ≤ length out.old }
    ensures { Wrote out.old out.new (wait_text n) result }
{
    write_numbered(out, b"T ", n)
}

// The dwell total, a whole number by then.
pub fn write_total(out: &mut [u8], total: f64) -> usize
    requires { (11 ≤ length out.old) × T (in_unsigned binary64 32 total) }
    ensures { Wrote out.old out.new (total_text (to_unsigned 32 total)) result }
{
    write_then(out, total as u32, b'\n')
}

// The number and the offset of what refuses the list.
pub fn write_fault(out: &mut [u8], number: u32, offset: usize) -> usize
    requires { (22 ≤ length out.old) × (offset < 4294967296) }
    ensures { Wrote out.old out.new (fault_text number offset) result }
{
    let k = write_then(out, number, b' ');
    k + write_then(&mut out[k..], offset as u32, b'\n')
}
