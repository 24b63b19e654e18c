// The status of a channel: six bytes, and then the position, written into the rest of the buffer, which is that of a reply, of 32 bytes or
// more.

#![tactic(auto)]

ghost use Rattle.std.specs.Prelude.{◌≡◌, [], ◌∷◌, ◌+◌, ◌≤◌, length};
ghost use Rattle.digits.specs.Bytes.{put};
ghost use Rattle.text.specs.Text.{Wrote, hex_digit, hex_byte};
ghost use Rattle.motor.specs.Switches.{active};
ghost use Rattle.status.specs.Status.{flag_if, switch_bits, status_v, status_hh, mode_letter, going_letter, status_text};

use digits::places::CW;
use motor::{is_active, is_busy, is_moving, is_unread};
use record::{Motor, Wiring};
use text::decimal::write_signed;
use text::hex::hex_digit;

fn flag_if(t: bool, n: u8) -> u8
    ensures { (result ≡ flag_if t n) × (result ≤ n) }
{
    if t { n } else { 0 }
}

// The switches that are active, enabled or not.
fn switch_flags(w: Wiring) -> u8
    ensures { (result ≡ flag_if (active 0 w) 1 + flag_if (active 1 w) 2 + flag_if (active 2 w) 4) × (result ≤ 7) }
{
    flag_if(is_active(0, w), 1) + flag_if(is_active(1, w), 2) + flag_if(is_active(2, w), 4)
}

// What is shown of them: none while the contacts are unknown, though an N.C. switch would be active.
fn switch_bits(w: Wiring) -> u8
    ensures { (result ≡ switch_bits w) × (result ≤ 7) }
{
    if is_unread(w) { 0 } else { switch_flags(w) }
}

// The digit V.
fn status_v(m: Motor) -> u8
    ensures { (result ≡ status_v m) × (result ≤ 15) }
{
    let w = m.wiring;
    let switches = switch_bits(w);
    switches + flag_if(!is_busy(m) & (m.setup.b == 0), 8)
}

// The byte HH.
fn status_hh(m: Motor) -> u8
    ensures { result ≡ status_hh m }
{
    if is_moving(m) {
        3
    } else if is_busy(m) {
        1
    } else {
        m.ended
    }
}

// The letter of a mode.
pub fn mode_letter(k: u8) -> u8
    ensures { result ≡ mode_letter k }
{
    if k == 0 { b'L' } else { b'R' }
}

fn going_letter(m: Motor) -> u8
    ensures { result ≡ going_letter m }
{
    if is_moving(m) {
        if m.drive.going == CW { b'P' } else { b'N' }
    } else {
        b'S'
    }
}

// The mode, the channel and which way it goes: bytes 0 to 2.
fn write_letters(out: &mut [u8], k: u8, x: u8, m: Motor)
    requires in_bounds { 32 ≤ length out.old }
    requires x_bound { x ≤ 15 }
    ensures { out.new ≡ put out.old 0 (mode_letter k ∷ hex_digit x ∷ going_letter m ∷ []) }
{
    out[0] = mode_letter(k);
    out[1] = hex_digit(x);
    out[2] = going_letter(m);
}

// V and HH: bytes 3 to 5, each digit in its place as in the rest of the status.
fn write_flags(out: &mut [u8], m: Motor)
    requires { 32 ≤ length out.old }
    ensures { out.new ≡ put out.old 3 (hex_digit (status_v m) ∷ hex_byte (status_hh m)) }
{
    let hh = status_hh(m);
    out[3] = hex_digit(status_v(m));
    out[4] = hex_digit(hh / 16);
    out[5] = hex_digit(hh);
}

// The whole status of channel x.
pub fn write_status(out: &mut [u8], k: u8, x: u8, m: Motor) -> usize
    requires in_bounds { 32 ≤ length out.old }
    requires x_bound { x ≤ 15 }
    ensures { Wrote out.old out.new (status_text k x m) result }
{
    write_letters(out, k, x, m);
    write_flags(out, m);
    write_signed(&mut out[6..], 7, m.place) + 6
}
