// The texts that bench prints, each at the front of the buffer that the caller lends.

ghost use Rattle.std.specs.Prelude.{◌≡◌, ◌+◌, ◌/◌, ◌<◌, ◌≤◌, length, take};
ghost use Rattle.text.specs.Text.{Wrote};
ghost use Rattle.jobs.specs.Texts.{plain_text, reply_text, command_text, net_text, waited_text};

use digits::places::ORIGIN;
use text::decimal::{write_decimal, write_signed};
use text::hex::hex_digit;
use text::quoted::write_text;

// How many bytes a line's text may take: the buffers that are lent have as many.
pub const ROOM: usize = 256;

// The number of a call.
#[tactic(auto, using(crate::proofs::OutLaws::plain_within))]
pub fn write_number(out: &mut [u8; ROOM], n: u32) -> usize
    ensures { Wrote out.old out.new (plain_text n) result }
{
    write_decimal(out, 1, n)
}

// The reply, or the sign that there is none.
#[tactic(auto, using(crate::proofs::OutLaws::reply_some), unfolding(text::specs::Text::bytes))]
fn write_reply(out: &mut [u8], reply: &[u8]) -> usize
    requires { length reply.now < length out.old }
    ensures { Wrote out.old out.new (reply_text reply.now) result }
{
    if reply.is_empty() {
        write_text(out, b"-")
    } else {
        write_text(out, reply)
    }
}

// The number of a command and its reply. The command's result is that of the C interface, one number: it says both the number and how
// long the reply is.
#[tactic(auto, using(crate::proofs::OutLaws::plain_within, crate::proofs::OutLaws::reply_within))]
pub fn write_command(out: &mut [u8; ROOM], outcome: u32, reply: &[u8; 32]) -> usize
    requires { outcome / 256 ≤ 32 }
    ensures { Wrote out.old out.new (command_text outcome reply.now) result }
{
    let n = write_decimal(out, 1, outcome % 256);
    out[n] = b' ';
    let at = n + 1;
    at + write_reply(&mut out[at..], &reply[..(outcome / 256) as usize])
}

// A channel's net, which is not written where it is 0.
#[tactic(auto, using(text::proofs::TextLaws::signed_within))]
fn write_net(out: &mut [u8], c: u8, net: u32) -> usize
    requires { (14 ≤ length out.old) × (c < 16) }
    ensures { Wrote out.old out.new (net_text c net) result }
{
    if net == ORIGIN {
        return 0;
    }
    out[0] = b' ';
    out[1] = hex_digit(c);
    out[2] = b':';
    3 + write_signed(&mut out[3..], 1, net)
}

// The number of the last tick, and the nets in the channels' order.
#[tactic(auto, using(crate::proofs::OutLaws::plain_within, crate::proofs::OutLaws::waited_within, crate::proofs::OutLaws::net_within))]
pub fn write_waited(out: &mut [u8; ROOM], outcome: u32, nets: &[u32; 16]) -> usize
    ensures { Wrote out.old out.new (waited_text outcome nets.now) result }
{
    let mut n = write_decimal(out, 1, outcome);
    for (c, net) in nets.iter().enumerate() {
        n += write_net(&mut out[n..], c as u8, *net);
    }
    n
}
