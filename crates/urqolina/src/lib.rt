// The four calls over the memory that a C host lends: fresh, command, reading and tick. Each takes any bytes and any numbers,
// and writes nothing before everything is judged. What each leaves in every buffer, for all its inputs, is one definition of
// specs/Calls.antt.

#![tactic(auto)]

mod ticking;

ghost use Rattle.std.specs.Prelude.{◌≡◌, true, ◌≤◌};
ghost use Rattle.drive.specs.Drives.{switch_read};
ghost use Rattle.table.specs.Layout.{motor_at, with_motor};
ghost use Rattle.table.specs.Sound.{sound_table};
ghost use Rattle.urqolina.specs.Calls.{fresh_call, command_call, reading_call, tick_call};

use drive::read_switches;
use obeying::take_line;
use reader::read_line;
use table::{Table, change_motor, make_fresh, sound_table};
use ticking::tick_all;

// The numbers that need no line, as the C interface has them: done, a wrong size or number, and a table that is not sound. Each call
// refuses for itself: of a slice that is lent on inside a `Result` no clause says what it ends as.
const DONE: u32 = 0;

const WRONG_SIZE: u32 = 5;

const NOT_SOUND: u32 = 6;

// The least size of the reply buffer.
const REPLY: usize = 32;

// Makes the fresh table of a card, 0 of sixteen motors or 1 of four.
#[tactic(auto, unfolding(crate::specs::Calls::fresh_call, drive::specs::Numbers::number_of))]
pub fn urqolina_fresh(table: &mut [u8], card: u32) -> u32
    ensures { record { result = result; table = table.new } ≡ fresh_call table.old card }
{
    if card > 1 {
        return WRONG_SIZE;
    }
    let Some(fresh) = table.as_mut_array() else {
        return WRONG_SIZE;
    };
    make_fresh(fresh, card as u8);
    DONE
}

// Takes one command line and writes its reply.
#[tactic(auto, unfolding(crate::specs::Calls::command_call, drive::specs::Numbers::number_of))]
pub fn urqolina_command(table: &mut [u8], line: &[u8], reply: &mut [u8]) -> u32
    ensures { record { result = result; table = table.new; reply = reply.new } ≡ command_call table.old line.now reply.old }
{
    if reply.len() < REPLY {
        return WRONG_SIZE;
    }
    let Some(t) = table.as_mut_array() else {
        return WRONG_SIZE;
    };
    if !sound_table(t) {
        return NOT_SOUND;
    }
    take_line(t, read_line(line), reply)
}

// Puts a switch reading into a channel's record.
fn read_channel(t: &mut Table, channel: u8, contacts: u8)
    requires { (sound_table t.old ≡ true) × (channel ≤ 15) }
    ensures { t.new ≡ with_motor t.old channel (switch_read (motor_at t.old channel) contacts) }
{
    change_motor(t, channel, |m| read_switches(m, contacts));
}

// Takes one switch reading of a channel.
#[tactic(auto, unfolding(crate::specs::Calls::reading_call, drive::specs::Numbers::number_of))]
pub fn urqolina_reading(table: &mut [u8], channel: u32, contacts: u32) -> u32
    ensures { record { result = result; table = table.new } ≡ reading_call table.old channel contacts }
{
    if channel > 15 || contacts > 7 {
        return WRONG_SIZE;
    }
    let Some(t) = table.as_mut_array() else {
        return WRONG_SIZE;
    };
    if !sound_table(t) {
        return NOT_SOUND;
    }
    read_channel(t, channel as u8, contacts as u8);
    DONE
}

// Takes one tick and writes the pulses of each channel.
#[tactic(auto, unfolding(crate::specs::Calls::tick_call, drive::specs::Numbers::number_of))]
pub fn urqolina_tick(table: &mut [u8], pulses: &mut [u8]) -> u32
    ensures { record { result = result; table = table.new; pulses = pulses.new } ≡ tick_call table.old pulses.old }
{
    let Some(pulses) = pulses.as_mut_array() else {
        return WRONG_SIZE;
    };
    let Some(t) = table.as_mut_array() else {
        return WRONG_SIZE;
    };
    if !sound_table(t) {
        return NOT_SOUND;
    }
    tick_all(t, pulses);
    DONE
}
