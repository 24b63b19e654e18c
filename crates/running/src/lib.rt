// A line of a script, run on a table: what it does to the table, and its text at the front of the buffer that the caller lends.
// What a line does and prints is said in specs/. The table and the buffer are lent side by side: a struct of both borrows would be made
// anew at each call.

#![tactic(auto)]

ghost use Rattle.std.specs.Prelude.{◌≡◌, ◌≤◌, replicate};
ghost use Rattle.digits.specs.Places.{origin};
ghost use Rattle.jobs.specs.Bounds.{NetsWithin, most_net, most_ticks};
ghost use Rattle.jobs.specs.Jobs.{job_of};
ghost use Rattle.running.specs.Running.{Leaves, sent, touched, tick_of, waited, ticked, renewed, job_done, line_done};

use digits::places::ORIGIN;
use jobs::Job;
use jobs::nets::add_counts;
use jobs::reading::job_of;
use jobs::texts::{ROOM, write_command, write_number, write_waited};
use urqolina::{urqolina_command, urqolina_fresh, urqolina_reading, urqolina_tick};

// One tick, whose counts go to the nets. The pulse buffer is zeroed each time, so that a tick that is refused counts nothing.
fn tick_once(table: &mut [u8], nets: &mut [u32; 16]) -> u32
    requires { NetsWithin most_net nets.old }
    ensures { record { result = result; table = table.new; nets = nets.new } ≡ tick_of (record { result = 0; table = table.old; nets = nets.old }) }
{
    let mut pulses = [0u8; 64];
    let result = urqolina_tick(table, &mut pulses);
    add_counts(nets, &pulses);
    result
}

// As many ticks as a line has, from nets of 0. The result is the last one's.
fn wait(table: &mut [u8], n: u32, nets: &mut [u32; 16]) -> u32
    requires { (n ≤ most_ticks) × (nets.old ≡ replicate 16 origin) }
    ensures { record { result = result; table = table.new; nets = nets.new } ≡ waited n (record { result = 0; table = table.old; nets = nets.old }) }
{
    let mut result = 0;
    for _ in 0..n {
        result = tick_once(table, nets);
    }
    result
}

// C: the command line, with its reply in a buffer of zeros.
#[tactic(auto, unfolding(crate::specs::Running::sent))]
fn send(table: &mut [u8], line: &[u8], out: &mut [u8; ROOM]) -> usize
    ensures { Leaves (sent table.old line.now) table.new out.old out.new result }
{
    let mut reply = [0u8; 32];
    let result = urqolina_command(table, line, &mut reply);
    write_command(out, result, &reply)
}

// S: the switch reading of a channel.
#[tactic(auto, unfolding(crate::specs::Running::touched))]
fn touch(table: &mut [u8], channel: u8, contacts: u8, out: &mut [u8; ROOM]) -> usize
    ensures { Leaves (touched table.old channel contacts) table.new out.old out.new result }
{
    let result = urqolina_reading(table, channel as u32, contacts as u32);
    write_number(out, result)
}

// T: the ticks of a line.
#[tactic(auto, unfolding(crate::specs::Running::ticked))]
fn wait_line(table: &mut [u8], n: u32, out: &mut [u8; ROOM]) -> usize
    requires { n ≤ most_ticks }
    ensures { Leaves (ticked table.old n) table.new out.old out.new result }
{
    let mut nets = [ORIGIN; 16];
    let result = wait(table, n, &mut nets);
    write_waited(out, result, &nets)
}

// K 1: a fresh table of the four-motor card.
#[tactic(auto, unfolding(crate::specs::Running::renewed))]
fn renew(table: &mut [u8], out: &mut [u8; ROOM]) -> usize
    ensures { Leaves (renewed table.old) table.new out.old out.new result }
{
    let result = urqolina_fresh(table, 1);
    write_number(out, result)
}

// By what the line asks for.
#[tactic(auto, using(crate::proofs::RunLaws::send_two, crate::proofs::RunLaws::waits_few))]
fn run_job(first: bool, table: &mut [u8], line: &[u8], out: &mut [u8; ROOM]) -> usize
    ensures { Leaves (job_done table.old line.now (job_of first line.now)) table.new out.old out.new result }
{
    match job_of(first, line) {
        Some(Job::Send) => send(table, &line[2..], out),
        Some(Job::Touch(channel, contacts)) => touch(table, channel, contacts, out),
        Some(Job::Wait(n)) => wait_line(table, n, out),
        Some(Job::FourMotors) => renew(table, out),
        None => {
            out[0] = b'?';
            1
        }
    }
}

// A line by itself, which is the first one or not, with the line feed after its text.
#[tactic(auto, using(crate::proofs::RunLaws::job_within), unfolding(crate::specs::Running::line_done))]
pub fn run_line(first: bool, table: &mut [u8], line: &[u8], out: &mut [u8; ROOM]) -> usize
    ensures { Leaves (line_done first table.old line.now) table.new out.old out.new result }
{
    let n = run_job(first, table, line, out);
    out[n] = b'\n';
    n + 1
}
