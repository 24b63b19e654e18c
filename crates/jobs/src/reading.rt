// What a line of a script asks for.

ghost use Rattle.std.specs.Prelude.{◌≡◌};
ghost use Rattle.jobs.specs.Jobs.{is_contacts, is_ticks, touch_of, wait_of, card_of, job_of};

use crate::Job;
use line::field_reading::{hex_value, is_hex};
use text::decimal::{Digits, digit_value, is_digit, number_at};

// Whether a byte is the digit of contacts.
fn is_contacts(b: u8) -> bool
    ensures { result ≡ is_contacts b }
{
    is_digit(b) & (digit_value(b) <= 7)
}

// S x n: what stands after `S ` is a channel, a blank and a digit.
#[tactic(auto, unfolding(crate::specs::Jobs::touch_of))]
fn touch_of(s: &[u8]) -> Option<Job>
    ensures { result ≡ touch_of s.now }
{
    match *s {
        [x, b' ', n] if is_hex(x) & is_contacts(n) => {
            Some(Job::Touch(hex_value(x), digit_value(n) as u8))
        }
        _ => None,
    }
}

// Whether a number is one of ticks: what it starts with, and what it is worth.
fn is_ticks(first: u8, value: u64) -> bool
    ensures { result ≡ is_ticks first value }
{
    (first != b'0') & (value <= 10000)
}

// T n: what stands after `T ` is a number and nothing else. A number of more than five digits would be over 10000, or have
// leading zeros.
#[tactic(auto, using(crate::proofs::JobLaws::wait_nothing))]
fn wait_of(s: &[u8]) -> Option<Job>
    ensures { result ≡ wait_of s.now }
{
    let Digits { value, count } = number_at(s, 0)?;
    if (count == s.len()) & (count <= 5) & is_ticks(s[0], value) {
        Some(Job::Wait(value as u32))
    } else {
        None
    }
}

// K 1: what stands after `K ` is 1 and nothing else, and no line came before.
#[tactic(auto, unfolding(crate::specs::Jobs::card_of))]
fn card_of(first: bool, s: &[u8]) -> Option<Job>
    ensures { result ≡ card_of first s.now }
{
    match s {
        [b'1'] if first => Some(Job::FourMotors),
        _ => None,
    }
}

// What a line asks for, which is the first one or not: by its letter, with what comes after it and its blank.
#[tactic(auto, using(crate::proofs::JobLaws::job_two, crate::proofs::JobLaws::job_short), unfolding(crate::specs::Jobs::lettered))]
pub fn job_of(first: bool, line: &[u8]) -> Option<Job>
    ensures { result ≡ job_of first line.now }
{
    match line {
        [b'C', b' ', ..] => Some(Job::Send),
        [b'S', b' ', s @ ..] => touch_of(s),
        [b'T', b' ', s @ ..] => wait_of(s),
        [b'K', b' ', s @ ..] => card_of(first, s),
        _ => None,
    }
}
