// A whole list, from its first byte to the first fault or to its end.

ghost use Rattle.std.specs.Prelude.{◌≡◌, ◌<◌, ◌≤◌, T, length};
ghost use Rattle.std.specs.Float.{binary64};
ghost use Rattle.std.specs.Float.Ieee.{in_unsigned};
ghost use Rattle.text.specs.Text.{Wrote};
ghost use Rattle.steps.specs.Steps.{step_at};
ghost use Rattle.lists.specs.Listing.{as_doubles, last_text, printed};
ghost use Rattle.lists.specs.Turns.{offset_in, text_of, reached_after};

use crate::lines::{write_fault, write_move, write_total, write_wait};
use steps::reading::{beyond_at, step_at};
use steps::{Fault, Step};
use text::quoted::write_text;

// How far a list is taken: the place of its next step, and the total of the dwells before.
#[derive(Clone, Copy)]
struct Reached {
    at: usize,
    total: f64,
}

// What a step leaves: how many bytes it printed, and how far the list is taken then; none where they are the last ones.
#[derive(Clone, Copy)]
struct Turn {
    count: usize,
    onward: Option<Reached>,
}

// The last line.
fn write_last(out: &mut [u8], end: Result<(), Fault>, total: f64) -> usize
    requires { (22 ≤ length out.old) × (offset_in end < 4294967296) × T (in_unsigned binary64 32 total) }
    ensures { Wrote out.old out.new (last_text as_doubles total end) result }
{
    match end {
        Ok(()) => write_total(out, total),
        Err(f) => write_fault(out, f.cause.number(), f.offset),
    }
}

// The next step: its lines, and what comes after it.
#[tactic(auto, using(crate::proofs::ListLaws::drive_channel, crate::proofs::ListLaws::refused_near))]
fn take_step(out: &mut [u8], list: &[u8], from: Reached) -> Turn
    requires { (44 ≤ length out.old) × (from.at ≤ 260000) × T (in_unsigned binary64 32 from.total) }
    ensures wrote { Wrote out.old out.new (text_of from.total (step_at list.now from.at)) result.count }
    ensures onward { result.onward ≡ reached_after from (step_at list.now from.at) }
{
    match step_at(list, from.at) {
        Ok(Some(Step::Drive(m))) => Turn {
            count: write_move(out, m),
            onward: Some(Reached {
                at: from.at + 26,
                ..from
            }),
        },
        Ok(Some(Step::Wait(x, n))) => Turn {
            count: write_wait(out, n),
            onward: Some(Reached {
                at: from.at + 11,
                total: from.total + x,
            }),
        },
        Ok(None) => Turn {
            count: write_last(out, Ok(()), from.total),
            onward: None,
        },
        Err(f) => Turn {
            count: write_last(out, Err(f), from.total),
            onward: None,
        },
    }
}

// A whole list, of any length, printed to the front of the buffer. No step takes more than 44 bytes there, and the last line no more
// than 22.
#[tactic(auto, using(crate::proofs::OutLaws::wrote_fits))]
pub fn write_list(out: &mut [u8], list: &[u8]) -> usize
    requires { 440028 ≤ length out.old }
    ensures { Wrote out.old out.new (printed list.now) result }
{
    let mut n = write_text(out, b"C REM\n");
    let mut reached = Reached { at: 0, total: 0.0 };
    for _ in 0..10000u32 {
        let turn = take_step(&mut out[n..], list, reached);
        n += turn.count;
        let Some(next) = turn.onward else {
            return n;
        };
        reached = next;
    }
    n + write_last(&mut out[n..], beyond_at(list, reached.at), reached.total)
}
