// What a double is worth: "finite, whole and in range".

#![tactic(auto, using(crate::proofs::JudgeLaws::placed, crate::proofs::JudgeLaws::numbered), unfolding(crate::specs::Judging::judged_point, crate::specs::Judging::judged_speed))]

ghost use Rattle.std.specs.Prelude.{◌≡◌, ◌≤◌};
ghost use Rattle.steps.specs.Judging.{judged_place, judged_number, judged_point, judged_speed};

use crate::{Cause, SetPoint};
use digits::places::ORIGIN;
use doubles::measure_of;

// A position or a distance: its place.
fn judge_place(x: f64) -> Result<u32, Cause>
    ensures { result ≡ judged_place x }
{
    let whole = measure_of(x).ok_or(Cause::NotWhole)?;
    if whole.size > 2147483647 {
        return Err(Cause::OutOfRange);
    }
    let n = whole.size as u32;
    Ok(if whole.minus { ORIGIN - n } else { ORIGIN + n })
}

// A number from 1 to the most that it may be.
fn judge_number(x: f64, most: u32) -> Result<u32, Cause>
    requires { most ≤ 5000000 }
    ensures { result ≡ judged_number most x }
{
    let whole = measure_of(x).ok_or(Cause::NotWhole)?;
    if 1 <= whole.size && !whole.minus && whole.size <= most as u64 {
        Ok(whole.size as u32)
    } else {
        Err(Cause::OutOfRange)
    }
}

// A set-point, by its own double.
pub fn judge_point(p: SetPoint) -> Result<u32, Cause>
    ensures { result ≡ judged_point p }
{
    match p {
        SetPoint::Target(x) | SetPoint::Distance(x) => judge_place(x),
        SetPoint::Dwell(x) => judge_number(x, 10000),
    }
}

// A speed.
pub fn judge_speed(x: f64) -> Result<u32, Cause>
    ensures { result ≡ judged_speed x }
{
    judge_number(x, 5000000)
}
