// The step that stands at a place of a list.

#![tactic(auto, using(crate::proofs::FieldLaws::good_byte, crate::proofs::FieldLaws::good_double, crate::proofs::FieldLaws::good_other, crate::proofs::StepLaws::aim_there), unfolding(crate::specs::Steps::opening_at, crate::specs::Steps::aim_at, crate::specs::Steps::rate_at, crate::specs::Steps::move_at, crate::specs::Steps::step_at, crate::specs::Steps::beyond_at))]

ghost use Rattle.std.specs.Prelude.{◌≡◌, ◌+◌, ◌<◌};
ghost use Rattle.steps.specs.Judging.{judged_point};
ghost use Rattle.steps.specs.Steps.{channel_of, dwell_of, opening_at, aim_of, aim_at, rate_at, is_distance, move_at, step_at, beyond_at};
ghost use Rattle.steps.specs.Parts.{double_in, unrated, judged_move};

use crate::frames::{CHANNEL, DISTANCE, DWELL, Field, SPEED, TARGET};
use crate::judging::{judge_point, judge_speed};
use crate::{Cause, Fault, Move, Opening, Pair, SetPoint, Step};

// A channel's byte.
fn channel_of(b: u8, at: usize) -> Result<Opening, Fault>
    ensures { result ≡ channel_of b at }
{
    if b <= 15 {
        Ok(Opening::Channel(b))
    } else {
        Err(Cause::WrongChannel.at(at))
    }
}

// A dwell's double.
fn dwell_of(x: f64, at: usize) -> Result<Opening, Fault>
    ensures { result ≡ dwell_of x at }
{
    let n = judge_point(SetPoint::Dwell(x)).map_err(|cause| cause.at(at))?;
    Ok(Opening::Dwelling(x, n))
}

// The first field of a step. As a call by itself it would cost each dwell some fifty instructions more.
#[inline(always)]
fn opening_at(field: Field) -> Result<Opening, Fault>
    ensures { result ≡ opening_at field.entry.list.now field.entry.at }
{
    if field.frame(CHANNEL, DWELL)? == CHANNEL {
        channel_of(field.channel(), field.at)
    } else {
        dwell_of(field.double(), field.at)
    }
}

impl SetPoint {
    // The set-point of a move.
    fn aim_of(relative: bool, x: f64) -> SetPoint
        ensures { result ≡ aim_of relative x }
    {
        if relative {
            SetPoint::Distance(x)
        } else {
            SetPoint::Target(x)
        }
    }

    fn is_distance(self) -> bool
        ensures { result ≡ is_distance self }
    {
        matches!(self, SetPoint::Distance(_))
    }

    fn double(self) -> f64
        ensures { result ≡ double_in self }
    {
        match self {
            SetPoint::Target(x) | SetPoint::Distance(x) | SetPoint::Dwell(x) => x,
        }
    }
}

// The field of a target or a distance.
fn aim_at(field: Field) -> Result<SetPoint, Fault>
    ensures { result ≡ aim_at field.entry.list.now field.entry.at }
{
    let tag = field.frame(TARGET, DISTANCE)?;
    Ok(SetPoint::aim_of(tag == DISTANCE, field.double()))
}

// The field of a speed.
fn rate_at(field: Field) -> Result<f64, Fault>
    ensures { result ≡ rate_at field.entry.list.now field.entry.at }
{
    field.frame(SPEED, SPEED)?;
    Ok(field.double())
}

// What refuses a move whose speed's field is refused. "the first fault in the list counts": its target's own fault comes before.
fn judge_alone(p: SetPoint, at: usize, fault: Fault) -> Fault
    ensures { result ≡ unrated at fault (judged_point p) }
{
    match judge_point(p) {
        Ok(_) => fault,
        Err(cause) => cause.at(at),
    }
}

// A move, by its two doubles; its target's field stands at `at`.
fn judge_move(channel: u8, relative: bool, pair: Pair, at: usize) -> Result<Step, Fault>
    requires { at + 11 < 18446744073709551616 }
    ensures { result ≡ judged_move channel relative pair.target pair.speed at }
{
    let point = SetPoint::aim_of(relative, pair.target);
    let place = judge_point(point).map_err(|cause| cause.at(at))?;
    let speed = judge_speed(pair.speed).map_err(|cause| cause.at(at + 11))?;
    Ok(Step::Drive(Move {
        channel,
        relative,
        place,
        speed,
    }))
}

// What follows a channel's field. Each answer is taken apart by `let .. else` (docs/DECISIONS.md, "Language forms"), whose else binds
// nothing, so that it stands in a local.
fn move_at(field: Field, channel: u8) -> Result<Step, Fault>
    ensures { result ≡ move_at field.entry.list.now field.entry.at channel }
{
    let aim = aim_at(field);
    let Ok(point) = aim else {
        return Err(aim.unwrap_err());
    };
    let rate = rate_at(field.after(11));
    let Ok(speed) = rate else {
        return Err(judge_alone(point, field.at, rate.unwrap_err()));
    };
    let pair = Pair {
        target: point.double(),
        speed,
    };
    judge_move(channel, point.is_distance(), pair, field.at)
}

// The step at a place; none where the list ends there.
pub fn step_at(list: &[u8], at: usize) -> Result<Option<Step>, Fault>
    ensures { result ≡ step_at list.now at }
{
    let field = Field { list, at };
    if field.is_past() {
        return Ok(None);
    }
    let step = match opening_at(field)? {
        Opening::Channel(c) => move_at(field.after(4), c)?,
        Opening::Dwelling(x, n) => Step::Wait(x, n),
    };
    Ok(Some(step))
}

// What stands at a place after the last step that a list may have: nothing, or what refuses the list.
pub fn beyond_at(list: &[u8], at: usize) -> Result<(), Fault>
    ensures { result ≡ beyond_at list.now at }
{
    let field = Field { list, at };
    if field.is_past() {
        return Ok(());
    }
    opening_at(field)?;
    Err(Cause::TooMany.at(at))
}
