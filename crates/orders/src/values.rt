// What the line itself tells of an order: whether it is taken in local mode, and whether its value is in range.

ghost use Rattle.std.specs.Prelude.{◌≡◌};
ghost use Rattle.motor.specs.Sound.{is_speed};
ghost use Rattle.orders.specs.Values.{head_needs_remote, needs_remote, signed_in_range, binary_digits, setup_written, start_in_range};
ghost use Rattle.orders.specs.Values.{setting_in_range, head_value_in_range, value_in_range};

use line::{Four, HeadOrder, Order, Setting, Start, Written};
use motor::setup_in_range;
use record::Setup;

// Whether an order of the head is taken in remote mode only.
fn head_needs_remote(h: HeadOrder) -> bool
    ensures { result ≡ head_needs_remote h }
{
    match h {
        HeadOrder::AllReply(_) | HeadOrder::Pause(_) => true,
        HeadOrder::Mode(_) | HeadOrder::ClearErrors | HeadOrder::ClearError(_) => false,
    }
}

// Whether an order is taken in remote mode only.
#[tactic(auto, unfolding(crate::specs::Values::needs_remote))]
pub fn needs_remote(o: Order) -> bool
    ensures { result ≡ needs_remote o }
{
    match o {
        Order::Go(_, _) | Order::ChangeSpeed(_, _) | Order::Set(_, _) => true,
        Order::Stop(_, _) | Order::StopAll(_) | Order::Ask(_, _) | Order::AskHead(_) => false,
        Order::ForHead(h) => head_needs_remote(h),
    }
}

// Whether a number with a sign is a position.
fn signed_in_range(w: Written) -> bool
    ensures { result ≡ signed_in_range w }
{
    w.digits <= 2147483647
}

// Whether a number as it was written is a speed: it may have ten digits, more than the u32 that motor's `is_speed` is given.
fn speed_in_range(v: u64) -> bool
    ensures { result ≡ is_speed v }
{
    1 <= v && v <= 5000000
}

// Whether four digits are 0 or 1 each.
fn binary_digits(q: Four) -> bool
    ensures { result ≡ binary_digits q }
{
    q.a <= 1 && q.b <= 1 && q.c <= 1 && q.d <= 1
}

// The SETMT digits as they were written. It is no `From`: an impl stands with one of its types, and neither is this crate's.
pub fn setup_written(q: Four) -> Setup
    ensures { result ≡ setup_written q }
{
    Setup {
        a: q.a,
        b: q.b,
        c: q.c,
        d: q.d,
    }
}

// Whether the value of a start is in its range.
fn start_in_range(s: Start) -> bool
    ensures { result ≡ start_in_range s }
{
    match s {
        Start::Abs(w) | Start::Rel(w) => signed_in_range(w),
        Start::Scan(_) | Start::Jog(_) => true,
    }
}

// Whether the value of a setting is in its range.
fn setting_in_range(s: Setting) -> bool
    ensures { result ≡ setting_in_range s }
{
    match s {
        Setting::Preset(w) | Setting::SetCwLimit(w) | Setting::SetCcwLimit(w) => signed_in_range(w),
        Setting::Select(_) => true,
        Setting::SetSpeed(_, v) => speed_in_range(v),
        Setting::SetSwitches(q, r) => binary_digits(q) && binary_digits(r),
        Setting::SetMotor(q) => setup_in_range(setup_written(q)),
    }
}

// Whether the value of an order of the head is in its range.
fn head_value_in_range(h: HeadOrder) -> bool
    ensures { result ≡ head_value_in_range h }
{
    match h {
        HeadOrder::ClearError(e) => e <= 3,
        HeadOrder::Mode(_)
        | HeadOrder::AllReply(_)
        | HeadOrder::ClearErrors
        | HeadOrder::Pause(_) => true,
    }
}

// Whether the value that an order carries is in its range.
#[tactic(auto, unfolding(crate::specs::Values::value_in_range))]
pub fn value_in_range(o: Order) -> bool
    ensures { result ≡ value_in_range o }
{
    match o {
        Order::Go(_, s) => start_in_range(s),
        Order::ChangeSpeed(_, v) => speed_in_range(v),
        Order::Set(_, s) => setting_in_range(s),
        Order::ForHead(h) => head_value_in_range(h),
        Order::Stop(_, _) | Order::StopAll(_) | Order::Ask(_, _) | Order::AskHead(_) => true,
    }
}
