// The error flags: one is set by each refusal, and ERRCe clears one.

ghost use Rattle.std.specs.Prelude.{◌≡◌, ◌^◌, ◌≤◌};
ghost use Rattle.digits.specs.Words.{with_bit, without_bit};
ghost use Rattle.drive.specs.Numbers.{number_of};
ghost use Rattle.table.specs.Layout.{head_of, with_errors};
ghost use Rattle.commands.specs.Changing.{flagged};

use digits::is_set;
use drive::Verdict;
use drive::numbers::{flag_bit, number_of};
use table::Table;
use table::head::{Head, read_head, write_head};

// The number whose only bit is bit k. `k ≤ 3` is asked by this and by the two that call it; a type would be made for them alone.
fn power(k: u8) -> u8
    requires { k ≤ 3 }
    ensures { (result ≡ 2 ^ k) × (result ≤ 8) }
{
    1 << k
}

fn with_bit(k: u8, n: u8) -> u8
    requires { (k ≤ 3) × (n ≤ 15) }
    ensures { result ≡ with_bit k n }
{
    if is_set(k, n) { n } else { n + power(k) }
}

fn without_bit(k: u8, n: u8) -> u8
    requires { k ≤ 3 }
    ensures { result ≡ without_bit k n }
{
    if is_set(k, n) { n - power(k) } else { n }
}

// Sets the flag of a refusal.
pub fn set_flag(t: &mut Table, v: Verdict)
    requires { (head_of t.old).errors ≤ 15 }
    ensures { t.new ≡ flagged t.old (number_of v) }
{
    let h = read_head(t);
    let flags = with_bit(flag_bit(number_of(v)), h.errors);
    write_head(t, Head { errors: flags, ..h });
}

// The head with flag e clear.
pub fn clear_flag(h: Head, e: u64) -> Head
    requires { e ≤ 3 }
    ensures { result ≡ with_errors h (without_bit e h.errors) }
{
    Head {
        errors: without_bit(e as u8, h.errors),
        ..h
    }
}
