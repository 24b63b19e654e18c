// The number that is handed back for a verdict, and the error flag that the number of a refusal sets.

ghost use Rattle.std.specs.Prelude.{◌≡◌, ◌≤◌};
ghost use Rattle.drive.specs.Numbers.{number_of, flag_bit};

use crate::Verdict;

// It is no `From`: an impl stands with one of its types, and a Verdict is the library's Result.
#[tactic(auto, unfolding(crate::specs::Numbers::number_of))]
pub fn number_of(v: Verdict) -> u32
    ensures { result ≡ number_of v }
{
    match v {
        Ok(()) => 0,
        Err(cause) => cause as u32,
    }
}

// The bit of the error flags: what is no other number's is the last one. It takes any number, 4 and those above 14 too.
#[tactic(auto, unfolding(crate::specs::Numbers::flag_bit))]
pub fn flag_bit(n: u32) -> u8
    ensures { (result ≡ flag_bit n) × (result ≤ 3) }
{
    match n {
        1 => 0,
        2 => 1,
        3 => 2,
        _ => 3,
    }
}
