// Numbers of the bench: words of bytes, low byte first; positions as places; sets of channels; and the bits of a byte.
// What they are is said in specs/.

#![tactic(auto)]

pub mod places;
pub mod sets;
pub mod words;

ghost use Rattle.std.specs.Prelude.{◌≡◌};
ghost use Rattle.digits.specs.Words.{is_set};

// Whether bit k of a byte is set. A byte has no bit past the seventh, and that one is not set.
pub fn is_set(k: u8, n: u8) -> bool
    ensures { result ≡ is_set k n }
{
    k < 8 && (n >> k) % 2 == 1
}
