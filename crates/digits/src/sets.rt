// A set of channels as a number of sixteen bits: bit k tells whether channel k is in it.

ghost use Rattle.std.specs.Prelude.{◌≡◌, ◌≤◌};
ghost use Rattle.digits.specs.Words.{is_set, marked, bits_set};

// Whether a channel is in a set. The number is widened first: of 32 bits the processor tests one by itself.
pub fn has(set: u16, k: u8) -> bool
    requires { k ≤ 15 }
    ensures { result ≡ is_set k set }
{
    ((set as u32) >> k) % 2 == 1
}

// The set with a channel in it or not, by a test, and the others as they were.
pub fn mark(on: bool, k: u8, set: u16) -> u16
    requires { k ≤ 15 }
    ensures { result ≡ marked on k set }
{
    let own: u16 = 1 << k;
    if on { set | own } else { set - (set & own) }
}

// How many channels are in a set.
pub fn count(set: u16) -> u32
    ensures { result ≡ bits_set set }
{
    u16::count_ones(set)
}
