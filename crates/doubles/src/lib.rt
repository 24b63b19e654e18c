// A double as it stands in eight bytes, and what it is as a whole number. The eight bytes are a number of 64 bits: the sign, eleven
// bits of the exponent's field, and 52 digits.

#![tactic(auto)]

ghost use Rattle.std.specs.Prelude.{◌≡◌, ◌^◌, ◌<◌, ◌≤◌};
ghost use Rattle.std.specs.Float.{binary64};
ghost use Rattle.std.specs.Float.Ieee.{of_bits};
ghost use Rattle.doubles.specs.Measures.{measure_of, fraction};

use std::num::f64_from_bits_with_nan;

const SIGN: u64 = 0x8000_0000_0000_0000;
// The weight of the exponent's field, which is also that of the digit before the 52.
const LEAD: u64 = 0x10_0000_0000_0000;

// A whole number as a double has it: its sign, and its size, of which 2 to the 52 is told at most.
#[derive(Clone, Copy)]
pub struct Whole {
    pub minus: bool,
    pub size: u64,
}

// The double of a pattern of bits; of a NaN's pattern the one NaN.
pub fn double_of(bits: u64) -> f64
    ensures { result ≡ of_bits binary64 bits }
{
    f64_from_bits_with_nan(bits)
}

// A double from 1 up to 2 to the 52: its 53 digits, of which the last `past` stand past the point.
#[tactic(auto, using(crate::proofs::DoubleLaws::shifted, crate::proofs::DoubleLaws::told))]
fn measure_digits(minus: bool, digits: u64, past: u64) -> Option<Whole>
    requires { (1 ≤ past) × (past ≤ 52) × (digits < 9007199254740992) }
    ensures { result ≡ fraction minus digits (2 ^ past) }
{
    let size = digits >> past;
    if size << past == digits {
        Some(Whole { minus, size })
    } else {
        None
    }
}

// By the exponent's field: at its highest it is an infinity's or a NaN's, from 1075 on the double is 2 to the 52 at least, and below 1023
// it is less than 1.
#[tactic(auto, using(crate::proofs::DoubleLaws::field_top, crate::proofs::DoubleLaws::field_large, crate::proofs::DoubleLaws::field_mixed, crate::proofs::DoubleLaws::field_zero, crate::proofs::DoubleLaws::field_small))]
fn measure_bits(bits: u64) -> Option<Whole>
    ensures { result ≡ measure_of (of_bits binary64 bits) }
{
    let minus = SIGN <= bits;
    let field = bits % SIGN / LEAD;
    if field == 2047 {
        None
    } else if 1075 <= field {
        Some(Whole { minus, size: LEAD })
    } else if 1023 <= field {
        measure_digits(minus, LEAD + bits % LEAD, 1075 - field)
    } else if bits % SIGN == 0 {
        Some(Whole { minus, size: 0 })
    } else {
        None
    }
}

// What a double is as a whole number; none where it has a fraction, is infinite or is no number. A NaN is told first, since its
// bits can't be read.
pub fn measure_of(x: f64) -> Option<Whole>
    ensures { result ≡ measure_of x }
{
    if x.is_nan() {
        return None;
    }
    measure_bits(x.to_bits())
}
