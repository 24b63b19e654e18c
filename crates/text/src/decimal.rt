// Numbers in decimal: read off a text, and written into the part of a buffer that the caller lends.

ghost use Rattle.std.specs.Prelude.{◌≡◌, ◌%◌, ◌≤◌, length, drop, cond, leb, Some, None};
ghost use Rattle.digits.specs.Bytes.{put};
ghost use Rattle.text.specs.Text.{is_digit, digit_value, digit_byte, digits_at_front, value_of, number_at_front};
ghost use Rattle.text.specs.Text.{last_digits, digit_count, decimal, sign_byte, distance, signed_decimal, Wrote};

use digits::places::ORIGIN;

// A number as it stands in a text: what its digits are worth, and how many they are.
#[derive(Clone, Copy)]
pub struct Digits {
    pub value: u64,
    pub count: usize,
}

pub fn is_digit(b: u8) -> bool
    ensures { result ≡ is_digit b }
{
    b.is_ascii_digit()
}

// A byte below the digits is worth 0, so that the sum of any ten bytes is known to fit.
pub fn digit_value(b: u8) -> u64
    ensures { result ≡ digit_value b }
{
    u64::from(b.saturating_sub(b'0'))
}

fn digit_byte(n: u32) -> u8
    ensures { result ≡ digit_byte (n % 10) }
{
    b'0' + (n % 10) as u8
}

// How many digits stand from `at` on; none where `at` lies past the end. It goes by place, here and in `number_at`, since a part of the text
// can't be lent from a place past its end.
pub fn digits_at(s: &[u8], at: usize) -> usize
    ensures { result ≡ digits_at_front (drop at s.now) }
{
    let mut end = at;
    for i in at..s.len() {
        if !is_digit(s[i]) {
            return i - at;
        }
        end = i + 1;
    }
    end - at
}

// A number by its digits, if there are any.
fn counted(value: u64, count: usize) -> Option<Digits>
    ensures { result ≡ cond (leb 1 count) (Some (record { value = value; count = count })) None }
{
    if 1 <= count {
        Some(Digits { value, count })
    } else {
        None
    }
}

// The number that stands from `at` on: all its digits are taken, and eleven are no number.
pub fn number_at(s: &[u8], at: usize) -> Option<Digits>
    ensures { result ≡ number_at_front (drop at s.now) }
{
    let mut value: u64 = 0;
    let mut end = at;
    for i in at..s.len() {
        let b = s[i];
        if !is_digit(b) {
            return counted(value, i - at);
        }
        if i - at == 10 {
            return None;
        }
        value = 10 * value + digit_value(b);
        end = i + 1;
    }
    counted(value, end - at)
}

// The first of 10, 100, .. that is above n says how many digits n has.
pub fn digit_count(n: u32) -> usize
    ensures { result ≡ digit_count n }
{
    let wide = n as u64;
    let mut power: u64 = 10;
    for k in 1..10 {
        if wide < power {
            return k;
        }
        power = 10 * power;
    }
    10
}

// The last digit is known first, so the digits are written from the back.
fn write_digits(out: &mut [u8], k: usize, n: u32)
    requires { k ≤ length out.old }
    ensures { out.new ≡ put out.old 0 (last_digits k n) }
{
    let mut left = n;
    for i in (0..k).rev() {
        out[i] = digit_byte(left);
        left /= 10;
    }
}

// The number with at least `least` digits, at the front of the buffer. It needs no more room than the digits take.
pub fn write_decimal(out: &mut [u8], least: usize, n: u32) -> usize
    requires { length (decimal least n) ≤ length out.old }
    ensures { Wrote out.old out.new (decimal least n) result }
{
    let k = least.max(digit_count(n));
    write_digits(out, k, n);
    k
}

pub fn sign_of(place: u32) -> u8
    ensures { result ≡ sign_byte place }
{
    if ORIGIN <= place { b'+' } else { b'-' }
}

pub fn distance_of(place: u32) -> u32
    ensures { result ≡ distance place }
{
    place.abs_diff(ORIGIN)
}

// The position of a place: its sign, + for 0, and then at least `least` digits. 02 §4: "Have it write straight into the part of the
// reply buffer it is given." Neither it nor what it calls has digits anywhere else.
pub fn write_signed(out: &mut [u8], least: usize, place: u32) -> usize
    requires { length (signed_decimal least place) ≤ length out.old }
    ensures { Wrote out.old out.new (signed_decimal least place) result }
{
    out[0] = sign_of(place);
    write_decimal(&mut out[1..], least, distance_of(place)) + 1
}
