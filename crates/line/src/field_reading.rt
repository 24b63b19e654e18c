// The fields of a line, each read at a place of it. A place may lie anywhere: where the line has ended stands no field.

ghost use Rattle.std.specs.Prelude.{◌≡◌, [], ◌∷◌, ◌+◌, ◌≤◌, length, take, drop, cond, leb, Some, None};
ghost use Rattle.text.specs.Text.{same, digits_at_front, is_hex, hex_value};
ghost use Rattle.line.specs.declared.Fields.{Fields};
ghost use Rattle.line.specs.Shapes.{no_fields, with_channel, got_if, four_of, read_channel, read_number, read_signed, read_digit, read_fields};
ghost use Rattle.line.specs.Tails.{with_x, with_number, with_switches, after_x, fields_of};
ghost use Rattle.line.specs.declared.Field.TheVariants.{FourDigits, ZeroThree};

use crate::{AfterX, Fields, Four, Tail, Written};
use text::decimal::{digit_value, digits_at, is_digit, number_at};

// Whether a byte is one of 0-9, A-F.
pub fn is_hex(b: u8) -> bool
    ensures { result ≡ is_hex b }
{
    is_digit(b) | ((b'A' <= b) & (b <= b'F'))
}

// A byte below the digits is worth 0, as decimal::digit_value has it, and one below A that is no digit 10, so that every byte has a value.
pub fn hex_value(b: u8) -> u8
    ensures { result ≡ hex_value b }
{
    if is_digit(b) {
        b.saturating_sub(b'0')
    } else {
        10 + b.saturating_sub(b'A')
    }
}

// What reading gives: the fields, or one field, and the place after it.
pub type Read<T> = Option<(T, usize)>;

pub type Got = Read<Fields>;

// x: one of 0-9, A-F.
fn channel_at(s: &[u8], at: usize) -> Read<u8>
    ensures { (f : Fields) → with_x f result ≡ read_channel f s.now at }
{
    let b = *s.get(at)?;
    if is_hex(b) {
        Some((hex_value(b), at + 1))
    } else {
        None
    }
}

// d: 1 to 10 digits, with the sign that stood before them. As a call by itself it would cost every command 48 bytes of stack.
#[inline(always)]
fn number_from(s: &[u8], at: usize, minus: bool) -> Read<Written>
    ensures { (f : Fields) → with_number f result ≡ read_number minus f s.now at }
{
    let n = number_at(s, at)?;
    let written = Written {
        minus,
        digits: n.value,
    };
    Some((written, at + n.count))
}

// ±d: a sign, then 1 to 10 digits. A bare d means plus.
fn signed_at(s: &[u8], at: usize) -> Read<Written>
    ensures { (f : Fields) → with_number f result ≡ read_signed f s.now at }
{
    let b = *s.get(at)?;
    let minus = b == b'-';
    if minus | (b == b'+') {
        number_from(s, at + 1, minus)
    } else {
        number_from(s, at, false)
    }
}

// e: one digit.
fn digit_at(s: &[u8], at: usize) -> Read<Written>
    ensures { (f : Fields) → with_number f result ≡ read_digit f s.now at }
{
    let b = *s.get(at)?;
    if is_digit(b) {
        let written = Written {
            minus: false,
            digits: digit_value(b),
        };
        Some((written, at + 1))
    } else {
        None
    }
}

// Whether a text of letters stands, as EN, or the ? of STSx?. It is compared byte by byte: the part of the line from its place on would be
// made ready for every line, whatever field it has.
fn stands_at(s: &[u8], at: usize, text: &[u8]) -> bool
    requires { 1 ≤ length text.now }
    ensures { result ≡ same (take (length text.now) (drop at s.now)) text.now }
{
    if s.len() <= at {
        return false;
    }
    for (k, b) in text.iter().enumerate() {
        if s.len() <= at + k {
            return false;
        }
        if s[at + k] != *b {
            return false;
        }
    }
    true
}

// The fields, where a text stands.
fn text_at(s: &[u8], at: usize, text: &[u8], f: Fields) -> Got
    requires { 1 ≤ length text.now }
    ensures { result ≡ got_if (same (take (length text.now) (drop at s.now)) text.now) f (at + length text.now) }
{
    if stands_at(s, at, text) {
        Some((f, at + text.len()))
    } else {
        None
    }
}

// The four digits from a place on, which the caller has counted.
fn four_digits(s: &[u8], at: usize) -> Four
    requires { at + 4 ≤ length s.now }
    ensures { result ≡ four_of s.now at }
{
    Four {
        a: s[at].saturating_sub(b'0'),
        b: s[at + 1].saturating_sub(b'0'),
        c: s[at + 2].saturating_sub(b'0'),
        d: s[at + 3].saturating_sub(b'0'),
    }
}

// DYYY or ABCD: each letter is one decimal digit.
fn four_at(s: &[u8], at: usize) -> Read<Four>
    ensures { result ≡ cond (leb 4 (digits_at_front (drop at s.now))) (Some (four_of s.now at, at + 4)) None }
{
    if 4 <= digits_at(s, at) {
        Some((four_digits(s, at), at + 4))
    } else {
        None
    }
}

// DYYY0yyy: eight digits, of which the fifth is 0 itself.
fn switches_at(s: &[u8], at: usize) -> Read<(Four, Four)>
    ensures { (f : Fields) → with_switches f result ≡ read_fields (FourDigits ∷ ZeroThree ∷ []) f s.now at }
{
    let (first, middle) = four_at(s, at)?;
    if *s.get(middle)? == b'0' {
        let (second, end) = four_at(s, middle)?;
        Some(((first, second), end))
    } else {
        None
    }
}

// The fields of a channel alone.
fn channel_alone(channel: u8) -> Fields
    ensures { result ≡ with_channel no_fields channel }
{
    let none = Four {
        a: 0,
        b: 0,
        c: 0,
        d: 0,
    };
    let written = Written {
        minus: false,
        digits: 0,
    };
    Fields {
        channel,
        written,
        first: none,
        second: none,
    }
}

// The fields with a number in them, where one is read.
fn with_number(f: Fields, read: Read<Written>) -> Got
    ensures { result ≡ with_number f read }
{
    let (written, end) = read?;
    Some((Fields { written, ..f }, end))
}

// What follows x.
fn after_x_at(s: &[u8], at: usize, after: AfterX, f: Fields) -> Got
    ensures { result ≡ read_fields (after_x after) f s.now at }
{
    match after {
        AfterX::OnlyX => Some((f, at)),
        AfterX::XSigned => with_number(f, signed_at(s, at)),
        AfterX::XNumber => with_number(f, number_from(s, at, false)),
        AfterX::XSwitches => {
            let ((first, second), end) = switches_at(s, at)?;
            Some((Fields { first, second, ..f }, end))
        }
        AfterX::XDigits => {
            let (first, end) = four_at(s, at)?;
            Some((Fields { first, ..f }, end))
        }
        AfterX::XQuestion => text_at(s, at, b"?", f),
    }
}

// What follows a word, field after field; nothing does where no line has the form.
pub fn fields_at(s: &[u8], at: usize, tail: Option<Tail>) -> Got
    ensures { result ≡ read_fields (fields_of tail) no_fields s.now at }
{
    let f = channel_alone(0);
    match tail? {
        Tail::Alone => Some((f, at)),
        Tail::AtX(after) => {
            let (channel, end) = channel_at(s, at)?;
            after_x_at(s, end, after, channel_alone(channel))
        }
        Tail::OneDigit => with_number(f, digit_at(s, at)),
        Tail::Enabling => text_at(s, at, b"EN", f),
        Tail::Disabling => text_at(s, at, b"DS", f),
        Tail::TurnOn => text_at(s, at, b"ON", f),
        Tail::TurnOff => text_at(s, at, b"OFF", f),
    }
}
