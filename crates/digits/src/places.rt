// Positions as places: a signed number of the table plus 2,147,483,648, so that room and distance are plain differences.

ghost use Rattle.std.specs.Prelude.{◌≡◌, nat_le};
ghost use Rattle.digits.specs.Places.{is_position, place_of, word_of, moved, ahead, count_of};

// The directions of a drive. They are numbers, and not an enum, because a record may hold any byte there, and `drive_of` and `ahead` give
// each its meaning.
pub const CW: u8 = 1;

pub const CCW: u8 = 2;

// The place of position 0, and the ends of the positions' range.
pub const ORIGIN: u32 = 2147483648;

pub const LOWEST: u32 = 1;

pub const HIGHEST: u32 = 4294967295;

// Whether a number is the place of a position.
pub fn is_position(p: u32) -> bool
    ensures { result ≡ is_position p }
{
    LOWEST <= p && p <= HIGHEST
}

// The place of the signed number in a word of four bytes.
pub fn place_of(w: u32) -> u32
    ensures { result ≡ place_of w }
{
    w.wrapping_add(ORIGIN)
}

// The word of four bytes for a place.
pub fn word_of(p: u32) -> u32
    ensures { result ≡ word_of p }
{
    p.wrapping_add(ORIGIN)
}

// How many pulses q lies ahead of p in a direction; none where it does not lie ahead.
pub fn pulses_ahead(going: u8, p: u32, q: u32) -> u32
    ensures { result ≡ ahead going p q }
{
    if going == CW {
        q.saturating_sub(p)
    } else {
        p.saturating_sub(q)
    }
}

// Whether q lies ahead of p in a direction.
pub fn lies_ahead(going: u8, p: u32, q: u32) -> bool
    ensures { result ≡ nat_le 1 (ahead going p q) }
{
    if going == CW { p < q } else { q < p }
}

// The place n pulses on from p in a direction. It may lie past the positions' range, which a u64 holds.
pub fn place_ahead(going: u8, p: u32, n: u32) -> u64
    ensures { result ≡ moved going p n }
{
    if going == CW {
        (p as u64) + (n as u64)
    } else {
        p.saturating_sub(n) as u64
    }
}

// The signed count for n pulses given in a direction, as a word: CW positive.
pub fn count_of(going: u8, n: u32) -> u32
    ensures { result ≡ count_of going n }
{
    if going == CW { n } else { n.wrapping_neg() }
}
