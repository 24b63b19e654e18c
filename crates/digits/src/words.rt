// Numbers of one, two, four and eight bytes that stand in a lent buffer, low byte first.

ghost use Rattle.std.specs.Prelude.{◌≡◌, ℕ, ◌+◌, ◌≤◌, List, [], ◌∷◌, length, replicate};
ghost use Rattle.digits.specs.Bytes.{part, put};
ghost use Rattle.digits.specs.Words.{word, word_bytes};

// A number of some width: how many bytes it has, which number it is, and the bytes that it is written in.
pub trait Word {
    ghost size: { ℕ };

    ghost number: { Self → ℕ };

    ghost bytes: { Self → List ℕ };

    // The number in the bytes from a place on.
    fn read_at(s: &[u8], at: usize) -> Self
        requires { at + size ≤ length s.now }
        ensures { number result ≡ word (part s.now at size) };

    // Writes the number into the bytes from a place on.
    fn put_at(self, s: &mut [u8], at: usize)
        requires { at + size ≤ length s.old }
        ensures { s.new ≡ put s.old at (bytes self) };
}

impl Word for u8 {
    ghost size = { 1 };

    ghost number = { λ n. n };

    ghost bytes = { λ n. n ∷ [] };

    fn read_at(s: &[u8], at: usize) -> u8 {
        s[at]
    }

    fn put_at(self, s: &mut [u8], at: usize) {
        s[at] = self;
    }
}

// The wider ones differ in the array's length alone; `to_le_bytes` belongs to each type, so one body can't serve all three.
impl Word for u16 {
    ghost size = { 2 };

    ghost number = { λ n. n };

    ghost bytes = { word_bytes 2 };

    fn read_at(s: &[u8], at: usize) -> u16 {
        u16::from_le_bytes(*s[at..].first_chunk().unwrap())
    }

    fn put_at(self, s: &mut [u8], at: usize) {
        s[at..at + 2].copy_from_slice(&self.to_le_bytes());
    }
}

impl Word for u32 {
    ghost size = { 4 };

    ghost number = { λ n. n };

    ghost bytes = { word_bytes 4 };

    fn read_at(s: &[u8], at: usize) -> u32 {
        u32::from_le_bytes(*s[at..].first_chunk().unwrap())
    }

    fn put_at(self, s: &mut [u8], at: usize) {
        s[at..at + 4].copy_from_slice(&self.to_le_bytes());
    }
}

impl Word for u64 {
    ghost size = { 8 };

    ghost number = { λ n. n };

    ghost bytes = { word_bytes 8 };

    fn read_at(s: &[u8], at: usize) -> u64 {
        u64::from_le_bytes(*s[at..].first_chunk().unwrap())
    }

    fn put_at(self, s: &mut [u8], at: usize) {
        s[at..at + 8].copy_from_slice(&self.to_le_bytes());
    }
}

// Zeroes the first 64 bytes.
pub fn zero_front(s: &mut [u8])
    requires { 64 ≤ length s.old }
    ensures { s.new ≡ put s.old 0 (replicate 64 0) }
{
    s[..64].fill(0);
}
