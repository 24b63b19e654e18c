// What is held of a line while it is read.

ghost use Rattle.std.specs.Prelude.{◌≡◌, [], ◌≤◌, length};
ghost use Rattle.jobs.specs.Holding.{held_size, kept};

use std::marker::Model;

// How many bytes of a line are held.
const HELD: usize = 96;

// The bytes that are held, at the front of a buffer, and zeros behind them: a value has no more to it than what is held, so that it can be
// copied.
#[derive(Clone, Copy)]
pub struct Line {
    bytes: [u8; HELD],
    held: usize,
}

impl Model for Line {
    ghost use Rattle.std.specs.Prelude.{ℕ, ◌≡◌, ◌-◌, ◌≤◌, ◌++◌, List, take, drop, length, replicate};
    ghost use Rattle.jobs.specs.Holding.{held_size};
    ghost use Rattle.std.proofs.Common.{arith, refl, take-append-drop, length-take-le};

    ghost Value = { List ℕ };

    ghost view = { λ l. take l.held l.bytes };

    ghost invariant = { λ l. (l.held ≤ held_size) × (length l.bytes ≡ held_size) × (drop l.held l.bytes ≡ replicate (held_size - l.held) 0) };

    ghost inverse = { λ v. record { bytes = v ++ replicate (held_size - length v) 0; held = length v } };

    ghost inverse_ok = { λ l h. rw (length-take-le l.held l.bytes (omega (arith, h.0, h.1)), ← h.2, take-append-drop l.held l.bytes) refl };
}

impl Line {
    // Nothing is held yet.
    pub fn new() -> Self
        ensures { result ≡ [] }
    {
        Line {
            bytes: [0; HELD],
            held: 0,
        }
    }

    // What is held, which is never more than there is room for.
    pub fn held(&self) -> &[u8]
        ensures { (result.now ≡ self.now) × (length self.now ≤ held_size) }
    {
        &self.bytes[..self.held]
    }

    // One more byte of the line, where there is room for it.
    pub fn keep(&mut self, b: u8)
        ensures { self.new ≡ kept self.old b }
    {
        if self.held < HELD {
            self.bytes[self.held] = b;
            self.held += 1;
        }
    }

    // The next line begins.
    pub fn clear(&mut self)
        ensures { self.new ≡ [] }
    {
        self.bytes = [0; HELD];
        self.held = 0;
    }
}
