// The line in hand and the place reached, together: a reader over the caller's bytes. Each function takes the reader apart and
// leaves the work to one over the slice and the number; `read_line` is for everyone else.

#![tactic(auto)]

pub mod finding;
pub mod matching;

ghost use Rattle.std.specs.Prelude.{◌≡◌};
ghost use Rattle.reader.specs.Finding.{word_at, order_at};
ghost use Rattle.line.specs.Forms.{order_of};

use crate::finding::word_at;
use crate::matching::order_at;
use form::Word;
use line::Order;

#[derive(Clone, Copy)]
pub struct Reader<'a> {
    pub line: &'a [u8],
    pub place: usize,
}

// A reader at the start of a line.
pub fn open<'a>(line: &'a [u8]) -> Reader<'a>
    ensures { (result.line ≡ line.entry) × (result.place ≡ 0) }
{
    Reader { line, place: 0 }
}

// The word that stands at the place reached, if one does.
pub fn word<'a>(r: Reader<'a>) -> Option<Word>
    ensures { result ≡ word_at r.entry.line.now r.entry.place }
{
    word_at(r.line, r.place)
}

// The reader moved past a word.
pub fn past<'a>(r: Reader<'a>, w: Word) -> Reader<'a>
    ensures { (result.line ≡ r.entry.line) × (result.place ≡ w.end) }
{
    Reader { place: w.end, ..r }
}

// The order that a word makes with the fields from the place reached to the end of the line.
pub fn order<'a>(r: Reader<'a>, w: Word) -> Option<Order>
    ensures { result ≡ order_at r.entry.line.now r.entry.place w }
{
    order_at(r.line, r.place, w)
}

// The order that a line is, for every list of bytes.
pub fn read_line(line: &[u8]) -> Option<Order>
    ensures { result ≡ order_of line.now }
{
    let r = open(line);
    let w = word(r)?;
    order(past(r, w), w)
}
