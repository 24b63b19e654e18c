// The table of forms: the words (words.rt), the rows that each has (rows.rt), what follows the word of a row (tails.rt) and the
// order that the row makes (making.rt). A row that a request adds has all of these in requests.rt. What the table must hold is
// line/specs/Forms.antt.

#![tactic(auto)]

pub mod making;
pub mod requests;
pub mod rows;
pub mod tails;
pub mod words;

// A word that was found in a line, and the place after it.
#[derive(Clone, Copy)]
pub struct Word {
    pub letters: u64,
    pub end: usize,
}
