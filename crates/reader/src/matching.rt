// The order that a word makes with the fields after it.

ghost use Rattle.std.specs.Prelude.{◌≡◌, true, false};
ghost use Rattle.line.specs.Forms.{first_of};
ghost use Rattle.form.specs.Table.{rows_from};
ghost use Rattle.reader.specs.Finding.{case_by, case_at, order_at};

use form::Word;
use form::making::order_of;
use form::rows::{first_row, second_row};
use form::tails::tail_of;
use line::Order;
use line::field_reading::fields_at;

// By one row, if it is one. Nothing may follow the fields.
fn case_at(s: &[u8], at: usize, row: Option<u8>) -> Option<Order>
    ensures { result ≡ case_by (rows_from row) s.now at }
{
    let row = row?;
    let (f, end) = fields_at(s, at, tail_of(row))?;
    if end == s.len() {
        order_of(row, f)
    } else {
        None
    }
}

// By the first row of a word, or by its second.
fn form_at(s: &[u8], at: usize, second: bool, letters: u64) -> Option<Order>
    ensures { result ≡ case_at second letters s.now at }
{
    let row = if second {
        second_row(letters)
    } else {
        first_row(letters)
    };
    case_at(s, at, row)
}

// By the first row of a word, or else by its second. One call of `form_at` stands for both, so that its code need be there once.
fn either_at(s: &[u8], at: usize, letters: u64) -> Option<Order>
    ensures { result ≡ first_of (case_at false letters s.now at) (case_at true letters s.now at) }
{
    for second in [false, true] {
        let found = form_at(s, at, second, letters);
        if found.is_some() {
            return found;
        }
    }
    None
}

// In more than 80 bytes there is no form.
pub fn order_at(s: &[u8], at: usize, word: Word) -> Option<Order>
    ensures { result ≡ order_at s.now at word }
{
    if s.len() <= 80 {
        either_at(s, at, word.letters)
    } else {
        None
    }
}
