// The word that stands at a place of a line.

ghost use Rattle.std.specs.Prelude.{◌≡◌, ◌≤◌, length, take};
ghost use Rattle.line.specs.Forms.{forms};
ghost use Rattle.form.specs.Table.{packed, rows_with};
ghost use Rattle.reader.specs.Finding.{some_row, is_letter, letter_count, word_at};

use form::Word;
use form::rows::first_row;

// The letters at the front of a line: as one number, and how many they are.
#[derive(Clone, Copy)]
struct Letters {
    letters: u64,
    count: usize,
}

// Whether letters are a word: they have a row.
fn is_word(letters: u64) -> bool
    ensures { result ≡ some_row (rows_with letters forms) }
{
    first_row(letters).is_some()
}

fn is_letter(b: u8) -> bool
    ensures { result ≡ is_letter b }
{
    ((b'A' <= b) & (b <= b'_')) | ((b == b'?') | (b == b' '))
}

// The letters that stand at the front, eight at most: as one number, the last one lowest, and how many they are.
fn letters_in(s: &[u8]) -> Letters
    ensures { (result.count ≡ letter_count s.now) × (result.count ≤ length s.now) × (result.letters ≡ packed (take result.count s.now)) }
{
    let front = &s[..s.len().min(8)];
    let mut letters: u64 = 0;
    for (count, b) in front.iter().enumerate() {
        if !is_letter(*b) {
            return Letters { letters, count };
        }
        letters = 256 * letters + u64::from(*b);
    }
    let count = front.len();
    Letters { letters, count }
}

// The longest word that stands at a place, if one does.
pub fn word_at(s: &[u8], at: usize) -> Option<Word>
    ensures { result ≡ word_at s.now at }
{
    let Some(rest) = s.get(at..) else {
        return None;
    };
    let all = letters_in(rest);
    let mut letters = all.letters;
    for n in (1..=all.count).rev() {
        if is_word(letters) {
            return Some(Word {
                letters,
                end: at + n,
            });
        }
        letters /= 256;
    }
    None
}
