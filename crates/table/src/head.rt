// The head of the table, its first 64 bytes, by value: the mode, all-reply, the error flags, pause, the busy set and the card; the rest is
// zero. Whoever changes one field reads the head, sets the field, and writes the head back.

ghost use Rattle.std.specs.Prelude.{◌≡◌, ◌&&◌, [], ◌∷◌, leb};
ghost use Rattle.digits.specs.Bytes.{part, put, all_zero};
ghost use Rattle.digits.specs.Words.{bits_set};
ghost use Rattle.table.specs.Layout.{head_used, head_rest, head_of, set_bytes, paused, most_busy, card_full, with_head};
ghost use Rattle.table.specs.Sound.{sound_head};

use crate::Table;
use digits::sets::count;
use digits::words::Word;

// The mode: 0 local, 1 remote. All-reply: 0 off, 1 on. The error flags: 0 to 15. Pause: 0 off, 1 on. The busy set: bit c for channel c. The
// card: 0 sixteen motors, 1 four. A field has its byte as it stands, since a table that is not sound has a head too (`head_of`).
#[derive(Clone, Copy)]
pub struct Head {
    pub mode: u8,
    pub reply: u8,
    pub errors: u8,
    pub pause: u8,
    pub busy: u16,
    pub card: u8,
}

// The head that a table holds.
#[tactic(auto, unfolding(crate::specs::Layout::head_of))]
pub fn read_head(t: &Table) -> Head
    ensures { result ≡ head_of t.now }
{
    Head {
        mode: Word::read_at(t, 0),
        reply: Word::read_at(t, 1),
        errors: Word::read_at(t, 2),
        pause: Word::read_at(t, 3),
        busy: Word::read_at(t, 4),
        card: Word::read_at(t, 6),
    }
}

// Writes the busy set alone.
pub fn write_busy(t: &mut Table, set: u16)
    ensures { t.new ≡ put t.old 4 (set_bytes set) }
{
    set.put_at(t, 4);
}

// Writes the fields of one byte.
fn write_settings(t: &mut Table, h: Head)
    ensures { t.new ≡ put t.old 0 (h.mode ∷ h.reply ∷ h.errors ∷ h.pause ∷ []) }
{
    t[0] = h.mode;
    t[1] = h.reply;
    t[2] = h.errors;
    t[3] = h.pause;
}

// Writes the card alone.
pub fn write_card(t: &mut Table, card: u8)
    ensures { t.new ≡ put t.old 6 (card ∷ []) }
{
    t[6] = card;
}

// Writes a head; every byte that it has no field for stays as it is.
#[tactic(auto, using(digits::proofs::PutLaws::put_after), unfolding(crate::specs::Layout::with_head))]
pub fn write_head(t: &mut Table, h: Head)
    ensures { t.new ≡ with_head t.old h }
{
    write_settings(t, h);
    write_busy(t, h.busy);
    write_card(t, h.card);
}

// Whether pause is on, so that what is started is held.
pub fn is_paused(h: Head) -> bool
    ensures { result ≡ paused h }
{
    h.pause == 1
}

// The most motors that may be busy on a card.
fn most_busy(card: u8) -> u32
    ensures { result ≡ most_busy card }
{
    if card == 1 { 4 } else { 16 }
}

// Whether as many motors are busy as the card lets, so that no start is taken. To count is dear, and for the sixteen-motor card one number
// tells it.
#[tactic(auto, using(crate::proofs::TableLaws::all_busy), unfolding(crate::specs::Layout::card_full))]
pub fn is_full(h: Head) -> bool
    ensures { result ≡ card_full h }
{
    if h.card == 0 {
        h.busy == 65535
    } else {
        most_busy(h.card) <= count(h.busy)
    }
}

// Whether no more motors are busy than the card lets. Every call asks it, and to count is dear: of sixteen bits no more than sixteen are
// set, so those of the sixteen-motor card are not counted.
#[tactic(auto, using(digits::proofs::CountLaws::in_most))]
fn is_few(card: u8, set: u16) -> bool
    ensures { result ≡ leb (bits_set set) (most_busy card) }
{
    card == 0 || count(set) <= most_busy(card)
}

// Whether the fields of a head are in their ranges, each by itself.
fn fields_in_range(h: Head) -> bool
    ensures { result ≡ (leb h.mode 1 && leb h.reply 1 && leb h.errors 15 && leb h.pause 1 && leb h.card 1) }
{
    h.mode <= 1 && h.reply <= 1 && h.errors <= 15 && h.pause <= 1 && h.card <= 1
}

// Whether the bytes of the head that no field has, 7 to 63, are zero: one, and words of eight bytes after it.
fn head_zero(t: &Table) -> bool
    ensures { result ≡ all_zero (part t.now head_used head_rest) }
{
    u8::read_at(t, 7) == 0 && (1..8).all(|k| u64::read_at(t, 8 * k) == 0)
}

// Whether a head is sound; what has to be counted comes last.
#[tactic(auto, unfolding(crate::specs::Sound::sound_head, crate::specs::Sound::head_in_range))]
pub fn sound_head(t: &Table) -> bool
    ensures { result ≡ sound_head t.now }
{
    let h = read_head(t);
    fields_in_range(h) && head_zero(t) && is_few(h.card, h.busy)
}
