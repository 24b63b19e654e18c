// The rows that the requests of document 02 add after the others. What such a row is to this crate stands here: its word, its
// number, what follows the word, and the order that it makes; of a word's second row only that it is one stands in rows.rt.

ghost use Rattle.std.specs.Prelude.{◌≡◌, ◌≤◌, drop, None};
ghost use Rattle.line.specs.Forms.{forms, request_rows};
ghost use Rattle.line.specs.Tails.{fields_of};
ghost use Rattle.form.specs.Table.{rows_with, Numbers, fields_by, order_by};

use line::{Fields, HeadOrder, HeadQuestion, Order, Tail};

// PAUSE ON, PAUSE OFF and PAUSE?. The space is the last letter of the first word, which has two rows.
pub const PAUSE: u64 = 0x50_41_55_53_45_20;

pub const ASK_PAUSE: u64 = 0x50_41_55_53_45_3f;

// BSY?.
pub const ASK_BUSY: u64 = 0x42_53_59_3f;

// STQ?.
pub const ASK_FREE: u64 = 0x53_54_51_3f;

pub const PAUSE_ON_ROW: u8 = 41;

pub const PAUSE_OFF_ROW: u8 = 42;

pub const ASK_PAUSE_ROW: u8 = 43;

pub const ASK_BUSY_ROW: u8 = 44;

pub const ASK_FREE_ROW: u8 = 45;

// The first row of a word, where it has one.
#[tactic(auto, using(crate::proofs::TableLaws::none_before), unfolding(crate::specs::Computing::computing_form))]
pub fn request_row(word: u64) -> Option<u8>
    ensures { Numbers result (rows_with word request_rows) }
{
    match word {
        PAUSE => Some(PAUSE_ON_ROW),
        ASK_PAUSE => Some(ASK_PAUSE_ROW),
        ASK_BUSY => Some(ASK_BUSY_ROW),
        ASK_FREE => Some(ASK_FREE_ROW),
        _ => None,
    }
}

// What follows the word of a row; nothing does where there is no row.
#[tactic(auto, unfolding(crate::specs::Computing::computing_form))]
pub fn request_tail(row: u8) -> Option<Tail>
    requires { 41 ≤ row }
    ensures { fields_of result ≡ fields_by (drop row forms) }
{
    match row {
        PAUSE_ON_ROW => Some(Tail::TurnOn),
        PAUSE_OFF_ROW => Some(Tail::TurnOff),
        ASK_PAUSE_ROW => Some(Tail::Alone),
        ASK_BUSY_ROW => Some(Tail::Alone),
        ASK_FREE_ROW => Some(Tail::Alone),
        _ => None,
    }
}

// The order that a row makes of its fields; nothing where there is no row.
#[tactic(auto, unfolding(crate::specs::Computing::computing_form))]
pub fn request_order(row: u8, f: Fields) -> Option<Order>
    requires { 41 ≤ row }
    ensures { result ≡ order_by (drop row forms) f None }
{
    match row {
        PAUSE_ON_ROW => Some(Order::ForHead(HeadOrder::Pause(1))),
        PAUSE_OFF_ROW => Some(Order::ForHead(HeadOrder::Pause(0))),
        ASK_PAUSE_ROW => Some(Order::AskHead(HeadQuestion::AskPause)),
        ASK_BUSY_ROW => Some(Order::AskHead(HeadQuestion::AskBusy)),
        ASK_FREE_ROW => Some(Order::AskHead(HeadQuestion::AskFree)),
        _ => None,
    }
}
