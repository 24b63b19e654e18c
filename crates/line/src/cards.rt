// Which lines have a form on a card: 0 is that of sixteen motors, 1 that of four.

ghost use Rattle.std.specs.Prelude.{◌≡◌};
ghost use Rattle.line.specs.Forms.{asks_on, has_form};

use crate::{HeadQuestion, Order};

// Whether a card has a question of the head.
fn asks_on(card: u8, q: HeadQuestion) -> bool
    ensures { result ≡ asks_on card q }
{
    match q {
        HeadQuestion::AskFree => card == 1,
        _ => true,
    }
}

// Whether a card has the form of an order.
pub fn has_form(card: u8, o: Order) -> bool
    ensures { result ≡ has_form card o }
{
    match o {
        Order::AskHead(q) => asks_on(card, q),
        _ => true,
    }
}
