// How many motors more the four-motor card runs.

ghost use Rattle.std.specs.Prelude.{◌≡◌, ◌-◌, ◌≤◌, length};
ghost use Rattle.text.specs.Text.{Wrote};
ghost use Rattle.replies.specs.Replies.{free_text};

use digits::sets::count;
use status::mode_letter;
use table::head::Head;

// Four less those that are busy; none where more are, as on the other card.
fn left_of_four(busy: u32) -> u8
    ensures { (result ≡ 4 - busy) × (result ≤ 4) }
{
    4u32.saturating_sub(busy) as u8
}

// The mode, and how many motors more may be started.
pub fn write_free(out: &mut [u8], h: Head) -> usize
    requires { 32 ≤ length out.old }
    ensures { Wrote out.old out.new (free_text h) result }
{
    out[0] = mode_letter(h.mode);
    out[1] = b'0' + left_of_four(count(h.busy));
    2
}
