// The net pulses of the channels over the ticks of a line, each kept as a place: a channel that has had none stands at the origin.

ghost use Rattle.std.specs.Prelude.{◌≡◌, ◌+◌, ◌-◌, ◌<◌, ◌≤◌, length};
ghost use Rattle.digits.specs.Places.{origin};
ghost use Rattle.jobs.specs.Bounds.{NetsWithin, CountsWithin, most_net, most_count};
ghost use Rattle.jobs.specs.Texts.{nets_after};

use digits::places::{ORIGIN, place_of};
use digits::words::Word;

// A net with one more count. The sum of the two places may not fit before the origin is taken off, and a u64 holds it.
fn added(net: u32, place: u32) -> u32
    requires { (origin ≤ net + place) × (net + place - origin < 4294967296) }
    ensures { result ≡ net + place - origin }
{
    ((net as u64) + (place as u64) - (ORIGIN as u64)) as u32
}

// The nets with the counts of one more tick.
pub fn add_counts(nets: &mut [u32; 16], pulses: &[u8; 64])
    requires { NetsWithin most_net nets.old × CountsWithin most_count pulses.now }
    ensures { nets.new ≡ nets_after nets.old pulses.now }
{
    // By number: a channel's count stands at four times it.
    for c in 0..16 {
        nets[c] = added(nets[c], place_of(u32::read_at(pulses, 4 * c)));
    }
}
