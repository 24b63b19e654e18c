// scanlist prints the bench script of a scan list. It only moves bytes: what is printed for a list is said in the crate lists.
//
// All of a list that can make a difference to what is printed fits the buffer: ten thousand moves of 26 bytes, and the field after
// them, which has 65,538 at most. What comes after it is read and dropped, so that whoever writes the list can write all of it.
//
// The file stdin has a list of five steps, three moves and two dwells: to a target and by a distance, -0 and the lowest one among
// them, at the lowest speed and at the highest. In a sixth step a target of 2.5 stands in the place of the speed, so that the last line is
// a refusal, of the tag and not of the double.

#![tactic(auto)]

ghost use Rattle.std.specs.Prelude.{◌≤◌, length};

use lists::listing::write_list;
use std::io::{Read, Write};

// Reads until the buffer is full, the input ends or a read fails, and answers the bytes that were read. `left` shrinks with each read, and
// ends the loop.
fn read_full<'a, R: Read>(from: &mut R, room: &'a mut [u8]) -> &'a [u8]
    ensures { length result.now ≤ length room.old }
{
    let size = room.len();
    let mut left = &mut room[..];
    while !left.is_empty()
        && let Ok(got @ 1..) = from.read(left)
    {
        left = &mut left[got..];
    }
    let n = size - left.len();
    &room[..n]
}

// Reads what is left, to the end or to a read that fails. A proved loop has to end, and nothing says that the input does, so the turns
// are counted, up to a number that no run reaches.
fn drop_rest<R: Read>(from: &mut R) {
    let mut input = [0u8; 65536];
    for _ in 0..u64::MAX {
        if from.read(&mut input).unwrap_or(0) == 0 {
            break;
        }
    }
}

fn main(rt: HostRuntime) {
    let mut input = rt.stdin();
    let mut output = rt.stdout();
    let mut room = [0u8; 327680];
    let list = read_full(&mut input, &mut room);
    let mut out = [0u8; 440064];
    let k = write_list(&mut out, list);
    if output.write_all(&out[..k]).is_ok() {
        drop_rest(&mut input);
    }
}
