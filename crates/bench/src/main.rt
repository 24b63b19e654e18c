// bench runs scripts over the library. It only moves bytes: what a line of a script does is said in the crate running, and
// what is printed for a whole one in the crate script.
//
// The file stdin has document 01's worked example, on channel 0, and its marked cases: case 9 first, on the fresh table, and then
// each on a channel of its own, cases 1 to 8 on channels 1 to 8 and case 10 on B. That case 2 leaves no fraction is shown by a tick
// at 999 pps, which would give a pulse if a thousandth were left. Lines that are none, `K 1` among them since it is not the first,
// `STQ?`, which has no form on this card, a line of over 80 bytes and a last line without its line feed stand at the end. `rt try` runs
// it on an interpreter too, which takes long for a tick, so the ticks are few; tests/long.txt has the long waits.

#![tactic(auto)]

use jobs::texts::ROOM;
use script::taking::Reading;
use std::io::{self, Read, Write};
use urqolina::urqolina_fresh;

// A script in hand: where it is read from, where it prints to, the table, and how far it is read.
#[derive(Drop)]
struct Bench<R, W> {
    from: R,
    to: W,
    table: [u8; 1088],
    reading: Reading,
}

impl<R: Read, W: Write> Bench<R, W> {
    // Prints what some bytes of the input print, as far as the output takes it: a run at a time, while any are left.
    fn print_bytes(&mut self, bytes: &[u8]) -> io::Result<()> {
        let mut out = [0; 65536];
        let mut left = bytes;
        while !left.is_empty() {
            let run = self.reading.take_run(&mut self.table, left, &mut out);
            self.to.write_all(&out[..run.count])?;
            left = &left[run.read..];
        }
        Ok(())
    }

    // Reads once, prints what came, and answers how many bytes came: none at the end.
    fn read_some(&mut self) -> io::Result<usize> {
        let mut input = [0; 65536];
        let n = self.from.read(&mut input)?;
        // its buffer is made ready for each call, and the end of the input needs none
        if n > 0 {
            self.print_bytes(&input[..n])?;
        }
        Ok(n)
    }

    // Reads to the end, or to a read or a write that fails. A proved loop has to end, and nothing says that the input does, so the turns
    // are counted, up to a number that no run reaches.
    fn read_all(&mut self) -> io::Result<()> {
        for _ in 0..u64::MAX {
            if self.read_some()? == 0 {
                break;
            }
        }
        Ok(())
    }

    // Prints what the last line prints, where it has no line feed.
    fn print_end(&mut self) -> io::Result<()> {
        let mut out = [0; ROOM];
        let n = self.reading.take_end(&mut self.table, &mut out);
        self.to.write_all(&out[..n])
    }
}

fn main(rt: HostRuntime) {
    let mut table = [0; 1088];
    urqolina_fresh(&mut table, 0);
    let mut bench = Bench {
        from: rt.stdin(),
        to: rt.stdout(),
        table,
        reading: Reading::new(),
    };
    let _ = bench.read_all();
    let _ = bench.print_end();
}
