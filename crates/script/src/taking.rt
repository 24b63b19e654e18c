// bench as it reads: a byte of the input at a time, and the end.

ghost use Rattle.std.specs.Prelude.{◌≡◌, ◌<◌, ◌≤◌, [], true, length, take, drop, MatchOption};
ghost use Rattle.text.specs.Text.{Wrote};
ghost use Rattle.jobs.specs.Bounds.{out_size};
ghost use Rattle.script.specs.Stream.{Takes, Prints, byte_read, end_read};

use jobs::holding::Line;
use jobs::texts::ROOM;
use running::run_line;

// How far a script is read: whether the line in hand is the first one, and what is held of it.
#[derive(Clone, Copy)]
pub struct Reading {
    pub first: bool,
    pub line: Line,
}

// How far a run of bytes got: how many of it are read, and how many are written.
#[derive(Clone, Copy)]
pub struct Run {
    pub read: usize,
    pub count: usize,
}

impl Reading {
    // Nothing is read yet.
    pub fn new() -> Self
        ensures { result ≡ record { first = true; line = [] } }
    {
        Reading {
            first: true,
            line: Line::new(),
        }
    }

    // One byte of the input: how many are written.
    #[tactic(auto, using(jobs::proofs::OutLaws::wrote_none), unfolding(crate::specs::Stream::byte_read))]
    pub fn take_byte(&mut self, table: &mut [u8], b: u8, out: &mut [u8; ROOM]) -> usize
        ensures { Takes (byte_read self.old.first table.old self.old.line b) self.new.first table.new self.new.line out.old out.new result }
    {
        if b == b'\n' {
            let count = run_line(self.first, table, self.line.held(), out);
            self.first = false;
            self.line.clear();
            count
        } else {
            self.line.keep(b);
            0
        }
    }

    // One byte of a run, where there is room for its text.
    fn take_next(&mut self, table: &mut [u8], b: u8, out: &mut [u8]) -> Option<usize>
        ensures taken { MatchOption result (length out.old < out_size) (λ n. Takes (byte_read self.old.first table.old self.old.line b) self.new.first table.new self.new.line out.old out.new n) }
        ensures kept { MatchOption result ((self.new ≡ self.old) × (table.new ≡ table.old) × (out.new ≡ out.old)) (λ n. n ≤ length out.old) }
    {
        let room = out.first_chunk_mut()?;
        Some(self.take_byte(table, b, room))
    }

    // A run of bytes, as far as there is room for the text of one more.
    pub fn take_run(&mut self, table: &mut [u8], bytes: &[u8], out: &mut [u8]) -> Run
        requires { out_size ≤ length out.old }
        ensures prints { Prints self.old.first table.old self.old.line bytes.now (take result.count out.new) self.new.first table.new self.new.line (drop result.read bytes.now) }
        ensures bounds { (result.count ≤ length out.old) × (result.read ≤ length bytes.now) × (0 < length bytes.now → 0 < result.read) }
    {
        let mut count = 0;
        for (read, b) in bytes.iter().enumerate() {
            let Some(n) = self.take_next(table, *b, &mut out[count..]) else {
                return Run { read, count };
            };
            count += n;
        }
        Run {
            read: bytes.len(),
            count,
        }
    }

    // The end of the input: how many bytes are written.
    #[tactic(auto, using(crate::proofs::FeedLaws::end_none, crate::proofs::FeedLaws::end_some, running::proofs::RunLaws::line_within, jobs::proofs::OutLaws::wrote_none))]
    pub fn take_end(&self, table: &mut [u8], out: &mut [u8; ROOM]) -> usize
        ensures { Wrote out.old out.new (end_read self.now.first table.old self.now.line) result × (result ≤ out_size) }
    {
        let line = self.line.held();
        if line.is_empty() {
            return 0;
        }
        run_line(self.first, table, line, out)
    }
}
