// The capture as it is read: the bytes that are not looked at yet stand in a buffer.
ghost use Rattle.std.specs.Prelude.{◌≤◌};

use std::io;
use std::io::Read;

pub(crate) const BUFFER: usize = 65536;

// `bytes[from..end]` is read and not looked at yet; whether the input has ended. An array and no Vec: it is full
// from the start, and each read lands in the room behind `end`.
#[derive(Drop)]
pub(crate) struct Capture {
    bytes: [u8; BUFFER],
    from: usize,
    end: usize,
    ended: bool,
    ghost ordered: { from ≤ end },
    ghost in_bounds: { end ≤ 65536 },
}

impl Capture {
    pub(crate) fn new() -> Capture {
        Capture {
            bytes: [0; BUFFER],
            from: 0,
            end: 0,
            ended: false,
        }
    }

    pub(crate) fn left(&self) -> &[u8] {
        let (from, end) = (self.from, self.end);
        let all = &self.bytes[..];
        &all[from..end]
    }

    pub(crate) fn ended(&self) -> bool {
        self.ended
    }

    // So many bytes are looked at.
    pub(crate) fn past(&mut self, n: usize) {
        let left = self.end - self.from;
        self.from += left.min(n);
    }

    // More is read behind the bytes that are left, which move to the front. A read that fails ends the input.
    pub(crate) fn refill(&mut self, input: &mut impl Read) -> io::Result<()> {
        let (from, end) = (self.from, self.end);
        self.bytes.copy_within(from..end, 0);
        self.from = 0;
        self.end = end - from;
        self.ended = true;
        let kept = self.end;
        let came = input.read(&mut self.bytes[kept..])?;
        self.end = kept + came;
        self.ended = came == 0;
        Ok(())
    }

    // How many bytes follow those that are looked at. A read that fails ends them too. Nothing says that an input ends: reads are counted up to a number
    // that no run reaches.
    pub(crate) fn count_left(&mut self, input: &mut impl Read) -> u64 {
        let mut sum = (self.end - self.from) as u64;
        if self.ended {
            return sum;
        }
        for _ in 0..u64::MAX {
            match input.read(&mut self.bytes) {
                Ok(0) | Err(_) => break,
                Ok(came) => sum = sum.saturating_add(came as u64),
            }
        }
        self.ended = true;
        sum
    }
}
