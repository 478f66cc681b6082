// What is printed: it stands in a buffer until that is full. An array and no Vec: printing takes no heap.
ghost use Rattle.std.specs.Prelude.{◌≤◌};

use crate::capture::BUFFER;
use std::io;
use std::io::Write;

// `bytes[..end]` is printed and not written yet.
#[derive(Drop)]
pub(crate) struct Out<'a, P: Print> {
    rt: &'a P,
    bytes: [u8; BUFFER],
    end: usize,
    ghost in_bounds: { end ≤ 65536 },
}

impl<'a, P: Print> Out<'a, P> {
    pub(crate) fn new(rt: &'a P) -> Out<'a, P> {
        Out {
            rt,
            bytes: [0; BUFFER],
            end: 0,
        }
    }

    // A text that does not fit behind the bytes that stand there: they are written, and it goes to an empty buffer. None here is longer
    // than the buffer; one that is would be written at once.
    fn turn_over(&mut self, text: &[u8]) -> io::Result<()> {
        self.flush()?;
        match self.bytes.get_mut(..text.len()) {
            Some(room) => {
                room.copy_from_slice(text);
                self.end = text.len();
                Ok(())
            }
            None => self.rt.write_all(text),
        }
    }
}

impl<'a, P: Print> Write for Out<'a, P> {
    fn write(&mut self, text: &[u8]) -> io::Result<usize> {
        self.write_all(text)?;
        Ok(text.len())
    }

    fn flush(&mut self) -> io::Result<()> {
        let end = self.end;
        self.end = 0;
        self.rt.write_all(&self.bytes[..end])
    }

    fn write_all(&mut self, text: &[u8]) -> io::Result<()> {
        let end = self.end;
        let n = text.len();
        if BUFFER - end < n {
            return self.turn_over(text);
        }
        self.bytes[end..end + n].copy_from_slice(text);
        self.end = end + n;
        Ok(())
    }
}
