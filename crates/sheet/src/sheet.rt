// Every whole line of lent bytes, stepped and printed.
ghost use Rattle.std.specs.Prelude.{◌≡◌, length};
ghost use Rattle.wire.specs.Laying.{at_front};
ghost use Rattle.sheet.specs.Sheet.{content_of, message_of, next_count, sheet_of};
ghost use Rattle.sheet.specs.Sheet.{begun as begun_session};

use crate::line::{Kind, Line, read_line};
use crate::print::{put_bad, put_printed};
use session::arrival::{Content, Message};
use session::state::Session;
use spelt::line_length;

// Why the lines ended: no whole line is left, the buffer has no room for the next printed line, or a line was bad.
#[derive(Clone, Copy)]
pub enum End {
    NoLine,
    NoRoom,
    BadLine,
}

// The session after the lines that were taken, the number of the next line, the bytes used and written, and the end.
#[derive(Clone, Copy)]
pub struct Taken {
    pub session: Session,
    pub count: u64,
    pub used: usize,
    pub written: usize,
    pub end: End,
}

// The session that daysheet begins with: Waiting, with E = 1 and O = 2, as a fresh day that has connected.
pub fn begun() -> Session
    ensures { result ≡ begun_session }
{
    let made = Session::fresh(b"-");
    let down = made.session;
    let connected = down.connect(b"");
    connected.session
}

fn content_of(kind: Kind, new: u32) -> Content
    ensures { result ≡ content_of kind new }
{
    match kind {
        Kind::Logon => Content::Logon(2),
        Kind::Business => Content::Business,
        Kind::GapFill => Content::GapFill(new),
        Kind::Reset => Content::Reset(new),
    }
}

fn message_of(line: Line) -> Message
    ensures { result ≡ message_of line }
{
    let kind = line.kind;
    let content = content_of(kind, line.new);
    Message {
        number: line.n,
        possdup: line.dup == 1,
        ours: true,
        content,
    }
}

// The number of the line after line k.
pub fn next_count(k: u64) -> u64
    ensures { result ≡ next_count k }
{
    if k < 18446744073709551615 { k + 1 } else { k }
}

// Takes whole lines from s, line number `count` first, and prints them at the front of d. A loop and no chain: each turn's step
// is the line's own length, and what it printed.
pub fn take_lines(session: Session, count: u64, s: &[u8], d: &mut [u8]) -> Taken
    ensures value { result ≡ (sheet_of (length d.old) session count s.now).taken }
    ensures d_after { d.new ≡ at_front (sheet_of (length d.old) session count s.now).text d.old }
{
    let mut so_far = Taken {
        session,
        count,
        used: 0,
        written: 0,
        end: End::NoLine,
    };
    loop {
        let rest = &s[so_far.used..];
        let n = line_length(rest);
        if n == rest.len() {
            return so_far;
        }
        let k = so_far.count;
        match read_line(&rest[..n]) {
            Some(line) => {
                let stepped = so_far.session.ruled(message_of(line));
                let Ok(laid) = put_printed(&mut d[so_far.written..], stepped) else {
                    return Taken {
                        end: End::NoRoom,
                        ..so_far
                    };
                };
                so_far.session = stepped.session;
                so_far.count = next_count(k);
                so_far.used += n + 1;
                so_far.written += laid;
            }
            None => {
                let Ok(laid) = put_bad(&mut d[so_far.written..], k) else {
                    return Taken {
                        end: End::NoRoom,
                        ..so_far
                    };
                };
                return Taken {
                    used: so_far.used + (n + 1),
                    written: so_far.written + laid,
                    end: End::BadLine,
                    ..so_far
                };
            }
        }
    }
}
