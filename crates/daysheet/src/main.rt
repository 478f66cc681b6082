// Reads lines kind=K n=N dup=D new=X from standard input and prints what each does to a session (document 01, "Program
// daysheet").
//
//     daysheet [--plain]
//
// With --plain the plain recorder answers (document 02, item 11). It prints the same, and ends at a line that finds its list
// of 4,096 full.
#![tactic(auto)]

ghost use Rattle.std.specs.Prelude.{◌≡◌, ◌-◌, ◌≤◌, length, take, drop};
ghost use Rattle.wire.specs.Laying.{laid, laid_answer};
ghost use Rattle.sheet.specs.Print.{line_text};
ghost use Rattle.plain.specs.Both.{expected_in};

use plain::{Day, MOST_ARRIVALS, Told, arrive};
use session::state::Session;
use sheet::line::read_line;
use sheet::print::{put_bad, put_full, put_line};
use sheet::sheet::{End, begun, next_count, take_lines};
use spelt::line_length;
use std::env::{Env, FillError};
use std::io::Read;
use wire::laying::NotLaid;

// Room for a word of the command line.
const A_WORD: usize = 4096;

// The recorder that answers: the quick one's session, or how many arrivals the plain one has kept in its list.
#[derive(Clone, Copy)]
enum Recorder {
    Quick(Session),
    Plain { kept: usize },
}

// What comes next: more input, more of the lines that are there, or nothing.
#[derive(Clone, Copy)]
enum Next {
    Input,
    Lines,
    Nothing,
}

// What lines gave: the recorder after them, the next line's number, how many bytes they are and how many were printed, and
// what comes next.
#[derive(Clone, Copy)]
struct Took {
    recorder: Recorder,
    count: u64,
    used: usize,
    written: usize,
    next: Next,
}

// Where the unread bytes of the input buffer begin and end, and whether the input has ended: a line may be left when it has.
// (No `Vec` holds them: the program has no heap.)
#[derive(Clone, Copy)]
struct Unread {
    from: usize,
    end: usize,
    closed: bool,
}

// Writes to standard output: whether it could.
fn print(rt: &(impl Print + Eprint), text: &[u8]) -> bool {
    let written = rt.write_all(text).is_ok();
    if !written {
        let _ = eprintln!(rt; "daysheet: the standard output cannot be written");
    }
    written
}

// Moves the bytes from `from` to `end` to the front: how many they are.
fn to_front(buf: &mut [u8], from: usize, end: usize) -> usize
    ensures value { from ≤ end → end ≤ length buf.old → result ≡ end - from }
    ensures buf_after { from ≤ end → end ≤ length buf.old → take result buf.new ≡ take result (drop from buf.old) }
{
    if end < from || buf.len() < end {
        return 0;
    }
    // Bytes that stand at the front are not moved onto themselves: a long line may come by many reads.
    if from == 0 {
        return end;
    }
    buf.copy_within(from..end, 0);
    end - from
}

// No whole line is left: more is read behind the unread bytes. At the end of the input a line without its end gets one. None:
// there is no more to do.
fn more(
    rt: &(impl Print + Eprint),
    input: &mut impl Read,
    unread: Unread,
    count: u64,
    buf: &mut [u8],
    out: &mut [u8],
) -> Option<Unread> {
    if unread.closed {
        return None;
    }
    let kept = to_front(buf, unread.from, unread.end);
    if buf.len() <= kept {
        let laid = put_bad(out, count);
        print(rt, out.get(..laid.unwrap_or(0)).unwrap_or(&[]));
        return None;
    }
    let Ok(came) = input.read(&mut buf[kept..]) else {
        let _ = eprintln!(rt; "daysheet: the standard input cannot be read");
        return None;
    };
    if 0 < came {
        return Some(Unread {
            from: 0,
            end: kept + came,
            closed: false,
        });
    }
    if kept == 0 {
        return None;
    }
    buf[kept] = b'\n';
    Some(Unread {
        from: 0,
        end: kept + 1,
        closed: true,
    })
}

// The quick recorder takes every whole line for whose printed line there is room.
fn quick(session: Session, count: u64, s: &[u8], out: &mut [u8]) -> Took {
    let taken = take_lines(session, count, s, out);
    let next = match taken.end {
        End::NoLine => Next::Input,
        End::NoRoom => Next::Lines,
        End::BadLine => Next::Nothing,
    };
    Took {
        recorder: Recorder::Quick(taken.session),
        count: taken.count,
        used: taken.used,
        written: taken.written,
        next,
    }
}

// E.
#[tactic(auto, unfolding(plain::specs::Both::expected_in))]
fn expected(day: Day) -> u32
    ensures { result ≡ expected_in day }
{
    match day {
        Day::Down(e, _) => e,
        Day::Waiting(e, _) => e,
        Day::Live(e, _, _, _) => e,
    }
}

// The line of the plain recorder's answer.
fn tell(told: Told, out: &mut [u8]) -> Result<usize, NotLaid>
    ensures value { result ≡ laid_answer (line_text told.row (expected_in told.day) told.send) out.old }
    ensures out_after { out.new ≡ laid (line_text told.row (expected_in told.day) told.send) out.old }
{
    let day = told.day;
    let row = told.row;
    let send = told.send;
    put_line(out, row, expected(day), send)
}

// The plain recorder takes one line, if there is a whole one. One that its list has no room for is the last, as a bad one is.
fn plain(kept: usize, count: u64, s: &[u8], list: &mut [[u32; 4]], out: &mut [u8]) -> Took {
    let n = line_length(s);
    if s.len() <= n {
        return Took {
            recorder: Recorder::Plain { kept },
            count,
            used: 0,
            written: 0,
            next: Next::Input,
        };
    }
    let (kept, laid, next) = match read_line(&s[..n]) {
        Some(line) => match arrive(list, kept, line) {
            Some((kept, told)) => (kept, tell(told, out), Next::Lines),
            None => (kept, put_full(out, count), Next::Nothing),
        },
        None => (kept, put_bad(out, count), Next::Nothing),
    };
    Took {
        recorder: Recorder::Plain { kept },
        count: next_count(count),
        used: n + 1,
        written: laid.unwrap_or(0),
        next,
    }
}

// A proved loop ends, and nothing says that the input does: turns are counted up to a number that no run reaches. Each takes
// lines of the buffer and writes out what they print; then more is read where no whole line is left.
fn run(
    rt: &(impl Print + Eprint),
    input: &mut impl Read,
    start: Recorder,
    buf: &mut [u8],
    list: &mut [[u32; 4]],
    out: &mut [u8],
) {
    let mut recorder = start;
    let mut count = 1;
    let mut unread = Unread {
        from: 0,
        end: 0,
        closed: false,
    };
    for _ in 0..u64::MAX {
        let lines = buf.get(unread.from..unread.end).unwrap_or(&[]);
        let took = match recorder {
            Recorder::Quick(session) => quick(session, count, lines, out),
            Recorder::Plain { kept } => plain(kept, count, lines, list, out),
        };
        recorder = took.recorder;
        count = took.count;
        unread.from = unread.from.saturating_add(took.used).min(unread.end);
        if !print(rt, out.get(..took.written).unwrap_or(&[])) {
            return;
        }
        match took.next {
            Next::Input => match more(rt, input, unread, count, buf, out) {
                Some(left) => unread = left,
                None => return,
            },
            Next::Lines => {}
            Next::Nothing => return,
        }
    }
}

// Whether the command line has a word here.
fn has_word(rt: &impl Env, i: usize) -> bool {
    match rt.arg(i, &mut [0u8; 1]) {
        Ok(_) | Err(FillError::TooLong) => true,
        Err(FillError::NotPresent) => false,
    }
}

// Whether the command line has --plain here.
fn has_plain(rt: &impl Env, i: usize) -> bool {
    let mut word = [0u8; A_WORD];
    match rt.arg(i, &mut word) {
        Ok(n) => word.get(..n).unwrap_or(&[]) == b"--plain".as_slice(),
        Err(_) => false,
    }
}

// The recorder that the command line asks for; none where it asks for something else.
fn asked(rt: &impl Env) -> Option<Recorder> {
    if !has_word(rt, 1) {
        return Some(Recorder::Quick(begun()));
    }
    if has_plain(rt, 1) && !has_word(rt, 2) {
        return Some(Recorder::Plain { kept: 0 });
    }
    None
}

fn main(rt: HostRuntime) {
    let Some(recorder) = asked(&rt) else {
        let _ = eprintln!(rt; "usage: daysheet [--plain]");
        return;
    };
    let mut buf = [0u8; 65536];
    let mut out = [0u8; 65536];
    let mut list = [[0u32; 4]; MOST_ARRIVALS];
    if !print(&rt, b"sheet=1\n") {
        return;
    }
    let mut input = rt.stdin();
    run(&rt, &mut input, recorder, &mut buf, &mut list, &mut out);
}
