// The test bench's resend plan. It reads two lines from standard input, as
//
//     start=1 end=0
//     01001
//
// Start and End, and for numbers 1, 2, .. a digit that says whether each is business (1) or session (0). It prints a line for each part of
// the plan, business n=2 or gapfill first=3 new=5; or refused 40; or refused 11 and how many pairs the plan needs, where they are more than
// the 32,768 that it holds. Anything else is answered on standard error.
//
// A third word, as in start=1 end=0 split=3, splits the plan behind number 3 (document 02, item 12). It then prints the plan for Start to
// that number, the plan for the number after it to End, and the two joined, each under a line that names it: plan start=1 end=3, plan start=4
// end=0, joined start=1 end=0. Where one of the two is refused, nothing is joined.
//
// With a word before them, as in send start=3 end=0, the bench plays the gateway (document 02, item 14). What follows that line, to the end of
// the input, is then the gateway's published list: the bytes of its messages back to back, with the numbers 1, 2, .. and one Comp ID, at most
// 1,048,576 bytes. The messages of the plan are written to standard output as bytes, and nothing else is: a business message as it is listed,
// in plain form and with PossDup 1; a gap fill with the list's Comp ID. What is wrong with the list or the request is told on standard error,
// and then nothing is sent.
#![tactic(auto)]

mod complaint;
mod gateway;

use crate::complaint::{Complaint, Failure};
use crate::gateway::send;
use plan::{A_PAIR, NotPlanned, join, plan};
use std::io::{BufRead, Input};
use std::{fmt, io, str};

// The most bytes of the first line, and the most digits of a list.
const FIRST_LINE: usize = 64;

const LIST: usize = 65536;

// Room for the pairs of a plan, in numbers.
const ROOM: usize = 65536;

// Start and End.
#[derive(Clone, Copy)]
pub(crate) struct Range {
    pub(crate) start: u32,
    pub(crate) end: u32,
}

impl fmt::Display for Range {
    fn fmt<W: fmt::Write>(&self, f: &mut fmt::Formatter<W>) -> fmt::Result {
        write!(f, "start={} end={}", self.start, self.end)
    }
}

// What the first line asks for: a plan, and the number that it is split behind; or a plan that is sent.
#[derive(Clone, Copy)]
enum Request {
    Plan(Range, Option<u32>),
    Send(Range),
}

// The next byte of the input, or none at its end.
fn next_byte(input: &mut impl BufRead) -> Result<Option<u8>, Complaint> {
    let next = match input.fill_buf() {
        Ok(rest) => rest.first().copied(),
        Err(_) => return Err(Complaint::Unread),
    };
    if next.is_some() {
        input.consume(1);
    }
    Ok(next)
}

// Whether nothing follows.
pub(crate) fn is_end(input: &mut impl BufRead) -> Result<bool, Complaint> {
    Ok(next_byte(input)?.is_none())
}

// What stands behind the bytes of a line: its end, the input's end, or more of the line, for which there is no room.
#[derive(Clone, Copy)]
enum Behind {
    LineEnd,
    InputEnd,
    More,
}

// A line of input, without its end: how many bytes of it are in the room, and what stands behind them.
fn read_line(input: &mut impl BufRead, room: &mut [u8]) -> Result<(usize, Behind), Complaint> {
    for n in 0..room.len() {
        match next_byte(input)? {
            Some(b'\n') => return Ok((n, Behind::LineEnd)),
            Some(b) => room[n] = b,
            None => return Ok((n, Behind::InputEnd)),
        }
    }
    let behind = match next_byte(input)? {
        Some(b'\n') => Behind::LineEnd,
        Some(_) => Behind::More,
        None => Behind::InputEnd,
    };
    Ok((room.len(), behind))
}

// The number at the front, in decimal digits, and what stands behind it.
fn number(s: &[u8]) -> Option<(u32, &[u8])> {
    let digits = s.iter().position(|b| !b.is_ascii_digit());
    let (digits, rest) = s.split_at_checked(digits.unwrap_or(s.len()))?;
    let number = str::from_utf8(digits).ok()?.parse::<u32>().ok()?;
    Some((number, rest))
}

// A plan, and where it is split. The word that splits names no number 0, which as an End would mean the last.
fn plan_asked(line: &[u8]) -> Option<(Range, Option<u32>)> {
    let (start, rest) = number(line.strip_prefix(b"start=")?)?;
    let (end, rest) = number(rest.strip_prefix(b" end=")?)?;
    let range = Range { start, end };
    if rest.is_empty() {
        return Some((range, None));
    }
    let (split, rest) = number(rest.strip_prefix(b" split=")?)?;
    if split == 0 || !rest.is_empty() {
        return None;
    }
    Some((range, Some(split)))
}

// A plan that is sent is not split.
fn asked(line: &[u8]) -> Option<Request> {
    let Some(line) = line.strip_prefix(b"send ") else {
        let (range, split) = plan_asked(line)?;
        return Some(Request::Plan(range, split));
    };
    match plan_asked(line)? {
        (range, None) => Some(Request::Send(range)),
        (_, Some(_)) => None,
    }
}

// The digits 0 and 1 become the numbers 0 and 1.
fn mark(list: &mut [u8]) -> Result<(), Complaint> {
    for b in list.iter_mut() {
        *b = match *b {
            b'0' => 0,
            b'1' => 1,
            _ => return Err(Complaint::Usage),
        };
    }
    Ok(())
}

// The first n pairs of the numbers.
fn pairs_in(numbers: &[u32], n: usize) -> &[[u32; A_PAIR]] {
    let (pairs, _) = numbers.as_chunks();
    pairs.get(..n).unwrap_or(pairs)
}

// The plan, whose pairs are written into the room.
pub(crate) fn planned<'a>(
    list: &[u8],
    range: Range,
    room: &'a mut [u32],
) -> Result<&'a [[u32; A_PAIR]], NotPlanned> {
    let n = plan(list, range.start, range.end, room)?;
    Ok(pairs_in(room, n))
}

fn print_parts(rt: &impl Print, pairs: &[[u32; A_PAIR]]) -> io::Result<()> {
    for pair in pairs {
        let [first, new] = *pair;
        if new == 0 {
            println!(rt; "business n={first}")?;
        } else {
            println!(rt; "gapfill first={first} new={new}")?;
        }
    }
    Ok(())
}

fn print_refused(rt: &impl Print, refused: NotPlanned) -> io::Result<()> {
    let number = refused.number();
    match refused {
        NotPlanned::BadRequest => println!(rt; "refused {number}"),
        NotPlanned::NoRoom(needed) => println!(rt; "refused {number} pairs={needed}"),
    }
}

// The pairs that were written, or why none were.
fn print_planned(rt: &impl Print, planned: Result<&[[u32; A_PAIR]], NotPlanned>) -> io::Result<()> {
    match planned {
        Ok(pairs) => print_parts(rt, pairs),
        Err(refused) => print_refused(rt, refused),
    }
}

// The plan, under a line that names it.
fn print_named<'a>(
    rt: &impl Print,
    list: &[u8],
    range: Range,
    room: &'a mut [u32],
) -> io::Result<Result<&'a [[u32; A_PAIR]], NotPlanned>> {
    println!(rt; "plan {range}")?;
    let planned = planned(list, range, room);
    print_planned(rt, planned)?;
    Ok(planned)
}

fn print_joined(
    rt: &impl Print,
    range: Range,
    one: &[[u32; A_PAIR]],
    other: &[[u32; A_PAIR]],
) -> io::Result<()> {
    println!(rt; "joined {range}")?;
    let mut room = [0u32; ROOM];
    match join(one.as_flattened(), other.as_flattened(), &mut room) {
        Ok(n) => print_parts(rt, pairs_in(&room, n)),
        Err(refused) => print_refused(rt, refused),
    }
}

// The plan for Start to m and the plan for m + 1 to End, and the two joined. No number follows the last one. Its rooms are in a frame of its
// own, for which the other requests need no stack.
#[inline(never)]
fn print_split(
    rt: &impl Print,
    list: &[u8],
    range: Range,
    m: u32,
    room: &mut [u32],
) -> Result<(), Failure> {
    let Some(next) = m.checked_add(1) else {
        return Err(Failure::Told(Complaint::Usage));
    };
    let mut other = [0u32; ROOM];
    let Range { start, end } = range;
    let first = print_named(rt, list, Range { start, end: m }, room)?;
    let second = print_named(rt, list, Range { start: next, end }, &mut other)?;
    if let (Ok(first), Ok(second)) = (first, second) {
        print_joined(rt, range, first, second)?;
    }
    Ok(())
}

// The list is the second line, behind which nothing may follow: how many numbers it has.
fn read_list(input: &mut impl BufRead, list: &mut [u8]) -> Result<usize, Complaint> {
    let (n, behind) = read_line(input, list)?;
    match behind {
        Behind::LineEnd => {
            if !is_end(input)? {
                return Err(Complaint::TooLong);
            }
        }
        Behind::InputEnd => {
            if n == 0 {
                return Err(Complaint::Usage);
            }
        }
        Behind::More => return Err(Complaint::TooLong),
    }
    mark(list.get_mut(..n).unwrap_or(&mut []))?;
    Ok(n)
}

// The plan of the list, or where it is split the plan in two and joined again.
fn plan_list(
    rt: &impl Print,
    list: &[u8],
    range: Range,
    split: Option<u32>,
    room: &mut [u32],
) -> Result<(), Failure> {
    match split {
        Some(m) => print_split(rt, list, range, m, room),
        None => Ok(print_planned(rt, planned(list, range, room))?),
    }
}

// The first line says what is asked. The list and the room for its plan are here, since both kinds of request lend them.
fn answer(rt: &impl Print, input: &mut impl BufRead) -> Result<(), Failure> {
    let mut line = [0u8; FIRST_LINE];
    let request = match read_line(input, &mut line)? {
        (n, Behind::LineEnd) => asked(line.get(..n).unwrap_or(&line)),
        (_, Behind::InputEnd | Behind::More) => None,
    };
    let mut list = [0u8; LIST];
    let mut room = [0u32; ROOM];
    match request {
        Some(Request::Plan(range, split)) => {
            let n = read_list(input, &mut list)?;
            let list = list.get(..n).unwrap_or(&list);
            plan_list(rt, list, range, split, &mut room)
        }
        Some(Request::Send(range)) => Ok(send(rt, input, range, &mut list, &mut room)?),
        None => Err(Failure::Told(Complaint::Usage)),
    }
}

fn main(rt: HostRuntime) -> io::Result<()> {
    match answer(&rt, &mut rt.reader()) {
        Ok(()) => Ok(()),
        Err(Failure::Told(complaint)) => eprintln!(&rt; "bench: {complaint}"),
        Err(Failure::Io(error)) => Err(error),
    }
}
