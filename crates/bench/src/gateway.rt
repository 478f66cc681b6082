// Both ends meet (document 02, item 14): the bench plays the gateway. It is given the gateway's published list, the bytes of its messages back to
// back, and sends the messages of the plan again as bytes: a business message in plain form with PossDup 1, a gap fill for session numbers.
ghost use Rattle.std.specs.Prelude.{◌≡◌, ◌≤◌, length};

use crate::complaint::{Complaint, Fault};
use crate::{Range, is_end, planned};
use message::frame::{Header, body_in, comp_id_in, front_length, header_in, map_in};
use message::read::{Reading, read};
use message::refusal::Refusal;
use plan::A_PAIR;
use std::io::{BufRead, Read};
use tables::table::{BUSINESS_MESSAGE_REJECT, EXECUTION_REPORT};
use wire::map::MAP_BYTES;
use wire::text::LONGEST;
use writer::send::put_gap_fill;
use writer::write::write;

// The most bytes of a list. No message is shorter than 58, so a list has at most 18,078 of them, fewer than have marks.
const LIST_BYTES: usize = 1048576;

// Whether messages of this type are handed up (document 01, rule 9).
fn is_business(messagetype: u8) -> bool {
    messagetype == BUSINESS_MESSAGE_REJECT || messagetype == EXECUTION_REPORT
}

// The message at the front of s, which is number n of the list: whether it is business, and its length.
fn look(list: &[u8], s: &[u8], n: usize) -> Result<(bool, usize), Fault> {
    match read(s) {
        Ok(Reading { header, length }) => {
            if header.number as usize != n {
                return Err(Fault::Bears(header.number));
            }
            if comp_id_in(s) != comp_id_in(list) {
                return Err(Fault::OtherCompId);
            }
            Ok((is_business(header.messagetype), length))
        }
        Err(refusal) => Err(Fault::Refused(refusal)),
    }
}

// A mark for each message of the list, 1 for a business number and 0 for a session number: how many. A loop and no chain: each turn's step is the
// message's own length.
fn mark_list(list: &[u8], marks: &mut [u8]) -> Result<usize, Complaint> {
    let mut rest = list;
    for n in 0..marks.len() {
        if rest.is_empty() {
            return Ok(n);
        }
        match look(list, rest, n + 1) {
            Ok((business, length)) => {
                marks[n] = u8::from(business);
                rest = rest.get(length..).unwrap_or(b"");
            }
            Err(fault) => return Err(Complaint::Message(n + 1, fault)),
        }
    }
    Err(Complaint::TooMany)
}

// The message at the front of s in plain form, with PossDup 1. It was read when the list was looked at, and is not read again: the writer makes its
// own checks.
fn put_again(d: &mut [u8], s: &[u8]) -> Result<usize, Refusal> {
    let header = Header {
        possdup: 1,
        ..header_in(s)
    };
    let none = [0u8; MAP_BYTES];
    let map = map_in(s).first_chunk().unwrap_or(&none);
    write(d, header, comp_id_in(s), map, body_in(front_length(s), s))
}

// One part of the plan, over the list from its first number on.
fn send_part(rt: &impl Print, s: &[u8], first: u32, new: u32) -> Result<(), Complaint> {
    let mut d = [0u8; LONGEST];
    let written = if new == 0 {
        put_again(&mut d, s)
    } else {
        put_gap_fill(&mut d, comp_id_in(s), first, new)
    };
    match written {
        Ok(n) => match rt.write_all(d.get(..n).unwrap_or(&d)) {
            Ok(()) => Ok(()),
            Err(_) => Err(Complaint::Closed),
        },
        Err(refusal) => Err(Complaint::Unwritten(refusal)),
    }
}

// The list from this number on. A loop and no chain: each turn's step is the message's own length.
fn from_number(list: &[u8], number: u32) -> Option<&[u8]> {
    let mut rest = list;
    while header_in(rest).number != number {
        let length = front_length(rest);
        if length == 0 || rest.len() < length {
            return None;
        }
        rest = &rest[length..];
    }
    Some(rest)
}

// The parts of the plan, in one walk over the list.
fn send_parts(rt: &impl Print, list: &[u8], pairs: &[[u32; A_PAIR]]) -> Result<(), Complaint> {
    let mut rest = list;
    for pair in pairs {
        let [first, new] = *pair;
        rest = match from_number(rest, first) {
            Some(rest) => rest,
            None => return Err(Complaint::Missing(first)),
        };
        send_part(rt, rest, first, new)?;
    }
    Ok(())
}

fn send_plan(
    rt: &impl Print,
    list: &[u8],
    marks: &[u8],
    range: Range,
    room: &mut [u32],
) -> Result<(), Complaint> {
    match planned(marks, range, room) {
        Ok(pairs) => send_parts(rt, list, pairs),
        Err(refused) => Err(Complaint::Refused(refused)),
    }
}

// Room for a list. Its callers know its length, and need not count it out.
fn list_room() -> [u8; LIST_BYTES]
    ensures { 1048576 ≡ length result }
{
    [0; LIST_BYTES]
}

// Reads until d is full, the input ends or a read fails; how many bytes were read. A loop and no chain: each turn's step is what came.
fn fill(input: &mut impl Read, d: &mut [u8]) -> usize
    ensures { result ≤ length d.new }
{
    let mut done = 0;
    while done < d.len() {
        match input.read(&mut d[done..]) {
            Ok(0) | Err(_) => break,
            Ok(came) => done += came,
        }
    }
    done
}

// The list is what is left of standard input, to its end; the room for its marks and that for the pairs of the plan are lent. The list is in
// a frame of its own, for which no other request needs the stack.
#[inline(never)]
pub(crate) fn send(
    rt: &impl Print,
    input: &mut impl BufRead,
    range: Range,
    marks: &mut [u8],
    room: &mut [u32],
) -> Result<(), Complaint> {
    let mut bytes = list_room();
    let n = fill(input, &mut bytes);
    if !is_end(input)? {
        return Err(Complaint::ListTooLong);
    }
    let list = bytes.get(..n).unwrap_or(&bytes);
    let messages = mark_list(list, marks)?;
    send_plan(rt, list, marks.get(..messages).unwrap_or(&[]), range, room)
}
