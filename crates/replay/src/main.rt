// The desk's view of a day: follows the session over a capture of one gateway connection, the bytes as the gateway sent
// them, and prints a line for each message.
//
//     replay [comp=ID] [expected=E] [own=O] [FILE]
//
// The capture is read from FILE, or from standard input. comp is our Comp ID, by default that of the first message whose
// checksum is right; expected the number expected next at its first byte, by default 1; own the number of our Logon, by
// default 1.
#![tactic(auto)]

mod asked;
mod capture;
mod out;

use crate::asked::{A_WORD, Asked, hear};
use crate::capture::Capture;
use crate::out::Out;
use calls::{A_ROW, A_SEND, Done, steps};
use message::frame::{COMP_ID_BYTES, check_frame, comp_id_in, front_length, header_in};
use message::list::{A_FIELD, DECIMAL, Listed, NUMBER, TEXT, list_fields};
use message::refusal::Refusal;
use message::vet::is_comp_id;
use names::put_name;
use session::state::{
    Fault, ROW_BUSINESS, ROW_FILLED, ROW_RESET, ROW_SESSION, Row, Send, Session, State, Stepped,
    code_number, last_of,
};
use spelt::{put_amount, put_shown};
use std::env::Env;
use std::io::{Read, Write};
use std::rt::Files;
use std::{fs, io, str};
use tables::dictionary::{Field, Sort, sort_of};
use tables::table::row_of;
use wire::decimal::read_decimal;
use wire::text::{Allowed, LONGEST, fixed_part};

// Room for the numbers of 64 fields; no message has more.
const ROOM: usize = 64 * A_FIELD;

// Room for the rows of one call. A buffer can hold more messages: the next call goes on with those.
const ROWS: usize = 256 * A_ROW;

// Room for what one message gives to send, the least that a call takes.
const SENDS: usize = 2 * A_SEND;

fn complain(rt: &impl Eprint, text: &str) {
    let _ = eprintln!(rt; "replay: {text}");
}

// The bytes from `at` on, so many; none where they reach outside.
fn part_of(s: &[u8], at: usize, count: usize) -> &[u8] {
    let rest = s.get(at..).unwrap_or(b"");
    rest.get(..count).unwrap_or(b"")
}

fn put_front(out: &mut impl Write, text: &[u8], n: usize) -> io::Result<()> {
    out.write_all(text.get(..n).unwrap_or(text))
}

// Here and in `print_amount` the text goes to a buffered writer; layoutsheet prints a name by itself.
fn print_name(out: &mut impl Write, field: Field) -> io::Result<()> {
    let mut name = [0u8; 64];
    let laid = put_name(&mut name, field);
    put_front(out, &name, laid.unwrap_or(0))
}

fn print_amount(out: &mut impl Write, z: i64) -> io::Result<()> {
    let mut amount = [0u8; 32];
    let laid = put_amount(&mut amount, z);
    put_front(out, &amount, laid.unwrap_or(0))
}

// The characters of a text that is allowed accents, each as a terminal shows it safely. (Worked has these few lines for another
// sink.)
fn print_accented(out: &mut impl Write, text: &[u8]) -> io::Result<()> {
    for b in text {
        let mut shown = [0u8; 4];
        let laid = put_shown(&mut shown, *b);
        put_front(out, &shown, laid.unwrap_or(0))?;
    }
    Ok(())
}

// The characters of this field. Those from 32 to 126, and no others are allowed in ASCII, a terminal shows as they are.
fn print_text(out: &mut impl Write, field: Field, text: &[u8]) -> io::Result<()> {
    match sort_of(field) {
        Sort::Fixed(Allowed::Ascii, _) | Sort::Variable(Allowed::Ascii, _) => out.write_all(text),
        Sort::Fixed(Allowed::Accented, _) | Sort::Variable(Allowed::Accented, _) => {
            print_accented(out, text)
        }
        Sort::Number(_) | Sort::Decimal | Sort::Byte | Sort::YesNo => Ok(()),
    }
}

// A line of one field, its name and its value, if the type knows its position.
fn print_field(
    out: &mut impl Write,
    messagetype: u8,
    listed: &[u64; A_FIELD],
    s: &[u8],
) -> io::Result<()> {
    let [position, sort, at, count, value] = *listed;
    let Some(field) = row_of(messagetype, position as usize).field() else {
        return Ok(());
    };
    out.write_all(b"  ")?;
    print_name(out, field)?;
    out.write_all(b"=")?;
    let part = part_of(s, at as usize, count as usize);
    match sort {
        NUMBER => write!(out, "{value}")?,
        DECIMAL => print_amount(out, read_decimal(part))?,
        TEXT => print_text(out, field, part)?,
        _ => {}
    }
    out.write_all(b"\n")
}

// The fields of the message at the front of s, a line each, in rising position; nothing where it is refused.
fn print_fields(out: &mut impl Write, s: &[u8]) -> io::Result<()> {
    let mut numbers = [0u64; ROOM];
    if let Ok(Listed { header, fields, .. }) = list_fields(&mut numbers, s) {
        let (listed, _) = numbers.as_chunks();
        for field in listed.iter().take(fields) {
            print_field(out, header.messagetype, field, s)?;
        }
    }
    Ok(())
}

fn print_send(out: &mut impl Write, send: Send) -> io::Result<()> {
    match send {
        Send::Nothing => Ok(()),
        Send::Heartbeat(_, _) => out.write_all(b" out=heartbeat"),
        Send::Logout(_) => out.write_all(b" out=logout"),
        Send::GapFill(_, _) => out.write_all(b" out=gapfill"),
        Send::ResendRequest(_, start, _) => write!(out, " out=resend gap={start}"),
    }
}

fn print_row(out: &mut impl Write, row: Row) -> io::Result<()> {
    let (name, first, last) = match row {
        Row::Nothing => return out.write_all(b" row=none"),
        Row::Business(n) => ("business", n, n),
        Row::Session(n) => ("session", n, n),
        Row::Filled(first, last) => ("filled", first, last),
        Row::Reset(first, last) => ("reset", first, last),
    };
    write!(out, " row={name} first={first} last={last}")
}

// What became of a message: a refusal that changed nothing (1 and 4), a stop, or its type, its number and its row.
fn print_outcome(out: &mut impl Write, s: &[u8], code: Option<Fault>, row: Row) -> io::Result<()> {
    match code {
        None => {
            let header = header_in(s);
            write!(out, " type={} number={}", header.messagetype, header.number)?;
            print_row(out, row)
        }
        Some(Fault::Refused(refusal @ (Refusal::Short(_) | Refusal::BadSum(_)))) => {
            write!(out, " refused={}", refusal.number())
        }
        Some(fault) => write!(out, " stop={}", fault.number()),
    }
}

// The fields of the message at the front of s, if it is handed up.
fn print_business(out: &mut impl Write, s: &[u8], row: Row) -> io::Result<()> {
    if let Row::Business(_) = row {
        print_fields(out, s)?;
    }
    Ok(())
}

// The line of one step on the message at the front of s, which begins at this offset, and its fields if it is handed up.
fn print_step(out: &mut impl Write, at: u64, s: &[u8], stepped: Stepped) -> io::Result<()> {
    let answer = stepped.answer;
    write!(out, "at={at}")?;
    print_outcome(out, s, answer.code, answer.row)?;
    write!(out, " next={}", stepped.session.expected())?;
    print_send(out, answer.first)?;
    print_send(out, answer.second)?;
    out.write_all(b"\n")?;
    print_business(out, s, answer.row)
}

// The line of a message that gave a row and nothing to send, and its fields if it is handed up. A row makes the number
// after its last the next.
fn print_taken(out: &mut impl Write, at: u64, s: &[u8], row: Row) -> io::Result<()> {
    write!(out, "at={at}")?;
    print_outcome(out, s, None, row)?;
    writeln!(out, " next={}", last_of(row) as u64 + 1)?;
    print_business(out, s, row)
}

// The row of this sort. (Numbers, since `calls` lends rows as C reads them.)
fn row_by(sort: u32, first: u32, last: u32) -> Row {
    match sort {
        ROW_BUSINESS => Row::Business(first),
        ROW_SESSION => Row::Session(first),
        ROW_FILLED => Row::Filled(first, last),
        ROW_RESET => Row::Reset(first, last),
        _ => Row::Nothing,
    }
}

// The lines of a call's rows over the bytes s, which begin at this offset.
fn print_rows(out: &mut impl Write, at: u64, rows: &[[u32; A_ROW]], s: &[u8]) -> io::Result<()> {
    for numbers in rows {
        let [sort, first, last, place, count] = *numbers;
        let part = part_of(s, place as usize, count as usize);
        let at = at.saturating_add(place as u64);
        print_taken(out, at, part, row_by(sort, first, last))?;
    }
    Ok(())
}

// What is kept from turn to turn: the session; whether its Comp ID is ours, and not one that stands in until a message
// names it; the offset of the first byte that is not looked at yet; how many bytes from there on go message by message;
// whether to go on. Flags and a count and no enum: any of them may stand beside any other.
#[derive(Drop)]
struct View {
    session: Session,
    named: bool,
    at: u64,
    single: usize,
    going: bool,
}

impl View {
    // So many bytes, a message or several, are dealt with, and the session is this.
    fn past(&mut self, session: Session, length: usize) {
        self.session = session;
        self.at = self.at.saturating_add(length as u64);
        self.single = self.single.saturating_sub(length);
        self.going = !matches!(session.state(), State::Down);
    }
}

// One step: a whole message is there, or the capture has ended.
fn step(out: &mut impl Write, view: &mut View, capture: &mut Capture) -> io::Result<()> {
    let s = capture.left();
    let stepped = view.session.step(s);
    print_step(out, view.at, s, stepped)?;
    if let Some(Fault::Refused(Refusal::Short(_))) = stepped.answer.code {
        view.going = false;
    } else {
        let length = front_length(s);
        view.past(stepped.session, length);
        capture.past(length);
    }
    Ok(())
}

// Whether the rows of a call tell all that it did: bytes are used, nothing is to be sent, and the messages of the rows are
// all the bytes used, so that none is without a row. A message that meets 2 or 3 uses no bytes, and once our numbers are used
// up it sends no Logout either: a call that ends Down is not told by its rows.
fn is_told(done: Done, rows: &[[u32; A_ROW]]) -> bool {
    if matches!(done.session.state(), State::Down) || done.used == 0 || done.sends != 0 {
        return false;
    }
    let told = rows
        .iter()
        .fold(0usize, |sum, row| sum.saturating_add(row[4] as usize));
    told == done.used
}

// One call over all messages that stand in the buffer. Where its rows do not tell all that it did, it is as if it had not
// been made, and its messages go one by one: the first at once.
fn by_calls(out: &mut impl Write, view: &mut View, capture: &mut Capture) -> io::Result<()> {
    let mut numbers = [0u32; ROWS];
    let mut sends = [0u32; SENDS];
    let s = capture.left();
    let done = steps(view.session, s, &mut numbers, &mut sends);
    let (rows, _) = numbers.as_chunks();
    let rows = rows.get(..done.rows).unwrap_or(rows);
    if !is_told(done, rows) {
        view.single = done.used;
        return step(out, view, capture);
    }
    print_rows(out, view.at, rows, s)?;
    view.past(done.session, done.used);
    capture.past(done.used);
    Ok(())
}

// The session connects with this Comp ID, and its Logon is sent. A refusal ends the view.
fn begin(
    out: &mut impl Write,
    view: &mut View,
    comp: &[u8],
    named: bool,
    asked: &Asked,
) -> io::Result<()> {
    let made = Session::saved(comp, asked.expected, asked.own);
    let connected = made.session.connect(b"");
    view.session = connected.session;
    view.named = named;
    let code = match code_number(made.code) {
        0 => code_number(connected.code),
        k => k,
    };
    if code != 0 {
        view.going = false;
        writeln!(out, "at=0 refused={code}")?;
    }
    Ok(())
}

// Begins again with the Comp ID of the message at the front, if its checksum is right. Those before it changed nothing.
fn name(out: &mut impl Write, view: &mut View, asked: &Asked, s: &[u8]) -> io::Result<()> {
    let comp = comp_id_in(s);
    if is_comp_id(comp) && check_frame(s).is_ok() {
        begin(out, view, comp, true, asked)?;
    }
    Ok(())
}

// One turn: more input, where a whole message may not stand in the buffer yet; or steps.
fn turn(
    rt: &impl Eprint,
    out: &mut impl Write,
    input: &mut impl Read,
    view: &mut View,
    capture: &mut Capture,
    asked: &Asked,
) -> io::Result<()> {
    let n = capture.left().len();
    if !capture.ended() && n < LONGEST {
        if capture.refill(input).is_err() {
            complain(rt, "the capture cannot be read");
        }
        return Ok(());
    }
    if n == 0 {
        view.going = false;
        return Ok(());
    }
    if view.named && view.single == 0 {
        return by_calls(out, view, capture);
    }
    if !view.named {
        name(out, view, asked, capture.left())?;
    }
    step(out, view, capture)
}

// The last line: where the view ended, the session then, and how many bytes were not looked at.
fn print_end(out: &mut impl Write, view: &View, left: u64) -> io::Result<()> {
    let state = match view.session.state() {
        State::Down => " state=down",
        State::Waiting => " state=waiting",
        State::Live => " state=live",
    };
    write!(out, "end at={}{state}", view.at)?;
    write!(out, " next={}", view.session.expected())?;
    writeln!(out, " own={} left={left}", view.session.own())
}

// Before the first byte: our Comp ID, or one that stands in.
fn connect(out: &mut impl Write, view: &mut View, asked: &Asked) -> io::Result<()> {
    match &asked.ours {
        Some(ours) => {
            let comp = fixed_part(Allowed::Ascii, COMP_ID_BYTES, ours);
            begin(out, view, comp, true, asked)
        }
        None => begin(out, view, b"-", false, asked),
    }
}

// The whole capture. A proved loop ends, and nothing says that the input does: turns are counted up to a number that no run
// reaches.
fn follow(
    rt: &impl Eprint,
    out: &mut impl Write,
    input: &mut impl Read,
    capture: &mut Capture,
    asked: &Asked,
) -> io::Result<()> {
    let mut view = View {
        session: Session::fresh(b"").session,
        named: false,
        at: 0,
        single: 0,
        going: true,
    };
    connect(out, &mut view, asked)?;
    for _ in 0..u64::MAX {
        if !view.going {
            break;
        }
        turn(rt, out, input, &mut view, capture, asked)?;
    }
    let left = capture.count_left(input);
    print_end(out, &view, left)?;
    out.flush()
}

fn replay(rt: &(impl Print + Eprint), input: &mut impl Read, asked: &Asked) {
    let mut capture = Capture::new();
    let mut out = Out::new(rt);
    if follow(rt, &mut out, input, &mut capture, asked).is_err() {
        complain(rt, "the standard output cannot be written");
        // What sends the capture is not cut off.
        capture.count_left(input);
    }
}

// The system's words for an error, behind which std says its number.
fn words_in(text: &str) -> &str {
    match text.split_once(" (os error ") {
        Some((words, _)) => words,
        None => text,
    }
}

// The file of this name cannot be opened.
fn fail(rt: &(impl Eprint + Alloc), path: &str, error: io::Error) {
    let _ = match format!(in rt.alloc(); "{error}") {
        Ok(text) => rt.eprintln(format_args!("{path}: {}", words_in(text.as_str()))),
        Err(_) => rt.eprintln(format_args!("{path}: {error}")),
    };
}

// The capture in the file of this name.
fn open(rt: &(impl Print + Eprint + Files + Alloc), path: &str, asked: &Asked) {
    match fs::open(rt, path) {
        Ok(mut file) => replay(rt, &mut file, asked),
        Err(error) => fail(rt, path, error),
    }
}

// The capture in FILE, which is argument i. std opens a file by a name in UTF-8 alone.
fn replay_file(rt: &(impl Print + Eprint + Files + Env + Alloc), i: usize, asked: &Asked) {
    let mut word = [0u8; A_WORD];
    let n = rt.arg(i, &mut word).unwrap_or(0);
    match str::from_utf8(word.get(..n).unwrap_or(b"")) {
        Ok(path) => open(rt, path, asked),
        Err(_) => complain(rt, "the name of FILE is not UTF-8"),
    }
}

fn main(rt: HostRuntime) {
    let Some(asked) = hear(&rt) else {
        let _ = eprintln!(&rt; "usage: replay [comp=ID] [expected=E] [own=O] [FILE]");
        return;
    };
    match asked.path {
        Some(i) => replay_file(&rt, i, &asked),
        None => replay(&rt, &mut rt.stdin(), &asked),
    }
}
