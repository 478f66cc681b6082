// Runs the reader and the session over the worked lines on standard input, and prints what each gives:
//
//     read HEX             the header values and the Comp ID, or the refusal; of a report also filled and open shares
//     number POSITION HEX  the number or Decimal at a position
//     text POSITION HEX    the text at a position
//     plain HEX            the message written again: its plain form
//     fresh COMP           a fresh day
//     saved E O COMP       a day that goes on
//     connect PASSWORD     Connect
//     drop                 the line drops
//     up HEX               one step
//
// A line that begins with # is passed over.
#![tactic(auto)]

ghost use Rattle.std.specs.Prelude.{◌≤◌, length};

use fields::value::Value;
use message::ask::{ask_number, ask_number_of, ask_text, text};
use message::read::{Reading, body, comp_id, map, read};
use message::refusal::Refusal;
use session::day::{Connected, Made};
use session::state::{Row, Send, Session, State, Stepped, code_number};
use spelt::put_shown;
use std::io;
use std::io::Read;
use tables::dictionary::Field;
use tables::table::EXECUTION_REPORT;
use wire::map::MAP_BYTES;
use writer::write::write;

// The most bytes of input that are looked at.
const MOST: usize = 65536;

// The most bytes that a line's digits stand for: the longest message and some bytes behind it.
const ROOM: usize = 4608;

fn print_refusal(rt: &impl Print, refusal: Refusal) -> io::Result<()> {
    print!(rt;
        "refused {} besides {}",
        refusal.number(),
        refusal.besides()
    )
}

// A Decimal is shown as its count of hundred-millionths.
fn print_asked(rt: &impl Print, asked: Result<Value, Refusal>) -> io::Result<()> {
    match asked {
        Ok(Value::Number(n)) => print!(rt; "number {n}"),
        Ok(Value::Decimal(z)) => print!(rt; "decimal {z}"),
        Ok(Value::Text(n)) => print!(rt; "text of {n}"),
        Err(refusal) => print_refusal(rt, refusal),
    }
}

fn print_shares(rt: &impl Print, s: &[u8]) -> io::Result<()> {
    rt.print(" filled ")?;
    print_asked(rt, ask_number_of(s, Field::CumulativeQuantity))?;
    rt.print(" open ")?;
    print_asked(rt, ask_number_of(s, Field::LeavesQuantity))
}

// The message at the front of s, as the reader gives it.
fn print_reading(rt: &impl Print, s: &[u8]) -> io::Result<()> {
    match read(s) {
        Ok(Reading { header, length }) => {
            let messagetype = header.messagetype;
            print!(rt; "type {messagetype} number {}", header.number)?;
            print!(rt;
                " possdup {} possresend {}",
                header.possdup, header.possresend
            )?;
            print!(rt; " length {length} comp ")?;
            rt.write_all(comp_id(s))?;
            if messagetype == EXECUTION_REPORT {
                print_shares(rt, s)?;
            }
            Ok(())
        }
        Err(refusal) => print_refusal(rt, refusal),
    }
}

// A text's characters, each as a terminal shows it safely. (Replay has these few lines for a buffered writer.)
fn print_shown(rt: &impl Print, text: &[u8]) -> io::Result<()> {
    for b in text {
        let mut shown = [0u8; 4];
        let laid = put_shown(&mut shown, *b);
        rt.write_all(shown.get(..laid.unwrap_or(0)).unwrap_or(&shown))?;
    }
    Ok(())
}

fn print_text(rt: &impl Print, s: &[u8], position: usize) -> io::Result<()> {
    print_asked(rt, ask_text(s, position))?;
    rt.print(" [")?;
    print_shown(rt, text(s, position))?;
    rt.print("]")
}

fn print_hex(rt: &impl Print, s: &[u8]) -> io::Result<()> {
    for b in s {
        print!(rt; "{b:02x}")?;
    }
    Ok(())
}

// The message at the front of s, read and written again.
fn print_plain(rt: &impl Print, s: &[u8]) -> io::Result<()> {
    match read(s) {
        Ok(Reading { header, length: _ }) => {
            let mut d = [0u8; 4096];
            let none = [0u8; MAP_BYTES];
            let map = map(s).first_chunk().unwrap_or(&none);
            match write(&mut d, header, comp_id(s), map, body(s)) {
                Ok(n) => print_hex(rt, d.get(..n).unwrap_or(&d)),
                Err(refusal) => print_refusal(rt, refusal),
            }
        }
        Err(refusal) => print_refusal(rt, refusal),
    }
}

// The value of a hexadecimal digit.
fn digit(b: u8) -> Option<u8> {
    match b {
        b'0'..=b'9' => Some(b - b'0'),
        b'a'..=b'f' => Some(b - b'a' + 10),
        _ => None,
    }
}

// The byte that two hexadecimal digits stand for.
fn byte(pair: &[u8; 2]) -> Option<u8> {
    let [high, low] = *pair;
    Some(digit(high)? << 4 | digit(low)?)
}

// The bytes that hexadecimal digits stand for, up to what is no pair of digits, at the front of the room.
fn decode<'a>(digits: &[u8], room: &'a mut [u8]) -> &'a [u8] {
    let (pairs, _) = digits.as_chunks();
    let mut n: usize = 0;
    for (place, b) in room
        .iter_mut()
        .zip(pairs.iter().map_while(|pair| byte(pair)))
    {
        *place = b;
        n = n.saturating_add(1);
    }
    room.get(..n).unwrap_or(b"")
}

// The word at the front, and what stands behind the space that ends it.
fn cut(words: &[u8]) -> (&[u8], &[u8]) {
    match words.iter().position(|b| *b == b' ') {
        Some(n) => (&words[..n], &words[n + 1..]),
        None => (words, b""),
    }
}

// A number of at most ten decimal digits. It is read up to what is no digit, and never refused: bench, replay and sheet refuse what
// is no number, each in its own way.
fn number(word: &[u8]) -> u64 {
    let mut n: u64 = 0;
    for b in word {
        if !b.is_ascii_digit() || 999999999 < n {
            break;
        }
        n = n * 10 + (*b - b'0') as u64;
    }
    n
}

// The same, which the worked lines keep within 32 bits.
fn small(word: &[u8]) -> u32 {
    (number(word) & 0xFFFFFFFF) as u32
}

fn print_send(rt: &impl Print, send: Send) -> io::Result<()> {
    match send {
        Send::Nothing => rt.print("none"),
        Send::Heartbeat(n, id) => print!(rt; "heartbeat {n} {id}"),
        Send::Logout(n) => print!(rt; "logout {n}"),
        Send::GapFill(n, new) => print!(rt; "fill {n} {new}"),
        Send::ResendRequest(n, start, end) => print!(rt; "resend {n} {start} {end}"),
    }
}

fn print_row(rt: &impl Print, row: Row) -> io::Result<()> {
    match row {
        Row::Nothing => rt.print("none"),
        Row::Business(n) => print!(rt; "business {n} {n}"),
        Row::Session(n) => print!(rt; "session {n} {n}"),
        Row::Filled(first, last) => print!(rt; "filled {first} {last}"),
        Row::Reset(first, last) => print!(rt; "reset {first} {last}"),
    }
}

// The state, E, O, M and how often it was asked again from this E.
fn print_session(rt: &impl Print, s: Session) -> io::Result<()> {
    let state = match s.state() {
        State::Down => "Down",
        State::Waiting => "Waiting",
        State::Live => "Live",
    };
    print!(rt;
        "{state} {} {} {} {}",
        s.expected(),
        s.own(),
        s.ahead(),
        s.repeats()
    )
}

fn made(rt: &impl Print, made: Made) -> io::Result<Session> {
    print!(rt; "code {}: ", code_number(made.code))?;
    print_session(rt, made.session)?;
    Ok(made.session)
}

fn connected(rt: &impl Print, connected: Connected) -> io::Result<Session> {
    let code = connected.code;
    print!(rt;
        "code {} logon {} {}: ",
        code_number(code),
        connected.number,
        connected.next
    )?;
    print_session(rt, connected.session)?;
    Ok(connected.session)
}

fn stepped(rt: &impl Print, stepped: Stepped) -> io::Result<Session> {
    let answer = stepped.answer;
    print!(rt; "code {} send ", code_number(answer.code))?;
    print_send(rt, answer.first)?;
    rt.print(", ")?;
    print_send(rt, answer.second)?;
    rt.print(" row ")?;
    print_row(rt, answer.row)?;
    rt.print(": ")?;
    print_session(rt, stepped.session)?;
    Ok(stepped.session)
}

fn dropped(rt: &impl Print, s: Session) -> io::Result<Session> {
    let down = s.drop();
    print_session(rt, down)?;
    Ok(down)
}

fn saved(rt: &impl Print, words: &[u8]) -> io::Result<Session> {
    let (expected, words) = cut(words);
    let (own, comp) = cut(words);
    made(rt, Session::saved(comp, small(expected), small(own)))
}

// A question about the message whose bytes stand in the words, or about one position of it.
fn ask(rt: &impl Print, letter: u8, words: &[u8]) -> io::Result<()> {
    let mut room = [0u8; ROOM];
    match letter {
        b'r' => print_reading(rt, decode(words, &mut room)),
        b'p' => print_plain(rt, decode(words, &mut room)),
        b'n' => {
            let (position, digits) = cut(words);
            let message = decode(digits, &mut room);
            print_asked(rt, ask_number(message, number(position) as usize))
        }
        b't' => {
            let (position, digits) = cut(words);
            let message = decode(digits, &mut room);
            print_text(rt, message, number(position) as usize)
        }
        _ => Ok(()),
    }
}

// One line, without its end, by its first letter: a word, and what goes with it. The session after it.
fn run(rt: &impl Print, s: Session, line: &[u8]) -> io::Result<Session> {
    let letter = match line.first() {
        None | Some(b'#') => return Ok(s),
        Some(letter) => *letter,
    };
    let (_, words) = cut(line);
    let next = match letter {
        b'f' => made(rt, Session::fresh(words))?,
        b's' => saved(rt, words)?,
        b'c' => connected(rt, s.connect(words))?,
        b'd' => dropped(rt, s)?,
        b'u' => stepped(rt, s.step(decode(words, &mut [0u8; ROOM])))?,
        _ => {
            ask(rt, letter, words)?;
            s
        }
    };
    rt.print("\n")?;
    Ok(next)
}

fn run_lines(rt: &impl Print, input: &[u8]) -> io::Result<()> {
    let mut session = Session::fresh(b"").session;
    for line in input.split(|b| *b == b'\n') {
        session = run(rt, session, line)?;
    }
    Ok(())
}

// Reads until d is full, the input ends or a read fails; how many bytes were read. A loop and no chain: each turn's step is what
// came.
fn fill(input: &mut impl Read, d: &mut [u8]) -> usize
    ensures { result ≤ length d.new }
{
    let mut done = 0;
    while done < d.len() {
        match input.read(&mut d[done..]) {
            Ok(0) | Err(_) => break,
            Ok(came) => done += came,
        }
    }
    done
}

// What is read and what a line's digits stand for lie in arrays: the program has no heap.
fn main(rt: HostRuntime) -> io::Result<()> {
    let mut input = [0u8; MOST];
    let n = fill(&mut rt.stdin(), &mut input);
    run_lines(&rt, input.get(..n).unwrap_or(&input))
}
