// The plain recorder (document 02, item 11): it keeps every arrival, and works each answer out afresh from the first one on.
#![tactic(auto)]

ghost use Rattle.std.specs.Prelude.{◌≡◌};
ghost use Rattle.plain.specs.Plain.{tells, stop, makes, ask, higher, live, ruled};
ghost use Rattle.plain.specs.Arrivals.{line_in, arrived, list_after};

use session::state::{LAST, MOST_REPEATS, Row, Send};
use sheet::line::{BUSINESS, Kind, LOGON, Line, RESET};

pub const MOST_ARRIVALS: usize = 4096; // A list holds no more, each in four numbers.

// The state with E, the number expected next, and O, our next number.
#[derive(Clone, Copy)]
pub enum Day {
    Down(u32, u32),
    Waiting(u32, u32),
    Live(u32, u32, u32, u32), // Also M, the number ahead that made us ask, 0 for none, and how often it was asked again.
}

// The day after an arrival, and the answer to it: what is sent, and the row.
#[derive(Clone, Copy)]
pub struct Told {
    pub day: Day,
    pub send: Send,
    pub row: Row,
}

fn tells(day: Day, send: Send, row: Row) -> Told
    ensures { result ≡ tells day send row }
{
    Told { day, send, row }
}

// Stop: a Logout is sent if O is below LAST, the state is Down, E stays, no row.
fn stop(e: u32, o: u32) -> Told
    ensures { result ≡ stop e o }
{
    if o < LAST {
        return tells(Day::Down(e, o + 1), Send::Logout(o), Row::Nothing);
    }
    tells(Day::Down(e, o), Send::Nothing, Row::Nothing)
}

// A row makes E new. M becomes 0 once E exceeds it, and the count once E changes.
fn makes(o: u32, m: u32, new: u32, row: Row) -> Told
    ensures { result ≡ makes o m new row }
{
    let m = if m < new { 0 } else { m };
    tells(Day::Live(new, o, m, 0), Send::Nothing, row)
}

// Rule 7 asks from E to 0 (all), and M becomes m. While O is LAST it is 22 instead: Down, nothing sent, no row.
fn ask(e: u32, o: u32, m: u32, repeats: u32) -> Told
    ensures { result ≡ ask e o m repeats }
{
    if o == LAST {
        return tells(Day::Down(e, o), Send::Nothing, Row::Nothing);
    }
    let send = Send::ResendRequest(o, e, 0);
    tells(Day::Live(e, o + 1, m, repeats), send, Row::Nothing)
}

// Rule 7, n > E. While M stands, PossDup 1 asks again, at most twice at the same E (document 02, item 3).
fn higher(e: u32, o: u32, m: u32, repeats: u32, n: u32, dup: u32) -> Told
    ensures { result ≡ higher e o m repeats n dup }
{
    if m == 0 {
        ask(e, o, n, 0)
    } else if dup != 1 {
        tells(Day::Live(e, o, m, repeats), Send::Nothing, Row::Nothing)
    } else if repeats < MOST_REPEATS {
        ask(e, o, m, repeats + 1)
    } else {
        stop(e, o) // The third is Stop(37).
    }
}

// E, O, M and the count side by side: a struct of them would be Day's Live again, and this file is to stay within 150 lines.
fn live(e: u32, o: u32, m: u32, repeats: u32, line: Line) -> Told
    ensures { result ≡ live e o m repeats line.kind line.n line.dup line.new }
{
    let still = tells(Day::Live(e, o, m, repeats), Send::Nothing, Row::Nothing);
    let Line { kind, n, dup, new } = line;
    match kind {
        Kind::Logon => stop(e, o), // Rule 3, Stop(32).
        Kind::Reset if new < e => stop(e, o), // Rule 4, Stop(33).
        Kind::Reset if e < new => makes(o, m, new, Row::Reset(e, new - 1)), // Rule 4, where E rises.
        Kind::Reset => still, // Rule 4, where E stays.
        _ if n < e && dup == 1 => still, // Rule 6, ignored.
        _ if n < e => stop(e, o), // Rule 6, Stop(30).
        _ if e < n => higher(e, o, m, repeats, n, dup), // Rule 7.
        _ if n == LAST => stop(e, o), // Rule 8, Stop(36).
        Kind::Business => makes(o, m, n + 1, Row::Business(n)), // Rule 9, business.
        Kind::GapFill if n < new => makes(o, m, new, Row::Filled(n, new - 1)), // Rule 9, a gap fill.
        Kind::GapFill => stop(e, o), // Rule 9, Stop(33).
    }
}

// Down, rule 2 and the others. While it waits O is 2, as a logon's Next Expected is: no Stop(35), no gap fill to send.
fn ruled(day: Day, line: Line) -> Told
    ensures { result ≡ ruled day line }
{
    match day {
        Day::Down(_, _) => tells(day, Send::Nothing, Row::Nothing), // It answers 20.
        Day::Waiting(e, o) => match line.kind {
            Kind::Logon if line.n < e => stop(e, o), // Rule 2, Stop(30).
            Kind::Logon if e < line.n => tells(Day::Live(e, o, 0, 0), Send::Nothing, Row::Nothing), // n > E.
            Kind::Logon if line.n == LAST => stop(e, o), // Rule 2, Stop(36).
            Kind::Logon => makes(o, 0, line.n + 1, Row::Session(line.n)), // Rule 2, n = E.
            _ => stop(e, o), // Rule 2, Stop(32) for another kind.
        },
        Day::Live(e, o, m, repeats) => live(e, o, m, repeats, line),
    }
}

// An arrival as the list holds it, in four numbers: any kind that is none of the other three's is a gap fill's.
fn line_in(kind: u32, n: u32, dup: u32, new: u32) -> Line
    ensures { result ≡ line_in kind n dup new }
{
    let kind = match kind {
        LOGON => Kind::Logon,
        RESET => Kind::Reset,
        BUSINESS => Kind::Business,
        _ => Kind::GapFill,
    };
    Line { kind, n, dup, new }
}

// Puts an arrival behind the first `count` of the list, and works out the answer to it, with how many have arrived; or the list is full, 41.
pub fn arrive(list: &mut [[u32; 4]], count: usize, line: Line) -> Option<(usize, Told)>
    ensures value { result ≡ arrived list.old count line }
    ensures list_after { list.new ≡ list_after list.old count line }
{
    if MOST_ARRIVALS <= count || list.len() <= count {
        return None;
    }
    list[count] = line.numbers();
    let mut told = tells(Day::Waiting(1, 2), Send::Nothing, Row::Nothing); // A fresh day that has connected.
    let arrivals = &list[..count + 1];
    for a in arrivals {
        let [kind, n, dup, new] = *a;
        told = ruled(told.day, line_in(kind, n, dup, new));
    }
    Some((count + 1, told))
}
