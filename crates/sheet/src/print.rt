// The printed lines, laid at the front of a lent buffer.
ghost use Rattle.std.specs.Prelude.{◌≡◌, [], ◌∷◌, ◌++◌, ◌+◌, ◌≤◌, length, take};
ghost use Rattle.wire.specs.Spelled.{spelled};
ghost use Rattle.wire.specs.Laying.{laid, laid_answer};
ghost use Rattle.spelt.specs.Spelt.{number_text};
ghost use Rattle.sheet.specs.Print.{row_name, send_name, line_text, printed, counted_text, printed_bad, printed_full};

use session::state::{Row, Send, Stepped, first_of, last_of};
use spelt::put_number;
use wire::laying::{NotLaid, put_bytes};

// The bytes w behind the first `at` of d; where the next begin. The buffer is lent and the place is a number beside it, here and
// below: a struct that holds both would be one more contract, and each part would have to say both of it all the same.
fn put(d: &mut [u8], at: usize, w: &[u8]) -> usize
    requires { at + length w.now ≤ length d.old }
    ensures { (result ≡ at + length w.now) × (take result d.new ≡ take at d.old ++ w.now) }
{
    let end = at + w.len();
    d[at..end].copy_from_slice(w);
    end
}

// A label and a number behind the first `at` bytes of d.
fn put_field(d: &mut [u8], at: usize, label: &[u8], n: u64) -> usize
    requires { at + length label.now + 20 ≤ length d.old }
    ensures upper_bound { result ≤ at + length label.now + 20 }
    ensures d_after { take result d.new ≡ (take at d.old ++ label.now) ++ number_text n }
{
    let p = put(d, at, label);
    let laid = put_number(&mut d[p..], n);
    p + laid.unwrap_or(0)
}

// The row's name at the front of d.
fn put_row(d: &mut [u8], row: Row) -> usize
    requires { 12 ≤ length d.old }
    ensures { (result ≤ 12) × (take result d.new ≡ spelled "row=" ++ row_name row) }
{
    match row {
        Row::Nothing => put(d, 0, b"row=none"),
        Row::Business(_) => put(d, 0, b"row=business"),
        Row::Session(_) => put(d, 0, b"row=session"),
        Row::Filled(_, _) => put(d, 0, b"row=filled"),
        Row::Reset(_, _) => put(d, 0, b"row=reset"),
    }
}

// What is sent, and the line end, behind the first `at` bytes of d.
fn put_out(d: &mut [u8], at: usize, send: Send) -> usize
    requires { at + 12 ≤ length d.old }
    ensures { (result ≤ at + 12) × (take result d.new ≡ take at d.old ++ (spelled " out=" ++ (send_name send ++ 10 ∷ []))) }
{
    match send {
        Send::Nothing => put(d, at, b" out=none\n"),
        Send::Heartbeat(_, _) => put(d, at, b" out=none\n"),
        Send::Logout(_) => put(d, at, b" out=logout\n"),
        Send::GapFill(_, _) => put(d, at, b" out=none\n"),
        Send::ResendRequest(_, _, _) => put(d, at, b" out=resend\n"),
    }
}

// The line of a row, of E and of what is sent at the front of d: its length.
fn line(d: &mut [u8], row: Row, next: u32, send: Send) -> usize
    requires { 128 ≤ length d.old }
    ensures { (result ≤ 128) × (take result d.new ≡ line_text row next send) }
{
    let first = first_of(row);
    let last = last_of(row);
    let p = put_row(d, row);
    let p = put_field(d, p, b" first=", first as u64);
    let p = put_field(d, p, b" last=", last as u64);
    let p = put_field(d, p, b" next=", next as u64);
    put_out(d, p, send)
}

// A label, a line's number and the line end at the front of d: their length.
fn counted(d: &mut [u8], label: &[u8], k: u64) -> usize
    requires { (128 ≤ length d.old) × (length label.now ≤ 64) }
    ensures { (result ≤ 128) × (take result d.new ≡ counted_text label.now k) }
{
    let p = put_field(d, 0, label, k);
    put(d, p, b"\n")
}

// The line of a row, of E and of what is sent at the front of a lent buffer.
pub fn put_line(d: &mut [u8], row: Row, next: u32, send: Send) -> Result<usize, NotLaid>
    ensures { (result ≡ laid_answer (line_text row next send) d.old) × (d.new ≡ laid (line_text row next send) d.old) }
{
    let mut text = [0u8; 128];
    let n = line(&mut text, row, next, send);
    put_bytes(d, &text[..n])
}

// The line of a step.
pub(crate) fn put_printed(d: &mut [u8], t: Stepped) -> Result<usize, NotLaid>
    ensures { (result ≡ laid_answer (printed t) d.old) × (d.new ≡ laid (printed t) d.old) }
{
    let session = t.session;
    let answer = t.answer;
    let row = answer.row;
    let send = answer.first;
    put_line(d, row, session.expected(), send)
}

// A label, a line's number and the line end at the front of a lent buffer.
fn put_counted(d: &mut [u8], label: &[u8], k: u64) -> Result<usize, NotLaid>
    requires { length label.now ≤ 64 }
    ensures value { result ≡ laid_answer (counted_text label.now k) d.old }
    ensures d_after { d.new ≡ laid (counted_text label.now k) d.old }
{
    let mut text = [0u8; 128];
    let n = counted(&mut text, label, k);
    put_bytes(d, &text[..n])
}

// The line of a bad line, by its number.
pub fn put_bad(d: &mut [u8], k: u64) -> Result<usize, NotLaid>
    ensures { (result ≡ laid_answer (printed_bad k) d.old) × (d.new ≡ laid (printed_bad k) d.old) }
{
    put_counted(d, b"bad=", k)
}

// The line of one that a full list has no room for, by its number (document 02, item 11).
pub fn put_full(d: &mut [u8], k: u64) -> Result<usize, NotLaid>
    ensures { (result ≡ laid_answer (printed_full k) d.old) × (d.new ≡ laid (printed_full k) d.old) }
{
    put_counted(d, b"refused=41 line=", k)
}
