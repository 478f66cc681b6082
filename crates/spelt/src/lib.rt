// Numbers and Decimals as decimal text, and a text's characters as a terminal shows them safely, laid at the front of a lent buffer; and where
// a line of text ends.
#![tactic(auto)]

ghost use Rattle.std.specs.Prelude.{◌≡◌, ◌++◌, ◌+◌, ◌%◌, ◌^◌, ◌≤◌, ◌<◌, length, take, drop};
ghost use Rattle.wire.specs.Laying.{laid, laid_answer};
ghost use Rattle.spelt.specs.Lines.{line_length};
ghost use Rattle.spelt.specs.Shown.{hex_digit, shown};
ghost use Rattle.spelt.specs.Spelt.{number_text, fraction, hundred_millionths, amount_text};

use wire::laying::{NotLaid, put_bytes};
use wire::text::{Allowed, is_character};

const BACKSLASH: u8 = b'\\';

// The first that Latin-1 shows above the controls.
const FIRST_LATIN: u8 = 160;

// A number's digits: they stand in text from `from` on.
#[derive(Clone, Copy)]
struct Digits {
    text: [u8; 20],
    from: usize,
}

fn digit(v: u64) -> u8
    ensures { result ≡ 48 + v % 10 }
{
    48 + (v % 10) as u8
}

fn spell(n: u64) -> Digits
    ensures { (drop result.from result.text ≡ number_text n) × (result.from ≤ 20) × (length result.text ≡ 20) }
{
    let mut text = [0u8; 20];
    let mut i: usize = 20;
    let mut v = n;
    while 0 < i {
        i -= 1;
        text[i] = digit(v);
        if v < 10 {
            return Digits { text, from: i };
        }
        v = v / 10;
    }
    Digits { text, from: i }
}

// A number in the fewest digits.
pub fn put_number(d: &mut [u8], n: u64) -> Result<usize, NotLaid>
    ensures { (result ≡ laid_answer (number_text n) d.old) × (d.new ≡ laid (number_text n) d.old) }
{
    let s = spell(n);
    let from = s.from;
    let text = s.text;
    put_bytes(d, &text[from..])
}

// A number behind the first `at` bytes of d; where it ends.
fn put_digits(d: &mut [u8], at: usize, n: u64) -> usize
    requires { at + 20 ≤ length d.old }
    ensures { (result ≤ at + 20) × (take result d.new ≡ take at d.old ++ number_text n) }
{
    let laid = put_number(&mut d[at..], n);
    at + laid.unwrap_or(0)
}

// The eight digits of n, down to the last that is not 0, behind the first `at` bytes of d; where they end.
fn put_fraction(d: &mut [u8], at: usize, n: u64) -> usize
    requires { (at + 8 ≤ length d.old) × (n < 10 ^ 8) }
    ensures { (result ≤ at + 8) × (take result d.new ≡ take at d.old ++ fraction 8 n) }
{
    let mut i = at;
    let mut v = n;
    let mut p: u64 = 100000000;
    while 0 < v {
        p = p / 10;
        d[i] = digit(v / p);
        v = v % p;
        i += 1;
    }
    i
}

// A count of hundred-millionths behind the first `at` bytes of d; where it ends.
fn put_hundred_millionths(d: &mut [u8], at: usize, n: u64) -> usize
    requires { at + 29 ≤ length d.old }
    ensures { (result ≤ at + 29) × (take result d.new ≡ take at d.old ++ hundred_millionths n) }
{
    let p = put_digits(d, at, n / 100000000);
    let rest = n % 100000000;
    if rest == 0 {
        return p;
    }
    d[p] = 46;
    put_fraction(d, p + 1, rest)
}

// A Decimal at the front of d: its length.
fn spell_amount(d: &mut [u8], z: i64) -> usize
    requires { 30 ≤ length d.old }
    ensures { (result ≤ 30) × (take result d.new ≡ amount_text z) }
{
    let n = z.unsigned_abs();
    if z < 0 {
        d[0] = 45;
        return put_hundred_millionths(d, 1, n);
    }
    put_hundred_millionths(d, 0, n)
}

// A Decimal, a count of hundred-millionths, as the shortest exact decimal text.
pub fn put_amount(d: &mut [u8], z: i64) -> Result<usize, NotLaid>
    ensures { (result ≡ laid_answer (amount_text z) d.old) × (d.new ≡ laid (amount_text z) d.old) }
{
    let mut text = [0u8; 30];
    let n = spell_amount(&mut text, z);
    put_bytes(d, &text[..n])
}

// How many bytes stand before the first line end, or all where there is none.
pub fn line_length(s: &[u8]) -> usize
    ensures { (result ≡ line_length s.now) × (result ≤ length s.now) }
{
    s.iter().position(|b| *b == b'\n').unwrap_or(s.len())
}

fn hex_digit(n: u8) -> u8
    requires { n < 16 }
    ensures { result ≡ hex_digit n }
{
    if n < 10 { b'0' + n } else { b'A' - 10 + n }
}

// A text's character as a terminal shows it safely.
pub fn put_shown(d: &mut [u8], b: u8) -> Result<usize, NotLaid>
    ensures { (result ≡ laid_answer (shown b) d.old) × (d.new ≡ laid (shown b) d.old) }
{
    if b == BACKSLASH {
        let doubled = [BACKSLASH, BACKSLASH];
        return put_bytes(d, &doubled);
    }
    if is_character(Allowed::Ascii, b) {
        let itself = [b];
        return put_bytes(d, &itself);
    }
    if b < FIRST_LATIN {
        let escaped = [BACKSLASH, b'x', hex_digit(b / 16), hex_digit(b % 16)];
        return put_bytes(d, &escaped);
    }
    // UTF-8 of 128 to 255: the two high bits behind 110000, the six low ones behind 10.
    let first = 192 + b / 64;
    let second = 128 + b % 64;
    let two = [first, second];
    put_bytes(d, &two)
}
