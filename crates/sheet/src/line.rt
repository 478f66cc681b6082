// One line read: kind=K n=N dup=D new=X.
ghost use Rattle.std.specs.Prelude.{◌≡◌, ◌≤◌, MatchOption};
ghost use Rattle.wire.specs.Spelled.{spelled};
ghost use Rattle.sheet.specs.Line.{numbers_in, after, is_digit, number, most_new, line_of, numbers_of, said_of};
ghost use Rattle.sheet.specs.Capped.{with_digit, NumberRead, Has, HasNone};

use session::state::LAST;

// The most that a number of a message can be.
const MOST: u64 = LAST as u64;

// What stands for every number past it.
const PAST: u64 = MOST + 1;

#[derive(Clone, Copy, PartialEq, Eq, Debug)]
pub enum Kind {
    Logon,
    Business,
    GapFill,
    Reset,
}

// What a line says. `dup` is a number, 0 or 1: the plain recorder's list is lent by its caller and may hold any.
#[derive(Clone, Copy, PartialEq, Eq, Debug)]
pub struct Line {
    pub kind: Kind,
    pub n: u32,
    pub dup: u32,
    pub new: u32,
}

// The kinds in numbers, as a list of arrivals is lent to `plain::arrive`, which takes any numbers.
pub const LOGON: u32 = 0;

pub const BUSINESS: u32 = 1;

pub const GAP_FILL: u32 = 2;

pub const RESET: u32 = 3;

impl Line {
    // The line in four numbers: its kind's, n, dup and new.
    pub fn numbers(self) -> [u32; 4]
        ensures { result ≡ numbers_in self }
    {
        let kind = self.kind;
        match kind {
            Kind::Logon => [LOGON, self.n, self.dup, self.new],
            Kind::Business => [BUSINESS, self.n, self.dup, self.new],
            Kind::GapFill => [GAP_FILL, self.n, self.dup, self.new],
            Kind::Reset => [RESET, self.n, self.dup, self.new],
        }
    }
}

// The digits at the front: how many, and their value, which stays at 4,294,967,296 once it is past 32 bits.
#[derive(Clone, Copy)]
struct Number {
    value: u64,
    digits: usize,
}

fn is_digit(b: u8) -> bool
    ensures { result ≡ is_digit b }
{
    b'0' <= b && b <= b'9'
}

// The value with one digit more.
fn with_digit(value: u64, b: u8) -> u64
    requires { (value ≤ 4294967296) × (48 ≤ b) × (b ≤ 57) }
    ensures { result ≡ with_digit value b }
{
    let x = value * 10 + (b - b'0') as u64;
    if x <= MOST { x } else { PAST }
}

fn digits_in(s: &[u8]) -> Number
    ensures { NumberRead s.now result.value result.digits }
{
    let mut value: u64 = 0;
    for (i, b) in s.iter().enumerate() {
        if !is_digit(*b) {
            return Number { value, digits: i };
        }
        value = with_digit(value, *b);
    }
    Number {
        value,
        digits: s.len(),
    }
}

// The number at the front and what stands after it, where there is one.
fn number_in(s: &[u8]) -> Option<(u64, &[u8])>
    ensures { MatchOption result (HasNone s.now) (λ read. Has s.now read.0 read.1.now) }
{
    let number = digits_in(s);
    if number.digits == 0 {
        return None;
    }
    Some((number.value, &s[number.digits..]))
}

fn most_new(kind: Kind) -> u64
    ensures { result ≡ most_new kind }
{
    match kind {
        Kind::Logon | Kind::Business => 0,
        Kind::GapFill | Kind::Reset => MOST,
    }
}

// A line of these numbers, if s, which stands after them, is empty.
fn line_of(kind: Kind, n: u64, dup: u64, new: u64, s: &[u8]) -> Option<Line>
    ensures { result ≡ line_of kind n dup new s.now }
{
    let most = most_new(kind);
    if s.is_empty() && 1 <= n && n <= MOST && dup <= 1 && new <= most {
        Some(Line {
            kind,
            n: n as u32,
            dup: dup as u32,
            new: new as u32,
        })
    } else {
        None
    }
}

// What stands after " new=".
fn new_from(kind: Kind, n: u64, dup: u64, s: &[u8]) -> Option<Line>
    ensures { result ≡ number (line_of kind n dup) s.now }
{
    let (new, rest) = number_in(s)?;
    line_of(kind, n, dup, new, rest)
}

// What stands after " dup=".
fn dup_from(kind: Kind, n: u64, s: &[u8]) -> Option<Line>
    ensures { result ≡ number (λ dup. after (spelled " new=") (number (line_of kind n dup))) s.now }
{
    let (dup, rest) = number_in(s)?;
    new_from(kind, n, dup, rest.strip_prefix(b" new=")?)
}

// What stands after " n=".
fn numbers_of(kind: Kind, s: &[u8]) -> Option<Line>
    ensures { result ≡ numbers_of kind s.now }
{
    let (n, rest) = number_in(s)?;
    dup_from(kind, n, rest.strip_prefix(b" dup=")?)
}

// What a line says, without its line end; none where it is bad.
pub fn read_line(s: &[u8]) -> Option<Line>
    ensures { result ≡ said_of s.now }
{
    if let Some(rest) = s.strip_prefix(b"kind=logon n=") {
        numbers_of(Kind::Logon, rest)
    } else if let Some(rest) = s.strip_prefix(b"kind=business n=") {
        numbers_of(Kind::Business, rest)
    } else if let Some(rest) = s.strip_prefix(b"kind=gapfill n=") {
        numbers_of(Kind::GapFill, rest)
    } else if let Some(rest) = s.strip_prefix(b"kind=reset n=") {
        numbers_of(Kind::Reset, rest)
    } else {
        None
    }
}
