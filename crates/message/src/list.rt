// All fields of the message at the front of lent bytes in one call: one checksum pass, one walk, and then one pass that lays five
// numbers for each field into a lent list.
ghost use Rattle.std.specs.Prelude.{◌≡◌, ◌+◌, ◌≤◌, true, ◌∷◌, [], length, take, Err};
ghost use Rattle.tables.specs.Tables.{row_of};
ghost use Rattle.wire.specs.Number.{number};
ghost use Rattle.wire.specs.Laying.{laid};
ghost use Rattle.wire.specs.Map.{present};
ghost use Rattle.fields.specs.Cut.{head_positions, positions, extent_of};
ghost use Rattle.fields.specs.declared.value.NoValue.TheVariants.{Bad};
ghost use Rattle.fields.specs.Value.{row_value};
ghost use Rattle.message.specs.Frame.{sum_bytes};
ghost use Rattle.message.specs.Read.{Good, read_of};
ghost use Rattle.message.specs.List.{a_field, five_of, list_by, list_fields};

use crate::ask::text_start;
use crate::frame::{Header, SUM_BYTES, body_in, map_in};
use crate::read::{Reading, read};
use crate::refusal::Refusal;
use fields::check::{Shape, shape_at};
use fields::cut::{LATER, extent_at, head};
use fields::value::{Value, value_in};
use wire::number::{read_eight, read_u64, wide};
use wire::text::characters_in;

// How many numbers a field takes, and what the list calls a number, a Decimal and a text.
pub const A_FIELD: usize = 5;

pub const NUMBER: u64 = 1;

pub const DECIMAL: u64 = 2;

pub const TEXT: u64 = 3;

// No type knows a position from 64 on, so no message has more fields.
const MOST: usize = 64;

// A good message's header values, its length and how many fields it has.
#[derive(Clone, Copy, PartialEq, Eq, Debug)]
pub struct Listed {
    pub header: Header,
    pub length: usize,
    pub fields: usize,
}

// The five numbers of a field, over the first of d.
fn lay_five(d: &mut [u64], p: usize, sort: u64, at: usize, count: usize, value: u64)
    requires { a_field ≤ length d.old }
    ensures { d.new ≡ laid (p ∷ sort ∷ at ∷ count ∷ value ∷ []) d.old }
{
    d[0] = p as u64;
    d[1] = sort;
    d[2] = at as u64;
    d[3] = count as u64;
    d[4] = value;
}

// The number in the first `width` bytes, which most often is one byte.
fn number_in(width: usize, s: &[u8]) -> u64
    requires { width ≤ length s.now }
    ensures { result ≡ number (take 8 (take width s.now)) }
{
    if width == 1 {
        return wide(s[0]);
    }
    read_u64(&s[..width])
}

// A field of no quick shape, at the front of s, in a message of this length: by its name and the dictionary. Gives how many bytes
// it takes.
fn lay_other(d: &mut [u64], messagetype: u8, map: &[u8], p: usize, whole: usize, s: &[u8]) -> usize
    requires { (a_field ≤ length d.old) × (present map.now p ≡ true) }
    ensures value { result ≡ extent_of (row_of messagetype p) s.now }
    ensures d_after { d.new ≡ laid (five_of (row_of messagetype p) whole p s.now) d.old }
{
    let at = text_start(messagetype, p, whole, s.len());
    let taken = extent_at(messagetype, p, s);
    match value_in(messagetype, map, p, s) {
        Ok(Value::Number(n)) => lay_five(d, p, NUMBER, at, taken, n),
        Ok(Value::Decimal(_)) => lay_five(d, p, DECIMAL, at, taken, read_eight(s)),
        Ok(Value::Text(n)) => lay_five(d, p, TEXT, at, n, 0),
        Err(_) => lay_five(d, p, 0, at, 0, 0),
    }
    taken
}

// A good field at the front of s, in a message of this length. Its bytes were checked, so none is looked at again but for its value.
fn lay_field(d: &mut [u64], messagetype: u8, map: &[u8], p: usize, whole: usize, s: &[u8]) -> usize
    requires a_field_in_bounds { (a_field ≤ length d.old) × (present map.now p ≡ true) }
    requires sum_bytes_len_bound { (length s.now + sum_bytes ≤ whole) × (row_value (row_of messagetype p) true s.now ≡ Err Bad → ⊥) }
    ensures value { result ≡ extent_of (row_of messagetype p) s.now }
    ensures d_after { d.new ≡ laid (five_of (row_of messagetype p) whole p s.now) d.old }
{
    let at = whole - SUM_BYTES - s.len();
    match shape_at(messagetype, p) {
        Shape::Number(width) => {
            lay_five(d, p, NUMBER, at, width, number_in(width, s));
            width
        }
        Shape::Decimal => {
            lay_five(d, p, DECIMAL, at, 8, read_eight(s));
            8
        }
        Shape::Fixed(allowed, width) => {
            lay_five(d, p, TEXT, at, characters_in(allowed, &s[..width]), 0);
            width
        }
        Shape::Other => lay_other(d, messagetype, map, p, whole, s),
    }
}

// All fields of a good message into a list that has room for them; gives how many numbers they take. The positions still to come
// are a word, and the body's bytes from the next field on are `rest`.
fn lay_fields(d: &mut [u64], s: &[u8], header: Header, whole: usize) -> usize
    requires { (read_of s.now ≡ Good header whole) × (length (list_by s.now (read_of s.now)) ≤ length d.old) }
    ensures value { result ≡ length (list_by s.now (read_of s.now)) }
    ensures d_after { d.new ≡ laid (list_by s.now (read_of s.now)) d.old }
{
    let messagetype = header.messagetype;
    let map = map_in(s);
    let mut rest = body_in(whole, s);
    let mut left = head(map);
    let mut laid: usize = 0;
    while left != 0 {
        let p = u64::leading_zeros(left) as usize;
        let taken = lay_field(&mut d[laid..], messagetype, map, p, whole, rest);
        laid += A_FIELD;
        rest = &rest[taken..];
        left = left & (LATER >> p);
    }
    laid
}

// How many of a map's first 64 positions are set.
fn count_set(map: &[u8]) -> usize
    requires { 8 ≤ length map.now }
    ensures { result ≡ length (positions map.now head_positions 0) }
{
    let mut left = head(map);
    let mut n: usize = 0;
    while left != 0 {
        let p = u64::leading_zeros(left) as usize;
        n += 1;
        left = left & (LATER >> p);
    }
    n
}

// Reads the message at the front of s and lays all its fields into the list: the reader's refusals, then 11 with the numbers needed.
// A list that has room for 64 fields has room for every message's, and they need not be counted first.
pub fn list_fields(d: &mut [u64], s: &[u8]) -> Result<Listed, Refusal>
    ensures value { result ≡ list_fields s.now d.old }
    ensures d_after { d.new ≡ laid (list_by s.now (read_of s.now)) d.old }
{
    let Reading { header, length } = read(s)?;
    if d.len() < A_FIELD * MOST {
        let need = A_FIELD * count_set(map_in(s));
        if d.len() < need {
            return Err(Refusal::NoRoom(need));
        }
    }
    let laid = lay_fields(d, s, header, length);
    Ok(Listed {
        header,
        length,
        fields: laid / A_FIELD,
    })
}
