// The cut of a body into its fields, from a field to the next by the widths alone; and a map's first 64 positions as one
// number, which a loop over the fields keeps.
ghost use Rattle.std.specs.Prelude.{◌≡◌, ◌+◌, ◌*◌, ◌<◌, drop};
ghost use Rattle.tables.specs.Tables.{row_of};
ghost use Rattle.fields.specs.Cut.{extent, extent_of, cut, bytes_at, head_of};

use crate::check::{Shape, shape_at};
use tables::dictionary::{Sort, sort_of};
use tables::table::row_of;
use wire::map::{MAP_POSITIONS, is_present};
use wire::number::read_u16;

// How many bytes a field of this sort at the front of s takes, checked or not.
#[tactic(auto, unfolding(crate::specs::Cut::extent))]
fn extent_of(sort: Sort, s: &[u8]) -> usize
    ensures { result ≡ extent sort s.now }
{
    match sort {
        Sort::Number(width) => width,
        Sort::Decimal => 8,
        Sort::Byte => 1,
        Sort::YesNo => 1,
        Sort::Fixed(_, width) => width,
        Sort::Variable(_, _) => 2 + read_u16(s) as usize,
    }
}

// The field at position p of a message of this type, by its name and the dictionary.
#[tactic(auto, unfolding(crate::specs::Cut::extent_of, tables::specs::Line::field_of))]
fn extent_row(messagetype: u8, p: usize, s: &[u8]) -> usize
    ensures { result ≡ extent_of (row_of messagetype p) s.now }
{
    match row_of(messagetype, p).field() {
        Some(field) => extent_of(sort_of(field), s),
        None => 0,
    }
}

// The same, in a frame of its own: what is lent is then stored only where this way is taken.
fn extent_other(messagetype: u8, p: usize, s: &[u8]) -> usize
    ensures { result ≡ extent_of (row_of messagetype p) s.now }
{
    extent_row(messagetype, p, s)
}

// How many bytes the field at position p takes at the front of s, checked or not.
pub fn extent_at(messagetype: u8, p: usize, s: &[u8]) -> usize
    ensures { result ≡ extent_of (row_of messagetype p) s.now }
{
    match shape_at(messagetype, p) {
        Shape::Number(width) => width,
        Shape::Decimal => 8,
        Shape::Fixed(_, width) => width,
        Shape::Other => extent_other(messagetype, p, s),
    }
}

// The bytes behind the first n; none where there are no more.
pub fn behind(s: &[u8], n: usize) -> &[u8]
    ensures { result.now ≡ drop n s.now }
{
    &s[n.min(s.len())..]
}

// The bytes of a body from the field at position p on; none where the map has the position clear.
pub fn bytes_at<'a>(messagetype: u8, map: &[u8], body: &'a [u8], p: usize) -> &'a [u8]
    ensures { result.now ≡ bytes_at p (cut (row_of messagetype) map.now body.now) }
{
    if MAP_POSITIONS <= p {
        return &body[..0];
    }
    if !is_present(map, p) {
        return &body[..0];
    }
    let mut rest = body;
    for q in 0..p {
        if is_present(map, q) {
            rest = behind(rest, extent_at(messagetype, q, rest));
        }
    }
    rest
}

// Every position of a map's head but the first: moved on by p, those later than p.
pub const LATER: u64 = 0x7FFFFFFFFFFFFFFF;

// Two bytes as a number, the higher first.
fn big(a: u8, b: u8) -> u64
    ensures { (result ≡ a * 256 + b) × (result < 65536) }
{
    (a as u64) * 256 + b as u64
}

// The first 64 positions of a map as one number, the first in its highest bit: what a loop over a body's fields keeps of
// the positions still to come. 0 where the map has not eight bytes.
//
// The bytes are put together in halves, which the compiler makes one load and a swap of.
pub fn head(map: &[u8]) -> u64
    ensures { result ≡ head_of map.now }
{
    if map.len() < 8 {
        return 0;
    }
    (big(map[0], map[1]) * 65536 + big(map[2], map[3])) * 4294967296
        + (big(map[4], map[5]) * 65536 + big(map[6], map[7]))
}
