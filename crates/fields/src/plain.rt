// The plain form of a field, laid at the front of a lent buffer.
ghost use Rattle.std.specs.Prelude.{◌≡◌, take};
ghost use Rattle.tables.specs.Tables.{row_of};
ghost use Rattle.wire.specs.Laying.{Lays};
ghost use Rattle.fields.specs.Plain.{plain_sort, plain_row};

use tables::dictionary::{Sort, sort_of};
use tables::table::row_of;
use wire::laying::{NotLaid, put_bytes};
use wire::number::{put_u64, read_eight};
use wire::text::{copy_fixed, copy_variable};

// The first `width` bytes of s; all where it has no more.
fn copy_front(d: &mut [u8], width: usize, s: &[u8]) -> Result<usize, NotLaid>
    ensures { Lays (take width s.now) d.old result d.new }
{
    put_bytes(d, &s[..width.min(s.len())])
}

// A field of this sort at the front of s, in plain form.
#[tactic(auto, unfolding(crate::specs::Plain::plain_sort))]
fn copy_sort(d: &mut [u8], sort: Sort, s: &[u8]) -> Result<usize, NotLaid>
    ensures { Lays (plain_sort sort s.now) d.old result d.new }
{
    match sort {
        Sort::Number(width) => copy_front(d, width, s),
        Sort::Decimal => copy_front(d, 8, s),
        Sort::Byte => copy_front(d, 1, s),
        Sort::YesNo => copy_front(d, 1, s),
        Sort::Fixed(allowed, width) => copy_fixed(d, allowed, width, s),
        Sort::Variable(allowed, size) => copy_variable(d, allowed, size, s),
    }
}

// The field at position p of a message of this type, by its name and the dictionary; nothing where no row names one.
#[tactic(auto, unfolding(crate::specs::Plain::plain_row, tables::specs::Line::field_of))]
fn copy_row(d: &mut [u8], messagetype: u8, p: usize, s: &[u8]) -> Result<usize, NotLaid>
    ensures { Lays (plain_row (row_of messagetype p) s.now) d.old result d.new }
{
    match row_of(messagetype, p).field() {
        Some(field) => copy_sort(d, sort_of(field), s),
        None => Ok(0),
    }
}

// A number of so many bytes at the front of s, most often of one; all of s where it has no more.
pub fn copy_number(d: &mut [u8], width: usize, s: &[u8]) -> Result<usize, NotLaid>
    ensures { Lays (take width s.now) d.old result d.new }
{
    if width == 1 && 1 <= s.len() && 1 <= d.len() {
        d[0] = s[0];
        return Ok(1);
    }
    copy_front(d, width, s)
}

// A Decimal at the front of s; all of s where it has no more.
pub fn copy_decimal(d: &mut [u8], s: &[u8]) -> Result<usize, NotLaid>
    ensures { Lays (take 8 s.now) d.old result d.new }
{
    if s.len() < 8 {
        return copy_front(d, 8, s);
    }
    put_u64(d, read_eight(s))
}

// The field at position p of a message of this type, by its name and the dictionary, in a frame of its own.
pub fn copy_other(d: &mut [u8], messagetype: u8, p: usize, s: &[u8]) -> Result<usize, NotLaid>
    ensures { Lays (plain_row (row_of messagetype p) s.now) d.old result d.new }
{
    copy_row(d, messagetype, p, s)
}
