// One field at the front of lent bytes, checked by its sort.
ghost use Rattle.std.specs.Prelude.{◌≡◌};
ghost use Rattle.tables.specs.Tables.{row_of};
ghost use Rattle.tables.specs.Types.{execution_report_type};
ghost use Rattle.fields.specs.Check.{whole, yes_no, fixed, variable, check_sort, check_row};
ghost use Rattle.fields.specs.Shapes.{shape_of, shape_at};

use tables::dictionary::{NO, Sort, YES, sort_of};
use tables::table::{EXECUTION_REPORT, row_of};
use wire::text::{Allowed, fixed_text, variable_text};

// Why a field is bad, as it overruns the bytes, is no text, or is neither 'Y' nor 'N' where it must be: document 01 has one
// refusal for all.
#[derive(Clone, Copy, PartialEq, Eq, Debug)]
pub enum Reason {
    Field,
}

// How many bytes a good field takes, and how many its plain form takes.
#[derive(Clone, Copy, PartialEq, Eq, Debug)]
pub struct Checked {
    pub taken: usize,
    pub plain: usize,
}

#[tactic(auto, unfolding(crate::specs::Check::whole))]
fn check_whole(width: usize, s: &[u8]) -> Result<Checked, Reason>
    ensures { result ≡ whole width s.now }
{
    if s.len() < width {
        return Err(Reason::Field);
    }
    Ok(Checked {
        taken: width,
        plain: width,
    })
}

#[tactic(auto, unfolding(crate::specs::Check::yes_no))]
fn check_yes_no(s: &[u8]) -> Result<Checked, Reason>
    ensures { result ≡ yes_no s.now }
{
    match s {
        [YES | NO, ..] => Ok(Checked { taken: 1, plain: 1 }),
        _ => Err(Reason::Field),
    }
}

#[tactic(auto, unfolding(crate::specs::Check::fixed, crate::specs::Check::fixed_taken))]
fn check_fixed(allowed: Allowed, width: usize, s: &[u8]) -> Result<Checked, Reason>
    ensures { result ≡ fixed allowed width s.now }
{
    match fixed_text(allowed, width, s) {
        Some(text) => Ok(Checked {
            taken: text.taken,
            plain: text.taken,
        }),
        None => Err(Reason::Field),
    }
}

// The plain form of a variable text has two bytes of length, its characters and the null.
#[tactic(auto, unfolding(crate::specs::Check::variable, crate::specs::Check::variable_taken))]
fn check_variable(allowed: Allowed, size: usize, s: &[u8]) -> Result<Checked, Reason>
    ensures { result ≡ variable allowed size s.now }
{
    match variable_text(allowed, size, s) {
        Some(text) => Ok(Checked {
            taken: text.taken,
            plain: text.characters + 3,
        }),
        None => Err(Reason::Field),
    }
}

// A field of this sort at the front of s.
#[tactic(auto, unfolding(crate::specs::Check::check_sort))]
fn check_sort(sort: Sort, s: &[u8]) -> Result<Checked, Reason>
    ensures { result ≡ check_sort sort s.now }
{
    match sort {
        Sort::Number(width) => check_whole(width, s),
        Sort::Decimal => check_whole(8, s),
        Sort::Byte => check_whole(1, s),
        Sort::YesNo => check_yes_no(s),
        Sort::Fixed(allowed, width) => check_fixed(allowed, width, s),
        Sort::Variable(allowed, size) => check_variable(allowed, size, s),
    }
}

// The field that stands at position p in a message of this type, by its name and the dictionary.
#[tactic(auto, unfolding(crate::specs::Check::check_row, tables::specs::Line::field_of))]
pub(crate) fn check_row(messagetype: u8, p: usize, s: &[u8]) -> Result<Checked, Reason>
    ensures { result ≡ check_row (row_of messagetype p) s.now }
{
    match row_of(messagetype, p).field() {
        Some(field) => check_sort(sort_of(field), s),
        None => Err(Reason::Field),
    }
}

// The same, each in a frame of its own: what is lent is then stored only where this way is taken.
fn check_other(p: usize, s: &[u8]) -> Result<Checked, Reason>
    ensures { result ≡ check_row (row_of execution_report_type p) s.now }
{
    check_row(EXECUTION_REPORT, p, s)
}

fn check_named(messagetype: u8, p: usize, s: &[u8]) -> Result<Checked, Reason>
    ensures { result ≡ check_row (row_of messagetype p) s.now }
{
    check_row(messagetype, p, s)
}

// What a quick look at a field needs to know: a number of so many bytes, a Decimal, or a fixed text of these characters and of
// so many bytes. Every other field is looked up by its name.
#[derive(Clone, Copy)]
pub enum Shape {
    Number(usize),
    Decimal,
    Fixed(Allowed, usize),
    Other,
}

// The shape of each position of an Execution Report in one step.
#[tactic(auto, unfolding(crate::specs::Shapes::shape_of, crate::specs::Shapes::shape_in, tables::specs::Dictionary::entry, tables::specs::Dictionary::sort_of, tables::specs::Tables::row_of, tables::specs::Tables::tables_of, tables::specs::Reports::union_at, tables::specs::Reports::joined, tables::specs::Reports::not_required, tables::specs::Line::row_at, tables::specs::Line::is_required, tables::specs::Reports::nine_tables, tables::specs::Reports::reports, tables::specs::Reports::add_line, tables::specs::Reports::column))]
fn report_shape(p: usize) -> Shape
    ensures { result ≡ shape_of (row_of execution_report_type p) }
{
    match p {
        0 => Shape::Fixed(Allowed::Ascii, 21),
        1 => Shape::Fixed(Allowed::Ascii, 12),
        2 => Shape::Fixed(Allowed::Ascii, 21),
        3 => Shape::Number(1),
        4 => Shape::Fixed(Allowed::Ascii, 5),
        5 => Shape::Fixed(Allowed::Ascii, 11),
        6 => Shape::Fixed(Allowed::Ascii, 25),
        7 => Shape::Number(1),
        8 => Shape::Fixed(Allowed::Ascii, 21),
        9 => Shape::Fixed(Allowed::Ascii, 21),
        11 => Shape::Number(1),
        12 => Shape::Decimal,
        13 => Shape::Decimal,
        14 => Shape::Number(1),
        15 => Shape::Number(1),
        16 => Shape::Fixed(Allowed::Ascii, 21),
        17 => Shape::Number(1),
        18 => Shape::Number(1),
        21 => Shape::Fixed(Allowed::Ascii, 21),
        22 => Shape::Number(1),
        23 => Shape::Number(1),
        24 => Shape::Decimal,
        25 => Shape::Decimal,
        27 => Shape::Number(1),
        28 => Shape::Number(2),
        30 => Shape::Number(1),
        31 => Shape::Fixed(Allowed::Ascii, 12),
        32 => Shape::Decimal,
        33 => Shape::Decimal,
        34 => Shape::Fixed(Allowed::Ascii, 21),
        35 => Shape::Number(1),
        37 => Shape::Number(1),
        38 => Shape::Fixed(Allowed::Ascii, 25),
        39 => Shape::Number(1),
        42 => Shape::Number(1),
        43 => Shape::Fixed(Allowed::Ascii, 10),
        _ => Shape::Other,
    }
}

// The shape of a report's field; that of another message's is not worked out, as most messages of a day are reports.
#[tactic(auto, unfolding(crate::specs::Shapes::shape_at))]
pub fn shape_at(messagetype: u8, p: usize) -> Shape
    ensures { result ≡ shape_at messagetype p }
{
    if messagetype == EXECUTION_REPORT {
        return report_shape(p);
    }
    Shape::Other
}

fn check_report(p: usize, s: &[u8]) -> Result<Checked, Reason>
    ensures { result ≡ check_row (row_of execution_report_type p) s.now }
{
    match report_shape(p) {
        Shape::Number(width) => check_whole(width, s),
        Shape::Decimal => check_whole(8, s),
        Shape::Fixed(allowed, width) => check_fixed(allowed, width, s),
        Shape::Other => check_other(p, s),
    }
}

// The field that stands at position p in a message of this type, at the front of s. A position that the type does
// not know holds no good field.
pub(crate) fn check_at(messagetype: u8, p: usize, s: &[u8]) -> Result<Checked, Reason>
    ensures { result ≡ check_row (row_of messagetype p) s.now }
{
    if messagetype == EXECUTION_REPORT {
        return check_report(p, s);
    }
    check_named(messagetype, p, s)
}
