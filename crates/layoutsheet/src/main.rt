// Prints the layout sheet from the proved tables: for each message type a line with the longest length of its messages and
// one for each position, and then a line for each position of each of the nine tables of an Execution Report.
#![tactic(auto)]

use names::put_name;
use std::io;
use tables::dictionary::{Field, Sort, sort_of};
use tables::longest::longest_of;
use tables::nine::nine_row;
use tables::table::{EXECUTION_REPORT, Row, row_of, span_of};
use wire::text::Allowed;

// The sort of a field, as the sheet names it.
fn sort_word(sort: Sort) -> &'static str {
    match sort {
        Sort::Number(_) => "number",
        Sort::Decimal => "decimal",
        Sort::Byte | Sort::YesNo => "byte",
        Sort::Fixed(_, _) => "fixed",
        Sort::Variable(_, _) => "variable",
    }
}

// The characters that a text is allowed; a field that is none has none.
fn characters_word(sort: Sort) -> &'static str {
    match sort {
        Sort::Fixed(Allowed::Ascii, _) | Sort::Variable(Allowed::Ascii, _) => "ascii",
        Sort::Fixed(Allowed::Accented, _) | Sort::Variable(Allowed::Accented, _) => "accented",
        Sort::Number(_) | Sort::Decimal | Sort::Byte | Sort::YesNo => "-",
    }
}

// Replay has these lines for a buffered writer.
fn print_name(rt: &impl Print, field: Field) -> io::Result<()> {
    let mut name = [0u8; 64];
    let laid = put_name(&mut name, field);
    rt.write_all(name.get(..laid.unwrap_or(0)).unwrap_or(&name))
}

// A line, where the row has one: `table` and `number` stand at its front.
fn print_row(
    rt: &impl Print,
    table: &str,
    number: u8,
    position: usize,
    row: Row,
) -> io::Result<()> {
    let (field, required) = match row {
        Row::Required(field) => (field, "Y"),
        Row::Optional(field) => (field, "N"),
        Row::UnknownPosition | Row::UnknownType => return Ok(()),
    };
    print!(rt; "{table}{number} position={position} name=")?;
    print_name(rt, field)?;
    let sort = sort_of(field);
    let word = sort_word(sort);
    let width = sort.width();
    let characters = characters_word(sort);
    println!(rt; " sort={word} width={width} characters={characters} required={required}")
}

fn print_type(rt: &impl Print, messagetype: u8) -> io::Result<()> {
    let longest = longest_of(messagetype);
    println!(rt; "type={messagetype} longest={longest}")?;
    for position in 0..span_of(messagetype) {
        let row = row_of(messagetype, position);
        print_row(rt, "type=", messagetype, position, row)?;
    }
    Ok(())
}

// The table of 004 section 7.8.k, k being `table`.
fn print_table(rt: &impl Print, table: u8) -> io::Result<()> {
    for position in 0..span_of(EXECUTION_REPORT) {
        let row = nine_row(table, position);
        print_row(rt, "table=7.8.", table, position, row)?;
    }
    Ok(())
}

fn main(rt: HostRuntime) -> io::Result<()> {
    for messagetype in 0..=EXECUTION_REPORT {
        print_type(&rt, messagetype)?;
    }
    for table in 1..=9 {
        print_table(&rt, table)?;
    }
    Ok(())
}
