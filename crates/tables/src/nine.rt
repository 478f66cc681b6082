// The nine tables of the Execution Report one by one: 004 section 7.8.
ghost use Rattle.std.specs.Prelude.{◌≡◌, ◌≤◌};
ghost use Rattle.tables.specs.Agree.{nine_row};
ghost use Rattle.tables.specs.Line.{is_known, is_required};

use crate::table::{EXECUTION_REPORT, Row, row_of};

// Whether the table of section 7.8.k names this position, k being `table`. Most positions stand in all nine or in none.
// Each arm is one equation with the tables, here and below: a `matches!` makes two goals of it, and their names go by its numbers.
fn is_named(table: u8, position: usize) -> bool
    requires { (1 ≤ table) × (table ≤ 9) }
    ensures { result ≡ is_known (nine_row table position) }
{
    match position {
        8 => (table == 2) | (table == 5),
        16 => table <= 7,
        17 => table <= 7,
        20 => table == 4,
        28 => (table == 3) | (table == 7) | (table == 9),
        30 => table == 6,
        31 => (table == 6) | (table == 8),
        32 => 6 <= table,
        33 => 6 <= table,
        34 => (table == 7) | (table == 9),
        35 => 6 <= table,
        38 => (table == 6) | (table == 8),
        39 => table == 8,
        42 => table == 6,
        43 => (table == 1) | (table == 3) | (table == 5),
        _ => row_of(EXECUTION_REPORT, position).is_known(),
    }
}

// Whether it requires this position: three positions are required by two of the nine, the others by all or by none.
fn is_marked(table: u8, position: usize) -> bool
    requires { (1 ≤ table) × (table ≤ 9) }
    ensures { result ≡ is_required (nine_row table position) }
{
    match position {
        32 => (table == 6) | (table == 8),
        33 => (table == 6) | (table == 8),
        34 => (table == 7) | (table == 9),
        _ => row_of(EXECUTION_REPORT, position).is_required(),
    }
}

// What the table of section 7.8.k says of this position, k from 1 to 9; there is no other table.
pub fn nine_row(table: u8, position: usize) -> Row
    ensures { result ≡ nine_row table position }
{
    if table < 1 || 9 < table {
        return Row::UnknownType;
    }
    if !is_named(table, position) {
        return Row::UnknownPosition;
    }
    match row_of(EXECUTION_REPORT, position).field() {
        Some(field) if is_marked(table, position) => Row::Required(field),
        Some(field) => Row::Optional(field),
        None => Row::UnknownPosition,
    }
}
