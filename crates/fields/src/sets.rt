// The known and the required set of a message type, against a map. Both follow from the tables.
ghost use Rattle.std.specs.Prelude.{◌≡◌, ◌<◌, ◌+◌, ◌*◌};
ghost use Rattle.tables.specs.Tables.{row_of};
ghost use Rattle.fields.specs.Sets.{unknown_to, missing_at, lowest_unknown, lowest_missing, is_row_of, position_of};

use crate::words::{is_low, required_word, unknown_word, word_at};
use tables::dictionary::Field;
use tables::table::{Row, row_of, span_of};
use wire::map::{MAP_BYTES, MAP_POSITIONS, is_present, next_bit};

// Whether the type does not know position p.
#[tactic(auto, unfolding(crate::specs::Sets::unknown_to))]
fn is_unknown(messagetype: u8, p: usize) -> bool
    ensures { result ≡ unknown_to (row_of messagetype) p }
{
    !row_of(messagetype, p).is_known()
}

// Whether the type requires position p and the map has it clear.
#[tactic(auto, unfolding(crate::specs::Sets::missing_at))]
fn is_missing(messagetype: u8, map: &[u8], p: usize) -> bool
    ensures { result ≡ missing_at (row_of messagetype) map.now p }
{
    row_of(messagetype, p).is_required() && !is_present(map, p)
}

// The lowest set position that the type does not know: over map bytes, and in each over its set bits, as the walk goes. Only set
// positions are looked up. Each search here has its own loop: they differ in the test and in how far they look, and beside these a
// shared one would leave nothing but the call.
fn search_unknown(messagetype: u8, map: &[u8]) -> Option<usize>
    ensures { result ≡ lowest_unknown (row_of messagetype) map.now }
{
    for i in 0..map.len().min(MAP_BYTES) {
        let byte = map[i];
        let mut j = next_bit(byte, 0);
        while j < 8 {
            let p = i * 8 + j as usize;
            if is_unknown(messagetype, p) {
                return Some(p);
            }
            j = next_bit(byte, j + 1);
        }
    }
    None
}

// The lowest set position that the type does not know. Most maps have none, which the quick tests show.
pub fn lowest_unknown(messagetype: u8, map: &[u8]) -> Option<usize>
    ensures { result ≡ lowest_unknown (row_of messagetype) map.now }
{
    if !is_low(map) {
        return search_unknown(messagetype, map);
    }
    if word_at(map, 0) & unknown_word(messagetype) != 0 {
        return search_unknown(messagetype, map);
    }
    None
}

// The lowest required position that the map has clear, one by one. No position past the type's span is required.
fn search_missing(messagetype: u8, map: &[u8]) -> Option<usize>
    ensures { result ≡ lowest_missing (row_of messagetype) map.now }
{
    for p in 0..span_of(messagetype) {
        if is_missing(messagetype, map, p) {
            return Some(p);
        }
    }
    None
}

// The lowest required position that the map has clear. Most maps have none, which the quick test shows.
pub fn lowest_missing(messagetype: u8, map: &[u8]) -> Option<usize>
    ensures { result ≡ lowest_missing (row_of messagetype) map.now }
{
    let required = required_word(messagetype);
    if word_at(map, 0) & required != required {
        return search_missing(messagetype, map);
    }
    None
}

// Whether the row names the field.
#[tactic(auto, using(crate::proofs::SetsLaws::same_number), unfolding(crate::specs::Sets::is_row_of, tables::specs::Line::field_of))]
fn is_row_of(field: Field, row: Row) -> bool
    ensures { result ≡ is_row_of field row }
{
    match row.field() {
        Some(named) => field == named,
        None => false,
    }
}

// The field's position in a message of this type; MAP_POSITIONS, which no map has, where its tables do not name the field. A
// number and no Option: the promise gives that position to such a field, and refusal 7 bears it to whoever asked.
pub fn position_of(messagetype: u8, field: Field) -> usize
    ensures { result ≡ position_of (row_of messagetype) field }
{
    let span = span_of(messagetype);
    for p in 0..span {
        if is_row_of(field, row_of(messagetype, p)) {
            return p;
        }
    }
    MAP_POSITIONS
}
