// The bits of a presence map (004 section 6.2.1; document 01, "The frame"). Document 01 counts a byte's bits from the least
// significant as 0; a map's positions run the other way, from the highest bit down: place j of a byte is its bit 7 - j.
ghost use Rattle.std.specs.Prelude.{◌≡◌, ◌<◌};
ghost use Rattle.wire.specs.Map.{bit_at, next_bit, present, with_position};

// A message's map has so many bytes, and so many positions; as a position MAP_POSITIONS is one that no map has.
pub const MAP_BYTES: usize = 32;

pub const MAP_POSITIONS: usize = 256;

// Whether place j of a map byte is set.
fn bit_at(byte: u8, j: u8) -> bool
    requires { j < 8 }
    ensures { result ≡ bit_at byte j }
{
    byte >> (7 - j) & 1 == 1
}

// Whether position p of a map is set. Positions past the map's end are clear.
pub fn is_present(map: &[u8], p: usize) -> bool
    ensures { result ≡ present map.now p }
{
    let i = p / 8;
    if map.len() <= i {
        return false;
    }
    let byte = map[i];
    bit_at(byte, (p % 8) as u8)
}

// The first set place of a map byte at or after place `from`, and 8 where there is none.
//
// Place 0 of a byte is its highest bit, so the byte's first set place is the count of the zeros that lead it. The rest of
// the byte is the byte with every place before `from` cleared. With `from` 2:
//
//     bit        7 6 5 4 3 2 1 0
//     place      0 1 2 3 4 5 6 7
//     byte       0 1 0 0 1 0 1 0     places 1, 4 and 6 are set
//     kept       0 0 1 1 1 1 1 1     place 2 and those after it
//     rest       0 0 0 0 1 0 1 0     four zeros lead: the next set place is 4
//
// A rest with no set place is eight zeros, and the count is 8. From place 8 on a byte has no rest.
pub fn next_bit(byte: u8, from: u8) -> u8
    ensures { result ≡ next_bit byte from }
{
    if 8 <= from {
        return 8;
    }
    let kept: u8 = 0b1111_1111 >> from;
    let rest = byte & kept;
    u8::leading_zeros(rest) as u8
}

// Sets position p of a map. A position past the map's end changes nothing.
pub fn set_present(map: &mut [u8], p: usize)
    ensures { map.new ≡ with_position p map.old }
{
    let i = p / 8;
    if map.len() <= i {
        return;
    }
    let byte = map[i];
    let j = (p % 8) as u8;
    if bit_at(byte, j) {
        return;
    }
    map[i] = byte + (128 >> j);
}
