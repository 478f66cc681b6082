// Texts of fixed and of variable length (004 section 6.1, rows 1 and 2; document 01, "Fixed text" and "Variable
// text").
ghost use Rattle.std.specs.Prelude.{◌≡◌, ◌/◌, ◌<◌, ◌≤◌, length, take, replicate};
ghost use Rattle.std.specs.Int.Count.{count_trailing_zeros};
ghost use Rattle.wire.specs.Laying.{Lays};
ghost use Rattle.wire.specs.Text.{is_character, all_characters, characters, null, fixed_text, variable_text, fixed_part, variable_part, fixed_bytes, variable_bytes, takes, put_fixed, fixed_laid, put_variable, variable_laid};

use crate::laying::{NotLaid, lay};
use crate::number::{lay_number, read_eight, read_u16};

// No message has more bytes, and the text writer takes no greater width.
pub const LONGEST: usize = 4096;

// The characters that a text is allowed: `Ascii` those from 32 to 126, `Accented` those from 128 to 255 too (document 02, item 8).
#[derive(Clone, Copy)]
pub enum Allowed {
    Ascii,
    Accented,
}

// A good text: how many characters stand before its null, and how many bytes the whole field takes.
#[derive(Clone, Copy, PartialEq, Eq, Debug)]
pub struct Text {
    pub characters: usize,
    pub taken: usize,
}

// Whether a byte is among the characters that a text is allowed.
pub fn is_character(allowed: Allowed, b: u8) -> bool
    ensures { result ≡ is_character allowed b }
{
    match allowed {
        Allowed::Ascii => 32 <= b && b <= 126,
        Allowed::Accented => 32 <= b && b != 127,
    }
}

// A word whose lowest set bit stands in the first of the eight bytes at the front that is no character; it is 0 where all eight are
// characters. Taking 32 from a byte below 32 borrows and leaves the top bit set. Adding 1 to a byte from 127 to 254 sets it, and 255 has it
// set after 32 is taken away; where 128 to 255 are characters too, 1 is added to the seven bits below the top one, which sets it for 127 and
// 255, and a byte that had it set is not marked. A character borrows and carries nothing. A borrow or a carry goes upwards only: so every
// byte up to the first that is no character is marked as it should be, and only the marks above it may be wrong.
fn outside(allowed: Allowed, s: &[u8]) -> u64
    requires { 8 ≤ length s.now }
    ensures { count_trailing_zeros 64 result / 8 ≡ characters allowed (take 8 s.now) }
{
    let word = read_eight(s);
    let below = std::num::wrapping_sub_u64(word, 0x2020202020202020);
    match allowed {
        Allowed::Ascii => {
            let above = std::num::wrapping_add_u64(word, 0x0101010101010101);
            (below | above) & 0x8080808080808080
        }
        Allowed::Accented => {
            let above = std::num::wrapping_add_u64(word & 0x7F7F7F7F7F7F7F7F, 0x0101010101010101);
            (below | above) & ((word & 0x8080808080808080) ^ 0x8080808080808080)
        }
    }
}

// How many characters stand at the front. Eight bytes are looked at at once while there are as many, and the lowest mark of theirs is the
// first byte that is no character, whatever the marks above it are; the last seven bytes at most are looked at one by one.
pub fn characters_in(allowed: Allowed, s: &[u8]) -> usize
    ensures { result ≡ characters allowed s.now }
{
    let mut i = 0;
    while 8 <= s.len() - i {
        let marked = outside(allowed, &s[i..]);
        if marked != 0 {
            return i + (u64::trailing_zeros(marked) / 8) as usize;
        }
        i += 8;
    }
    let rest = &s[i..];
    i + rest
        .iter()
        .position(|b| !is_character(allowed, *b))
        .unwrap_or(rest.len())
}

// Where a text's null stands, if only characters stand before it.
fn null_in(allowed: Allowed, s: &[u8]) -> Option<usize>
    ensures { result ≡ null allowed s.now }
{
    let n = characters_in(allowed, s);
    if n < s.len() && s[n] == 0 {
        return Some(n);
    }
    None
}

// The fixed text of this width at the front of s.
pub fn fixed_text(allowed: Allowed, width: usize, s: &[u8]) -> Option<Text>
    ensures { result ≡ fixed_text allowed width s.now }
{
    if s.len() < width {
        return None;
    }
    let characters = null_in(allowed, &s[..width])?;
    Some(Text {
        characters,
        taken: width,
    })
}

// The variable text at the front of s: its length in two bytes, from 1 to `size`, and so many bytes after them.
pub fn variable_text(allowed: Allowed, size: usize, s: &[u8]) -> Option<Text>
    ensures { result ≡ variable_text allowed size s.now }
{
    if s.len() < 2 {
        return None;
    }
    let n = read_u16(s) as usize;
    if size < n {
        return None;
    }
    let end = 2 + n;
    if s.len() < end {
        return None;
    }
    let characters = null_in(allowed, &s[2..end])?;
    Some(Text {
        characters,
        taken: end,
    })
}

// The characters of a fixed text, a part of the caller's bytes; empty where the text is bad.
pub fn fixed_part(allowed: Allowed, width: usize, s: &[u8]) -> &[u8]
    ensures { result.now ≡ fixed_part allowed width s.now }
{
    match fixed_text(allowed, width, s) {
        Some(text) => &s[..text.characters],
        None => &s[..0],
    }
}

// The characters of a variable text, a part of the caller's bytes; empty where the text is bad.
pub fn variable_part(allowed: Allowed, size: usize, s: &[u8]) -> &[u8]
    ensures { result.now ≡ variable_part allowed size s.now }
{
    match variable_text(allowed, size, s) {
        Some(text) => &s[2..2 + text.characters],
        None => &s[..0],
    }
}

fn all_characters(allowed: Allowed, t: &[u8]) -> bool
    ensures { result ≡ all_characters allowed t.now }
{
    characters_in(allowed, t) == t.len()
}

// Whether the text writer takes these characters at this width, null counted.
pub fn takes_text(allowed: Allowed, width: usize, t: &[u8]) -> bool
    ensures { result ≡ takes allowed width t.now }
{
    if width == 0 {
        return false;
    }
    if LONGEST < width {
        return false;
    }
    if width <= t.len() {
        return false;
    }
    all_characters(allowed, t)
}

fn clear(d: &mut [u8])
    ensures { d.new ≡ replicate (length d.old) 0 }
{
    for byte in d.iter_mut() {
        *byte = 0;
    }
}

// Characters and zeros to the width, at the front of a lent buffer.
fn lay_fixed(d: &mut [u8], width: usize, t: &[u8]) -> Result<usize, NotLaid>
    requires { length t.now ≤ width }
    ensures { Lays (fixed_bytes width t.now) d.old result d.new }
{
    if d.len() < width {
        return Err(NotLaid::NoRoom(width));
    }
    let n = t.len();
    lay(d, t);
    clear(&mut d[n..width]);
    Ok(width)
}

// A fixed text at the front of a lent buffer: its characters, and zeros to the width.
pub fn put_fixed(d: &mut [u8], allowed: Allowed, width: usize, t: &[u8]) -> Result<usize, NotLaid>
    ensures { (result ≡ put_fixed allowed width t.now d.old) × (d.new ≡ fixed_laid allowed width t.now d.old) }
{
    if !takes_text(allowed, width, t) {
        return Err(NotLaid::BadText);
    }
    lay_fixed(d, width, t)
}

// The fixed text at the front of s laid down anew: its characters, and zeros to the width. A bad text has no characters.
pub fn copy_fixed(d: &mut [u8], allowed: Allowed, width: usize, s: &[u8]) -> Result<usize, NotLaid>
    ensures { Lays (fixed_bytes width (fixed_part allowed width s.now)) d.old result d.new }
{
    lay_fixed(d, width, fixed_part(allowed, width, s))
}

// The length of the characters, the null counted, the characters and the null, at the front of a lent buffer.
fn lay_variable(d: &mut [u8], t: &[u8]) -> Result<usize, NotLaid>
    requires { length t.now < 65535 }
    ensures { Lays (variable_bytes t.now) d.old result d.new }
{
    let n = t.len();
    let end = n + 3;
    if d.len() < end {
        return Err(NotLaid::NoRoom(end));
    }
    lay_number(d, 2, (n + 1) as u64);
    lay(&mut d[2..], t);
    d[n + 2] = 0;
    Ok(end)
}

// A variable text at the front of a lent buffer: its length, the null counted, its characters and the null.
pub fn put_variable(d: &mut [u8], allowed: Allowed, size: usize, t: &[u8]) -> Result<usize, NotLaid>
    ensures { (result ≡ put_variable allowed size t.now d.old) × (d.new ≡ variable_laid allowed size t.now d.old) }
{
    if !takes_text(allowed, size, t) {
        return Err(NotLaid::BadText);
    }
    lay_variable(d, t)
}

// The variable text at the front of s laid down anew. A bad text has no characters.
pub fn copy_variable(
    d: &mut [u8],
    allowed: Allowed,
    size: usize,
    s: &[u8],
) -> Result<usize, NotLaid>
    ensures { Lays (variable_bytes (variable_part allowed size s.now)) d.old result d.new }
{
    lay_variable(d, variable_part(allowed, size, s))
}
