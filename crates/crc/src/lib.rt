// CRC32C, the Castagnoli sum (004 sections 4.7 and 8.1; RFC 3720).
//
// Two functions with one promise: `crc32c_plain`, a bit at a time, reads like the definition; `crc32c`, eight bytes
// at a time by tables, is the one that the reader and the writer of messages use.
#![tactic(auto)]

ghost use Rattle.std.specs.Prelude.{◌≡◌, ◌+◌, ◌*◌, ◌<◌};
ghost use Rattle.std.specs.Int.Bits.{bit_xor};
ghost use Rattle.crc.specs.Crc.{crc32c};
ghost use Rattle.rows.specs.Steps.{bit_step, steps};
ghost use Rattle.crc.specs.Register.{byte_step, register};

// One bit: the register moves down a place, less the polynomial where a 1 falls out.
fn bit_step(c: u32) -> u32
    ensures { result ≡ bit_step c }
{
    if c % 2 == 1 {
        (c >> 1) ^ 0x82F63B78
    } else {
        c >> 1
    }
}

// A byte into the low end, and its eight bits.
fn byte_step(c: u32, b: u8) -> u32
    ensures { result ≡ byte_step c b }
{
    let mut x = c ^ (b as u32);
    for _ in 0..8_u32 {
        x = bit_step(x);
    }
    x
}

// Every bit turned over, as the register's are once the last byte is in.
fn complement(c: u32) -> u32
    ensures { result ≡ bit_xor c 4294967295 }
{
    c ^ 0xFFFFFFFF
}

// The sum of all bytes of a slice, a bit at a time.
pub fn crc32c_plain(s: &[u8]) -> u32
    ensures { result ≡ crc32c s.now }
{
    let mut c: u32 = 0xFFFFFFFF;
    for b in s {
        c = byte_step(c, *b);
    }
    complement(c)
}

// Row k of the tables (crate `rows`) at a byte: 8 * (k + 1) steps of it.
fn entry(k: usize, b: u8) -> u32
    requires { k < 8 }
    ensures { result ≡ steps (8 * (k + 1)) b }
{
    rows::rows()[k][b as usize]
}

// A byte at once.
fn table_step(c: u32, b: u8) -> u32
    ensures { result ≡ byte_step c b }
{
    let x = c ^ (b as u32);
    (x >> 8) ^ entry(0, (x % 256) as u8)
}

// Eight bytes at once. Four are fed into the register as one number, and the other four are looked up by themselves: that
// takes fewer instructions than all eight as one number.
fn word_step(c: u32, s: &[u8; 8]) -> u32
    ensures { result ≡ register c s.now }
{
    let [b0, b1, b2, b3, b4, b5, b6, b7] = *s;
    let [x0, x1, x2, x3] = (c ^ u32::from_le_bytes([b0, b1, b2, b3])).to_le_bytes();
    entry(7, x0)
        ^ entry(6, x1)
        ^ entry(5, x2)
        ^ entry(4, x3)
        ^ entry(3, b4)
        ^ entry(2, b5)
        ^ entry(1, b6)
        ^ entry(0, b7)
}

// The sum of all bytes of a slice: eight at a time, then the rest a byte at a time.
pub fn crc32c(s: &[u8]) -> u32
    ensures { result ≡ crc32c s.now }
{
    let (words, rest) = s.as_chunks::<8>();
    let mut c: u32 = 0xFFFFFFFF;
    for word in words {
        c = word_step(c, word);
    }
    for b in rest {
        c = table_step(c, *b);
    }
    complement(c)
}
