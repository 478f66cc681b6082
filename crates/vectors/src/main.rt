// Outside vectors, run and compared with what they should be: RFC 3720's five CRC32C examples (appendix B.4), the
// usual check value of CRC32C, 004 section 6.1's Decimal, both ends of the characters that document 02, item 8 names,
// and letters of Latin-1 in UTF-8 (RFC 3629, section 3).
#![tactic(auto)]

use spelt::put_shown;
use std::io;
use wire::decimal::{put_decimal, read_decimal};
use wire::text::{Allowed, characters_in};

// What ends a line.
fn verdict(right: bool) -> &'static str {
    if right { "right" } else { "WRONG" }
}

// One message through both sums, which must give the number `want`.
fn sum(rt: &impl Print, name: &str, message: &[u8], want: u32) -> io::Result<()> {
    let fast = crc::crc32c(message);
    let right = fast == want && crc::crc32c_plain(message) == want;
    println!(rt; "crc32c of {name}: {fast:08x} {}", verdict(right))
}

fn sums_of_runs(rt: &impl Print) -> io::Result<()> {
    sum(rt, "32 bytes of zeros", &[0u8; 32], 0x8A9136AA)?;
    sum(rt, "32 bytes of ones", &[0xFFu8; 32], 0x62A8AB43)?;
    let mut run = [
        0u8, 1, 2, 3, 4, 5, 6, 7, 8, 9, 10, 11, 12, 13, 14, 15, 16, 17, 18, 19, 20, 21, 22, 23, 24,
        25, 26, 27, 28, 29, 30, 31,
    ];
    sum(rt, "32 rising bytes", &run, 0x46DD794E)?;
    run.reverse();
    sum(rt, "32 falling bytes", &run, 0x113FDB5C)
}

fn sums_of_messages(rt: &impl Print) -> io::Result<()> {
    let command = [
        0x01u8, 0xC0, 0, 0, 0, 0, 0, 0, 0, 0, 0, 0, 0, 0, 0, 0, 0x14, 0, 0, 0, 0, 0, 0x04, 0, 0, 0,
        0, 0x14, 0, 0, 0, 0x18, 0x28, 0, 0, 0, 0, 0, 0, 0, 0x02, 0, 0, 0, 0, 0, 0, 0,
    ];
    sum(rt, "an iSCSI read command", &command, 0xD9963A56)?;
    sum(rt, "123456789", b"123456789", 0xE3069283)?;
    sum(rt, "no byte", b"", 0)
}

// A Decimal is laid down as these eight bytes and read back from them.
fn decimal(rt: &impl Print, name: &str, bytes: &[u8; 8], value: i64) -> io::Result<()> {
    let mut d = [0u8; 8];
    let laid = put_decimal(&mut d, value);
    let right = laid == Ok(8) && d == *bytes && read_decimal(bytes) == value;
    println!(rt; "Decimal {name}: {}", verdict(right))
}

fn decimals(rt: &impl Print) -> io::Result<()> {
    let worked = [0x6Cu8, 0x5D, 0xD4, 0xD4, 0xE8, 0, 0, 0];
    decimal(rt, "10000.03100012", &worked, 1000003100012)?;
    decimal(rt, "-0.00000001", &[0xFFu8; 8], -1)?;
    let lowest = [0u8, 0, 0, 0, 0, 0, 0, 0x80];
    decimal(rt, "-92233720368.54775808", &lowest, i64::MIN)
}

// How many bytes at the front of a text are characters, with these allowed.
fn counted(
    rt: &impl Print,
    name: &str,
    allowed: Allowed,
    text: &[u8],
    want: usize,
) -> io::Result<()> {
    let n = characters_in(allowed, text);
    println!(rt; "{name}: {n} {}", verdict(n == want))
}

// The ends of each run of characters, one by one and among the eight that are looked at at once.
fn characters_of_ascii(rt: &impl Print) -> io::Result<()> {
    let ascii = Allowed::Ascii;
    counted(rt, "32, 126, 127 in ascii", ascii, b" ~\x7F", 2)?;
    counted(rt, "32, 31 in ascii", ascii, b" \x1F", 1)?;
    counted(rt, "126, 128 in ascii", ascii, b"~\x80", 1)?;
    let eight = b"A~A\xFFAAAAA";
    counted(rt, "126, 255 among eight in ascii", ascii, eight, 3)
}

fn characters_of_accented(rt: &impl Print) -> io::Result<()> {
    let accented = Allowed::Accented;
    let ends = b" ~\x80\xFF\x7F";
    counted(rt, "32, 126, 128, 255, 127 in accented", accented, ends, 4)?;
    counted(rt, "255, 31 in accented", accented, b"\xFF\x1F", 1)?;
    let eight = b"\xFF\xFF\x80\x80\xFF\x7F\xFF\xFF\xFF";
    counted(
        rt,
        "255, 128, 127 among eight in accented",
        accented,
        eight,
        5,
    )?;
    let eight = b"\xFF\x80\xFF\x80\xFF\x80\xFF\0\xFF";
    counted(
        rt,
        "255, 128, 0 among eight in accented",
        accented,
        eight,
        7,
    )
}

// A character is shown as so many bytes, which stand before zeros.
fn shown(rt: &impl Print, name: &str, b: u8, count: usize, want: &[u8; 4]) -> io::Result<()> {
    let mut d = [0u8; 4];
    let right = put_shown(&mut d, b) == Ok(count) && d == *want;
    println!(rt; "{name}: {}", verdict(right))
}

fn characters_shown(rt: &impl Print) -> io::Result<()> {
    shown(rt, "e acute, 233, shown as C3 A9", 0xE9, 2, b"\xC3\xA9\0\0")?;
    let first = "the first of Latin-1, 160, shown as C2 A0";
    shown(rt, first, 0xA0, 2, b"\xC2\xA0\0\0")?;
    shown(
        rt,
        "the last, 255, shown as C3 BF",
        0xFF,
        2,
        b"\xC3\xBF\0\0",
    )?;
    shown(rt, "a control, 155, shown as \\x9B", 0x9B, 4, b"\\x9B")?;
    shown(rt, "a backslash shown as two", 0x5C, 2, b"\\\\\0\0")
}

fn main(rt: HostRuntime) -> io::Result<()> {
    sums_of_runs(&rt)?;
    sums_of_messages(&rt)?;
    decimals(&rt)?;
    characters_of_ascii(&rt)?;
    characters_of_accented(&rt)?;
    characters_shown(&rt)
}
