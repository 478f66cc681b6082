// Quick tests of a map: its first 64 positions as one number, the bytes' lowest first, against a number for each type.
ghost use Rattle.std.specs.Prelude.{◌≡◌, true, take, drop};
ghost use Rattle.tables.specs.Tables.{row_of};
ghost use Rattle.wire.specs.Number.{number};
ghost use Rattle.fields.specs.Cut.{head_positions};
ghost use Rattle.fields.specs.Sets.{unknown_to};
ghost use Rattle.fields.specs.Words.{required_by, Holds, ClearFrom};

use tables::table::{
    BUSINESS_MESSAGE_REJECT, EXECUTION_REPORT, HEARTBEAT, LOGON, LOGOUT, LOOKUP_REQUEST,
    LOOKUP_RESPONSE, REJECT, RESEND_REQUEST, SEQUENCE_RESET, TEST_REQUEST,
};
use wire::map::MAP_BYTES;
use wire::number::read_eight;

// The bits of the positions below 64 that the type does not know.
pub(crate) fn unknown_word(messagetype: u8) -> u64
    ensures { Holds (unknown_to (row_of messagetype)) result }
{
    match messagetype {
        HEARTBEAT => 0xFFFFFFFFFFFFFF7F,
        TEST_REQUEST => 0xFFFFFFFFFFFFFF7F,
        RESEND_REQUEST => 0xFFFFFFFFFFFFFF3F,
        REJECT => 0xFFFFFFFFFFFFFF03,
        SEQUENCE_RESET => 0xFFFFFFFFFFFFFF3F,
        LOGON => 0xFFFFFFFFFFFFFF03,
        LOGOUT => 0xFFFFFFFFFFFFFF3F,
        LOOKUP_REQUEST => 0xFFFFFFFFFFFFFF3F,
        LOOKUP_RESPONSE => 0xFFFFFFFFFFFFFF01,
        BUSINESS_MESSAGE_REJECT => 0xFFFFFFFFFFFFFF03,
        EXECUTION_REPORT => 0xFFFFCF0824002000,
        _ => 0xFFFFFFFFFFFFFFFF,
    }
}

// A match of its own beside that above: the two have the words alone in common, and each is held to its own set of the tables.
//
// The bits of the positions that the type requires, which all lie below 64; every bit where there is no such type.
pub(crate) fn required_word(messagetype: u8) -> u64
    ensures { Holds (required_by (row_of messagetype)) result }
{
    match messagetype {
        HEARTBEAT => 0x0000000000000000,
        TEST_REQUEST => 0x0000000000000080,
        RESEND_REQUEST => 0x00000000000000C0,
        REJECT => 0x0000000000000088,
        SEQUENCE_RESET => 0x0000000000000040,
        LOGON => 0x0000000000000020,
        LOGOUT => 0x0000000000000000,
        LOOKUP_REQUEST => 0x00000000000000C0,
        LOOKUP_RESPONSE => 0x0000000000000080,
        BUSINESS_MESSAGE_REJECT => 0x00000000000000A0,
        EXECUTION_REPORT => 0x00000004C0074073,
        _ => 0xFFFFFFFFFFFFFFFF,
    }
}

// Eight bytes of a map from byte k on; bytes past its end count as 0.
pub(crate) fn word_at(map: &[u8], k: usize) -> u64
    ensures { result ≡ number (take 8 (drop k map.now)) }
{
    if map.len() < k {
        return 0;
    }
    read_eight(&map[k..])
}

// Whether no position from 64 on is set. A map of another length than a message's is not looked at: one test of the length
// serves all words.
pub(crate) fn is_low(map: &[u8]) -> bool
    ensures { result ≡ true → ClearFrom head_positions map.now }
{
    if map.len() < MAP_BYTES {
        return false;
    }
    if word_at(map, 8) != 0 {
        return false;
    }
    if word_at(map, 16) != 0 {
        return false;
    }
    word_at(map, 24) == 0
}
