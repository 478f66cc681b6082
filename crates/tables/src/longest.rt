// How long a good message can be, so that a desk can size its buffers (document 02, item 4).
ghost use Rattle.std.specs.Prelude.{◌≡◌};
ghost use Rattle.tables.specs.Longest.{longest_length};

use crate::table::{
    BUSINESS_MESSAGE_REJECT, EXECUTION_REPORT, HEARTBEAT, LOGON, LOGOUT, LOOKUP_REQUEST,
    LOOKUP_RESPONSE, REJECT, RESEND_REQUEST, SEQUENCE_RESET, TEST_REQUEST,
};

// The bytes of the longest message of this type, frame and all; 0 where the type has no table. A number and no Option: the
// promise gives 0 to such a type, for which a buffer needs no bytes.
#[tactic(auto, unfolding(crate::specs::Longest::longest_lengths, crate::specs::Longest::longest_length))]
pub fn longest_of(messagetype: u8) -> usize
    ensures { result ≡ longest_length messagetype }
{
    match messagetype {
        HEARTBEAT => 60,
        TEST_REQUEST => 60,
        RESEND_REQUEST => 66,
        REJECT => 213,
        SEQUENCE_RESET => 63,
        LOGON => 1016,
        LOGOUT => 136,
        LOOKUP_REQUEST => 60,
        LOOKUP_RESPONSE => 173,
        BUSINESS_MESSAGE_REJECT => 213,
        EXECUTION_REPORT => 499,
        _ => 0,
    }
}
