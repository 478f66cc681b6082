// What one step finds at the front of its bytes: the reader's refusal, or what the rules need of a good message.
ghost use Rattle.std.specs.Prelude.{◌≡◌, true, ◌≤◌, ◌<◌};
ghost use Rattle.wire.specs.declared.text.Allowed.TheVariants.{Ascii};
ghost use Rattle.wire.specs.Text.{fixed_part};
ghost use Rattle.message.specs.Frame.{comp_id_bytes, map_in, body_in};
ghost use Rattle.session.specs.State.{last};
ghost use Rattle.session.specs.Turn.{is_due_header, due_length, due_taken, take_due};
ghost use Rattle.session.specs.Arrival.{same_bytes, up_to, is_yes, sequence_reset, content_of, is_ours, arrival_by};

use crate::state::{LAST, MOST_ID, Session, State, ahead_at};
use fields::value::{NoValue, Value, value_of};
use message::frame::{COMP_ID_BYTES, Header, body_in, comp_bytes_in, comp_id_in, map_in};
use message::read::Reading;
use message::refusal::Refusal;
use tables::dictionary::{Field, YES};
use tables::table::{
    HEARTBEAT, LOGON, LOGOUT, LOOKUP_REQUEST, LOOKUP_RESPONSE, REJECT, RESEND_REQUEST,
    SEQUENCE_RESET, TEST_REQUEST,
};
use wire::number::read_eight;
use wire::text::{Allowed, fixed_part};

// Gap Fill as it is read, where it is 'Y'.
const GAP_FILL: u64 = YES as u64;

// A message's type, with the numbers of its fields that the rules name.
#[derive(Clone, Copy, PartialEq, Eq, Debug)]
pub enum Content {
    Heartbeat,
    // Test Request ID.
    TestRequest(u16),
    // Start and End.
    ResendRequest(u32, u32),
    Reject,
    // A Sequence Reset with Gap Fill absent or 'N': New.
    Reset(u32),
    // A Sequence Reset with Gap Fill 'Y': New.
    GapFill(u32),
    // Next Expected.
    Logon(u32),
    Logout,
    // Types 7 and 8.
    Lookup,
    // Types 9 and 10.
    Business,
}

#[derive(Clone, Copy, PartialEq, Eq, Debug)]
pub struct Message {
    pub number: u32,
    pub possdup: bool,
    // Whether the Comp ID is ours.
    pub ours: bool,
    pub content: Content,
}

// Whether two texts are the same.
fn is_same(a: &[u8], b: &[u8]) -> bool
    ensures { result ≡ same_bytes a.now b.now }
{
    a == b
}

// The number of a field, which its width keeps within `most`; 0 where there is none.
#[tactic(auto, unfolding(crate::specs::Arrival::up_to))]
fn up_to(value: Result<Value, NoValue>, most: u32) -> u32
    ensures { (result ≡ up_to most value) × (result ≤ most) }
{
    match value {
        Ok(Value::Number(n)) => { if n <= most as u64 { n as u32 } else { 0 } }
        _ => 0,
    }
}

// Whether Gap Fill is 'Y'.
#[tactic(auto, unfolding(crate::specs::Arrival::is_yes))]
fn is_yes(value: Result<Value, NoValue>) -> bool
    ensures { result ≡ is_yes value }
{
    match value {
        Ok(Value::Number(n)) => n == GAP_FILL,
        _ => false,
    }
}

// A Sequence Reset: a gap fill where Gap Fill is 'Y'.
fn sequence_reset(map: &[u8], body: &[u8]) -> Content
    ensures { result ≡ sequence_reset map.now body.now }
{
    let new = up_to(
        value_of(SEQUENCE_RESET, map, body, Field::NewSequenceNumber),
        LAST,
    );
    if is_yes(value_of(SEQUENCE_RESET, map, body, Field::GapFill)) {
        Content::GapFill(new)
    } else {
        Content::Reset(new)
    }
}

// A message's content, with the numbers of the fields that the rules name. Where they name none, none is looked for.
fn content_of(messagetype: u8, map: &[u8], body: &[u8]) -> Content
    ensures { result ≡ content_of messagetype map.now body.now }
{
    match messagetype {
        HEARTBEAT => Content::Heartbeat,
        TEST_REQUEST => Content::TestRequest(up_to(
            value_of(TEST_REQUEST, map, body, Field::TestRequestId),
            MOST_ID,
        ) as u16),
        RESEND_REQUEST => Content::ResendRequest(
            up_to(
                value_of(RESEND_REQUEST, map, body, Field::StartSequence),
                LAST,
            ),
            up_to(
                value_of(RESEND_REQUEST, map, body, Field::EndSequence),
                LAST,
            ),
        ),
        REJECT => Content::Reject,
        SEQUENCE_RESET => sequence_reset(map, body),
        LOGON => Content::Logon(up_to(
            value_of(LOGON, map, body, Field::NextExpectedMessageSequence),
            LAST,
        )),
        LOGOUT => Content::Logout,
        // An arm each, since an arm of two numbers does not tell the proof which it is.
        LOOKUP_REQUEST => Content::Lookup,
        LOOKUP_RESPONSE => Content::Lookup,
        _ => Content::Business,
    }
}

// The same of the message of this length at the front of s. Business, which most messages are, has no field that the rules
// name, so map and body are not looked for.
fn content_in(messagetype: u8, s: &[u8], length: usize) -> Content
    ensures { result ≡ content_of messagetype (map_in s.now) (body_in length s.now) }
{
    if LOOKUP_RESPONSE < messagetype {
        return Content::Business;
    }
    content_of(messagetype, map_in(s), body_in(length, s))
}

// Whether two texts of twelve bytes are the same up to a null, which stands behind the first eight. Most Comp IDs that
// are the same are found so by this quick test; where it says no, the texts are looked for and compared.
fn is_same_start(a: &[u8], b: &[u8]) -> bool
    ensures { result ≡ true → fixed_part Ascii comp_id_bytes a.now ≡ fixed_part Ascii comp_id_bytes b.now }
{
    if a.len() < COMP_ID_BYTES {
        return false;
    }
    if b.len() < COMP_ID_BYTES {
        return false;
    }
    if read_eight(a) != read_eight(b) {
        return false;
    }
    // A loop and no `==`, since a null ends both.
    for i in 8..COMP_ID_BYTES {
        if a[i] != b[i] {
            return false;
        }
        if a[i] == 0 {
            return true;
        }
    }
    false
}

// Comp IDs are compared by their texts: what stands after a null does not count.
fn is_ours(ours: &[u8; COMP_ID_BYTES], s: &[u8]) -> bool
    ensures { result ≡ is_ours ours.now s.now }
{
    if is_same_start(ours, comp_bytes_in(s)) {
        return true;
    }
    is_same(
        fixed_part(Allowed::Ascii, COMP_ID_BYTES, ours),
        comp_id_in(s),
    )
}

// What was read at the front of s: a good message's fields that the rules name.
pub(crate) fn arrival_by(
    ours: &[u8; COMP_ID_BYTES],
    s: &[u8],
    reading: Result<Reading, Refusal>,
) -> Result<Message, Refusal>
    ensures { result ≡ arrival_by ours.now s.now reading }
{
    match reading {
        Ok(Reading { header, length }) => Ok(Message {
            number: header.number,
            possdup: header.possdup == 1,
            ours: is_ours(ours, s),
            content: content_in(header.messagetype, s, length),
        }),
        Err(refusal) => Err(refusal),
    }
}

// Whether a header is that of business with the number e, which is not the last.
fn is_due_header(header: Header, e: u32) -> bool
    ensures { result ≡ is_due_header header e }
{
    (LOOKUP_RESPONSE < header.messagetype) & (header.number == e) & (e < LAST)
}

// Business in its turn, on a Live session: the session that has taken it, and its length. For any other message the session as
// it was, and 0.
#[derive(Clone, Copy)]
pub struct Due {
    pub session: Session,
    pub length: usize,
}

impl Session {
    // The length of business in its turn, for a Live session; 0 for any other message.
    fn due_length(self, s: &[u8], reading: Result<Reading, Refusal>) -> usize
        ensures { result ≡ due_length self s.now reading }
    {
        let ours = self.ours;
        if self.state != State::Live {
            return 0;
        }
        match reading {
            Ok(Reading { header, length }) => {
                if is_due_header(header, self.expected) & is_ours(&ours, s) {
                    length
                } else {
                    0
                }
            }
            Err(_) => 0,
        }
    }

    // Business in its turn is taken.
    fn due_taken(self) -> Session
        requires { self.expected < last }
        ensures { result ≡ due_taken self }
    {
        let e = self.expected;
        let o = self.own;
        let m = ahead_at(self.ahead, e + 1);
        self.moved(State::Live, e + 1, o, m)
    }

    // What was read at the front of s is taken, where it is business in its turn. The rules would do no more.
    pub fn take_due(self, s: &[u8], reading: Result<Reading, Refusal>) -> Due
        ensures { result ≡ take_due self s.now reading }
    {
        let length = self.due_length(s, reading);
        if length == 0 {
            return Due {
                session: self,
                length,
            };
        }
        Due {
            session: self.due_taken(),
            length,
        }
    }
}
