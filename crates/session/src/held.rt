// A session told in numbers, as it crosses to another language and back: taken in again only where its numbers can be a day's.
ghost use Rattle.std.specs.Prelude.{◌≡◌};
ghost use Rattle.session.specs.Held.{state_number, state_at, all_zero, is_plain_comp_id, least_own, is_ahead, is_held, held};

use crate::day::{Made, not_made};
use crate::state::{Fault, Halt, MOST_REPEATS, Session, State};
use message::frame::COMP_ID_BYTES;
use wire::text::{Allowed, fixed_part};

// The states' numbers.
pub const DOWN: u32 = 0;

pub const WAITING: u32 = 1;

pub const LIVE: u32 = 2;

// The least O where a message was asked for: Connect's Logon and the Resend Request have used up 1 and 2.
const LEAST_ASKED: u32 = 3;

impl State {
    // The state's number.
    pub fn number(self) -> u32
        ensures { result ≡ state_number self }
    {
        match self {
            State::Down => DOWN,
            State::Waiting => WAITING,
            State::Live => LIVE,
        }
    }
}

fn state_at(n: u32) -> State
    ensures { result ≡ state_at n }
{
    match n {
        DOWN => State::Down,
        WAITING => State::Waiting,
        _ => State::Live,
    }
}

fn is_all_zero(s: &[u8]) -> bool
    ensures { result ≡ all_zero s.now }
{
    s.iter().all(|byte| *byte == 0)
}

fn is_plain_comp_id(ours: &[u8]) -> bool
    ensures { result ≡ is_plain_comp_id ours.now }
{
    let text = fixed_part(Allowed::Ascii, COMP_ID_BYTES, ours);
    if text.len() == 0 {
        return false;
    }
    if ours.len() < text.len() {
        return true;
    }
    is_all_zero(&ours[text.len()..])
}

fn least_own(state: u32) -> u32
    ensures { result ≡ least_own state }
{
    if state == DOWN { 1 } else { 2 }
}

fn is_ahead(state: u32, e: u32, o: u32, m: u32, repeats: u32) -> bool
    ensures { result ≡ is_ahead state e o m repeats }
{
    if m == 0 {
        return repeats == 0;
    }
    if state != LIVE {
        return false;
    }
    if m < 2 {
        return false;
    }
    if m < e {
        return false;
    }
    if MOST_REPEATS < repeats {
        return false;
    }
    // Each repeat has used up a number more.
    repeats + LEAST_ASKED <= o
}

// Whether these numbers are taken in.
fn is_held(state: u32, ours: &[u8; COMP_ID_BYTES], e: u32, o: u32, m: u32, repeats: u32) -> bool
    ensures { result ≡ is_held state ours.now e o m repeats }
{
    if LIVE < state {
        return false;
    }
    if !is_plain_comp_id(ours) {
        return false;
    }
    if e == 0 {
        return false;
    }
    if o < least_own(state) {
        return false;
    }
    is_ahead(state, e, o, m, repeats)
}

impl Session {
    // The session of these numbers, where they are taken in; else 90.
    pub fn held(state: u32, ours: [u8; COMP_ID_BYTES], e: u32, o: u32, m: u32, repeats: u32) -> Made
        ensures { result ≡ held state ours e o m repeats }
    {
        if !is_held(state, &ours, e, o, m, repeats) {
            return not_made(Some(Fault::Halted(Halt::NotASession)));
        }
        Made {
            code: None,
            session: Session {
                state: state_at(state),
                ours,
                expected: e,
                own: o,
                ahead: m,
                repeats,
            },
        }
    }
}
