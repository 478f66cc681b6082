// Tick, the one call that acts, and when the next one is due.
ghost use Rattle.std.specs.Prelude.{◌≡◌, ◌+◌, ◌*◌, ◌≤◌};
ghost use Rattle.session.specs.Day.{own_number};
ghost use Rattle.session.specs.State.{last};
ghost use Rattle.line.specs.Tick.{second, wait, reached, due_by, due_live, due_at, id_of, timed, tested_line, own_act, numbered, tick, at_time, earlier, silence_due, next_tick};

use crate::line::{Line, is_live, later};
use session::state::{Fault, code_number};

// Milliseconds of a second.
const SECOND: u64 = 1000;

// How many intervals without hearing bring a Test Request, and Down.
const TEST_REQUEST: u64 = 2;

const DOWN: u64 = 3;

// An ID has two bytes.
const IDS: u32 = 65536;

// A message of ours that no arrival asks for.
#[derive(Clone, Copy)]
enum Own {
    TestRequest,
    Heartbeat,
}

// What is due at a time.
#[derive(Clone, Copy)]
enum Due {
    Down,
    Message(Own),
}

// What a tick did: it put the line Down; or a message to send, a Test Request with its number and its ID, or a Heartbeat without
// ID with its number.
#[derive(Clone, Copy, PartialEq, Eq, Debug)]
pub enum Act {
    Down,
    TestRequest(u32, u16),
    Heartbeat(u32),
}

// A tick's answer. The code is 22 where a message was due and no number is left: the line is Down.
#[derive(Clone, Copy)]
pub struct Ticked {
    pub line: Line,
    pub code: Option<Fault>,
    pub act: Option<Act>,
}

// Whether a wait that began at `since` is over at n. The sum is never made, so that nothing overflows; `saturating_sub` would not
// do, since a wait of 0 that begins later is not over.
fn reached(since: u64, wait: u64, n: u64) -> bool
    ensures { result ≡ reached since wait n }
{
    if n < since {
        return false;
    }
    wait <= n - since
}

// The three in their order. They are facts of the time, of which several may hold at once; which comes first is decided here.
#[tactic(auto, unfolding(crate::specs::Tick::due_by))]
fn due_by(down: bool, test: bool, beat: bool) -> Option<Due>
    ensures { result ≡ due_by down test beat }
{
    if down {
        return Some(Due::Down);
    }
    if test {
        return Some(Due::Message(Own::TestRequest));
    }
    if beat {
        return Some(Due::Message(Own::Heartbeat));
    }
    None
}

// The ID of a Test Request: its own number modulo 65,536.
#[tactic(auto, unfolding(crate::specs::Tick::id_of))]
pub fn id_of(n: u32) -> u16
    ensures { result ≡ id_of n }
{
    (n % IDS) as u16
}

#[tactic(auto, unfolding(crate::specs::Tick::own_act))]
fn own_act(own: Own, n: u32) -> Act
    ensures { result ≡ own_act own n }
{
    match own {
        Own::TestRequest => Act::TestRequest(n, id_of(n)),
        Own::Heartbeat => Act::Heartbeat(n),
    }
}

// The earlier of two times, if there is one.
fn earlier(one: Option<u64>, other: Option<u64>) -> Option<u64>
    ensures { result ≡ earlier one other }
{
    match one {
        Some(a) => match other {
            Some(b) => Some(a.min(b)),
            None => one,
        },
        None => other,
    }
}

impl Line {
    // An interval in milliseconds.
    #[tactic(auto, unfolding(crate::specs::Tick::wait))]
    fn wait(self) -> u64
        ensures value { result ≡ wait self }
        ensures upper_bound { result ≤ last * second }
    {
        self.interval as u64 * SECOND
    }

    // What is due at the time n where the line is Live.
    #[tactic(auto, unfolding(crate::specs::Tick::due_live))]
    fn due_live(self, n: u64) -> Option<Due>
        ensures { result ≡ due_live self n }
    {
        let wait = self.wait();
        let down = reached(self.heard, DOWN * wait, n);
        let test = reached(self.heard, TEST_REQUEST * wait, n);
        let beat = reached(self.sent, wait, n);
        due_by(down, test & !self.tested, beat)
    }

    #[tactic(auto, unfolding(crate::specs::Tick::due_at))]
    fn due_at(self, n: u64) -> Option<Due>
        ensures { result ≡ due_at self n }
    {
        if !is_live(self.session.state()) {
            return None;
        }
        self.due_live(n)
    }

    // Nothing but the latest time changes.
    #[tactic(auto, unfolding(crate::specs::Tick::timed))]
    fn timed(self, t: u64) -> Line
        ensures { result ≡ timed self t }
    {
        Line {
            now: later(self.now, t),
            ..self
        }
    }

    // This silence has had its Test Request, where this was one.
    #[tactic(auto, unfolding(crate::specs::Tick::is_test, crate::specs::Tick::tested_line))]
    fn with_test(self, own: Own) -> Line
        ensures { result ≡ tested_line own self }
    {
        match own {
            Own::TestRequest => Line {
                tested: true,
                ..self
            },
            Own::Heartbeat => self,
        }
    }

    // A Test Request or a Heartbeat with the number that the session gives; 22 where it gives none.
    fn numbered(self, own: Own, t: u64) -> Ticked
        ensures { result ≡ numbered own self t (own_number self.session) }
    {
        let owned = self.session.own_number();
        let after = owned.session;
        let code = owned.code;
        if code_number(code) != 0 {
            return Ticked {
                line: self.moved(t, after, false, false),
                code,
                act: None,
            };
        }
        let line = self.moved(t, after, false, true);
        Ticked {
            line: line.with_test(own),
            code: None,
            act: Some(own_act(own, owned.number)),
        }
    }

    // Tick: at most one of the three, by what is due at the time t, or at the latest time given where that is later.
    #[tactic(auto, unfolding(crate::specs::Tick::tick, crate::specs::Tick::tick_by))]
    pub fn tick(self, t: u64) -> Ticked
        ensures { result ≡ tick self t }
    {
        match self.due_at(later(self.now, t)) {
            None => Ticked {
                line: self.timed(t),
                code: None,
                act: None,
            },
            Some(due) => match due {
                Due::Down => Ticked {
                    line: self.drop(t),
                    code: None,
                    act: Some(Act::Down),
                },
                Due::Message(own) => self.numbered(own, t),
            },
        }
    }

    // When this silence is due: its Test Request, or Down where it has had one.
    fn silence_due(self) -> Option<u64>
        ensures { result ≡ at_time (silence_due self) }
    {
        let intervals = if self.tested { DOWN } else { TEST_REQUEST };
        self.heard.checked_add(intervals * self.wait())
    }

    // The earliest time, not before the latest given, at which a tick would act, or answer 22; none past 64 bits.
    pub fn next_tick(self) -> Option<u64>
        ensures { result ≡ next_tick self }
    {
        if !is_live(self.session.state()) {
            return None;
        }
        let beat = self.sent.checked_add(self.wait());
        let next = earlier(self.silence_due(), beat)?;
        Some(later(self.now, next))
    }
}
