// The line, and the calls that a session has, each at a time in milliseconds.
ghost use Rattle.std.specs.Prelude.{◌≡◌};
ghost use Rattle.session.specs.Day.{step_by};
ghost use Rattle.line.specs.Turn.{take_due_line};
ghost use Rattle.line.specs.Line.{is_interval, line_number, quiet_line, not_a_line, line_of, fresh_line, saved_line, later, is_live, goes_on, wait_since, moved_line, connect_line, drop_line, is_any, stepped_line, step_line, is_sending, LaysLine, is_held_line, held_line};

use calls::{Done, Ended, is_heard, steps};
use message::read::Reading;
use message::refusal::Refusal;
use session::day::Made;
use session::state::{Answer, Fault, Halt, Send, Session, State, Stepped, code_number};

// The least and the most seconds of an interval.
const LEAST_INTERVAL: u32 = 1;

const MOST_INTERVAL: u32 = 60;

// A session, its interval in seconds, the latest time that was given, when it last sent and last heard, and whether this silence
// has had its Test Request. The last three are of a Live session alone.
#[derive(Clone, Copy)]
pub struct Line {
    pub(crate) session: Session,
    pub(crate) interval: u32,
    pub(crate) now: u64,
    pub(crate) sent: u64,
    pub(crate) heard: u64,
    pub(crate) tested: bool,
}

// What making a line answers: what the day answers, or that its interval is outside the range.
#[derive(Clone, Copy)]
pub enum LineCode {
    Day(Option<Fault>),
    BadInterval,
}

// A line; or why there is none, beside a line that no message is for, which C is shown then.
#[derive(Clone, Copy)]
pub struct LineMade {
    pub code: LineCode,
    pub line: Line,
}

// Connect's answer, as the session gives it. This, a step's answer and business taken are no generic structs shared with the
// session's: no function works on both, and each says by its member's name whether it holds a session or a line. No Result: a
// refused connect gives a line too, and its number and next are 0 then by its promise.
#[derive(Clone, Copy)]
pub struct LineConnected {
    pub line: Line,
    pub code: Option<Fault>,
    pub number: u32,
    pub next: u32,
}

// A step's answer, as the session gives it.
#[derive(Clone, Copy)]
pub struct LineStepped {
    pub line: Line,
    pub answer: Answer,
}

// Business in its turn, on a Live line: the line that has taken it, and its length. For any other message the line as it was,
// and 0: the session answers so, and the promise is said of both at once.
#[derive(Clone, Copy)]
pub struct LineDue {
    pub line: Line,
    pub length: usize,
}

// What a call of many messages did, as the session gives it.
#[derive(Clone, Copy)]
pub struct LineDone {
    pub line: Line,
    pub code: Option<Fault>,
    pub used: usize,
    pub rows: usize,
    pub sends: usize,
    pub ended: Ended,
}

impl LineCode {
    // The number of a refusal; 0 where nothing was refused.
    pub fn number(self) -> u32
        ensures { result ≡ line_number self }
    {
        match self {
            LineCode::Day(code) => code_number(code),
            LineCode::BadInterval => 24,
        }
    }
}

#[tactic(auto, unfolding(crate::specs::Line::is_interval))]
fn is_interval(interval: u32) -> bool
    ensures { result ≡ is_interval interval }
{
    (LEAST_INTERVAL <= interval) & (interval <= MOST_INTERVAL)
}

fn quiet(session: Session, interval: u32) -> Line
    ensures { result ≡ quiet_line session interval }
{
    Line {
        session,
        interval,
        now: 0,
        sent: 0,
        heard: 0,
        tested: false,
    }
}

fn not_a_line(code: LineCode) -> LineMade
    ensures { result ≡ not_a_line code }
{
    let none = Session::fresh(b"");
    let session = none.session;
    LineMade {
        code,
        line: quiet(session, LEAST_INTERVAL),
    }
}

// The line of a day: what the day was refused with, then 24.
fn line_of(made: Made, interval: u32) -> LineMade
    ensures { result ≡ line_of made interval }
{
    let code = made.code;
    let session = made.session;
    if code_number(code) != 0 {
        return not_a_line(LineCode::Day(code));
    }
    if !is_interval(interval) {
        return not_a_line(LineCode::BadInterval);
    }
    LineMade {
        code: LineCode::Day(code),
        line: quiet(session, interval),
    }
}

// A time earlier than the latest given counts as that latest: a rule, which every call with a time follows.
pub(crate) fn later(now: u64, t: u64) -> u64
    ensures { result ≡ later now t }
{
    now.max(t)
}

// Whether the state is Live: a word of the definitions, which the line and its ticks ask for in five places.
pub(crate) fn is_live(state: State) -> bool
    ensures { result ≡ is_live state }
{
    matches!(state, State::Live)
}

// Whether a wait goes on: the session was Live and stays so, and nothing ended the wait. The three are facts of the moment, and
// choose no step to run.
#[tactic(auto, unfolding(crate::specs::Line::goes_on))]
fn goes_on(before: bool, after: bool, ended: bool) -> bool
    ensures { result ≡ goes_on before after ended }
{
    before & (after & !ended)
}

// Since when a wait lasts: it goes on, or starts at n where the session is Live, and elsewhere there is none. The two flags are
// facts, which `moved` knows.
#[tactic(auto, unfolding(crate::specs::Line::wait_since))]
fn wait_since(goes: bool, live: bool, n: u64, since: u64) -> u64
    ensures { result ≡ wait_since goes live n since }
{
    if goes {
        return since;
    }
    if live { n } else { 0 }
}

// Whether this is a message to send.
fn is_any(send: Send) -> bool
    ensures { result ≡ is_any send }
{
    !matches!(send, Send::Nothing)
}

// Whether a call of many messages sends any. One that is refused for want of slots says how many it needs, and sends none.
fn is_sending(done: Done) -> bool
    ensures { result ≡ is_sending done }
{
    let code = done.code;
    (code_number(code) == 0) & (done.sends != 0)
}

// Whether these can be a line's interval, its clock and its waits. They come singly, since there is no line before this holds.
#[tactic(auto, unfolding(crate::specs::Line::is_held_line))]
fn is_held_line(live: bool, interval: u32, tested: u32, now: u64, sent: u64, heard: u64) -> bool
    ensures { result ≡ is_held_line live interval tested now sent heard }
{
    let in_range = is_interval(interval) & (tested <= 1) & (sent <= now) & (heard <= now);
    let no_wait = (tested == 0) & (sent == 0) & (heard == 0);
    in_range & (live | no_wait)
}

impl Line {
    pub fn session(self) -> Session
        ensures { result ≡ self.session }
    {
        self.session
    }

    // In seconds.
    pub fn interval(self) -> u32
        ensures { result ≡ self.interval }
    {
        self.interval
    }

    // The latest time that was given.
    pub fn now(self) -> u64
        ensures { result ≡ self.now }
    {
        self.now
    }

    // When it last sent, or Live began; 0 where it is not Live.
    pub fn sent(self) -> u64
        ensures { result ≡ self.sent }
    {
        self.sent
    }

    // When it last heard, or Live began; 0 where it is not Live.
    pub fn heard(self) -> u64
        ensures { result ≡ self.heard }
    {
        self.heard
    }

    // Whether this silence has had its Test Request.
    pub fn tested(self) -> bool
        ensures { result ≡ self.tested }
    {
        self.tested
    }

    // A fresh day with an interval of 1 to 60 seconds: 6, then 24.
    #[tactic(auto, unfolding(crate::specs::Line::fresh_line))]
    pub fn fresh(comp: &[u8], interval: u32) -> LineMade
        ensures { result ≡ fresh_line comp.now interval }
    {
        line_of(Session::fresh(comp), interval)
    }

    // A day that goes on from saved E and O: 23, 6, then 24.
    #[tactic(auto, unfolding(crate::specs::Line::saved_line))]
    pub fn saved(comp: &[u8], e: u32, o: u32, interval: u32) -> LineMade
        ensures { result ≡ saved_line comp.now e o interval }
    {
        line_of(Session::saved(comp, e, o), interval)
    }

    // The line of these numbers, with a session that was taken in; else 90.
    pub fn held(made: Made, interval: u32, tested: u32, now: u64, sent: u64, heard: u64) -> LineMade
        ensures { result ≡ held_line made interval tested now sent heard }
    {
        let code = made.code;
        let session = made.session;
        let live = is_live(session.state());
        if !((code_number(code) == 0) & is_held_line(live, interval, tested, now, sent, heard)) {
            return not_a_line(LineCode::Day(Some(Fault::Halted(Halt::NotASession))));
        }
        LineMade {
            code: LineCode::Day(code),
            line: Line {
                session,
                interval,
                now,
                sent,
                heard,
                tested: tested == 1,
            },
        }
    }

    // The line at time t with another session. Every call but a tick that does nothing makes its line here. `heard` and `sent`
    // are facts of what happened at t, and choose no step to run: a call may have done both, or neither.
    #[tactic(auto, unfolding(crate::specs::Line::moved_line))]
    pub(crate) fn moved(self, t: u64, session: Session, heard: bool, sent: bool) -> Line
        ensures { result ≡ moved_line self t session heard sent }
    {
        let before = is_live(self.session.state());
        let after = is_live(session.state());
        let n = later(self.now, t);
        let silent = goes_on(before, after, heard);
        let unsent = goes_on(before, after, sent);
        Line {
            session,
            interval: self.interval,
            now: n,
            sent: wait_since(unsent, after, n, self.sent),
            heard: wait_since(silent, after, n, self.heard),
            tested: silent & self.tested,
        }
    }

    // Connect at time t, as the session does it.
    #[tactic(auto, unfolding(crate::specs::Line::connect_line))]
    pub fn connect(self, t: u64, password: &[u8]) -> LineConnected
        ensures { result ≡ connect_line self t password.now }
    {
        let connected = self.session.connect(password);
        LineConnected {
            line: self.moved(t, connected.session, false, false),
            code: connected.code,
            number: connected.number,
            next: connected.next,
        }
    }

    // The line is gone at time t.
    #[tactic(auto, unfolding(crate::specs::Line::drop_line))]
    pub fn drop(self, t: u64) -> Line
        ensures { result ≡ drop_line self t }
    {
        self.moved(t, self.session.drop(), false, false)
    }

    fn stepped(self, t: u64, stepped: Stepped) -> LineStepped
        ensures { result ≡ stepped_line self t stepped }
    {
        let answer = stepped.answer;
        let heard = is_heard(answer.code);
        let sent = is_any(answer.first) | is_any(answer.second);
        LineStepped {
            line: self.moved(t, stepped.session, heard, sent),
            answer,
        }
    }

    // One step at time t on the message at the front of s.
    #[tactic(auto, unfolding(crate::specs::Line::step_line))]
    pub fn step(self, t: u64, s: &[u8]) -> LineStepped
        ensures { result ≡ step_line self t s.now }
    {
        self.stepped(t, self.session.step(s))
    }

    // One step at time t on the message at the front of s, of which the reader has given this.
    pub fn step_by(self, t: u64, s: &[u8], reading: Result<Reading, Refusal>) -> LineStepped
        ensures { result ≡ stepped_line self t (step_by self.session s.now reading) }
    {
        self.stepped(t, self.session.step_by(s, reading))
    }

    // What was read at the front of s is taken at time t, where it is business in its turn. A step would do no more.
    pub fn take_due(self, t: u64, s: &[u8], reading: Result<Reading, Refusal>) -> LineDue
        ensures { result ≡ take_due_line self t s.now reading }
    {
        let was = self.session;
        let due = was.take_due(s, reading);
        let session = due.session;
        let length = due.length;
        if length == 0 {
            return LineDue { line: self, length };
        }
        LineDue {
            line: self.moved(t, session, true, false),
            length,
        }
    }

    // The messages of s at time t, back to back, each stepped on in turn.
    #[tactic(auto, unfolding(crate::specs::Line::steps_line))]
    pub fn steps(self, t: u64, s: &[u8], rows: &mut [u32], sends: &mut [u32]) -> LineDone
        ensures { LaysLine self t s.now rows.old sends.old result rows.new sends.new }
    {
        let done = steps(self.session, s, rows, sends);
        LineDone {
            line: self.moved(t, done.session, done.heard, is_sending(done)),
            code: done.code,
            used: done.used,
            rows: done.rows,
            sends: done.sends,
            ended: done.ended,
        }
    }
}
