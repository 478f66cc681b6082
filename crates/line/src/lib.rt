// A line with a clock (document 02, item 2): a session that is told the time at each call, so that silence is seen. The session's
// rules know no time: this room stands above them, and with the clock left out its calls are the session's.
#![tactic(auto)]

pub mod line;
pub mod tick;
