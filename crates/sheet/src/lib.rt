// Daysheet's lines (document 01, "Program daysheet"): read, stepped, and printed into a lent buffer.
#![tactic(auto)]

pub mod line;
pub mod print;
pub mod sheet;
