// What the bench tells on standard error in place of an answer.
use message::refusal::Refusal;
use plan::NotPlanned;
use std::{fmt, io};

// Why a message of the list cannot be sent again: the reader refuses it, it bears another number than its place, or it has another Comp ID
// than the first.
#[derive(Clone, Copy)]
pub(crate) enum Fault {
    Refused(Refusal),
    Bears(u32),
    OtherCompId,
}

impl fmt::Display for Fault {
    fn fmt<W: fmt::Write>(&self, f: &mut fmt::Formatter<W>) -> fmt::Result {
        match *self {
            Fault::Refused(r) => write!(f, "is refused {}", r.number()),
            Fault::Bears(n) => write!(f, "bears number {n}"),
            Fault::OtherCompId => f.write_str("has another Comp ID than the first"),
        }
    }
}

// What is wrong with the input, the list or the plan that is sent. Of the last three the first two should not come of a list that was looked
// at, though that is not proved.
#[derive(Clone, Copy)]
pub(crate) enum Complaint {
    Usage,
    TooLong,
    Unread,
    ListTooLong,
    TooMany,
    Message(usize, Fault),
    Refused(NotPlanned),
    Missing(u32),
    Unwritten(Refusal),
    Closed,
}

impl fmt::Display for Complaint {
    fn fmt<W: fmt::Write>(&self, f: &mut fmt::Formatter<W>) -> fmt::Result {
        match *self {
            Complaint::Usage => f.write_str(
                "standard input must be two lines: start=S end=E, with S and E from 0 to 4294967295, or start=S end=E split=M, with M from 1 to 4294967294, and then at most 65536 digits, 1 for a business number and 0 for a session number; or the line send start=S end=E and then at most 1048576 bytes, the messages of the list",
            ),
            Complaint::TooLong => f.write_str(
                "standard input is too long: a list has at most 65536 digits, and nothing follows its line",
            ),
            Complaint::Unread => f.write_str("standard input cannot be read"),
            Complaint::ListTooLong => {
                f.write_str("the list is too long: it has at most 1048576 bytes")
            }
            Complaint::TooMany => f.write_str(
                "the list is too long: it has at most 65536 messages",
            ),
            Complaint::Message(k, fault) => write!(f, "message {k} of the list {fault}"),
            Complaint::Refused(r) => write!(f, "refused {}", r.number()),
            Complaint::Missing(n) => write!(f, "the list does not have number {n}"),
            Complaint::Unwritten(r) => write!(
                f,
                "a message of the plan cannot be written: refused {}",
                r.number()
            ),
            Complaint::Closed => f.write_str("standard output cannot be written"),
        }
    }
}

// Why the bench ends: it told why it does not answer, or its answer cannot be written.
#[derive(Drop)]
pub(crate) enum Failure {
    Told(Complaint),
    Io(io::Error),
}

impl From<Complaint> for Failure {
    fn from(complaint: Complaint) -> Failure {
        Failure::Told(complaint)
    }
}

impl From<io::Error> for Failure {
    fn from(error: io::Error) -> Failure {
        Failure::Io(error)
    }
}
