//! The answer of a statement.
use std::fmt;

/// A status, or a refusal by its number.
#[derive(Clone, Copy, PartialEq, Eq)]
pub enum Answer {
    Status([u8; 2]),
    Refused(u64),
}

/// A refusal by the device.
pub const DEVICE: Answer = Answer::Refused(80);

/// A refusal because the volume is full.
pub const FULL: Answer = Answer::Refused(81);

/// A refusal because an earlier change was refused.
pub const SPENT: Answer = Answer::Refused(84);

impl fmt::Display for Answer {
    fn fmt<W: fmt::Write>(&self, f: &mut fmt::Formatter<W>) -> fmt::Result {
        match self {
            Answer::Refused(number) => write!(f, "refused {number}"),
            Answer::Status([one, other]) => {
                let one = char::from(*one);
                let other = char::from(*other);
                write!(f, "{one}{other}")
            }
        }
    }
}
