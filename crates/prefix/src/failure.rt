use crate::no_answer::NoAnswer;
use std::alloc::{AllocError, AllocFailed, Global};
use std::error::Error;
use std::{fmt, io};

// Why the program ends with status 1.
#[derive(Debug, Drop)]
pub enum Failure {
    // What is wrong.
    Stopped(String),
    // Why the words are no command.
    Usage(String),
    Memory,
    Io(io::Error),
}

// The first two are alike; one over both, with the case as a parameter, is no plainer.
impl Failure {
    // The failure of this message.
    pub(crate) fn stopped<D: fmt::Display + Drop>(heap: Global, message: D) -> Failure {
        message
            .to_string(heap)
            .map_or(Failure::Memory, Failure::Stopped)
    }

    // The failure of words that are no command.
    pub(crate) fn usage<D: fmt::Display + Drop>(heap: Global, message: D) -> Failure {
        message
            .to_string(heap)
            .map_or(Failure::Memory, Failure::Usage)
    }

    // The failure of a line without an answer, told behind the place.
    pub(crate) fn unanswered(heap: Global, place: &str, no: NoAnswer) -> Failure {
        match no {
            NoAnswer::Refused(why) => Failure::stopped(heap, format_args!("{place}{why}")),
            NoAnswer::NoCall(why) => Failure::stopped(heap, format_args!("{place}{why}")),
            NoAnswer::Memory => Failure::Memory,
        }
    }
}

impl fmt::Display for Failure {
    fn fmt<W: fmt::Write>(&self, f: &mut fmt::Formatter<W>) -> fmt::Result {
        match self {
            Failure::Stopped(message) => write!(f, "{message}"),
            Failure::Usage(message) => write!(f, "{message}; `prefix help` lists the commands"),
            Failure::Memory => write!(f, "not enough memory"),
            Failure::Io(error) => write!(f, "{error}"),
        }
    }
}

impl Error for Failure {}

impl From<AllocError> for Failure {
    fn from(_: AllocError) -> Failure {
        Failure::Memory
    }
}

impl<T: Drop> From<AllocFailed<T>> for Failure {
    fn from(_: AllocFailed<T>) -> Failure {
        Failure::Memory
    }
}

impl From<io::Error> for Failure {
    fn from(error: io::Error) -> Failure {
        Failure::Io(error)
    }
}
