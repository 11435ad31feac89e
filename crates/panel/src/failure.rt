// Why a command has no reply.
use rows::refusal::Refusal;
use std::alloc::{AllocError, AllocFailed};
use std::fmt;

// What is wrong with a line.
#[derive(Clone, Copy, PartialEq, Eq, Debug)]
pub enum Mistake {
    NotText,
    Unknown,
    NotBytes,
    NotNumbers,
    NotPositions,
    NotFilter,
    NotUnit,
    NoPage,
    NoReader,
    NoMemory,
    TooMany,
}

impl fmt::Display for Mistake {
    fn fmt<W: fmt::Write>(&self, f: &mut fmt::Formatter<W>) -> fmt::Result {
        f.write_str(match self {
            Mistake::NotText => "not a line of text",
            Mistake::Unknown => "unknown command",
            Mistake::NotBytes => "not bytes in hexadecimal digits",
            Mistake::NotNumbers => "not the numbers that the command takes",
            Mistake::NotPositions => "not the positions that the command takes: ROOT:ROW:INDEX",
            Mistake::NotFilter => "not a filter: text or field",
            Mistake::NotUnit => "not a unit: character, word, line or paragraph",
            Mistake::NoPage => "no page is open",
            Mistake::NoReader => "no reader is open",
            Mistake::NoMemory => "no memory for such a buffer",
            Mistake::TooMany => "more words than the command takes",
        })
    }
}

#[derive(Drop)]
pub enum Failure {
    Mistake(Mistake),
    // what a call of the library declined with
    Refusal(Refusal),
    // the program ends
    OutOfMemory(AllocError),
}

impl From<Mistake> for Failure {
    fn from(mistake: Mistake) -> Failure {
        Failure::Mistake(mistake)
    }
}

impl From<Refusal> for Failure {
    fn from(refusal: Refusal) -> Failure {
        Failure::Refusal(refusal)
    }
}

impl From<AllocError> for Failure {
    fn from(error: AllocError) -> Failure {
        Failure::OutOfMemory(error)
    }
}

impl<T: Drop> From<AllocFailed<T>> for Failure {
    fn from(failed: AllocFailed<T>) -> Failure {
        Failure::OutOfMemory(AllocError::from(failed))
    }
}
