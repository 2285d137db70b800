use crate::meaning::{fault_meaning, refusal_meaning, source_meaning};
use asking::usage::UsageError;
use font::refusal::Refusal as SourceRefusal;
use layout::fault::TableFault;
use paragraph::refusal::Refusal;
use pick::refusal::Refusal as PickRefusal;
use shaping::refusal::Refusal as ShapingRefusal;
use std::alloc::{AllocError, AllocFailed, Global};
use std::{fmt, io};

// Why the program ends with status 1: a line for standard error.
#[derive(Drop)]
pub enum Failure {
    // A source refused, with a number.
    Source(SourceRefusal),
    // Shaping or a paragraph refused, with a number.
    Refused(Refusal),
    // A table has a fault.
    Fault(TableFault),
    // The words of the call are off, or a file can't be read or isn't what it should be.
    Sentence(String),
    // A call of a paragraph was answered as none of its kind is.
    Unanswered,
    Memory,
    Output(io::Error),
}

impl Failure {
    // The words of the call are off.
    pub fn usage(heap: Global, error: UsageError) -> Failure {
        match format!(in heap; "{error} (mitqorad --help says more)") {
            Ok(sentence) => Failure::Sentence(sentence),
            Err(error) => Failure::from(error),
        }
    }
}

impl From<SourceRefusal> for Failure {
    fn from(refusal: SourceRefusal) -> Failure {
        Failure::Source(refusal)
    }
}

impl From<ShapingRefusal> for Failure {
    fn from(refusal: ShapingRefusal) -> Failure {
        Failure::Refused(Refusal::from(refusal))
    }
}

impl From<PickRefusal> for Failure {
    fn from(refusal: PickRefusal) -> Failure {
        match refusal {
            PickRefusal::Ends => Failure::Refused(Refusal::Ends),
            PickRefusal::Room => Failure::Refused(Refusal::Room),
        }
    }
}

impl From<TableFault> for Failure {
    fn from(fault: TableFault) -> Failure {
        Failure::Fault(fault)
    }
}

impl From<AllocError> for Failure {
    fn from(_error: AllocError) -> Failure {
        Failure::Memory
    }
}

impl<T: Drop> From<AllocFailed<T>> for Failure {
    fn from(_full: AllocFailed<T>) -> Failure {
        Failure::Memory
    }
}

impl From<io::Error> for Failure {
    fn from(error: io::Error) -> Failure {
        Failure::Output(error)
    }
}

impl fmt::Display for Failure {
    fn fmt<W: fmt::Write>(&self, f: &mut fmt::Formatter<W>) -> fmt::Result {
        match self {
            Failure::Source(refusal) => {
                let meaning = source_meaning(refusal);
                write!(f, "{refusal}: {meaning}")
            }
            Failure::Refused(refusal) => {
                let number = refusal.number();
                let meaning = refusal_meaning(*refusal);
                write!(f, "refused {number}: {meaning}")
            }
            Failure::Fault(fault) => {
                let meaning = fault_meaning(fault);
                write!(f, "{fault}: {meaning}")
            }
            Failure::Sentence(sentence) => write!(f, "mitqorad: {sentence}"),
            Failure::Unanswered => write!(f, "mitqorad: a call of the paragraph was not answered"),
            Failure::Memory => write!(f, "mitqorad: out of memory"),
            Failure::Output(error) => write!(f, "mitqorad: cannot write: {error}"),
        }
    }
}
