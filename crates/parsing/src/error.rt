ghost use Rattle.std.specs.Prelude.{◌≡◌};
ghost use Rattle.parsing.specs.Errors.{no_memory, refused_with};

use font::refusal::Refusal;
use std::alloc::{AllocError, AllocFailed};

// Why a file was not read.
#[derive(Debug, Drop, PartialEq)]
pub enum ReadError {
    NotUtf8,
    // A line, counted from 1, that is not what it should be.
    Line(usize),
    Refused(Refusal),
    Memory,
}

impl From<Refusal> for ReadError {
    ghost from_gives = { λ refusal r. r ≡ refused_with refusal };

    fn from(refusal: Refusal) -> ReadError {
        ReadError::Refused(refusal)
    }
}

impl From<AllocError> for ReadError {
    ghost from_gives = { λ e r. r ≡ no_memory };

    fn from(_error: AllocError) -> ReadError {
        ReadError::Memory
    }
}

impl<T: Drop> From<AllocFailed<T>> for ReadError {
    ghost from_gives = { λ e r. r ≡ no_memory };

    fn from(_full: AllocFailed<T>) -> ReadError {
        ReadError::Memory
    }
}
