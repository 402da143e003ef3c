use crate::call::NoCall;
use crate::refused::Refused;
use std::alloc::{AllocError, AllocFailed};

// Why a line of a sheet script does not get what it asks for.
#[derive(Clone, Copy, Debug, PartialEq, Eq)]
pub enum NoAnswer<'a> {
    Refused(Refused),
    NoCall(NoCall<'a>),
    Memory,
}

impl From<Refused> for NoAnswer<'_> {
    fn from(refused: Refused) -> Self {
        NoAnswer::Refused(refused)
    }
}

impl<'a> From<NoCall<'a>> for NoAnswer<'a> {
    fn from(no: NoCall<'a>) -> Self {
        NoAnswer::NoCall(no)
    }
}

impl From<AllocError> for NoAnswer<'_> {
    fn from(_: AllocError) -> Self {
        NoAnswer::Memory
    }
}

impl<T: Drop> From<AllocFailed<T>> for NoAnswer<'_> {
    fn from(_: AllocFailed<T>) -> Self {
        NoAnswer::Memory
    }
}
