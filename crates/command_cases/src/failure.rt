//! Why the cases end before the last.

use ps_base::{NoMemory, SinkFault};
use std::alloc::{AllocError, AllocFailed};

/// Why the cases end before the last.
#[derive(Clone, Copy, Debug, PartialEq, Eq)]
pub enum Failure {
    /// What was read is no case.
    NoCase,
    /// Memory ran out.
    NoMemory,
    /// The output failed.
    Sink,
}

impl From<NoMemory> for Failure {
    fn from(_e: NoMemory) -> Failure {
        Failure::NoMemory
    }
}

impl From<AllocError> for Failure {
    fn from(_e: AllocError) -> Failure {
        Failure::NoMemory
    }
}

impl<T: Drop> From<AllocFailed<T>> for Failure {
    fn from(_e: AllocFailed<T>) -> Failure {
        Failure::NoMemory
    }
}

impl From<SinkFault> for Failure {
    fn from(_e: SinkFault) -> Failure {
        Failure::Sink
    }
}
