//! Why a case has no other line.

use ps_base::{Fault, NoMemory, Place, Refusal};
use ps_pattern::PatternFault;
use std::alloc::{AllocError, AllocFailed};

/// Why a case has no other line.
#[derive(Clone, Copy, Debug, PartialEq, Eq)]
pub enum Trouble {
    /// The datum at this place of the cases is not what may stand there.
    Unread(Place),
    /// The cases are longer than is tried here.
    TooLong,
    /// The case is refused for this.
    Fault(Fault),
    /// Forms nest too deep to be shown.
    Deep,
    /// The rules are refused for this.
    Refused(PatternFault),
    /// Memory ran out.
    NoMemory,
}

impl From<AllocError> for Trouble {
    fn from(_e: AllocError) -> Trouble {
        Trouble::NoMemory
    }
}

impl<T: Drop> From<AllocFailed<T>> for Trouble {
    fn from(_e: AllocFailed<T>) -> Trouble {
        Trouble::NoMemory
    }
}

impl From<NoMemory> for Trouble {
    fn from(_e: NoMemory) -> Trouble {
        Trouble::NoMemory
    }
}

impl From<Refusal> for Trouble {
    fn from(e: Refusal) -> Trouble {
        match e {
            Refusal::Fault(fault) => Trouble::Fault(fault),
            Refusal::NoMemory => Trouble::NoMemory,
        }
    }
}

impl From<PatternFault> for Trouble {
    fn from(e: PatternFault) -> Trouble {
        match e {
            PatternFault::NoMemory => Trouble::NoMemory,
            _ => Trouble::Refused(e),
        }
    }
}
