//! Why a store makes no block.

use ps_base::Op;
use std::alloc::AllocError;

/// Why a store makes no block.
#[derive(Clone, Copy, Debug, PartialEq, Eq)]
pub enum StoreFault {
    /// The operation has no meaning, for this cause.
    Undefined(Op),
    /// Memory for the block ran out.
    NoMemory,
}

impl From<AllocError> for StoreFault {
    ghost use Rattle.std.specs.Prelude.{◌≡◌};
    ghost use Rattle.byte_store.specs.declared.fault.StoreFault.TheVariants as fault;

    ghost from_gives = { λ _ r. r ≡ fault.NoMemory };

    fn from(_e: AllocError) -> StoreFault {
        StoreFault::NoMemory
    }
}
