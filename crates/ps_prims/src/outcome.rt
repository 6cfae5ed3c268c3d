//! What came of a primitive.

ghost use Rattle.std.specs.Prelude.{◌≡◌};
ghost use Rattle.ps_prims.specs.InsideFaults.{fault_out};

use byte_store::{StoreFault, Value};
use ps_base::Op;

/// What came of a primitive.
#[derive(Clone, Copy, Debug, PartialEq, Eq)]
pub enum PrimOut {
    /// It was performed, and answers this.
    Value(Value),
    /// It has no meaning for its operands, for this cause. Nothing was changed.
    Undefined(Op),
    /// The number or the sorts of its operands are not those that it takes. Nothing was changed.
    Wrong,
    /// Memory for a block, a copy or the list of events ran out. Nothing was changed.
    NoMemory,
}

/// What comes of the fault of a store.
pub fn fault_out(fault: StoreFault) -> PrimOut
    ensures { result ≡ fault_out fault }
{
    match fault {
        StoreFault::Undefined(op) => PrimOut::Undefined(op),
        StoreFault::NoMemory => PrimOut::NoMemory,
    }
}
