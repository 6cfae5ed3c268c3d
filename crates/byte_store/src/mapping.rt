//! The law on stores whose cells hold something else. It is the contract of a function that does nothing.

ghost use Rattle.byte_store.specs.MappingLaws.{OperationsAreNatural};

use crate::pointer::Cell;

/// Operations are natural: where the cells of a store hold `f` of what those of another hold, each operation finds and
/// leaves in the one what it finds and leaves in the other, `f` of each cell.
pub fn operations_are_natural<C: Cell, D: Cell>()
    ensures { (f : C → D) → OperationsAreNatural f }
{}
