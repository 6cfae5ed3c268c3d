//! What the machine holds.

ghost use Rattle.std.specs.Prelude.{◌<◌};
ghost use Rattle.byte_store.specs.Blocks.{next_number};

use byte_store::{Events, Store, Value, World};
use ps_base::{Items, Op, Place, Prim};
use ps_kernel::{CaseKind, Expr, Labelled};
use std::alloc::Allocator;

/// The state of a run but for the values of locals, which lie in the cells.
#[derive(Drop)]
pub struct Machine<A: Allocator> {
    /// How many procedures may still be entered.
    pub calls: u64,
    /// How many cells may still be made.
    pub cells: u64,
    /// The memory.
    pub store: Store<Value, A>,
    /// The values of definitions by their numbers, where they have one.
    pub globals: Items<Option<Value>>,
    /// The world, of which nothing is used at compile time.
    pub world: World,
    /// What was seen from outside: nothing at compile time.
    pub events: Events,
    // There is a number for one more block.
    ghost room: { next_number store.fixed < 4294967295 },
}

/// Why a run stops before it gives a value.
#[derive(Clone, Copy, Debug, PartialEq, Eq)]
pub enum Halt {
    /// No more procedures may be entered.
    Running,
    /// No more cells may be made.
    Cells,
    /// An operation has no meaning, for this cause, at this place.
    Undefined(Op, Place),
    /// A value of the wrong kind, at this place.
    Wrong(Place),
    /// What is at this place is for run time alone.
    RunOnly(Place),
}

/// What the values of operands are for.
#[derive(Clone, Copy, Debug, PartialEq, Eq)]
pub enum Job {
    /// The procedure of this lambda is entered.
    Enter(u32),
    /// A primitive is performed.
    Perform(Prim),
}

/// What waits for a value. Each has the place of its node, where it needs one.
#[derive(Clone, Copy)]
pub enum Waiting<'a> {
    /// The expressions for true and for false.
    Branch(Place, &'a Expr, &'a Expr),
    /// The kind and the branches of a case, and the expression where no branch has the value.
    Choice(Place, CaseKind, &'a [Labelled], &'a Expr),
    /// A local, and where it is bound.
    Body(u32, &'a Expr),
    /// The rest of a sequence.
    Rest(Place, &'a [Expr]),
    /// A definition, to which the value is assigned.
    Assigned(u32),
    /// A local, to which the value is assigned.
    Put(Place, u32),
    /// A job, which is done with the values of the operands above.
    Gather(Job, Place),
    /// The value of an operand.
    Operand(Value),
    /// The operands behind the one that is waited for.
    Operands(&'a [Expr]),
}

/// What the machine does next.
#[derive(Clone, Copy)]
pub enum Control<'a> {
    /// An expression is evaluated.
    Work(&'a Expr),
    /// A value is given to what waits on top.
    Give(Value),
    /// The operands on top are taken off, the last first, for what they are for.
    Take,
    /// The run stops.
    Halted(Halt),
}

/// How a part of a run ends.
#[derive(Clone, Copy, Debug, PartialEq, Eq)]
pub enum Ending {
    /// It has a value.
    Gave(Value),
    /// The run stops.
    Halted(Halt),
}

/// Where a machine stops that has come to what no run comes to.
pub const NOWHERE: Place = Place {
    file: 0,
    line: 1,
    column: 1,
};
