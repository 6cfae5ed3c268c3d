//! What the machine holds.

use crate::values::RunValues;
use byte_store::{Events, Store, Value, World};
use ps_base::{Items, NoMemory, Op, Place, Prim};
use ps_kernel::{CaseKind, Expr, GroupEntry, Labelled};
use ps_meaning::{Bindings, RunValue};
use std::alloc::{AllocError, AllocFailed};

/// The values of definitions by their numbers, where they have one.
pub type RunGlobals = Items<Option<RunValue>>;

/// The state of a run.
#[derive(Drop)]
pub struct Machine {
    /// How many procedures may still be entered.
    pub calls: u64,
    /// The memory, of which no cell holds a procedure.
    pub store: Store<Value>,
    /// The values of definitions.
    pub globals: RunGlobals,
    /// The values of the locals in scope. The one that was bound last stands first.
    pub locals: Bindings,
    /// The input and the grants that are left.
    pub world: World,
    /// What was seen from outside so far.
    pub events: Events,
    /// The greatest depth so far.
    pub deepest: u64,
}

/// Why a run stops before it gives a value.
#[derive(Clone, Copy, Debug, PartialEq, Eq)]
pub enum Halt {
    /// No more procedures may be entered.
    Running,
    /// An operation has no meaning, for this cause, at this place.
    Undefined(Op, Place),
    /// A value of the wrong kind, at this place.
    Wrong(Place),
}

/// Why the machine goes no further.
#[derive(Clone, Copy, Debug, PartialEq, Eq)]
pub enum Trouble {
    /// Memory ran out.
    NoMemory,
    /// What is at this place is not evaluated.
    Unsupported(Place),
}

impl From<AllocError> for Trouble {
    fn from(_e: AllocError) -> Trouble {
        Trouble::NoMemory
    }
}

impl<T: Drop> From<AllocFailed<T>> for Trouble {
    fn from(_e: AllocFailed<T>) -> Trouble {
        Trouble::NoMemory
    }
}

impl From<NoMemory> for Trouble {
    fn from(_e: NoMemory) -> Trouble {
        Trouble::NoMemory
    }
}

/// What is done with the values of operands.
#[derive(Drop)]
pub enum Job {
    /// A procedure is entered at this depth, if this value is one.
    Enter(u64, RunValue),
    /// A primitive is performed.
    Perform(Prim),
}

/// What waits for a value. Each has the place of its node, where it needs one, and the depth that its expressions are evaluated
/// at.
#[derive(Drop)]
pub enum Frame<'a> {
    /// The expressions for true and for false.
    Branch(Place, &'a Expr, &'a Expr, u64),
    /// The kind and the branches of a case, and the expression where no branch has the value.
    Choice(Place, CaseKind, &'a [Labelled], &'a Expr, u64),
    /// A local, and where it is bound.
    Body(u32, &'a Expr, u64),
    /// So many locals that were bound last go.
    Unbound(usize),
    /// These are the locals again.
    Back(Bindings),
    /// The rest of a sequence.
    Rest(Place, &'a [Expr], u64),
    /// A definition, to which the value is assigned.
    Assigned(u32),
    /// A local, to which the value is assigned.
    Put(Place, u32),
    /// The depth of the procedure that is to be entered, and the operands of a call, whose operator is waited for.
    Operator(Place, u64, &'a [Expr], u64),
    /// A job, the values of the operands so far, and the operands behind the one that is waited for.
    Operands(Job, Place, RunValues, &'a [Expr], u64),
}

/// What reads or changes definitions or locals.
#[derive(Drop)]
pub enum Deed<'a> {
    /// The value of a definition is read.
    Fetch(Place, u32),
    /// A value is assigned to a definition.
    Assign(u32, RunValue),
    /// The value of a local is read.
    Look(Place, u32),
    /// A value is assigned to a local.
    Put(Place, u32, RunValue),
    /// The procedure of a lambda is made.
    Close(u32),
    /// A local is bound to a value, and an expression is then evaluated at a depth.
    Bind(u32, RunValue, &'a Expr, u64),
    /// The locals of a group are bound to procedures, and an expression is then evaluated at a depth.
    BindGroup(&'a [GroupEntry], &'a Expr, u64),
    /// So many locals that were bound last go, and a value is then given.
    Unbind(usize, RunValue),
    /// These are the locals, and a value is then given.
    PutBack(Bindings, RunValue),
}

/// What the machine does next.
#[derive(Drop)]
pub enum Control<'a> {
    /// An expression is evaluated, at a depth.
    Work(&'a Expr, u64),
    /// Definitions or locals are read or changed.
    Act(Deed<'a>),
    /// A job is done with these operands.
    Do(Job, Place, RunValues),
    /// The body of a procedure is evaluated, at a depth, where these are the locals.
    Inside(Bindings, &'a Expr, u64),
    /// A value is given to the frame on top.
    Give(RunValue),
    /// The run stops.
    Halted(Halt),
}
