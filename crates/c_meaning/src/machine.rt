//! The machine that runs a unit.

ghost use Rattle.std.specs.Prelude.{◌≡◌, ◌+◌, ◌<◌, ◌^◌, length, slice_get, Some, IfOk};
ghost use Rattle.std.specs.List.{AllByRecursion};
ghost use Rattle.c_ast.specs.WellFormed.{IsWellFormed};
ghost use Rattle.c_meaning.specs.Steps.{Stands, starts_at, Steps};
ghost use Rattle.c_meaning.specs.InsideSteps.{HasTarget, NamesOwn, Performs};

use crate::perform::{
    body, perform_call, perform_goto, perform_if_goto, perform_label, perform_move,
    perform_operation, perform_read, perform_return, perform_write,
};
use crate::stack::Waiting;
use byte_store::{Events, World};
use c_ast::{CUnit, Statement};
use ps_base::{Items, NoMemory, Op};
use std::alloc::Global;
use std::marker::Model;

/// The state of a run between two statements. Contracts see the function that runs, its variables, each with its value where
/// it was assigned, the place of its next statement, and the frames that wait.
#[derive(Debug, Drop)]
pub struct CState {
    pub(crate) alloc: Global,
    pub(crate) function: u32,
    pub(crate) locals: Items<Option<i64>>,
    pub(crate) next: usize,
    pub(crate) callers: Vec<Waiting>,
}

impl Model for CState {
    ghost use Rattle.c_meaning.specs.Stack.{Stack};

    ghost Value = { Stack };

    ghost view = { λ s. record { function = s.function; locals = s.locals; next = s.next; callers = s.callers.items } };
}

/// What a step did.
#[derive(Clone, Copy, Debug, PartialEq, Eq)]
pub enum StepOut {
    /// The statement was performed, and the run goes on.
    Going,
    /// The first function returned this.
    Returned(i64),
    /// The statement has no meaning in this state: `Unset` where it reads a variable that was never assigned,
    /// `Overflow` where its result has no 64 bits, and `Byte` where it writes what is no byte.
    Stuck(Op),
    /// Memory for the list of events or for a frame ran out, at a statement that would read or write a byte, or call a
    /// function.
    NoMemory,
}

impl CState {
    /// The state before the first statement of the first function, where no variable is set. The unit must be well formed.
    ///
    /// # Errors
    ///
    /// `NoMemory` where memory for the variables runs out.
    pub fn start(alloc: Global, unit: &CUnit) -> Result<CState, NoMemory>
        requires { IsWellFormed unit.now }
        ensures first { IfOk result (λ state. state ≡ starts_at unit.now) }
        ensures stands { IfOk result (λ state. Stands unit.now state) }
    {
        let unset = match unit.functions.get(0) {
            Some(function) => function.locals,
            None => 0,
        };
        let locals = vec![in alloc; None; unset as usize]?;
        Ok(CState {
            alloc,
            function: 0,
            locals: Items::from_vec(locals),
            next: 0,
            callers: Vec::new(alloc),
        })
    }

    /// How many frames wait for the end of a call.
    pub fn waiting(&self) -> usize
        ensures { result ≡ length self.now.callers }
    {
        self.callers.len()
    }
}

// The statement at a place. The place behind it has 64 bits, since a list has fewer items than memory has addresses.
fn statement_at(statements: &[Statement], place: usize) -> &Statement
    requires { place < length statements.now }
    ensures statement { slice_get statements.now place ≡ Some result.now }
    ensures next { place + 1 < 2 ^ 64 }
{
    &statements[place]
}

// Performs one statement of the function that runs.
fn perform(
    unit: &CUnit,
    state: &mut CState,
    world: &mut World,
    events: &mut Events,
    statement: &Statement,
) -> StepOut
    requires declared { NamesOwn state.old.locals statement.now }
    requires next { state.old.next + 1 < 2 ^ 64 }
    requires targets { AllByRecursion HasTarget state.old.callers }
    ensures { Performs result unit.now statement.now state.old state.new world.old world.new events.old events.new }
{
    match statement {
        Statement::Move(variable, atom) => perform_move(state, *variable, *atom),
        Statement::Operation(variable, left, operator, right) => {
            perform_operation(state, *variable, *left, *operator, *right)
        }
        Statement::Read(variable) => perform_read(state, world, events, *variable),
        Statement::Write(variable, atom) => perform_write(state, events, *variable, *atom),
        Statement::Call(target, function, arguments) => {
            perform_call(unit, state, *target, *function, arguments.as_slice())
        }
        Statement::IfGoto(atom, label) => perform_if_goto(unit, state, *atom, *label),
        Statement::Goto(label) => perform_goto(unit, state, *label),
        Statement::Label(label) => perform_label(state, *label),
        Statement::Return(atom) => perform_return(state, *atom),
    }
}

/// Performs one statement of the unit that the state was started for.
///
/// `Returned`, `Stuck` and `NoMemory` leave the state, the world and the events as they were, so that a further call answers
/// the same, or goes on once there is memory.
pub fn step(unit: &CUnit, state: &mut CState, world: &mut World, events: &mut Events) -> StepOut
    requires { Stands unit.now state.old }
    ensures steps { Steps result unit.now state.old state.new world.old world.new events.old events.new }
    ensures stands { Stands unit.now state.new }
{
    let statement = statement_at(body(unit, state.function), state.next);
    perform(unit, state, world, events, statement)
}
