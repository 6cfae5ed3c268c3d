//! What each kind of statement does.

ghost use Rattle.std.specs.Prelude.{◌≡◌, ◌+◌, ◌<◌, ◌^◌, [], ◌∷◌, ◌++◌, length, drop, MatchOption, MatchResult, Some, None, slice_set};
ghost use Rattle.std.specs.List.{AllByRecursion};
ghost use Rattle.c_meaning.specs.Machine.{after_label, is_label, body_of};
ghost use Rattle.c_meaning.specs.InsideSteps.{HasTarget, PerformsAnywhere, PerformsQuietly, Reads, Writes, Jumps, Leaves};

use crate::machine::{CState, StepOut};
use crate::stack::Waiting;
use crate::values::{are_assigned, byte, operate, value_of, variables_of_call};
use byte_store::{Event, Events, World};
use c_ast::{Atom, BinaryOperator, CUnit, Statement};
use ps_base::{Items, NoMemory, Op};
use std::mem;

// Assigns a variable, and goes on with the next statement.
fn assign(state: &mut CState, variable: u32, value: i64)
    requires declared { variable < length state.old.locals }
    requires next { state.old.next + 1 < 2 ^ 64 }
    ensures { state.new ≡ record state.old { locals = slice_set state.old.locals variable (Some value); next = state.old.next + 1 } }
{
    state.locals.set(variable as usize, Some(value));
    state.next += 1;
}

// Assigns what an atom stands for.
pub fn perform_move(state: &mut CState, variable: u32, atom: Atom) -> StepOut
    requires declared { variable < length state.old.locals }
    requires next { state.old.next + 1 < 2 ^ 64 }
    ensures { PerformsAnywhere result (Statement.Move variable atom) state.old state.new }
{
    let Some(i) = value_of(state.locals.as_slice(), atom) else {
        return StepOut::Stuck(Op::Unset);
    };
    assign(state, variable, i);
    StepOut::Going
}

// Assigns the result of an operator.
pub fn perform_operation(
    state: &mut CState,
    variable: u32,
    left: Atom,
    operator: BinaryOperator,
    right: Atom,
) -> StepOut
    requires declared { variable < length state.old.locals }
    requires next { state.old.next + 1 < 2 ^ 64 }
    ensures { PerformsAnywhere result (Statement.Operation variable left operator right) state.old state.new }
{
    let Some(i) = value_of(state.locals.as_slice(), left) else {
        return StepOut::Stuck(Op::Unset);
    };
    let Some(j) = value_of(state.locals.as_slice(), right) else {
        return StepOut::Stuck(Op::Unset);
    };
    let Some(n) = operate(operator, i, j) else {
        return StepOut::Stuck(Op::Overflow);
    };
    assign(state, variable, n);
    StepOut::Going
}

// Assigns the next byte of the input, and takes it once there is memory for the event.
pub fn perform_read(
    state: &mut CState,
    world: &mut World,
    events: &mut Events,
    variable: u32,
) -> StepOut
    requires declared { variable < length state.old.locals }
    requires next { state.old.next + 1 < 2 ^ 64 }
    ensures { Reads result variable state.old state.new world.old world.new events.old events.new }
{
    if events.push(Event::Input(world.peek())).is_err() {
        return StepOut::NoMemory;
    }
    let byte = world.read();
    assign(state, variable, byte);
    StepOut::Going
}

// Writes a byte, and assigns 0.
pub fn perform_write(state: &mut CState, events: &mut Events, variable: u32, atom: Atom) -> StepOut
    requires declared { variable < length state.old.locals }
    requires next { state.old.next + 1 < 2 ^ 64 }
    ensures { Writes result variable atom state.old state.new events.old events.new }
{
    let Some(i) = value_of(state.locals.as_slice(), atom) else {
        return StepOut::Stuck(Op::Unset);
    };
    let Some(b) = byte(i) else {
        return StepOut::Stuck(Op::Byte);
    };
    if events.push(Event::Output(b)).is_err() {
        return StepOut::NoMemory;
    }
    assign(state, variable, 0);
    StepOut::Going
}

// A function is entered with these variables, once there is memory for the frame that waits.
fn enter(
    state: &mut CState,
    target: u32,
    function: u32,
    locals: Items<Option<i64>>,
) -> Result<(), NoMemory>
    requires { state.old.next + 1 < 2 ^ 64 }
    ensures { MatchResult result
        (λ done. state.new ≡ record { function = function; locals = locals; next = 0; callers = state.old.callers ++ record { function = state.old.function; locals = state.old.locals; next = state.old.next + 1; target = target } ∷ [] })
        (λ e. state.new ≡ state.old) }
{
    state.callers.reserve(1)?;
    let waiting = Waiting {
        function: state.function,
        locals: mem::replace(&mut state.locals, locals),
        next: state.next + 1,
        target,
    };
    state.callers.push_reserved(waiting);
    state.function = function;
    state.next = 0;
    Ok(())
}

// Calls a function. Its frame is made of the values of the arguments, and the frame that runs waits.
pub fn perform_call(
    unit: &CUnit,
    state: &mut CState,
    target: u32,
    function: u32,
    arguments: &[u32],
) -> StepOut
    requires { state.old.next + 1 < 2 ^ 64 }
    ensures { PerformsQuietly result unit.now (Statement.Call target function arguments.now) state.old state.new }
{
    if !are_assigned(state.locals.as_slice(), arguments) {
        return StepOut::Stuck(Op::Unset);
    }
    let Some(callee) = unit.functions.get(function as usize) else {
        return StepOut::Stuck(Op::Unset);
    };
    let locals = state.locals.as_slice();
    let Ok(locals) = variables_of_call(state.alloc, locals, arguments, callee.locals) else {
        return StepOut::NoMemory;
    };
    match enter(state, target, function, locals) {
        Ok(()) => StepOut::Going,
        Err(NoMemory) => StepOut::NoMemory,
    }
}

// The statements of a function.
pub fn body(unit: &CUnit, function: u32) -> &[Statement]
    ensures { result.now ≡ body_of unit.now function }
{
    match unit.functions.get(function as usize) {
        Some(function) => function.statements.as_slice(),
        None => &[],
    }
}

// The place behind a label.
fn behind_label(statements: &[Statement], label: u32) -> Option<usize>
    ensures { MatchOption result (after_label label statements.now ≡ None) (λ place. after_label label statements.now ≡ Some (drop place statements.now)) }
{
    for (i, statement) in statements.iter().enumerate() {
        if is_label(statement, label) {
            return Some(i + 1);
        }
    }
    None
}

fn is_label(statement: &Statement, label: u32) -> bool
    ensures { result ≡ is_label label statement.now }
{
    match statement {
        Statement::Label(number) => *number == label,
        Statement::Move(_, _) => false,
        Statement::Operation(_, _, _, _) => false,
        Statement::Read(_) => false,
        Statement::Write(_, _) => false,
        Statement::Call(_, _, _) => false,
        Statement::IfGoto(_, _) => false,
        Statement::Goto(_) => false,
        Statement::Return(_) => false,
    }
}

// Goes on behind a label of the function that runs.
fn jump(unit: &CUnit, state: &mut CState, label: u32) -> StepOut
    ensures { Jumps result unit.now label state.old state.new }
{
    match behind_label(body(unit, state.function), label) {
        Some(place) => {
            state.next = place;
            StepOut::Going
        }
        None => StepOut::Stuck(Op::Unset),
    }
}

// Jumps where an atom is not 0.
pub fn perform_if_goto(unit: &CUnit, state: &mut CState, atom: Atom, label: u32) -> StepOut
    requires { state.old.next + 1 < 2 ^ 64 }
    ensures { PerformsQuietly result unit.now (Statement.IfGoto atom label) state.old state.new }
{
    let Some(i) = value_of(state.locals.as_slice(), atom) else {
        return StepOut::Stuck(Op::Unset);
    };
    if i != 0 {
        return jump(unit, state, label);
    }
    state.next += 1;
    StepOut::Going
}

// Jumps.
pub fn perform_goto(unit: &CUnit, state: &mut CState, label: u32) -> StepOut
    ensures { PerformsQuietly result unit.now (Statement.Goto label) state.old state.new }
{
    jump(unit, state, label)
}

// Passes a label.
pub fn perform_label(state: &mut CState, label: u32) -> StepOut
    requires { state.old.next + 1 < 2 ^ 64 }
    ensures { PerformsAnywhere result (Statement.Label label) state.old state.new }
{
    state.next += 1;
    StepOut::Going
}

// The frame that waited goes on with the value of its call.
fn resume(state: &mut CState, waiting: Waiting, value: i64)
    requires { waiting.target < length waiting.locals }
    ensures { state.new ≡ record state.old { function = waiting.function; locals = slice_set waiting.locals waiting.target (Some value); next = waiting.next } }
{
    let Waiting {
        function,
        mut locals,
        next,
        target,
    } = waiting;
    locals.set(target as usize, Some(value));
    state.function = function;
    state.locals = locals;
    state.next = next;
}

// Ends a call with its value, or the run where no frame waits.
fn leave(state: &mut CState, value: i64) -> StepOut
    requires { AllByRecursion HasTarget state.old.callers }
    ensures { Leaves result value state.old state.new }
{
    match state.callers.pop() {
        None => StepOut::Returned(value),
        Some(waiting) => {
            resume(state, waiting, value);
            StepOut::Going
        }
    }
}

// Ends a call with what an atom stands for.
pub fn perform_return(state: &mut CState, atom: Atom) -> StepOut
    requires { AllByRecursion HasTarget state.old.callers }
    ensures { PerformsAnywhere result (Statement.Return atom) state.old state.new }
{
    match value_of(state.locals.as_slice(), atom) {
        None => StepOut::Stuck(Op::Unset),
        Some(i) => leave(state, i),
    }
}
