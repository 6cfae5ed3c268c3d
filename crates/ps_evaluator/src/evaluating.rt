//! The evaluation of programs.

ghost use Rattle.std.specs.Prelude.{◌≡◌, IfOk};
ghost use Rattle.ps_kernel.specs.declared.kernel.Kernel.{Kernel as KernelSpec};
ghost use Rattle.ps_prims.specs.Kinds.{AreKinds};
ghost use Rattle.ps_runs.specs.Effects.{defined_in};
ghost use Rattle.ps_runs.specs.Ends.{end_of as run_end};
ghost use Rattle.ps_meaning.specs.Source.{Source};
ghost use Rattle.ps_evaluator.specs.Evaluating.{ComesTo, end_of};
ghost use Rattle.ps_evaluator.specs.InsideEvaluating.{Begins, IsSeen, result_of};
ghost use Rattle.ps_evaluator.specs.InsideMachine.{halt_of};

use crate::kinds::are_kinds;
use crate::machine::{Control, Halt, Job, Machine, Trouble};
use crate::programs::{main_place, run_globals};
use crate::run::{Ending, run};
use crate::values::copied_value;
use byte_store::{Events, Store, Value, World};
use ps_base::{Items, NoMemory, Op, Place};
use ps_kernel::Kernel;
use ps_meaning::RunValue;
use std::alloc::Global;

/// How a program ends.
#[derive(Clone, Copy, Debug, PartialEq, Eq)]
pub enum Ended {
    /// `main` returned this integer.
    Returned(i64),
    /// So many procedures as may be entered were entered, and it was still running.
    Running,
    /// An operation has no meaning, for this cause, at this place.
    Undefined(Op, Place),
    /// A value of the wrong kind, at this place.
    Wrong(Place),
}

/// What a program did, and how it ended.
#[derive(Debug, Drop)]
pub struct Finish {
    /// What was seen from outside, in order.
    pub events: Events,
    /// The greatest depth at which a procedure was entered.
    pub depth: u64,
    /// How it ended.
    pub end: Ended,
}

/// What came of an evaluation.
#[derive(Debug, Drop)]
pub enum Evaluated {
    /// The program came to its end.
    Finished(Finish),
    /// There were no more turns.
    Unfinished,
    /// What is at this place is not evaluated: a primitive with a procedure as an operand, a call nested 2^64 deep, or one more
    /// block than there are numbers; or, at the place of `main`, a kernel with a kind of records without fields, or whose maker
    /// does not name each field once.
    Unsupported(Place),
}

// The call of `main`.
fn main_call<'a>(
    alloc: Global,
    at: Place,
    main: u32,
    globals: &[Option<RunValue>],
) -> Result<Control<'a>, NoMemory>
    ensures { (k : KernelSpec) → IfOk result (λ c. Begins k at (defined_in main globals.now) c) }
{
    match globals.get(main as usize) {
        Some(Some(v)) => {
            let procedure = copied_value(alloc, v)?;
            Ok(Control::Do(Job::Enter(0, procedure), at, Items::new(alloc)))
        }
        Some(None) => Ok(Control::Halted(Halt::Wrong(at))),
        None => Ok(Control::Halted(Halt::Wrong(at))),
    }
}

// How a program ends that gives a value.
fn returned(at: Place, value: RunValue) -> Ended
    ensures { end_of result ≡ result_of at value }
{
    match value {
        RunValue::Plain(Value::Integer(i)) => Ended::Returned(i),
        RunValue::Plain(_) => Ended::Wrong(at),
        RunValue::Procedure(_, _) => Ended::Wrong(at),
    }
}

// How a program ends that stops before.
fn stopped(halt: Halt) -> Ended
    ensures { end_of result ≡ run_end (halt_of halt) }
{
    match halt {
        Halt::Running => Ended::Running,
        Halt::Undefined(op, at) => Ended::Undefined(op, at),
        Halt::Wrong(at) => Ended::Wrong(at),
    }
}

// What came of a run of the machine.
fn finished(at: Place, ending: Ending, machine: Machine) -> Evaluated
    ensures { IsSeen at ending machine result }
{
    let end = match ending {
        Ending::Gave(v) => returned(at, v),
        Ending::Halted(h) => stopped(h),
        Ending::Unfinished => return Evaluated::Unfinished,
    };
    Evaluated::Finished(Finish {
        events: machine.events,
        depth: machine.deepest,
        end,
    })
}

/// Evaluates the program of a kernel whose definitions and memory have these values and blocks after its top-level forms, in
/// a world, where so many procedures may be entered, `main` included. It takes at most so many turns of the evaluator.
///
/// A finished evaluation has the end, the depth and the events that the program has by the meaning of sources. `Unfinished`
/// comes where the turns were not enough, and `Unsupported` where the evaluator does not know what the program asks for.
///
/// # Errors
///
/// `NoMemory` where memory runs out.
pub fn evaluate(
    alloc: Global,
    kernel: &Kernel,
    globals: &[Option<Value>],
    store: Store<Value>,
    world: World,
    calls: u64,
    turns: u64,
) -> Result<Evaluated, NoMemory>
    ensures { IfOk result (λ r. ComesTo r (Source (record { kernel = kernel.now; globals = globals.now; memory = store }) world calls)) }
{
    let at = main_place(kernel);
    if !are_kinds(kernel.kinds.as_slice()) {
        return Ok(Evaluated::Unsupported(at));
    }
    let globals = run_globals(alloc, kernel, globals)?;
    let start = main_call(alloc, at, kernel.main, globals.as_slice())?;
    let locals = Items::new(alloc);
    let events = Items::new(alloc);
    let mut machine = Machine {
        calls,
        store,
        globals,
        locals,
        world,
        events,
        deepest: 0,
    };
    match run(alloc, kernel, start, &mut machine, turns) {
        Ok(ending) => Ok(finished(at, ending, machine)),
        Err(Trouble::Unsupported(place)) => Ok(Evaluated::Unsupported(place)),
        Err(Trouble::NoMemory) => Err(NoMemory),
    }
}
