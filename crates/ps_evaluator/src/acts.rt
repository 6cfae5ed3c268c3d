//! The turns of the machine that do a job: a procedure is entered, or a primitive performed.

ghost use Rattle.std.specs.Prelude.{◌≡◌, ◌≤◌, ◌<◌, List, map, length, IfOk, IsTrue};
ghost use Rattle.ps_base.specs.Limits.{most_numbered};
ghost use Rattle.ps_prims.specs.declared.stages.Stage.TheVariants.{Run as AtRun};
ghost use Rattle.ps_prims.specs.Kinds.{AreKinds};
ghost use Rattle.ps_prims.specs.Sorts.{first_order};
ghost use Rattle.ps_prims.specs.Rows.{row};
ghost use Rattle.ps_meaning.specs.declared.values.RunValue.TheVariants.{Plain};
ghost use Rattle.ps_meaning.specs.Values.{run_values};
ghost use Rattle.ps_meaning.specs.Eval.{belongs, operation, run_entering};
ghost use Rattle.ps_evaluator.specs.declared.machine.Control.TheVariants.{Do};
ghost use Rattle.ps_evaluator.specs.declared.machine.Frame.{Frame as FrameSpec};
ghost use Rattle.ps_evaluator.specs.InsideMachine.{Becomes, Same};

use crate::closures::entered;
use crate::machine::{Control, Halt, Job, Machine, Trouble};
use crate::values::{RunValues, plain_values};
use byte_store::{Base, Pointer, Store, Value};
use ps_base::{Op, Place, Prim};
use ps_kernel::Kernel;
use ps_meaning::RunValue;
use ps_prims::{PrimOut, Stage, Stages, perform, stages_of};
use std::alloc::Global;

// A procedure is entered, if the value is one that takes so many operands, and if a call is left.
fn enter<'a>(
    alloc: Global,
    kernel: &'a Kernel,
    depth: u64,
    at: Place,
    procedure: &RunValue,
    operands: &[RunValue],
    machine: &mut Machine,
) -> Result<Control<'a>, Trouble>
    ensures same { IfOk result (λ c. Becomes kernel.now (λ f. run_entering kernel.now f depth at procedure.now operands.now) machine.old c machine.new) }
    ensures falls { machine.new.calls ≤ machine.old.calls }
{
    let RunValue::Procedure(lambda, kept) = procedure else {
        return Ok(Control::Halted(Halt::Wrong(at)));
    };
    let Some(m) = kernel.lambdas.get(*lambda as usize) else {
        return Ok(Control::Halted(Halt::Wrong(at)));
    };
    if m.parameters.len() != operands.len() {
        return Ok(Control::Halted(Halt::Wrong(at)));
    }
    if machine.calls == 0 {
        return Ok(Control::Halted(Halt::Running));
    }
    let locals = entered(alloc, kernel, *lambda, m, kept.as_slice(), operands)?;
    machine.calls -= 1;
    machine.deepest = machine.deepest.max(depth);
    Ok(Control::Inside(locals, &m.body, depth))
}

// Whether there is a number for one more made block.
fn has_room(store: &Store<Value>) -> bool
    ensures { IsTrue result → length store.now.made < most_numbered }
{
    let last = Pointer::At(Base::Made(4_294_967_294), 0);
    store.move_by(last, 0) == Err(Op::Bounds)
}

// A primitive is performed whose row belongs to run time.
fn perform_row<'a>(
    alloc: Global,
    kernel: &Kernel,
    p: Prim,
    at: Place,
    operands: &[Value],
    machine: &mut Machine,
) -> Result<Control<'a>, Trouble>
    requires kinds { AreKinds kernel.now.kinds }
    requires belongs { IsTrue (belongs (row first_order kernel.now.kinds p).stages AtRun) }
    ensures same { IfOk result (λ c. Becomes kernel.now (λ f. operation kernel.now AtRun run_values at p (map Plain operands.now)) machine.old c machine.new) }
    ensures falls { machine.new.calls ≡ machine.old.calls }
{
    if !has_room(&machine.store) {
        return Err(Trouble::Unsupported(at));
    }
    let (store, world, events) = (&mut machine.store, &mut machine.world, &mut machine.events);
    match perform(
        alloc,
        p,
        operands,
        Stage::Run,
        &kernel.kinds,
        store,
        world,
        events,
    ) {
        PrimOut::Value(v) => Ok(Control::Give(RunValue::Plain(v))),
        PrimOut::Undefined(op) => Ok(Control::Halted(Halt::Undefined(op, at))),
        PrimOut::Wrong => Ok(Control::Halted(Halt::Wrong(at))),
        PrimOut::NoMemory => Err(Trouble::NoMemory),
    }
}

// A primitive is performed, if it belongs to run time.
fn perform_plain<'a>(
    alloc: Global,
    kernel: &Kernel,
    p: Prim,
    at: Place,
    operands: &[Value],
    machine: &mut Machine,
) -> Result<Control<'a>, Trouble>
    requires kinds { AreKinds kernel.now.kinds }
    ensures same { IfOk result (λ c. Becomes kernel.now (λ f. operation kernel.now AtRun run_values at p (map Plain operands.now)) machine.old c machine.new) }
    ensures falls { machine.new.calls ≡ machine.old.calls }
{
    match stages_of(p) {
        Stages::Both => perform_row(alloc, kernel, p, at, operands, machine),
        Stages::RunOnly => perform_row(alloc, kernel, p, at, operands, machine),
        Stages::CompileOnly => Ok(Control::Halted(Halt::Wrong(at))),
    }
}

// A primitive is performed, whose operands must be values of first order: a procedure as an operand is not supported.
fn operate<'a>(
    alloc: Global,
    kernel: &Kernel,
    p: Prim,
    at: Place,
    operands: &[RunValue],
    machine: &mut Machine,
) -> Result<Control<'a>, Trouble>
    requires kinds { AreKinds kernel.now.kinds }
    ensures same { IfOk result (λ c. Becomes kernel.now (λ f. operation kernel.now AtRun run_values at p operands.now) machine.old c machine.new) }
    ensures falls { machine.new.calls ≡ machine.old.calls }
{
    let values = plain_values(alloc, operands)?;
    match values {
        Some(plain) => perform_plain(alloc, kernel, p, at, plain.as_slice(), machine),
        None => Err(Trouble::Unsupported(at)),
    }
}

/// What the operands are for is done.
pub fn act<'a>(
    alloc: Global,
    kernel: &'a Kernel,
    job: Job,
    at: Place,
    operands: RunValues,
    machine: &mut Machine,
) -> Result<Control<'a>, Trouble>
    requires kinds { AreKinds kernel.now.kinds }
    ensures same { IfOk result (λ c. (fs : List FrameSpec) → Same kernel.now (Do job at operands) fs machine.old c fs machine.new) }
    ensures falls { machine.new.calls ≤ machine.old.calls }
{
    match job {
        Job::Enter(depth, procedure) => {
            enter(
                alloc,
                kernel,
                depth,
                at,
                &procedure,
                operands.as_slice(),
                machine,
            )
        }
        Job::Perform(p) => operate(alloc, kernel, p, at, operands.as_slice(), machine),
    }
}
