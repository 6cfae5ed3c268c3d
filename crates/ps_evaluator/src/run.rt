//! The machine.

ghost use Rattle.std.specs.Prelude.{◌≡◌, ◌≤◌, ℕ, IfOk};
ghost use Rattle.ps_kernel.specs.declared.kernel.Kernel.{Kernel as KernelSpec};
ghost use Rattle.ps_prims.specs.Kinds.{AreKinds};
ghost use Rattle.ps_meaning.specs.Eval.{RunEnter};
ghost use Rattle.ps_evaluator.specs.InsideMachine.{Ends, EndsAs, Same, is_over};

use crate::acts::act;
use crate::deeds::{do_deed, inside};
use crate::machine::{Control, Frame, Halt, Machine, Trouble};
use crate::turns::{resume, work};
use ps_kernel::Kernel;
use ps_meaning::RunValue;
use std::alloc::Global;

/// How a run of the machine ends.
#[derive(Drop)]
pub enum Ending {
    /// It gave a value.
    Gave(RunValue),
    /// It stopped before.
    Halted(Halt),
    /// There were no more turns.
    Unfinished,
}

// One turn.
fn turn<'a>(
    alloc: Global,
    kernel: &'a Kernel,
    control: Control<'a>,
    frames: &mut Vec<Frame<'a>>,
    machine: &mut Machine,
) -> Result<Control<'a>, Trouble>
    requires kinds { AreKinds kernel.now.kinds }
    ensures same { IfOk result (λ c. Same kernel.now control.entry frames.old.items machine.old c frames.new.items machine.new) }
    ensures falls { machine.new.calls ≤ machine.old.calls }
{
    match control {
        Control::Work(e, depth) => work(alloc, kernel, e, depth, frames),
        Control::Act(deed) => do_deed(alloc, kernel, deed, machine),
        Control::Do(job, at, operands) => act(alloc, kernel, job, at, operands, machine),
        Control::Inside(locals, body, depth) => inside(alloc, locals, body, depth, frames, machine),
        Control::Give(v) => match frames.pop() {
            Some(frame) => resume(alloc, frame, v, frames),
            None => Ok(Control::Give(v)),
        },
        Control::Halted(h) => Ok(Control::Halted(h)),
    }
}

// Whether the machine has come to its end.
fn over(control: &Control, frames: &Vec<Frame>) -> bool
    ensures { result ≡ is_over control.now frames.now.items }
{
    match control {
        Control::Halted(_) => true,
        Control::Give(_) => frames.is_empty(),
        Control::Work(_, _) => false,
        Control::Act(_) => false,
        Control::Do(_, _, _) => false,
        Control::Inside(_, _, _) => false,
    }
}

// How the machine ends that has come to its end.
fn end_of(control: Control, frames: &Vec<Frame>) -> Ending
    ensures { (k : KernelSpec) (f : RunEnter) → Ends k f control.entry frames.now.items result }
{
    match control {
        Control::Halted(h) => Ending::Halted(h),
        Control::Give(v) => {
            if frames.is_empty() {
                Ending::Gave(v)
            } else {
                Ending::Unfinished
            }
        }
        Control::Work(_, _) => Ending::Unfinished,
        Control::Act(_) => Ending::Unfinished,
        Control::Do(_, _, _) => Ending::Unfinished,
        Control::Inside(_, _, _) => Ending::Unfinished,
    }
}

/// Runs the machine to its end, for at most so many turns.
pub fn run<'a>(
    alloc: Global,
    kernel: &'a Kernel,
    start: Control<'a>,
    machine: &mut Machine,
    turns: u64,
) -> Result<Ending, Trouble>
    requires kinds { AreKinds kernel.now.kinds }
    ensures { IfOk result (λ r. (n : ℕ) → machine.old.calls ≤ n → EndsAs kernel.now n start.entry machine.old r machine.new) }
{
    let mut control = start;
    let mut frames = Vec::new(alloc);
    let mut left = turns;
    while left > 0 && !over(&control, &frames) {
        left -= 1;
        control = turn(alloc, kernel, control, &mut frames, machine)?;
    }
    Ok(end_of(control, &frames))
}
