//! The machine.

ghost use Rattle.std.specs.Prelude.{◌≡◌, ◌≤◌, ◌<◌, false, IfOk};
ghost use Rattle.ps_prims.specs.Kinds.{AreKinds};
ghost use Rattle.ps_static_eval.specs.InsideKnown.{IsKnown};
ghost use Rattle.ps_static_eval.specs.InsideMachine.{EndsSo, Same, left};
ghost use Rattle.ps_static_eval.specs.InsideWeight.{is_over, total};

use crate::jobs::take_off;
use crate::known::Known;
use crate::machine::{Control, Ending, Halt, Machine, NOWHERE};
use crate::turns::{Frames, resume, work};
use byte_store::Value;
use ps_base::NoMemory;
use ps_kernel::{Expr, Kernel};
use ps_slots::Stack;
use std::alloc::{Allocator, Global};

// One turn.
fn turn<'a, A: Allocator + Copy>(
    alloc: Global,
    kernel: &'a Kernel,
    known: &Known,
    control: Control<'a>,
    frames: &mut Frames<'a, A>,
    given: &mut Vec<Value, A>,
    machine: &mut Machine<A>,
) -> Result<Control<'a>, NoMemory>
    requires kinds { AreKinds kernel.now.kinds }
    requires known { IsKnown kernel.now known.now }
    requires going { is_over control frames.old ≡ false }
    ensures same { IfOk result (λ c. Same kernel.now control.entry given.old.items frames.old (left machine.old) c given.new.items frames.new (left machine.new)) }
    ensures falls { machine.new.calls ≤ machine.old.calls }
    ensures lighter { IfOk result (λ c. total kernel.now c frames.new machine.new.calls < total kernel.now control.entry frames.old machine.old.calls) }
{
    match control {
        Control::Work(e) => work(kernel, known, e, frames, given, machine),
        Control::Give(v) => match frames.pop() {
            Some(cell) => resume(cell, v, frames, given, machine),
            None => Ok(Control::Give(v)),
        },
        Control::Take => match frames.pop() {
            Some(cell) => take_off(alloc, kernel, cell, frames, given, machine),
            None => Ok(Control::Halted(Halt::Wrong(NOWHERE))),
        },
        Control::Halted(h) => Ok(Control::Halted(h)),
    }
}

// Whether the machine has come to its end.
fn over<A: Allocator>(control: &Control, frames: &Frames<A>) -> bool
    ensures { result ≡ is_over control.now frames.now }
{
    match control {
        Control::Halted(_) => true,
        Control::Give(_) => frames.is_empty(),
        Control::Work(_) => false,
        Control::Take => false,
    }
}

/// Evaluates an expression, where no local is in scope.
pub fn run<A: Allocator + Copy>(
    alloc: Global,
    arena: A,
    kernel: &Kernel,
    known: &Known,
    e: &Expr,
    machine: &mut Machine<A>,
) -> Result<Ending, NoMemory>
    requires kinds { AreKinds kernel.now.kinds }
    requires known { IsKnown kernel.now known.now }
    ensures same { IfOk result (λ r. EndsSo kernel.now e.now (left machine.old) r (left machine.new)) }
    ensures falls { machine.new.calls ≤ machine.old.calls }
{
    let mut control = Control::Work(e);
    let mut frames = Stack::new(arena);
    let mut given = Vec::new(arena);
    while !over(&control, &frames) {
        control = turn(
            alloc,
            kernel,
            known,
            control,
            &mut frames,
            &mut given,
            machine,
        )?;
    }
    match control {
        Control::Give(v) => Ok(Ending::Gave(v)),
        Control::Halted(h) => Ok(Ending::Halted(h)),
        Control::Work(_) => unreachable!(),
        Control::Take => unreachable!(),
    }
}
