//! The top-level forms in order.

ghost use Rattle.std.specs.Prelude.{◌≡◌, ◌≤◌, Some, slice_set, IfOk};
ghost use Rattle.ps_prims.specs.Kinds.{AreKinds};
ghost use Rattle.ps_kernel.specs.Texts.{lambda_in};
ghost use Rattle.ps_static_eval.specs.InsideKnown.{IsKnown};
ghost use Rattle.ps_static_eval.specs.InsideMachine.{FormEnds, FormsEnd, left};

use crate::known::Known;
use crate::machine::{Ending, Halt, Machine};
use crate::run::run;
use byte_store::Value;
use ps_base::{Items, NoMemory};
use ps_kernel::{Expr, ExprKind, Form, Kernel};
use std::alloc::{Allocator, Global};

// The lambda that an expression is.
fn lambda_in(e: &Expr) -> Option<u32>
    ensures { result ≡ lambda_in e.now }
{
    match &e.kind {
        ExprKind::Constant(_) => None,
        ExprKind::Local(_) => None,
        ExprKind::Global(_) => None,
        ExprKind::Lambda(l) => Some(*l),
        ExprKind::If(_, _, _) => None,
        ExprKind::Let(_, _, _) => None,
        ExprKind::Letrec(_, _) => None,
        ExprKind::Begin(_) => None,
        ExprKind::SetGlobal(_, _) => None,
        ExprKind::SetLocal(_, _) => None,
        ExprKind::Case(_, _, _, _) => None,
        ExprKind::Call(_, _) => None,
        ExprKind::ProperCall(_, _) => None,
        ExprKind::Primitive(_, _) => None,
    }
}

// A definition has a value.
fn set_value(globals: &mut Items<Option<Value>>, g: u32, v: Value)
    ensures { globals.new ≡ slice_set globals.old g (Some v) }
{
    if (g as usize) < globals.len() {
        globals.set(g as usize, Some(v));
    }
}

// One form: the form of a procedure definition does nothing.
fn run_form<A: Allocator + Copy>(
    alloc: Global,
    arena: A,
    kernel: &Kernel,
    known: &Known,
    form: &Form,
    machine: &mut Machine<A>,
) -> Result<Option<Halt>, NoMemory>
    requires kinds { AreKinds kernel.now.kinds }
    requires known { IsKnown kernel.now known.now }
    ensures same { IfOk result (λ r. FormEnds kernel.now form.now (left machine.old) r (left machine.new)) }
    ensures falls { machine.new.calls ≤ machine.old.calls }
{
    match form {
        Form::Define(g, e) => match lambda_in(e) {
            Some(_) => Ok(None),
            None => match run(alloc, arena, kernel, known, e, machine)? {
                Ending::Gave(v) => {
                    set_value(&mut machine.globals, *g, v);
                    Ok(None)
                }
                Ending::Halted(h) => Ok(Some(h)),
            },
        },
        Form::Do(e) => match run(alloc, arena, kernel, known, e, machine)? {
            Ending::Gave(_) => Ok(None),
            Ending::Halted(h) => Ok(Some(h)),
        },
    }
}

/// The forms in order, as far as the first that stops.
pub fn run_forms<A: Allocator + Copy>(
    alloc: Global,
    arena: A,
    kernel: &Kernel,
    known: &Known,
    machine: &mut Machine<A>,
) -> Result<Option<Halt>, NoMemory>
    requires kinds { AreKinds kernel.now.kinds }
    requires known { IsKnown kernel.now known.now }
    ensures { IfOk result (λ r. FormsEnd kernel.now kernel.now.forms (left machine.old) r (left machine.new)) }
{
    let forms = kernel.forms.as_slice();
    let mut i = 0;
    while i < forms.len() {
        if let Some(halt) = run_form(alloc, arena, kernel, known, &forms[i], machine)? {
            return Ok(Some(halt));
        }
        i += 1;
    }
    Ok(None)
}
