//! The turns of the machine that read or change definitions and locals.

ghost use Rattle.std.specs.Prelude.{◌≡◌, is_some, IfOk};
ghost use Rattle.ps_kernel.specs.declared.kernel.Kernel.{Kernel as KernelSpec};
ghost use Rattle.ps_runs.specs.Effects.{assigned, defined_in};
ghost use Rattle.ps_runs.specs.Locals.{found};
ghost use Rattle.ps_meaning.specs.Values.{pairs_of};
ghost use Rattle.ps_evaluator.specs.declared.machine.Deed.TheVariants.{Bind, BindGroup, Put, Unbind};
ghost use Rattle.ps_evaluator.specs.declared.machine.Control.TheVariants.{Inside};
ghost use Rattle.ps_evaluator.specs.InsideMachine.{Becomes, Gives, Moves, acts};

use crate::closures::{closure_of, with_group_bound};
use crate::machine::{Control, Deed, Frame, Halt, Machine, RunGlobals, Trouble};
use crate::turns::given;
use crate::values::{copied, copied_value, found, with_bound, with_put, without};
use byte_store::Value;
use ps_base::{Items, Place};
use ps_kernel::{Expr, GroupEntry, Kernel};
use ps_meaning::{Binding, Bindings, RunValue};
use std::alloc::Global;
use std::mem;

// The value of a definition is given.
fn fetch<'a>(
    alloc: Global,
    at: Place,
    g: u32,
    globals: &[Option<RunValue>],
) -> Result<Control<'a>, Trouble>
    ensures { (k : KernelSpec) → IfOk result (λ c. Gives k at (defined_in g globals.now) c) }
{
    match globals.get(g as usize) {
        Some(Some(v)) => Ok(Control::Give(copied_value(alloc, v)?)),
        Some(None) => Ok(Control::Halted(Halt::Wrong(at))),
        None => Ok(Control::Halted(Halt::Wrong(at))),
    }
}

// Whether a definition has a value.
fn has_value(g: u32, globals: &[Option<RunValue>]) -> bool
    ensures { result ≡ is_some (defined_in g globals.now) }
{
    match globals.get(g as usize) {
        Some(Some(_)) => true,
        Some(None) => false,
        None => false,
    }
}

// A value is assigned to a definition that has one.
fn assign(g: u32, v: RunValue, globals: &mut RunGlobals)
    ensures { globals.new ≡ assigned g v globals.old }
{
    if has_value(g, globals.as_slice()) {
        globals.set(g as usize, Some(v));
    }
}

// The value of a local is given.
fn look<'a>(alloc: Global, at: Place, x: u32, locals: &[Binding]) -> Result<Control<'a>, Trouble>
    ensures { (k : KernelSpec) → IfOk result (λ c. Gives k at (found x (pairs_of locals.now)) c) }
{
    let value = found(alloc, x, locals)?;
    Ok(given(at, value))
}

// A value is assigned to a local in scope.
fn put<'a>(
    alloc: Global,
    at: Place,
    x: u32,
    v: RunValue,
    machine: &mut Machine,
) -> Result<Control<'a>, Trouble>
    ensures same { (k : KernelSpec) → IfOk result (λ c. Becomes k (λ f. acts k f (Put at x v)) machine.old c machine.new) }
    ensures falls { machine.new.calls ≡ machine.old.calls }
{
    let value = found(alloc, x, machine.locals.as_slice())?;
    match value {
        None => Ok(Control::Halted(Halt::Wrong(at))),
        Some(_) => {
            let answer = RunValue::Plain(Value::Unit);
            machine.locals = with_put(alloc, x, v, machine.locals.as_slice())?;
            Ok(Control::Give(answer))
        }
    }
}

// A local is bound to a value, where an expression is then evaluated.
fn bind<'a>(
    alloc: Global,
    x: u32,
    v: RunValue,
    b: &'a Expr,
    depth: u64,
    machine: &mut Machine,
) -> Result<Control<'a>, Trouble>
    ensures same { (k : KernelSpec) → IfOk result (λ c. Becomes k (λ f. acts k f (Bind x v b.entry depth)) machine.old c machine.new) }
    ensures falls { machine.new.calls ≡ machine.old.calls }
{
    let locals = mem::replace(&mut machine.locals, Items::new(alloc));
    machine.locals = with_bound(alloc, x, v, locals)?;
    Ok(Control::Work(b, depth))
}

// The locals of a group are bound to procedures, where an expression is then evaluated.
fn bind_group<'a>(
    alloc: Global,
    kernel: &Kernel,
    group: &'a [GroupEntry],
    b: &'a Expr,
    depth: u64,
    machine: &mut Machine,
) -> Result<Control<'a>, Trouble>
    ensures same { IfOk result (λ c. Becomes kernel.now (λ f. acts kernel.now f (BindGroup group.entry b.entry depth)) machine.old c machine.new) }
    ensures falls { machine.new.calls ≡ machine.old.calls }
{
    let outside = machine.locals.as_slice();
    let inside = copied(alloc, outside)?;
    machine.locals = with_group_bound(alloc, kernel, outside, group, inside)?;
    Ok(Control::Work(b, depth))
}

// So many locals that were bound last go.
fn unbind<'a>(
    alloc: Global,
    count: usize,
    v: RunValue,
    machine: &mut Machine,
) -> Result<Control<'a>, Trouble>
    ensures same { (k : KernelSpec) → IfOk result (λ c. Becomes k (λ f. acts k f (Unbind count v)) machine.old c machine.new) }
    ensures falls { machine.new.calls ≡ machine.old.calls }
{
    machine.locals = without(alloc, count, machine.locals.as_slice())?;
    Ok(Control::Give(v))
}

/// Definitions or locals are read or changed.
pub fn do_deed<'a>(
    alloc: Global,
    kernel: &Kernel,
    deed: Deed<'a>,
    machine: &mut Machine,
) -> Result<Control<'a>, Trouble>
    ensures same { IfOk result (λ c. Becomes kernel.now (λ f. acts kernel.now f deed.entry) machine.old c machine.new) }
    ensures falls { machine.new.calls ≡ machine.old.calls }
{
    match deed {
        Deed::Fetch(at, g) => fetch(alloc, at, g, machine.globals.as_slice()),
        Deed::Assign(g, v) => {
            assign(g, v, &mut machine.globals);
            Ok(Control::Give(RunValue::Plain(Value::Unit)))
        }
        Deed::Look(at, x) => look(alloc, at, x, machine.locals.as_slice()),
        Deed::Put(at, x, v) => put(alloc, at, x, v, machine),
        Deed::Close(l) => {
            let procedure = closure_of(alloc, kernel, l, machine.locals.as_slice())?;
            Ok(Control::Give(procedure))
        }
        Deed::Bind(x, v, b, depth) => bind(alloc, x, v, b, depth, machine),
        Deed::BindGroup(group, b, depth) => bind_group(alloc, kernel, group, b, depth, machine),
        Deed::Unbind(count, v) => unbind(alloc, count, v, machine),
        Deed::PutBack(locals, v) => {
            machine.locals = locals;
            Ok(Control::Give(v))
        }
    }
}

// The body of a procedure is evaluated, where these are the locals. Those of before wait to stand again.
fn inside_anew<'a>(
    locals: Bindings,
    body: &'a Expr,
    depth: u64,
    frames: &mut Vec<Frame<'a>>,
    machine: &mut Machine,
) -> Result<Control<'a>, Trouble>
    ensures same { (k : KernelSpec) → IfOk result (λ c. Moves k (Inside locals body.entry depth) frames.old.items machine.old c frames.new.items machine.new) }
    ensures falls { machine.new.calls ≡ machine.old.calls }
{
    let before = mem::replace(&mut machine.locals, locals);
    frames.push(Frame::Back(before))?;
    Ok(Control::Work(body, depth))
}

/// The body of a procedure is evaluated, where these are the locals. What would be done to the caller's locals at its end, and
/// is not seen behind it, is done now or not at all: so a call in tail position leaves nothing to come back to.
pub fn inside<'a>(
    alloc: Global,
    locals: Bindings,
    body: &'a Expr,
    depth: u64,
    frames: &mut Vec<Frame<'a>>,
    machine: &mut Machine,
) -> Result<Control<'a>, Trouble>
    ensures same { (k : KernelSpec) → IfOk result (λ c. Moves k (Inside locals body.entry depth) frames.old.items machine.old c frames.new.items machine.new) }
    ensures falls { machine.new.calls ≡ machine.old.calls }
{
    match frames.pop() {
        None => inside_anew(locals, body, depth, frames, machine),
        Some(Frame::Unbound(count)) => {
            machine.locals = without(alloc, count, machine.locals.as_slice())?;
            Ok(Control::Inside(locals, body, depth))
        }
        Some(Frame::Back(before)) => {
            frames.push(Frame::Back(before))?;
            machine.locals = locals;
            Ok(Control::Work(body, depth))
        }
        Some(frame) => {
            frames.push(frame)?;
            inside_anew(locals, body, depth, frames, machine)
        }
    }
}
