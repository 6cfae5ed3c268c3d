//! The turns of the machine that leave its state: down into an expression, and on with a value.

ghost use Rattle.std.specs.Prelude.{◌≡◌, ◌+◌, [], IfOk};
ghost use Rattle.std.specs.Option.{option_map};
ghost use Rattle.ps_prims.specs.declared.stages.Stage.TheVariants.{Run as AtRun};
ghost use Rattle.ps_kernel.specs.declared.kernel.Kernel.{Kernel as KernelSpec};
ghost use Rattle.ps_kernel.specs.Rules.{is_among};
ghost use Rattle.ps_meaning.specs.declared.values.RunValue.TheVariants.{Plain};
ghost use Rattle.ps_meaning.specs.Values.{run_values};
ghost use Rattle.ps_meaning.specs.Eval.{constant, label_of};
ghost use Rattle.ps_evaluator.specs.declared.machine.Control.TheVariants.{Work};
ghost use Rattle.ps_evaluator.specs.declared.machine.Job.TheVariants.{Perform};
ghost use Rattle.ps_evaluator.specs.InsideMachine.{Calls, Chooses, Continues, Follows, Gathers, Gives, Resumes, Selects, body_for};

use crate::literals::constant_of;
use crate::machine::{Control, Deed, Frame, Halt, Job, Trouble};
use crate::values::RunValues;
use byte_store::Value;
use ps_base::{Items, Place, Prim};
use ps_kernel::{CaseKind, Constant, Expr, ExprKind, Kernel, Labelled};
use ps_meaning::RunValue;
use std::alloc::Global;

/// A value is given, or there is none.
pub fn given<'a>(at: Place, value: Option<RunValue>) -> Control<'a>
    ensures { (k : KernelSpec) → Gives k at value result }
{
    match value {
        Some(v) => Control::Give(v),
        None => Control::Halted(Halt::Wrong(at)),
    }
}

// The value of a constant is given.
fn given_constant<'a>(kernel: &Kernel, at: Place, c: Constant) -> Result<Control<'a>, Trouble>
    ensures { IfOk result (λ r. Gives kernel.now at (option_map Plain (constant kernel.now c)) r) }
{
    match constant_of(kernel, c) {
        Ok(Some(v)) => Ok(Control::Give(RunValue::Plain(v))),
        Ok(None) => Ok(Control::Halted(Halt::Wrong(at))),
        Err(_) => Err(Trouble::Unsupported(at)),
    }
}

// Expressions from left to right, for the value of the last.
fn in_order<'a>(
    at: Place,
    es: &'a [Expr],
    depth: u64,
    frames: &mut Vec<Frame<'a>>,
) -> Result<Control<'a>, Trouble>
    ensures { (k : KernelSpec) → IfOk result (λ c. Follows k at es.now depth frames.old.items c frames.new.items) }
{
    let Some((e, rest)) = es.split_first() else {
        return Ok(Control::Halted(Halt::Wrong(at)));
    };
    if rest.is_empty() {
        return Ok(Control::Work(e, depth));
    }
    frames.push(Frame::Rest(at, rest, depth))?;
    Ok(Control::Work(e, depth))
}

// Operands from left to right, behind those that have values, and then the job.
fn operands<'a>(
    job: Job,
    at: Place,
    done: RunValues,
    es: &'a [Expr],
    depth: u64,
    frames: &mut Vec<Frame<'a>>,
) -> Result<Control<'a>, Trouble>
    ensures { (k : KernelSpec) → IfOk result (λ c. Gathers k job at done es.now depth frames.old.items c frames.new.items) }
{
    match es.split_first() {
        None => Ok(Control::Do(job, at, done)),
        Some((e, rest)) => {
            frames.push(Frame::Operands(job, at, done, rest, depth))?;
            Ok(Control::Work(e, depth))
        }
    }
}

// The operator of a call is evaluated, before the operands. The procedure is entered at a depth.
fn call<'a>(
    at: Place,
    deep: u64,
    f: &'a Expr,
    es: &'a [Expr],
    depth: u64,
    frames: &mut Vec<Frame<'a>>,
) -> Result<Control<'a>, Trouble>
    ensures { (k : KernelSpec) → IfOk result (λ c. Calls k at deep f.now es.now depth frames.old.items c frames.new.items) }
{
    frames.push(Frame::Operator(at, deep, es, depth))?;
    Ok(Control::Work(f, depth))
}

// A call that nests: its procedure is entered one deeper.
fn nested_call<'a>(
    at: Place,
    f: &'a Expr,
    es: &'a [Expr],
    depth: u64,
    frames: &mut Vec<Frame<'a>>,
) -> Result<Control<'a>, Trouble>
    ensures { (k : KernelSpec) → IfOk result (λ c. Calls k at (depth + 1) f.now es.now depth frames.old.items c frames.new.items) }
{
    match depth.checked_add(1) {
        Some(deep) => call(at, deep, f, es, depth, frames),
        None => Err(Trouble::Unsupported(at)),
    }
}

// A call that takes the place of its procedure: the depth stays.
fn proper_call<'a>(
    at: Place,
    f: &'a Expr,
    es: &'a [Expr],
    depth: u64,
    frames: &mut Vec<Frame<'a>>,
) -> Result<Control<'a>, Trouble>
    ensures { (k : KernelSpec) → IfOk result (λ c. Calls k at depth f.now es.now depth frames.old.items c frames.new.items) }
{
    call(at, depth, f, es, depth, frames)
}

// The operands of a primitive, which is then performed.
fn primitive<'a>(
    alloc: Global,
    p: Prim,
    at: Place,
    es: &'a [Expr],
    depth: u64,
    frames: &mut Vec<Frame<'a>>,
) -> Result<Control<'a>, Trouble>
    ensures { (k : KernelSpec) → IfOk result (λ c. Gathers k (Perform p) at [] es.now depth frames.old.items c frames.new.items) }
{
    let none = Items::new(alloc);
    operands(Job::Perform(p), at, none, es, depth, frames)
}

/// The machine goes down into an expression.
pub fn work<'a>(
    alloc: Global,
    kernel: &Kernel,
    e: &'a Expr,
    depth: u64,
    frames: &mut Vec<Frame<'a>>,
) -> Result<Control<'a>, Trouble>
    ensures { IfOk result (λ c. Continues kernel.now (Work e.entry depth) frames.old.items c frames.new.items) }
{
    match &e.kind {
        ExprKind::Constant(c) => given_constant(kernel, e.place, *c),
        ExprKind::Local(x) => Ok(Control::Act(Deed::Look(e.place, *x))),
        ExprKind::Global(g) => Ok(Control::Act(Deed::Fetch(e.place, *g))),
        ExprKind::Lambda(l) => Ok(Control::Act(Deed::Close(*l))),
        ExprKind::If(a, b, c) => {
            frames.push(Frame::Branch(e.place, b.get(), c.get(), depth))?;
            Ok(Control::Work(a.get(), depth))
        }
        ExprKind::Let(x, a, b) => {
            frames.push(Frame::Body(*x, b.get(), depth))?;
            Ok(Control::Work(a.get(), depth))
        }
        ExprKind::Letrec(group, b) => {
            frames.push(Frame::Unbound(group.len()))?;
            Ok(Control::Act(Deed::BindGroup(group.as_slice(), b.get(), depth)))
        }
        ExprKind::Begin(es) => in_order(e.place, es.as_slice(), depth, frames),
        ExprKind::SetGlobal(g, a) => {
            frames.push(Frame::Assigned(*g))?;
            Ok(Control::Work(a.get(), depth))
        }
        ExprKind::SetLocal(x, a) => {
            frames.push(Frame::Put(e.place, *x))?;
            Ok(Control::Work(a.get(), depth))
        }
        ExprKind::Case(kind, a, branches, last) => {
            let frame = Frame::Choice(e.place, *kind, branches.as_slice(), last.get(), depth);
            frames.push(frame)?;
            Ok(Control::Work(a.get(), depth))
        }
        ExprKind::Call(f, es) => nested_call(e.place, f.get(), es.as_slice(), depth, frames),
        ExprKind::ProperCall(f, es) => proper_call(e.place, f.get(), es.as_slice(), depth, frames),
        ExprKind::Primitive(p, es) => primitive(alloc, *p, e.place, es.as_slice(), depth, frames),
    }
}

// One of two expressions, by a test.
fn branch<'a>(at: Place, b: &'a Expr, c: &'a Expr, depth: u64, v: &RunValue) -> Control<'a>
    ensures { (k : KernelSpec) → Chooses k at b.now c.now depth v.now result }
{
    match v {
        RunValue::Plain(Value::Boolean(true)) => Control::Work(b, depth),
        RunValue::Plain(Value::Boolean(false)) => Control::Work(c, depth),
        RunValue::Plain(_) => Control::Halted(Halt::Wrong(at)),
        RunValue::Procedure(_, _) => Control::Halted(Halt::Wrong(at)),
    }
}

// The label of a kind that a value is, if it is one.
fn label_of(kind: CaseKind, v: &RunValue) -> Option<i64>
    ensures { (k : KernelSpec) → result ≡ label_of k AtRun run_values kind v.now }
{
    match kind {
        CaseKind::Integer => match v {
            RunValue::Plain(Value::Integer(i)) => Some(*i),
            RunValue::Plain(_) => None,
            RunValue::Procedure(_, _) => None,
        },
        CaseKind::Char => match v {
            RunValue::Plain(Value::Char(code)) => Some(i64::from(*code)),
            RunValue::Plain(_) => None,
            RunValue::Procedure(_, _) => None,
        },
    }
}

// Whether a label is among these.
fn is_among(label: i64, labels: &[i64]) -> bool
    ensures { result ≡ is_among label labels.now }
{
    match labels {
        [] => false,
        [first, rest @ ..] => label == *first || is_among(label, rest),
    }
}

// The expression of the first branch that has a label, or else the last one.
fn body_for<'a>(label: i64, branches: &'a [Labelled], last: &'a Expr) -> &'a Expr
    ensures { result.now ≡ body_for label branches.now last.now }
{
    match branches {
        [] => last,
        [branch, rest @ ..] => {
            if is_among(label, branch.labels.as_slice()) {
                &branch.body
            } else {
                body_for(label, rest, last)
            }
        }
    }
}

// One of the branches of a case, by its key.
fn select<'a>(
    at: Place,
    kind: CaseKind,
    branches: &'a [Labelled],
    last: &'a Expr,
    depth: u64,
    v: &RunValue,
) -> Control<'a>
    ensures { (k : KernelSpec) → Selects k at kind branches.now last.now depth v.now result }
{
    match label_of(kind, v) {
        Some(label) => Control::Work(body_for(label, branches, last), depth),
        None => Control::Halted(Halt::Wrong(at)),
    }
}

/// A frame is given the value that it waits for.
pub fn resume<'a>(
    alloc: Global,
    frame: Frame<'a>,
    v: RunValue,
    frames: &mut Vec<Frame<'a>>,
) -> Result<Control<'a>, Trouble>
    ensures { (k : KernelSpec) → IfOk result (λ c. Resumes k frame.entry v frames.old.items c frames.new.items) }
{
    match frame {
        Frame::Branch(at, b, c, depth) => Ok(branch(at, b, c, depth, &v)),
        Frame::Choice(at, kind, branches, last, depth) => {
            Ok(select(at, kind, branches, last, depth, &v))
        }
        Frame::Body(x, b, depth) => {
            frames.push(Frame::Unbound(1))?;
            Ok(Control::Act(Deed::Bind(x, v, b, depth)))
        }
        Frame::Unbound(count) => Ok(Control::Act(Deed::Unbind(count, v))),
        Frame::Back(locals) => Ok(Control::Act(Deed::PutBack(locals, v))),
        Frame::Rest(at, es, depth) => in_order(at, es, depth, frames),
        Frame::Assigned(g) => Ok(Control::Act(Deed::Assign(g, v))),
        Frame::Put(at, x) => Ok(Control::Act(Deed::Put(at, x, v))),
        Frame::Operator(at, deep, es, depth) => {
            let none = Items::new(alloc);
            operands(Job::Enter(deep, v), at, none, es, depth, frames)
        }
        Frame::Operands(job, at, done, es, depth) => {
            let mut done = done;
            done.push(v)?;
            operands(job, at, done, es, depth, frames)
        }
    }
}
