//! The turns of the machine that perform nothing: down into an expression, and on with a value.

ghost use Rattle.std.specs.Prelude.{◌≡◌, ◌+◌, ◌<◌, ◌≤◌, [], ℕ, List, map, sum, IfOk};
ghost use Rattle.std.specs.List.{list_any};
ghost use Rattle.byte_store.specs.declared.pointer.Value.{Value as ValueSpec};
ghost use Rattle.ps_prims.specs.declared.stages.Stage.TheVariants.{Compile};
ghost use Rattle.ps_prims.specs.Sorts.{first_order};
ghost use Rattle.ps_runs.specs.Runs.{or_wrong};
ghost use Rattle.ps_runs.specs.Effects.{assigned, defined_in};
ghost use Rattle.ps_kernel.specs.Rules.{is_among};
ghost use Rattle.ps_kernel.specs.declared.kernel.Kernel.{Kernel as KernelSpec};
ghost use Rattle.ps_meaning.specs.Eval.{CompileEnter, compile, constant, keeps_locals, label_of, part_of};
ghost use Rattle.ps_slots.specs.declared.cell.Cell.TheVariants.{Waits};
ghost use Rattle.ps_static_eval.specs.declared.machine.Control.TheVariants.{Give};
ghost use Rattle.ps_static_eval.specs.InsideKnown.{IsKnown};
ghost use Rattle.ps_static_eval.specs.InsideMachine.{Calling, Cells, Left, NextOperand, Resumes, Turns, anywhere, body_for, called, compile_global, compile_local, gathered, last_of, left, puts_local, selected, tested};
ghost use Rattle.ps_static_eval.specs.InsideWeight.{branches_weight, cell_weight, cells_weight, control_weight, operands_weight, waiting_weight, weight};

use crate::known::Known;
use crate::machine::{Control, Halt, Job, Machine, NOWHERE, Waiting};
use byte_store::{Pointer, Value};
use ps_base::{Items, NoMemory, Place};
use ps_kernel::{CaseKind, Constant, Expr, ExprKind, GroupEntry, Kernel, Labelled};
use ps_slots::{Cell, Stack};
use ps_static_tables::lambda_at;
use std::alloc::Allocator;

/// The cells of the machine.
pub type Frames<'a, A> = Stack<Waiting<'a>, A>;

// The operands from left to right, and then the job.
fn gather<'a, A: Allocator>(
    job: Job,
    at: Place,
    es: &'a [Expr],
    frames: &mut Frames<'a, A>,
    given: &mut Vec<Value, A>,
) -> Result<Control<'a>, NoMemory>
    ensures same { IfOk result (λ c. (k : KernelSpec) (f : CompileEnter) (m : Left) → Turns k f (gathered k f job at es.now) frames.old m c given.new.items frames.new m) }
    ensures lighter { IfOk result (λ c. control_weight c + cells_weight frames.new ≤ 3 + operands_weight (map weight es.now) + cells_weight frames.old) }
{
    frames.wait(Waiting::Gather(job, at))?;
    match es.split_first() {
        None => {
            given.clear();
            Ok(Control::Take)
        }
        Some((e, rest)) => {
            frames.wait(Waiting::Operands(rest))?;
            Ok(Control::Work(e))
        }
    }
}

// Expressions from left to right, for the value of the last.
fn in_order<'a, A: Allocator>(
    at: Place,
    es: &'a [Expr],
    frames: &mut Frames<'a, A>,
) -> Result<Control<'a>, NoMemory>
    ensures same { IfOk result (λ c. (k : KernelSpec) (f : CompileEnter) (m : Left) (vs : List ValueSpec) → Turns k f (last_of k f at es.now) frames.old m c vs frames.new m) }
    ensures lighter { IfOk result (λ c. control_weight c + cells_weight frames.new ≤ 1 + sum (map weight es.now) + cells_weight frames.old) }
{
    let Some((e, rest)) = es.split_first() else {
        return Ok(Control::Halted(Halt::Wrong(at)));
    };
    if rest.is_empty() {
        return Ok(Control::Work(e));
    }
    frames.wait(Waiting::Rest(at, rest))?;
    Ok(Control::Work(e))
}

// A value is given, or there is none.
fn given_or_wrong<'a>(at: Place, value: Option<Value>) -> Control<'a>
    ensures same { (k : KernelSpec) (f : CompileEnter) (vs : List ValueSpec) (cells : Cells) (m : Left) → Turns k f (or_wrong at value) cells m result vs cells m }
    ensures lighter { control_weight result < 2 }
{
    match value {
        Some(v) => Control::Give(v),
        None => Control::Halted(Halt::Wrong(at)),
    }
}

// The value of a constant, where it has one.
fn constant_of(known: &Known, c: Constant) -> Option<Value>
    ensures { (k : KernelSpec) → IsKnown k known.now → result ≡ constant k c }
{
    match c {
        Constant::Integer(i) => Some(Value::Integer(i)),
        Constant::Boolean(b) => Some(Value::Boolean(b)),
        Constant::Char(code) => Some(Value::Char(code)),
        Constant::Unit => Some(Value::Unit),
        Constant::NullAddress => Some(Value::Address(Pointer::Null)),
        Constant::Quoted(q) => known.literals.get(q as usize).copied(),
    }
}

// The value of a definition, where it has one.
fn value_of(g: u32, globals: &[Option<Value>]) -> Option<Value>
    ensures { result ≡ defined_in g globals.now }
{
    match globals.get(g as usize) {
        Some(value) => *value,
        None => None,
    }
}

// A value is assigned to a definition that has one.
fn assign(g: u32, v: Value, globals: &mut Items<Option<Value>>)
    ensures { globals.new ≡ assigned g v globals.old }
{
    if value_of(g, globals.as_slice()).is_some() {
        globals.set(g as usize, Some(v));
    }
}

// The lambda that an expression names where it stands as an operator.
fn named(kernel: &Kernel, known: &Known, f: &Expr) -> Option<u32>
    requires known { IsKnown kernel.now known.now }
    ensures { (enter : CompileEnter) → result ≡ (part_of kernel.now enter f.now).names }
{
    match &f.kind {
        ExprKind::Local(x) => lambda_at(known.numbers.locals.as_slice(), *x),
        ExprKind::Global(g) => lambda_at(known.numbers.procedures.as_slice(), *g),
        ExprKind::Constant(_) => None,
        ExprKind::Lambda(_) => None,
        ExprKind::If(_, _, _) => None,
        ExprKind::Let(_, _, _) => None,
        ExprKind::Letrec(_, _) => None,
        ExprKind::Begin(_) => None,
        ExprKind::SetGlobal(_, _) => None,
        ExprKind::SetLocal(_, _) => None,
        ExprKind::Case(_, _, _, _) => None,
        ExprKind::Call(_, _) => None,
        ExprKind::ProperCall(_, _) => None,
        ExprKind::Primitive(_, _) => None,
    }
}

// A call of what its operator names. A call in tail position and one that nests do the same: whose frame goes is seen when the
// procedure is entered.
fn call<'a, A: Allocator>(
    lambda: Option<u32>,
    at: Place,
    es: &'a [Expr],
    frames: &mut Frames<'a, A>,
    given: &mut Vec<Value, A>,
) -> Result<Control<'a>, NoMemory>
    ensures same { IfOk result (λ c. (k : KernelSpec) (f : CompileEnter) (m : Left) → Turns k f (called k f lambda at es.now) frames.old m c given.new.items frames.new m) }
    ensures lighter { IfOk result (λ c. control_weight c + cells_weight frames.new ≤ 3 + operands_weight (map weight es.now) + cells_weight frames.old) }
{
    match lambda {
        Some(l) => gather(Job::Enter(l), at, es, frames, given),
        None => Ok(Control::Halted(Halt::RunOnly(at))),
    }
}

// Whether the lambda of an entry keeps locals.
fn keeps(kernel: &Kernel, entry: &GroupEntry) -> bool
    ensures { result ≡ keeps_locals kernel.now entry.now }
{
    match kernel.lambdas.get(entry.lambda as usize) {
        Some(m) => m.captured.get(0).is_some(),
        None => false,
    }
}

// Whether a lambda of a group keeps locals.
fn keeps_any(kernel: &Kernel, group: &[GroupEntry]) -> bool
    ensures { result ≡ list_any (keeps_locals kernel.now) group.now }
{
    for entry in group {
        if keeps(kernel, entry) {
            return true;
        }
    }
    false
}

/// The machine goes down into an expression.
pub fn work<'a, A: Allocator>(
    kernel: &'a Kernel,
    known: &Known,
    e: &'a Expr,
    frames: &mut Frames<'a, A>,
    given: &mut Vec<Value, A>,
    machine: &Machine<A>,
) -> Result<Control<'a>, NoMemory>
    requires known { IsKnown kernel.now known.now }
    ensures same { IfOk result (λ c. (f : Calling) → Turns kernel.now (anywhere f) (compile kernel.now (anywhere f) e.now 0) frames.old (left machine.now) c given.new.items frames.new (left machine.now)) }
    ensures lighter { IfOk result (λ c. control_weight c + cells_weight frames.new < weight e.now + cells_weight frames.old) }
{
    match &e.kind {
        ExprKind::Constant(c) => Ok(given_or_wrong(e.place, constant_of(known, *c))),
        ExprKind::Local(x) => Ok(local(e.place, *x, known, frames)),
        ExprKind::Global(g) => Ok(global(e.place, *g, known, machine.globals.as_slice())),
        ExprKind::Lambda(_) => Ok(Control::Halted(Halt::RunOnly(e.place))),
        ExprKind::If(a, b, c) => {
            frames.wait(Waiting::Branch(e.place, b.get(), c.get()))?;
            Ok(Control::Work(a.get()))
        }
        ExprKind::Let(x, a, b) => {
            frames.wait(Waiting::Body(*x, b.get()))?;
            Ok(Control::Work(a.get()))
        }
        ExprKind::Letrec(group, b) => {
            if keeps_any(kernel, group.as_slice()) {
                return Ok(Control::Halted(Halt::RunOnly(e.place)));
            }
            Ok(Control::Work(b.get()))
        }
        ExprKind::Begin(es) => in_order(e.place, es.as_slice(), frames),
        ExprKind::SetGlobal(g, a) => match lambda_at(known.numbers.procedures.as_slice(), *g) {
            Some(_) => Ok(Control::Halted(Halt::RunOnly(e.place))),
            None => {
                frames.wait(Waiting::Assigned(*g))?;
                Ok(Control::Work(a.get()))
            }
        },
        ExprKind::SetLocal(x, a) => {
            frames.wait(Waiting::Put(e.place, *x))?;
            Ok(Control::Work(a.get()))
        }
        ExprKind::Case(kind, a, branches, last) => {
            frames.wait(Waiting::Choice(e.place, *kind, branches.as_slice(), last.get()))?;
            Ok(Control::Work(a.get()))
        }
        ExprKind::Call(f, es) => {
            let lambda = named(kernel, known, f.get());
            call(lambda, e.place, es.as_slice(), frames, given)
        }
        ExprKind::ProperCall(f, es) => {
            let lambda = named(kernel, known, f.get());
            call(lambda, e.place, es.as_slice(), frames, given)
        }
        ExprKind::Primitive(p, es) => {
            gather(Job::Perform(*p), e.place, es.as_slice(), frames, given)
        }
    }
}

// The value of a local, if it does not stand for a procedure.
fn local<'a, A: Allocator>(at: Place, x: u32, known: &Known, frames: &Frames<'a, A>) -> Control<'a>
    ensures same { (k : KernelSpec) (f : CompileEnter) (vs : List ValueSpec) (m : Left) → IsKnown k known.now → Turns k f (compile_local k f x at) frames.now m result vs frames.now m }
    ensures lighter { control_weight result < 2 }
{
    match lambda_at(known.numbers.locals.as_slice(), x) {
        Some(_) => Control::Halted(Halt::RunOnly(at)),
        None => given_or_wrong(at, frames.found(x)),
    }
}

// The value of a definition, if it is not a procedure's.
fn global<'a>(at: Place, g: u32, known: &Known, globals: &[Option<Value>]) -> Control<'a>
    ensures same { (k : KernelSpec) (f : CompileEnter) (vs : List ValueSpec) (cells : Cells) (m : Left) → IsKnown k known.now → m.globals ≡ globals.now → Turns k f (compile_global k f g at) cells m result vs cells m }
    ensures lighter { control_weight result < 2 }
{
    if lambda_at(known.numbers.procedures.as_slice(), g).is_some() {
        return Control::Halted(Halt::RunOnly(at));
    }
    given_or_wrong(at, value_of(g, globals))
}

// One of two expressions, by a test.
fn branch<'a>(at: Place, v: Value, b: &'a Expr, c: &'a Expr) -> Control<'a>
    ensures same { (k : KernelSpec) (f : CompileEnter) (vs : List ValueSpec) (cells : Cells) (m : Left) → Turns k f (tested k f at b.now c.now v) cells m result vs cells m }
    ensures lighter { control_weight result ≤ weight b.now + weight c.now }
{
    match v {
        Value::Boolean(true) => Control::Work(b),
        Value::Boolean(false) => Control::Work(c),
        _ => Control::Halted(Halt::Wrong(at)),
    }
}

// The label of a kind that a value is, if it is one.
fn label_of(kind: CaseKind, v: Value) -> Option<i64>
    ensures { (k : KernelSpec) → result ≡ label_of k Compile first_order kind v }
{
    match kind {
        CaseKind::Integer => match v {
            Value::Integer(i) => Some(i),
            _ => None,
        },
        CaseKind::Char => match v {
            Value::Char(code) => Some(i64::from(code)),
            _ => None,
        },
    }
}

// Whether a label is among these.
fn is_among(label: i64, labels: &[i64]) -> bool
    ensures { result ≡ is_among label labels.now }
{
    for other in labels {
        if label == *other {
            return true;
        }
    }
    false
}

// The expression of the first branch that has a label, or else the last one.
fn body_for<'a>(label: i64, branches: &'a [Labelled], last: &'a Expr) -> &'a Expr
    ensures is { result.now ≡ body_for label branches.now last.now }
    ensures lighter { weight result.now ≤ branches_weight branches.now + weight last.now }
{
    for branch in branches {
        if is_among(label, branch.labels.as_slice()) {
            return &branch.body;
        }
    }
    last
}

// One of the branches of a case, by its key.
fn select<'a>(
    at: Place,
    kind: CaseKind,
    branches: &'a [Labelled],
    last: &'a Expr,
    v: Value,
) -> Control<'a>
    ensures same { (k : KernelSpec) (f : CompileEnter) (vs : List ValueSpec) (cells : Cells) (m : Left) → Turns k f (selected k f at kind branches.now last.now v) cells m result vs cells m }
    ensures lighter { control_weight result ≤ branches_weight branches.now + weight last.now }
{
    match label_of(kind, v) {
        Some(label) => Control::Work(body_for(label, branches, last)),
        None => Control::Halted(Halt::Wrong(at)),
    }
}

// The slot of a local has a value, if it is in scope.
fn put_local<'a, A: Allocator>(
    at: Place,
    x: u32,
    v: Value,
    frames: &mut Frames<'a, A>,
) -> Control<'a>
    ensures same { (k : KernelSpec) (f : CompileEnter) (vs : List ValueSpec) (m : Left) → Turns k f (puts_local at x v) frames.old m result vs frames.new m }
    ensures lighter { control_weight result + cells_weight frames.new ≤ 1 + cells_weight frames.old }
{
    if frames.put(x, v) {
        Control::Give(Value::Unit)
    } else {
        Control::Halted(Halt::Wrong(at))
    }
}

// The value of an operand goes onto the others.
fn next_operand<'a, A: Allocator>(
    v: Value,
    es: &'a [Expr],
    frames: &mut Frames<'a, A>,
    given: &mut Vec<Value, A>,
) -> Result<Control<'a>, NoMemory>
    ensures same { IfOk result (λ c. (k : KernelSpec) (f : CompileEnter) (m : Left) → NextOperand k f v es.now frames.old m c given.new.items frames.new) }
    ensures lighter { IfOk result (λ c. control_weight c + cells_weight frames.new ≤ 2 + operands_weight (map weight es.now) + cells_weight frames.old) }
{
    frames.wait(Waiting::Operand(v))?;
    match es.split_first() {
        None => {
            given.clear();
            Ok(Control::Take)
        }
        Some((e, rest)) => {
            frames.wait(Waiting::Operands(rest))?;
            Ok(Control::Work(e))
        }
    }
}

// What was waiting on top is given a value.
fn go_on<'a, A: Allocator>(
    waiting: Waiting<'a>,
    v: Value,
    frames: &mut Frames<'a, A>,
    given: &mut Vec<Value, A>,
    machine: &mut Machine<A>,
) -> Result<Control<'a>, NoMemory>
    ensures same { IfOk result (λ c. (k : KernelSpec) (f : CompileEnter) → Resumes k f (Give v) [] (Waits waiting.entry) frames.old (left machine.old) c given.new.items frames.new (left machine.new)) }
    ensures calls { machine.new.calls ≡ machine.old.calls }
    ensures lighter { IfOk result (λ c. control_weight c + cells_weight frames.new < 1 + waiting_weight waiting.entry + cells_weight frames.old) }
{
    match waiting {
        Waiting::Branch(at, b, c) => Ok(branch(at, v, b, c)),
        Waiting::Choice(at, kind, branches, last) => { Ok(select(at, kind, branches, last, v)) }
        Waiting::Body(x, b) => {
            frames.bind(x, v)?;
            Ok(Control::Work(b))
        }
        Waiting::Rest(at, es) => in_order(at, es, frames),
        Waiting::Assigned(g) => {
            assign(g, v, &mut machine.globals);
            Ok(Control::Give(Value::Unit))
        }
        Waiting::Put(at, x) => Ok(put_local(at, x, v, frames)),
        Waiting::Operands(es) => next_operand(v, es, frames, given),
        Waiting::Gather(_, _) => Ok(Control::Halted(Halt::Wrong(NOWHERE))),
        Waiting::Operand(_) => Ok(Control::Halted(Halt::Wrong(NOWHERE))),
    }
}

/// The cell that was on top is given a value.
pub fn resume<'a, A: Allocator>(
    cell: Cell<Waiting<'a>>,
    v: Value,
    frames: &mut Frames<'a, A>,
    given: &mut Vec<Value, A>,
    machine: &mut Machine<A>,
) -> Result<Control<'a>, NoMemory>
    ensures same { IfOk result (λ c. (k : KernelSpec) (f : CompileEnter) → Resumes k f (Give v) [] cell.entry frames.old (left machine.old) c given.new.items frames.new (left machine.new)) }
    ensures calls { machine.new.calls ≡ machine.old.calls }
    ensures lighter { IfOk result (λ c. control_weight c + cells_weight frames.new < 1 + cell_weight cell.entry + cells_weight frames.old) }
{
    match cell {
        Cell::Local(_, _) => Ok(Control::Give(v)),
        Cell::Entered => Ok(Control::Give(v)),
        Cell::Waits(waiting) => go_on(waiting, v, frames, given, machine),
    }
}
