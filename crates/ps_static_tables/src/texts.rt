//! The entries of the letrecs of a text.

ghost use Rattle.std.specs.Prelude.{◌≡◌, ◌++◌, IfOk};
ghost use Rattle.ps_kernel.specs.Texts.{expr_of, text};
ghost use Rattle.ps_static_tables.specs.InsideTexts.{Tells, TellsBranches, TellsEach, TellsGroup, TellsLambda, told};

use ps_base::{Items, NoMemory};
use ps_kernel::{Expr, ExprKind, Form, Group, GroupEntry, Kernel, Labelled};
use std::alloc::Global;

// How many levels a text is read to.
const DEPTH: u32 = 1_000;

// Adds these entries.
fn push_all(group: &[GroupEntry], entries: &mut Group) -> Result<(), NoMemory>
    ensures { IfOk result (λ done. entries.new ≡ entries.old ++ group.now) }
{
    for entry in group {
        entries.push(*entry)?;
    }
    Ok(())
}

// Adds the entries of an expression that is read to so many levels.
#[cycle(telling)]
fn tell(
    alloc: Global,
    kernel: &Kernel,
    level: u32,
    e: &Expr,
    entries: &mut Group,
) -> Result<(), NoMemory>
    ensures { IfOk result (λ done. Tells kernel.now level e.now entries.old entries.new) }
{
    if level == 0 {
        return Ok(());
    }
    let inner = level - 1;
    match &e.kind {
        ExprKind::Constant(_) => Ok(()),
        ExprKind::Local(_) => Ok(()),
        ExprKind::Global(_) => Ok(()),
        ExprKind::Lambda(l) => Ok(tell_lambda(alloc, kernel, inner, &[], *l, entries)?),
        ExprKind::If(a, b, c) => {
            tell(alloc, kernel, inner, a.get(), entries)?;
            tell(alloc, kernel, inner, b.get(), entries)?;
            Ok(tell(alloc, kernel, inner, c.get(), entries)?)
        }
        ExprKind::Let(_, a, b) => {
            tell(alloc, kernel, inner, a.get(), entries)?;
            Ok(tell(alloc, kernel, inner, b.get(), entries)?)
        }
        ExprKind::Letrec(group, b) => {
            push_all(group.as_slice(), entries)?;
            tell_group(alloc, kernel, inner, group.as_slice(), entries)?;
            Ok(tell(alloc, kernel, inner, b.get(), entries)?)
        }
        ExprKind::Begin(es) => Ok(tell_each(alloc, kernel, inner, es.as_slice(), entries)?),
        ExprKind::SetGlobal(_, a) => Ok(tell(alloc, kernel, inner, a.get(), entries)?),
        ExprKind::SetLocal(_, a) => Ok(tell(alloc, kernel, inner, a.get(), entries)?),
        ExprKind::Case(_, a, branches, last) => {
            tell(alloc, kernel, inner, a.get(), entries)?;
            Ok(tell_branches(
                alloc,
                kernel,
                inner,
                branches.as_slice(),
                last.get(),
                entries,
            )?)
        }
        ExprKind::Call(f, es) => {
            tell(alloc, kernel, inner, f.get(), entries)?;
            Ok(tell_each(alloc, kernel, inner, es.as_slice(), entries)?)
        }
        ExprKind::ProperCall(f, es) => {
            tell(alloc, kernel, inner, f.get(), entries)?;
            Ok(tell_each(alloc, kernel, inner, es.as_slice(), entries)?)
        }
        ExprKind::Primitive(_, es) => Ok(tell_each(alloc, kernel, inner, es.as_slice(), entries)?),
    }
}

// The same of expressions in order.
#[cycle(telling)]
fn tell_each(
    alloc: Global,
    kernel: &Kernel,
    level: u32,
    es: &[Expr],
    entries: &mut Group,
) -> Result<(), NoMemory>
    ensures { IfOk result (λ done. TellsEach kernel.now level es.now entries.old entries.new) }
{
    for e in es {
        tell(alloc, kernel, level, e, entries)?;
    }
    Ok(())
}

// The same of the branches of a case, of which each stands a level below the one before, and of its last expression.
#[cycle(telling)]
fn tell_branches(
    alloc: Global,
    kernel: &Kernel,
    level: u32,
    branches: &[Labelled],
    last: &Expr,
    entries: &mut Group,
) -> Result<(), NoMemory>
    ensures { IfOk result (λ done. TellsBranches kernel.now level branches.now last.now entries.old entries.new) }
{
    match branches.split_first() {
        None => Ok(tell(alloc, kernel, level, last, entries)?),
        Some((branch, rest)) => {
            if level == 0 {
                return Ok(());
            }
            tell(alloc, kernel, level - 1, &branch.body, entries)?;
            Ok(tell_branches(alloc, kernel, level - 1, rest, last, entries)?)
        }
    }
}

// The same of a lambda that stands in a group, whose body is read to so many levels.
#[cycle(telling)]
fn tell_lambda(
    alloc: Global,
    kernel: &Kernel,
    level: u32,
    group: &[GroupEntry],
    lambda: u32,
    entries: &mut Group,
) -> Result<(), NoMemory>
    ensures { IfOk result (λ done. TellsLambda kernel.now level group.now lambda entries.old entries.new) }
{
    match kernel.lambdas.get(lambda as usize) {
        None => Ok(()),
        Some(m) => Ok(tell(alloc, kernel, level, &m.body, entries)?),
    }
}

// The same of the lambdas of a group.
#[cycle(telling)]
fn tell_group(
    alloc: Global,
    kernel: &Kernel,
    level: u32,
    group: &[GroupEntry],
    entries: &mut Group,
) -> Result<(), NoMemory>
    ensures { IfOk result (λ done. TellsGroup kernel.now level group.now group.now entries.old entries.new) }
{
    for entry in group {
        tell_lambda(alloc, kernel, level, group, entry.lambda, entries)?;
    }
    Ok(())
}

// The expression of a form.
fn expr_of(form: &Form) -> &Expr
    ensures { result.now ≡ expr_of form.now }
{
    match form {
        Form::Define(_, e) => e,
        Form::Do(e) => e,
    }
}

/// The entries of all letrecs of a kernel, in order of the text.
pub fn entries_of(alloc: Global, kernel: &Kernel) -> Result<Group, NoMemory>
    ensures { IfOk result (λ r. r ≡ told (text kernel.now)) }
{
    let mut entries = Items::new(alloc);
    for form in kernel.forms.as_slice() {
        tell(alloc, kernel, DEPTH, expr_of(form), &mut entries)?;
    }
    Ok(entries)
}
