//! A walk over the text of a kernel that meets each local where it is bound.

ghost use Rattle.std.specs.Prelude.{◌≡◌, [], OnOk, IfOk, slice_get};
ghost use Rattle.std.specs.List.{fold};
ghost use Rattle.ps_show.specs.Bindings.{met, most_levels, binds, lambda_binds, group_binds, branches_bind, all_bind, order_of};
ghost use Rattle.ps_show.specs.InsideForms.{kind_bound};

use crate::locals::Locals;
use ps_base::NoMemory;
use ps_kernel::{Expr, ExprKind, Form, GroupEntry, Kernel, Labelled};
use std::alloc::Global;

/// The most levels of brackets that a text has.
pub(crate) const LEVELS: u32 = 200;

/// The locals of a kernel in order of their binding.
///
/// # Errors
///
/// `NoMemory` where memory ran out.
#[tactic(auto, unfolding(crate::specs::Bindings::bound_locals, crate::specs::Bindings::order_of))]
pub(crate) fn locals_of(alloc: Global, kernel: &Kernel) -> Result<Locals, NoMemory>
    ensures { IfOk result (λ locals. locals ≡ order_of kernel.now) }
{
    let mut locals = Locals::new(alloc);
    for form in kernel.forms.as_slice() {
        let e = match form {
            Form::Define(_, e) => e,
            Form::Do(e) => e,
        };
        meet_expr(&mut locals, kernel, e, LEVELS)?;
    }
    Ok(locals)
}

// Those that an expression binds, read to so many levels.
#[cycle(meeting)]
fn meet_expr(locals: &mut Locals, kernel: &Kernel, e: &Expr, left: u32) -> Result<(), NoMemory>
    ensures { OnOk result (locals.new ≡ fold met locals.old (binds kernel.now left e.now)) }
{
    if left == 0 {
        return Ok(());
    }
    meet_kind(locals, kernel, &e.kind, left - 1)
}

// Those of an expression whose parts are read to so many levels.
#[cycle(meeting)]
fn meet_kind(
    locals: &mut Locals,
    kernel: &Kernel,
    kind: &ExprKind,
    left: u32,
) -> Result<(), NoMemory>
    ensures { OnOk result (locals.new ≡ fold met locals.old (kind_bound kernel.now left kind.now)) }
{
    match kind {
        ExprKind::Constant(_) => {}
        ExprKind::Local(_) => {}
        ExprKind::Global(_) => {}
        ExprKind::Lambda(lambda) => meet_lambda(locals, kernel, *lambda, left)?,
        ExprKind::If(test, yes, no) => {
            meet_expr(locals, kernel, test.get(), left)?;
            meet_expr(locals, kernel, yes.get(), left)?;
            meet_expr(locals, kernel, no.get(), left)?;
        }
        ExprKind::Let(local, value, body) => {
            locals.meet(*local)?;
            meet_expr(locals, kernel, value.get(), left)?;
            meet_expr(locals, kernel, body.get(), left)?;
        }
        ExprKind::Letrec(group, body) => {
            meet_group(locals, kernel, group.as_slice(), left)?;
            meet_expr(locals, kernel, body.get(), left)?;
        }
        ExprKind::Begin(parts) => meet_all(locals, kernel, parts.as_slice(), left)?,
        ExprKind::SetGlobal(_, value) => meet_expr(locals, kernel, value.get(), left)?,
        ExprKind::SetLocal(_, value) => meet_expr(locals, kernel, value.get(), left)?,
        ExprKind::Case(_, key, branches, last) => {
            meet_expr(locals, kernel, key.get(), left)?;
            meet_branches(locals, kernel, branches.as_slice(), left)?;
            meet_expr(locals, kernel, last.get(), left)?;
        }
        ExprKind::Call(operator, operands) => {
            meet_expr(locals, kernel, operator.get(), left)?;
            meet_all(locals, kernel, operands.as_slice(), left)?;
        }
        ExprKind::ProperCall(operator, operands) => {
            meet_expr(locals, kernel, operator.get(), left)?;
            meet_all(locals, kernel, operands.as_slice(), left)?;
        }
        ExprKind::Primitive(_, operands) => meet_all(locals, kernel, operands.as_slice(), left)?,
    }
    Ok(())
}

// Those of each of some expressions.
#[cycle(meeting)]
fn meet_all(locals: &mut Locals, kernel: &Kernel, es: &[Expr], left: u32) -> Result<(), NoMemory>
    ensures { OnOk result (locals.new ≡ fold met locals.old (all_bind (binds kernel.now left) es.now)) }
{
    for e in es {
        meet_expr(locals, kernel, e, left)?;
    }
    Ok(())
}

// Those of the branches of a case.
#[cycle(meeting)]
fn meet_branches(
    locals: &mut Locals,
    kernel: &Kernel,
    branches: &[Labelled],
    left: u32,
) -> Result<(), NoMemory>
    ensures { OnOk result (locals.new ≡ fold met locals.old (branches_bind (binds kernel.now left) branches.now)) }
{
    for branch in branches {
        meet_expr(locals, kernel, &branch.body, left)?;
    }
    Ok(())
}

// The locals of a group, each before those of its lambda.
#[cycle(meeting)]
fn meet_group(
    locals: &mut Locals,
    kernel: &Kernel,
    group: &[GroupEntry],
    left: u32,
) -> Result<(), NoMemory>
    ensures { OnOk result (locals.new ≡ fold met locals.old (group_binds kernel.now (binds kernel.now left) group.now)) }
{
    for entry in group {
        locals.meet(entry.local)?;
        meet_lambda(locals, kernel, entry.lambda, left)?;
    }
    Ok(())
}

// The parameters of a lambda, and the locals of its body.
#[cycle(meeting)]
fn meet_lambda(locals: &mut Locals, kernel: &Kernel, number: u32, left: u32) -> Result<(), NoMemory>
    ensures { OnOk result (locals.new ≡ fold met locals.old (lambda_binds (binds kernel.now left) (slice_get kernel.now.lambdas number))) }
{
    match kernel.lambdas.get(number as usize) {
        Some(lambda) => {
            meet_parameters(locals, lambda.parameters.as_slice())?;
            meet_expr(locals, kernel, &lambda.body, left)
        }
        None => Ok(()),
    }
}

// Parameters in order.
fn meet_parameters(locals: &mut Locals, parameters: &[u32]) -> Result<(), NoMemory>
    ensures { OnOk result (locals.new ≡ fold met locals.old parameters.now) }
{
    for parameter in parameters {
        locals.meet(*parameter)?;
    }
    Ok(())
}
