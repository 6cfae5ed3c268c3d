//! The marks of a body, in order of its text.

ghost use Rattle.std.specs.Prelude.{◌≡◌, ◌++◌, ◌∷◌, [], map, OnOk};
ghost use Rattle.ps_survive.specs.Bodies.{marks_of, marks_in, branch_marks, marked, joined, constant_marks, group_marks};

use ps_base::{Items, Place};
use ps_kernel::{Constant, Expr, ExprKind, GroupEntry, Labelled};
use ps_survive::{Mark, Marked};
use std::alloc::AllocError;

fn push_constant(constant: Constant, at: Place, out: &mut Items<Marked>) -> Result<(), AllocError>
    ensures { OnOk result (out.new ≡ out.old ++ constant_marks at constant) }
{
    match constant {
        Constant::Integer(_) => Ok(()),
        Constant::Boolean(_) => Ok(()),
        Constant::Char(_) => Ok(()),
        Constant::Unit => Ok(()),
        Constant::NullAddress => Ok(()),
        Constant::Quoted(q) => push(Mark::Quotes(q), at, out),
    }
}

fn push(mark: Mark, at: Place, out: &mut Items<Marked>) -> Result<(), AllocError>
    ensures { OnOk result (out.new ≡ out.old ++ marked at mark ∷ []) }
{
    out.push(Marked { at, mark })?;
    Ok(())
}

fn push_group(group: &[GroupEntry], at: Place, out: &mut Items<Marked>) -> Result<(), AllocError>
    ensures { OnOk result (out.new ≡ out.old ++ group_marks at group.now) }
{
    for entry in group {
        push(Mark::Stands(entry.lambda), at, out)?;
    }
    Ok(())
}

/// The marks of an expression are added.
#[cycle(marks)]
pub fn push_marks(e: &Expr, out: &mut Items<Marked>) -> Result<(), AllocError>
    ensures { OnOk result (out.new ≡ out.old ++ marks_of e.now) }
{
    push_kind(&e.kind, e.place, out)
}

#[cycle(marks)]
fn push_kind(kind: &ExprKind, at: Place, out: &mut Items<Marked>) -> Result<(), AllocError>
    ensures { OnOk result (out.new ≡ out.old ++ marks_in kind.now at) }
{
    match kind {
        ExprKind::Constant(constant) => push_constant(*constant, at, out),
        ExprKind::Local(_) => Ok(()),
        ExprKind::Global(g) => push(Mark::Reads(*g), at, out),
        ExprKind::Lambda(l) => push(Mark::Stands(*l), at, out),
        ExprKind::If(test, yes, no) => {
            push_marks(test.get(), out)?;
            push_marks(yes.get(), out)?;
            push_marks(no.get(), out)
        }
        ExprKind::Let(_, value, body) => {
            push_marks(value.get(), out)?;
            push_marks(body.get(), out)
        }
        ExprKind::Letrec(group, body) => {
            push_group(group.as_slice(), at, out)?;
            push_marks(body.get(), out)
        }
        ExprKind::Begin(parts) => push_all(parts.as_slice(), out),
        ExprKind::SetGlobal(g, value) => {
            push(Mark::Assigns(*g), at, out)?;
            push_marks(value.get(), out)
        }
        ExprKind::SetLocal(_, value) => push_marks(value.get(), out),
        ExprKind::Case(_, key, branches, last) => {
            push_marks(key.get(), out)?;
            push_branches(branches.as_slice(), out)?;
            push_marks(last.get(), out)
        }
        ExprKind::Call(operator, operands) => {
            push_marks(operator.get(), out)?;
            push_all(operands.as_slice(), out)
        }
        ExprKind::ProperCall(operator, operands) => {
            push_marks(operator.get(), out)?;
            push_all(operands.as_slice(), out)
        }
        ExprKind::Primitive(operation, operands) => {
            push(Mark::Performs(*operation), at, out)?;
            push_all(operands.as_slice(), out)
        }
    }
}

#[cycle(marks)]
fn push_all(es: &[Expr], out: &mut Items<Marked>) -> Result<(), AllocError>
    ensures { OnOk result (out.new ≡ out.old ++ joined (map marks_of es.now)) }
{
    for e in es {
        push_marks(e, out)?;
    }
    Ok(())
}

#[cycle(marks)]
fn push_branches(branches: &[Labelled], out: &mut Items<Marked>) -> Result<(), AllocError>
    ensures { OnOk result (out.new ≡ out.old ++ joined (map branch_marks branches.now)) }
{
    for branch in branches {
        push_marks(&branch.body, out)?;
    }
    Ok(())
}
