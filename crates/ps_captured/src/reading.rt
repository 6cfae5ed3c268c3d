//! A reading of texts, in order, with the bodies of lambdas where these stand.

ghost use Rattle.std.specs.Prelude.{◌≡◌, [], Some, IfOk, OnOk, slice_get};
ghost use Rattle.std.specs.List.{fold};
ghost use Rattle.ps_kernel.specs.Most.{most_depth};
ghost use Rattle.ps_captured.specs.InsideKeeping.{sights_in};
ghost use Rattle.ps_captured.specs.InsideReading.{Entire, Branch, branch_of, put_bound, put_entry, read, read_call, read_case, read_group, read_if, read_body as body_spec, read_forms, read_kind, read_lambda, read_let, read_letrec, read_parts, sights, sights_of, sights_of_form};

use crate::seen::{Seen, Sights, see};
use ps_base::{NoMemory, Place};
use ps_kernel::{Expr, ExprKind, Form, GroupEntry, Labelled, Lambda};
use std::alloc::Global;

// The deepest that an expression may stand.
const DEPTH: u32 = 1_000;

/// What is seen in the text of a form, of which this is the expression.
pub fn text_of_form<'a>(
    alloc: Global,
    lambdas: &'a [Lambda],
    form: &'a Expr,
) -> Result<Sights<'a>, NoMemory>
    ensures { IfOk result (λ seen. sights seen ≡ sights_of_form lambdas.now form.now) }
{
    let mut seen = Sights::new(alloc);
    read_expr(&mut seen, lambdas, form, DEPTH)?;
    Ok(seen)
}

/// What is seen in the text of a lambda.
pub fn text_of<'a>(
    alloc: Global,
    lambdas: &'a [Lambda],
    number: usize,
) -> Result<Sights<'a>, NoMemory>
    ensures { IfOk result (λ seen. sights seen ≡ sights_of lambdas.now number) }
{
    let mut seen = Sights::new(alloc);
    read_text(&mut seen, lambdas, number, DEPTH)?;
    Ok(seen)
}

/// What is seen in the text of one of these lambdas.
pub fn text_in<'a>(
    alloc: Global,
    lambdas: &'a [Lambda],
    lambda: &'a Lambda,
) -> Result<Sights<'a>, NoMemory>
    ensures { IfOk result (λ seen. sights seen ≡ sights_in lambdas.now (Some lambda.now)) }
{
    let mut seen = Sights::new(alloc);
    read_body(&mut seen, lambdas, lambda, DEPTH)?;
    Ok(seen)
}

/// What is seen in the text of forms.
pub fn text_of_forms<'a>(
    alloc: Global,
    lambdas: &'a [Lambda],
    forms: &'a [Form],
) -> Result<Sights<'a>, NoMemory>
    ensures { IfOk result (λ seen. sights seen ≡ read_forms lambdas.now most_depth [] forms.now) }
{
    let mut seen = Sights::new(alloc);
    for form in forms {
        match form {
            Form::Define(_, e) => read_expr(&mut seen, lambdas, e, DEPTH)?,
            Form::Do(e) => read_expr(&mut seen, lambdas, e, DEPTH)?,
        }
    }
    Ok(seen)
}

// An expression, and what stands in it, to so many levels.
#[cycle(reading)]
fn read_expr<'a>(
    seen: &mut Sights<'a>,
    lambdas: &'a [Lambda],
    e: &'a Expr,
    left: u32,
) -> Result<(), NoMemory>
    ensures { OnOk result (sights seen.new ≡ read lambdas.now left (sights seen.old) (Entire e.now)) }
{
    if left == 0 {
        return Ok(());
    }
    read_node(seen, lambdas, e.place, &e.kind, left - 1)
}

// What stands in an expression at a place, of which the parts are read to so many levels.
#[cycle(reading)]
fn read_node<'a>(
    seen: &mut Sights<'a>,
    lambdas: &'a [Lambda],
    place: Place,
    kind: &'a ExprKind,
    left: u32,
) -> Result<(), NoMemory>
    ensures { OnOk result (sights seen.new ≡ read_kind lambdas.now left (sights seen.old) place kind.now) }
{
    match kind {
        ExprKind::Constant(_) => Ok(()),
        ExprKind::Local(local) => see(seen, Seen::Mentions(*local)),
        ExprKind::Global(_) => Ok(()),
        ExprKind::Lambda(number) => read_one(seen, lambdas, &[], *number, left),
        ExprKind::If(test, yes, no) => {
            read_choice(seen, lambdas, test.get(), yes.get(), no.get(), left)
        }
        ExprKind::Let(local, value, body) => {
            read_region(seen, lambdas, *local, value.get(), body.get(), left)
        }
        ExprKind::Letrec(group, body) => {
            read_regions(seen, lambdas, group.as_slice(), body.get(), left)
        }
        ExprKind::Begin(parts) => read_each(seen, lambdas, parts.as_slice(), left),
        ExprKind::SetGlobal(_, value) => read_expr(seen, lambdas, value.get(), left),
        ExprKind::SetLocal(local, value) => {
            see(seen, Seen::Sets(place, *local))?;
            read_expr(seen, lambdas, value.get(), left)
        }
        ExprKind::Case(_, key, branches, last) => {
            read_cases(
                seen,
                lambdas,
                key.get(),
                branches.as_slice(),
                last.get(),
                left,
            )
        }
        ExprKind::Call(operator, operands) => {
            read_operation(seen, lambdas, operator.get(), operands.as_slice(), left)
        }
        ExprKind::ProperCall(operator, operands) => {
            read_operation(seen, lambdas, operator.get(), operands.as_slice(), left)
        }
        ExprKind::Primitive(_, operands) => read_each(seen, lambdas, operands.as_slice(), left),
    }
}

// A test, and the expressions for true and for false.
#[cycle(reading)]
fn read_choice<'a>(
    seen: &mut Sights<'a>,
    lambdas: &'a [Lambda],
    test: &'a Expr,
    yes: &'a Expr,
    no: &'a Expr,
    left: u32,
) -> Result<(), NoMemory>
    ensures { OnOk result (sights seen.new ≡ read_if (read lambdas.now left) (sights seen.old) test.now yes.now no.now) }
{
    read_expr(seen, lambdas, test, left)?;
    read_expr(seen, lambdas, yes, left)?;
    read_expr(seen, lambdas, no, left)
}

// The value of a local, and where the local is bound.
#[cycle(reading)]
fn read_region<'a>(
    seen: &mut Sights<'a>,
    lambdas: &'a [Lambda],
    local: u32,
    value: &'a Expr,
    body: &'a Expr,
    left: u32,
) -> Result<(), NoMemory>
    ensures { OnOk result (sights seen.new ≡ read_let (read lambdas.now left) (sights seen.old) local value.now body.now) }
{
    read_expr(seen, lambdas, value, left)?;
    see(seen, Seen::Binds(local))?;
    read_expr(seen, lambdas, body, left)
}

// The locals of a group, its lambdas, and where they are bound.
#[cycle(reading)]
fn read_regions<'a>(
    seen: &mut Sights<'a>,
    lambdas: &'a [Lambda],
    group: &'a [GroupEntry],
    body: &'a Expr,
    left: u32,
) -> Result<(), NoMemory>
    ensures { OnOk result (sights seen.new ≡ read_letrec lambdas.now (read lambdas.now left) (sights seen.old) group.now body.now) }
{
    enter(seen, group)?;
    read_members(seen, lambdas, group, left)?;
    read_expr(seen, lambdas, body, left)
}

// The lambdas of a group, where they stand.
#[cycle(reading)]
fn read_members<'a>(
    seen: &mut Sights<'a>,
    lambdas: &'a [Lambda],
    group: &'a [GroupEntry],
    left: u32,
) -> Result<(), NoMemory>
    ensures { OnOk result (sights seen.new ≡ read_group lambdas.now (read lambdas.now left) (sights seen.old) group.now group.now) }
{
    for entry in group {
        read_one(seen, lambdas, group, entry.lambda, left)?;
    }
    Ok(())
}

// A lambda, where it stands in a group or in none.
#[cycle(reading)]
fn read_one<'a>(
    seen: &mut Sights<'a>,
    lambdas: &'a [Lambda],
    group: &'a [GroupEntry],
    number: u32,
    left: u32,
) -> Result<(), NoMemory>
    ensures { OnOk result (sights seen.new ≡ read_lambda lambdas.now (read lambdas.now left) (sights seen.old) group.now number) }
{
    see(seen, Seen::Stands(number, group))?;
    read_text(seen, lambdas, number as usize, left)
}

// The parameters and the body of a lambda, or nothing where there is none of this number.
#[cycle(reading)]
fn read_text<'a>(
    seen: &mut Sights<'a>,
    lambdas: &'a [Lambda],
    number: usize,
    left: u32,
) -> Result<(), NoMemory>
    ensures { OnOk result (sights seen.new ≡ body_spec (read lambdas.now left) (sights seen.old) (slice_get lambdas.now number)) }
{
    match lambdas.get(number) {
        Some(lambda) => read_body(seen, lambdas, lambda, left),
        None => Ok(()),
    }
}

// The parameters and the body of a lambda.
#[cycle(reading)]
fn read_body<'a>(
    seen: &mut Sights<'a>,
    lambdas: &'a [Lambda],
    lambda: &'a Lambda,
    left: u32,
) -> Result<(), NoMemory>
    ensures { OnOk result (sights seen.new ≡ body_spec (read lambdas.now left) (sights seen.old) (Some lambda.now)) }
{
    bind(seen, lambda.parameters.as_slice())?;
    read_expr(seen, lambdas, &lambda.body, left)
}

// The key of a case, and its branches.
#[cycle(reading)]
fn read_cases<'a>(
    seen: &mut Sights<'a>,
    lambdas: &'a [Lambda],
    key: &'a Expr,
    branches: &'a [Labelled],
    last: &'a Expr,
    left: u32,
) -> Result<(), NoMemory>
    ensures { OnOk result (sights seen.new ≡ read_case (read lambdas.now left) (sights seen.old) key.now branches.now last.now) }
{
    read_expr(seen, lambdas, key, left)?;
    read_branches(seen, lambdas, branches, last, left)
}

// The branches of a case, of which each stands one level below the one before.
#[cycle(reading)]
fn read_branches<'a>(
    seen: &mut Sights<'a>,
    lambdas: &'a [Lambda],
    branches: &'a [Labelled],
    last: &'a Expr,
    left: u32,
) -> Result<(), NoMemory>
    ensures { OnOk result (sights seen.new ≡ read lambdas.now left (sights seen.old) (branch_of branches.now last.now)) }
{
    match branches.split_first() {
        None => read_expr(seen, lambdas, last, left),
        Some((branch, rest)) => {
            if left == 0 {
                return Ok(());
            }
            read_expr(seen, lambdas, &branch.body, left - 1)?;
            read_branches(seen, lambdas, rest, last, left - 1)
        }
    }
}

// The operator and the operands of a call.
#[cycle(reading)]
fn read_operation<'a>(
    seen: &mut Sights<'a>,
    lambdas: &'a [Lambda],
    operator: &'a Expr,
    operands: &'a [Expr],
    left: u32,
) -> Result<(), NoMemory>
    ensures { OnOk result (sights seen.new ≡ read_call (read lambdas.now left) (sights seen.old) operator.now operands.now) }
{
    read_expr(seen, lambdas, operator, left)?;
    read_each(seen, lambdas, operands, left)
}

// Parts in order.
#[cycle(reading)]
fn read_each<'a>(
    seen: &mut Sights<'a>,
    lambdas: &'a [Lambda],
    parts: &'a [Expr],
    left: u32,
) -> Result<(), NoMemory>
    ensures { OnOk result (sights seen.new ≡ read_parts (read lambdas.now left) (sights seen.old) parts.now) }
{
    for part in parts {
        read_expr(seen, lambdas, part, left)?;
    }
    Ok(())
}

// Parameters are bound.
fn bind(seen: &mut Sights<'_>, locals: &[u32]) -> Result<(), NoMemory>
    ensures { OnOk result (sights seen.new ≡ fold put_bound (sights seen.old) locals.now) }
{
    for local in locals {
        see(seen, Seen::Binds(*local))?;
    }
    Ok(())
}

// The locals of a group are bound.
fn enter(seen: &mut Sights<'_>, group: &[GroupEntry]) -> Result<(), NoMemory>
    ensures { OnOk result (sights seen.new ≡ fold put_entry (sights seen.old) group.now) }
{
    for entry in group {
        see(seen, Seen::Enters(entry.local))?;
    }
    Ok(())
}
