//! A walk through the text of a kernel, from mark to mark. It does nothing more once a mark is wrong.

ghost use Rattle.std.specs.Prelude.{◌≡◌, OnOk};
ghost use Rattle.std.specs.List.{fold};
ghost use Rattle.ps_kernel.specs.InsideSteps.{Entire, Branch, branch_of, sequence_steps, part_steps, if_steps, let_steps, letrec_steps, case_steps, call_steps, lambda_steps, group_steps, steps, kind_steps};
ghost use Rattle.ps_kernel.specs.InsideWalks.{step};

use crate::expr::{Expr, ExprKind, GroupEntry, Labelled};
use crate::kernel::{Kernel, Numbers};
use crate::validity::labels::walk_labels;
use crate::validity::locals::Locals;
use crate::validity::passing::{
    assign, assign_global, begin, choose, close, close_all, close_group, meet_lambda, meet_node,
    meet_too_deep, mention, open, open_all, open_group, perform, quote, read_global, replace,
};
use ps_base::{Flags, NoMemory};

/// What a walk has met so far.
#[derive(Drop)]
pub struct Walk {
    /// Whether no mark was wrong.
    pub right: bool,
    /// How many expressions.
    pub nodes: u64,
    /// For each lambda, whether it was met.
    pub stands: Flags,
    /// The locals.
    pub locals: Locals,
    /// The locals that are assigned.
    pub assigned: Numbers,
    /// The locals that letrecs bind.
    pub entries: Numbers,
}

/// An expression, and what stands in it.
#[cycle(walking)]
pub fn walk_expr(
    walk: &mut Walk,
    kernel: &Kernel,
    e: &Expr,
    tail: bool,
    left: u32,
) -> Result<(), NoMemory>
    ensures { OnOk result (walk.new ≡ fold (step kernel.now) walk.old (steps kernel.now left tail (Entire e.now))) }
{
    if !walk.right {
        return Ok(());
    }
    if left == 0 {
        meet_too_deep(walk, kernel);
        return Ok(());
    }
    meet_node(walk, kernel);
    walk_kind(walk, kernel, &e.kind, tail, left - 1)
}

// What stands in an expression, of which the parts are read to so many levels.
#[cycle(walking)]
fn walk_kind(
    walk: &mut Walk,
    kernel: &Kernel,
    kind: &ExprKind,
    tail: bool,
    left: u32,
) -> Result<(), NoMemory>
    ensures { OnOk result (walk.new ≡ fold (step kernel.now) walk.old (kind_steps kernel.now left tail kind.now)) }
{
    match kind {
        ExprKind::Constant(constant) => quote(walk, kernel, *constant),
        ExprKind::Local(local) => mention(walk, kernel, *local),
        ExprKind::Global(global) => read_global(walk, kernel, *global),
        ExprKind::Lambda(lambda) => walk_lambda(walk, kernel, *lambda, left)?,
        ExprKind::If(test, yes, no) => {
            walk_choice(walk, kernel, test.get(), yes.get(), no.get(), tail, left)?;
        }
        ExprKind::Let(local, value, body) => {
            walk_let(walk, kernel, *local, value.get(), body.get(), tail, left)?;
        }
        ExprKind::Letrec(group, body) => {
            walk_letrec(walk, kernel, group.as_slice(), body.get(), tail, left)?;
        }
        ExprKind::Begin(parts) => {
            begin(walk, kernel, parts.len());
            walk_sequence(walk, kernel, parts.as_slice(), tail, left)?;
        }
        ExprKind::SetGlobal(global, value) => {
            assign_global(walk, kernel, *global);
            walk_expr(walk, kernel, value.get(), false, left)?;
        }
        ExprKind::SetLocal(local, value) => {
            assign(walk, kernel, *local)?;
            walk_expr(walk, kernel, value.get(), false, left)?;
        }
        ExprKind::Case(kind, key, branches, last) => {
            choose(walk, kernel, *kind, branches.as_slice());
            walk_case(
                walk,
                kernel,
                key.get(),
                branches.as_slice(),
                last.get(),
                tail,
                left,
            )?;
        }
        ExprKind::Call(operator, operands) => {
            walk_call(walk, kernel, operator.get(), operands.as_slice(), left)?;
        }
        ExprKind::ProperCall(operator, operands) => {
            replace(walk, kernel, tail);
            walk_call(walk, kernel, operator.get(), operands.as_slice(), left)?;
        }
        ExprKind::Primitive(prim, operands) => {
            perform(walk, kernel, *prim, operands.len());
            walk_parts(walk, kernel, operands.as_slice(), left)?;
        }
    }
    Ok(())
}

// A test, and the expressions for true and for false, which stand in tail position where the choice does.
#[cycle(walking)]
fn walk_choice(
    walk: &mut Walk,
    kernel: &Kernel,
    test: &Expr,
    yes: &Expr,
    no: &Expr,
    tail: bool,
    left: u32,
) -> Result<(), NoMemory>
    ensures { OnOk result (walk.new ≡ fold (step kernel.now) walk.old (if_steps (steps kernel.now left) tail test.now yes.now no.now)) }
{
    walk_expr(walk, kernel, test, false, left)?;
    walk_expr(walk, kernel, yes, tail, left)?;
    walk_expr(walk, kernel, no, tail, left)
}

// The value of a local, and the region of the local.
#[cycle(walking)]
fn walk_let(
    walk: &mut Walk,
    kernel: &Kernel,
    local: u32,
    value: &Expr,
    body: &Expr,
    tail: bool,
    left: u32,
) -> Result<(), NoMemory>
    ensures { OnOk result (walk.new ≡ fold (step kernel.now) walk.old (let_steps (steps kernel.now left) tail local value.now body.now)) }
{
    walk_expr(walk, kernel, value, false, left)?;
    open(walk, kernel, local)?;
    walk_expr(walk, kernel, body, tail, left)?;
    close(walk, kernel, local)
}

// The region of a group's locals, in which its lambdas stand.
#[cycle(walking)]
fn walk_letrec(
    walk: &mut Walk,
    kernel: &Kernel,
    group: &[GroupEntry],
    body: &Expr,
    tail: bool,
    left: u32,
) -> Result<(), NoMemory>
    ensures { OnOk result (walk.new ≡ fold (step kernel.now) walk.old (letrec_steps kernel.now (steps kernel.now left) tail group.now body.now)) }
{
    open_group(walk, kernel, group)?;
    walk_group(walk, kernel, group, left)?;
    walk_expr(walk, kernel, body, tail, left)?;
    close_group(walk, kernel, group)
}

// The key of a case, and its branches.
#[cycle(walking)]
fn walk_case(
    walk: &mut Walk,
    kernel: &Kernel,
    key: &Expr,
    branches: &[Labelled],
    last: &Expr,
    tail: bool,
    left: u32,
) -> Result<(), NoMemory>
    ensures { OnOk result (walk.new ≡ fold (step kernel.now) walk.old (case_steps (steps kernel.now left) tail key.now branches.now last.now)) }
{
    walk_expr(walk, kernel, key, false, left)?;
    walk_branches(walk, kernel, branches, last, tail, left)
}

// The branches of a case, each an if whose last part is the rest.
#[cycle(walking)]
fn walk_branches(
    walk: &mut Walk,
    kernel: &Kernel,
    branches: &[Labelled],
    last: &Expr,
    tail: bool,
    left: u32,
) -> Result<(), NoMemory>
    ensures { OnOk result (walk.new ≡ fold (step kernel.now) walk.old (steps kernel.now left tail (branch_of branches.now last.now))) }
{
    match branches.split_first() {
        None => walk_expr(walk, kernel, last, tail, left),
        Some((branch, rest)) => walk_branch(walk, kernel, branch, rest, last, tail, left),
    }
}

// The if of a branch, and those behind it.
#[cycle(walking)]
fn walk_branch(
    walk: &mut Walk,
    kernel: &Kernel,
    branch: &Labelled,
    rest: &[Labelled],
    last: &Expr,
    tail: bool,
    left: u32,
) -> Result<(), NoMemory>
    ensures { OnOk result (walk.new ≡ fold (step kernel.now) walk.old (steps kernel.now left tail (Branch branch.now rest.now last.now))) }
{
    if !walk.right {
        return Ok(());
    }
    if left == 0 {
        meet_too_deep(walk, kernel);
        return Ok(());
    }
    meet_node(walk, kernel);
    walk_labels(walk, kernel, branch.labels.as_slice(), false, left - 1);
    walk_expr(walk, kernel, &branch.body, tail, left - 1)?;
    walk_branches(walk, kernel, rest, last, tail, left - 1)
}

// The operator and the operands of a call.
#[cycle(walking)]
fn walk_call(
    walk: &mut Walk,
    kernel: &Kernel,
    operator: &Expr,
    operands: &[Expr],
    left: u32,
) -> Result<(), NoMemory>
    ensures { OnOk result (walk.new ≡ fold (step kernel.now) walk.old (call_steps (steps kernel.now left) operator.now operands.now)) }
{
    walk_expr(walk, kernel, operator, false, left)?;
    walk_parts(walk, kernel, operands, left)
}

// Parts of which none stands in tail position.
#[cycle(walking)]
fn walk_parts(walk: &mut Walk, kernel: &Kernel, parts: &[Expr], left: u32) -> Result<(), NoMemory>
    ensures { OnOk result (walk.new ≡ fold (step kernel.now) walk.old (part_steps (steps kernel.now left) parts.now)) }
{
    for part in parts {
        walk_expr(walk, kernel, part, false, left)?;
    }
    Ok(())
}

// The parts of a sequence, of which the last stands in tail position where the sequence does.
#[cycle(walking)]
fn walk_sequence(
    walk: &mut Walk,
    kernel: &Kernel,
    parts: &[Expr],
    tail: bool,
    left: u32,
) -> Result<(), NoMemory>
    ensures { OnOk result (walk.new ≡ fold (step kernel.now) walk.old (sequence_steps (steps kernel.now left) tail parts.now)) }
{
    for (i, part) in parts.iter().enumerate() {
        let last = i == parts.len() - 1;
        walk_expr(walk, kernel, part, tail && last, left)?;
    }
    Ok(())
}

// A lambda, where it stands.
#[cycle(walking)]
fn walk_lambda(walk: &mut Walk, kernel: &Kernel, number: u32, left: u32) -> Result<(), NoMemory>
    ensures { OnOk result (walk.new ≡ fold (step kernel.now) walk.old (lambda_steps kernel.now (steps kernel.now left) number)) }
{
    meet_lambda(walk, kernel, number);
    if !walk.right {
        return Ok(());
    }
    match kernel.lambdas.get(number as usize) {
        Some(lambda) => {
            open_all(walk, kernel, lambda.parameters.as_slice())?;
            walk_expr(walk, kernel, &lambda.body, true, left)?;
            close_all(walk, kernel, lambda.parameters.as_slice())?;
        }
        None => {}
    }
    Ok(())
}

// The lambdas of a group, where they stand.
#[cycle(walking)]
fn walk_group(
    walk: &mut Walk,
    kernel: &Kernel,
    group: &[GroupEntry],
    left: u32,
) -> Result<(), NoMemory>
    ensures { OnOk result (walk.new ≡ fold (step kernel.now) walk.old (group_steps kernel.now (steps kernel.now left) group.now)) }
{
    for entry in group {
        walk_lambda(walk, kernel, entry.lambda, left)?;
    }
    Ok(())
}
