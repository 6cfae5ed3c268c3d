//! What the texts of lambdas say: which locals they name, and in which groups lambdas stand.

ghost use Rattle.std.specs.Prelude.{◌≡◌, List, [], filter, IfOk, true};
ghost use Rattle.ps_kernel.specs.declared.expr.GroupEntry.{GroupEntry as EntrySpec};
ghost use Rattle.ps_kernel.specs.Lists.{stands_in};
ghost use Rattle.ps_kernel.specs.Marks.{body_marks, choice_of, group_marks, lambda_marks, marks};
ghost use Rattle.ps_kernel.specs.Scoped.{mentioned};
ghost use Rattle.ps_kernel.specs.Texts.{expr_of, group_of, lambda_text, text};
ghost use Rattle.ps_evaluator.specs.InsideTexts.{Adds, Tells, TellsBranches, TellsEach, TellsGroup, TellsLambda, group_at, names, told};

use ps_base::{Items, NoMemory};
use ps_kernel::{Expr, ExprKind, Form, Group, GroupEntry, Kernel, Labelled};
use std::alloc::Global;

// How many levels a text is read to.
const DEPTH: u32 = 1_000;

/// What is told of a text.
#[derive(Debug, Drop)]
pub enum Told {
    /// A local is mentioned or assigned.
    Names(u32),
    /// A lambda stands there, in this group or in none.
    Stands(u32, Group),
}

/// What is told of a text, in order.
pub type Tale = Items<Told>;

// Adds what is told of an expression that is read to so many levels.
#[cycle(telling)]
fn tell(
    alloc: Global,
    kernel: &Kernel,
    level: u32,
    e: &Expr,
    tale: &mut Tale,
) -> Result<(), NoMemory>
    ensures { IfOk result (λ done. Tells kernel.now level e.now tale.old tale.new) }
{
    if level == 0 {
        return Ok(());
    }
    let inner = level - 1;
    match &e.kind {
        ExprKind::Constant(_) => Ok(()),
        ExprKind::Local(x) => Ok(tale.push(Told::Names(*x))?),
        ExprKind::Global(_) => Ok(()),
        ExprKind::Lambda(l) => Ok(tell_lambda(alloc, kernel, inner, &[], *l, tale)?),
        ExprKind::If(a, b, c) => {
            tell(alloc, kernel, inner, a.get(), tale)?;
            tell(alloc, kernel, inner, b.get(), tale)?;
            Ok(tell(alloc, kernel, inner, c.get(), tale)?)
        }
        ExprKind::Let(_, a, b) => {
            tell(alloc, kernel, inner, a.get(), tale)?;
            Ok(tell(alloc, kernel, inner, b.get(), tale)?)
        }
        ExprKind::Letrec(group, b) => {
            tell_group(alloc, kernel, inner, group.as_slice(), tale)?;
            Ok(tell(alloc, kernel, inner, b.get(), tale)?)
        }
        ExprKind::Begin(es) => Ok(tell_each(alloc, kernel, inner, es.as_slice(), tale)?),
        ExprKind::SetGlobal(_, a) => Ok(tell(alloc, kernel, inner, a.get(), tale)?),
        ExprKind::SetLocal(x, a) => {
            tale.push(Told::Names(*x))?;
            Ok(tell(alloc, kernel, inner, a.get(), tale)?)
        }
        ExprKind::Case(_, a, branches, last) => {
            tell(alloc, kernel, inner, a.get(), tale)?;
            Ok(tell_branches(alloc, kernel, inner, branches.as_slice(), last.get(), tale)?)
        }
        ExprKind::Call(f, es) => {
            tell(alloc, kernel, inner, f.get(), tale)?;
            Ok(tell_each(alloc, kernel, inner, es.as_slice(), tale)?)
        }
        ExprKind::ProperCall(f, es) => {
            tell(alloc, kernel, inner, f.get(), tale)?;
            Ok(tell_each(alloc, kernel, inner, es.as_slice(), tale)?)
        }
        ExprKind::Primitive(_, es) => Ok(tell_each(alloc, kernel, inner, es.as_slice(), tale)?),
    }
}

// The same of expressions in order.
#[cycle(telling)]
fn tell_each(
    alloc: Global,
    kernel: &Kernel,
    level: u32,
    es: &[Expr],
    tale: &mut Tale,
) -> Result<(), NoMemory>
    ensures { IfOk result (λ done. TellsEach kernel.now level es.now tale.old tale.new) }
{
    for e in es {
        tell(alloc, kernel, level, e, tale)?;
    }
    Ok(())
}

// The same of the branches of a case, of which each stands a level below the one before, and of its last expression.
#[cycle(telling)]
fn tell_branches(
    alloc: Global,
    kernel: &Kernel,
    level: u32,
    branches: &[Labelled],
    last: &Expr,
    tale: &mut Tale,
) -> Result<(), NoMemory>
    ensures { IfOk result (λ done. TellsBranches kernel.now level branches.now last.now tale.old tale.new) }
{
    match branches.split_first() {
        None => Ok(tell(alloc, kernel, level, last, tale)?),
        Some((branch, rest)) => {
            if level == 0 {
                return Ok(());
            }
            tell(alloc, kernel, level - 1, &branch.body, tale)?;
            Ok(tell_branches(alloc, kernel, level - 1, rest, last, tale)?)
        }
    }
}

// The same of a lambda that stands in a group, whose body is read to so many levels.
#[cycle(telling)]
fn tell_lambda(
    alloc: Global,
    kernel: &Kernel,
    level: u32,
    group: &[GroupEntry],
    lambda: u32,
    tale: &mut Tale,
) -> Result<(), NoMemory>
    ensures { IfOk result (λ done. TellsLambda kernel.now level group.now lambda tale.old tale.new) }
{
    tale.push(Told::Stands(lambda, Items::from_slice(alloc, group)?))?;
    match kernel.lambdas.get(lambda as usize) {
        None => Ok(()),
        Some(m) => Ok(tell(alloc, kernel, level, &m.body, tale)?),
    }
}

// The same of the lambdas of a group.
#[cycle(telling)]
fn tell_group(
    alloc: Global,
    kernel: &Kernel,
    level: u32,
    group: &[GroupEntry],
    tale: &mut Tale,
) -> Result<(), NoMemory>
    ensures { IfOk result (λ done. TellsGroup kernel.now level group.now group.now tale.old tale.new) }
{
    for entry in group {
        tell_lambda(alloc, kernel, level, group, entry.lambda, tale)?;
    }
    Ok(())
}

// The expression of a form.
fn expr_of(form: &Form) -> &Expr
    ensures { result.now ≡ expr_of form.now }
{
    match form {
        Form::Define(_, e) => e,
        Form::Do(e) => e,
    }
}

// What is told of the text of a kernel.
fn told_of_kernel(alloc: Global, kernel: &Kernel) -> Result<Tale, NoMemory>
    ensures { IfOk result (λ r. r ≡ told (text kernel.now)) }
{
    let mut tale = Items::new(alloc);
    for form in kernel.forms.as_slice() {
        tell(alloc, kernel, DEPTH, expr_of(form), &mut tale)?;
    }
    Ok(tale)
}

// What is told of the text of a lambda.
fn told_of_lambda(alloc: Global, kernel: &Kernel, lambda: u32) -> Result<Tale, NoMemory>
    ensures { IfOk result (λ r. r ≡ told (lambda_text kernel.now lambda)) }
{
    let mut tale = Items::new(alloc);
    if let Some(m) = kernel.lambdas.get(lambda as usize) {
        tell(alloc, kernel, DEPTH, &m.body, &mut tale)?;
    }
    Ok(tale)
}

// The group in which a lambda stands, or no entries.
fn group_at(alloc: Global, lambda: u32, tale: &[Told]) -> Result<Group, NoMemory>
    ensures { IfOk result (λ r. r ≡ group_at lambda tale.now) }
{
    match tale {
        [] => Ok(Items::new(alloc)),
        [first, rest @ ..] => match first {
            Told::Names(_) => group_at(alloc, lambda, rest),
            Told::Stands(l, group) => {
                if lambda == *l {
                    Ok(Items::from_slice(alloc, group.as_slice())?)
                } else {
                    group_at(alloc, lambda, rest)
                }
            }
        },
    }
}

// Whether a local is named.
fn is_named(local: u32, tale: &[Told]) -> bool
    ensures { result ≡ stands_in local (names tale.now) }
{
    match tale {
        [] => false,
        [first, rest @ ..] => match first {
            Told::Names(x) => local == *x || is_named(local, rest),
            Told::Stands(_, _) => is_named(local, rest),
        },
    }
}

// The entries whose locals are named.
fn named_entries(alloc: Global, group: &[GroupEntry], tale: &[Told]) -> Result<Group, NoMemory>
    ensures { IfOk result (λ r. r ≡ filter (λ (e : EntrySpec). stands_in e.local (names tale.now)) group.now) }
{
    let mut entries = Items::new(alloc);
    for entry in group {
        if is_named(entry.local, tale) {
            entries.push(*entry)?;
        }
    }
    Ok(entries)
}

/// The locals of the group of a lambda that its text mentions, with their lambdas.
pub fn mentioned(alloc: Global, kernel: &Kernel, lambda: u32) -> Result<Group, NoMemory>
    ensures { IfOk result (λ r. r ≡ mentioned kernel.now lambda) }
{
    let text = told_of_kernel(alloc, kernel)?;
    let group = group_at(alloc, lambda, text.as_slice())?;
    let own = told_of_lambda(alloc, kernel, lambda)?;
    named_entries(alloc, group.as_slice(), own.as_slice())
}
