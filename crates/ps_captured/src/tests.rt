//! Two small sources, told by hand.

use crate::{capture, first_fixed_set};
use ps_base::{Boxed, Items, Name, NoMemory, Place};
use ps_kernel::{
    Constant, Definition, Expr, ExprKind, Form, GroupEntry, Kernel, Lambda, Lambdas, Numbers,
};
use ps_types::Kinds;
use std::alloc::{Alloc, Global};
use std::process::Abort;

fn at(column: u32) -> Place {
    Place {
        file: 0,
        line: 1,
        column,
    }
}

fn expr(column: u32, kind: ExprKind) -> Expr {
    Expr {
        place: at(column),
        kind,
    }
}

fn local(number: u32) -> Expr {
    expr(1, ExprKind::Local(number))
}

fn one() -> Expr {
    expr(1, ExprKind::Constant(Constant::Integer(1)))
}

fn lambda(alloc: Global, parameters: &[u32], body: Expr) -> Result<Lambda, NoMemory> {
    Ok(Lambda {
        place: at(1),
        parameters: Numbers::from_slice(alloc, parameters)?,
        captured: Numbers::from_slice(alloc, &[9])?,
        body,
    })
}

fn call(alloc: Global, operator: u32, operand: u32) -> Result<Expr, NoMemory> {
    let mut operands = Items::new(alloc);
    operands.push(local(operand))?;
    let kind = ExprKind::Call(Boxed::new(alloc, local(operator))?, operands);
    Ok(expr(1, kind))
}

// (let ((k 1)) (letrec ((f (lambda (x) (g x))) (g (lambda (y) (lambda () (if y k f))))) (f k)))
fn main_body(alloc: Global) -> Result<Expr, NoMemory> {
    let entries = [
        GroupEntry {
            local: 1,
            lambda: 1,
        },
        GroupEntry {
            local: 2,
            lambda: 2,
        },
    ];
    let group = Items::from_slice(alloc, &entries)?;
    let letrec = ExprKind::Letrec(group, Boxed::new(alloc, call(alloc, 1, 0)?)?);
    let body = Boxed::new(alloc, expr(1, letrec))?;
    Ok(expr(1, ExprKind::Let(0, Boxed::new(alloc, one())?, body)))
}

// The lambdas of a source in which f reaches g, in whose text stands a lambda that mentions k and f.
fn lambdas(alloc: Global) -> Result<Lambdas, NoMemory> {
    let test = Boxed::new(alloc, local(4))?;
    let yes = Boxed::new(alloc, local(0))?;
    let no = Boxed::new(alloc, local(1))?;
    let mut lambdas = Lambdas::new(alloc);
    lambdas.push(lambda(alloc, &[], main_body(alloc)?)?)?;
    lambdas.push(lambda(alloc, &[3], call(alloc, 2, 3)?)?)?;
    lambdas.push(lambda(alloc, &[4], expr(1, ExprKind::Lambda(3)))?)?;
    lambdas.push(lambda(alloc, &[], expr(1, ExprKind::If(test, yes, no)))?)?;
    Ok(lambdas)
}

fn kernel(alloc: Global) -> Result<Kernel, NoMemory> {
    let main = Definition {
        structure: Name(0),
        name: Name(1),
        place: at(1),
    };
    let mut forms = Items::new(alloc);
    forms.push(Form::Define(0, expr(1, ExprKind::Lambda(0))))?;
    Ok(Kernel {
        definitions: Items::from_slice(alloc, &[main])?,
        lambdas: lambdas(alloc)?,
        literals: Items::new(alloc),
        kinds: Kinds::new(alloc),
        forms,
        main: 0,
    })
}

#[test]
fn lists_what_lambdas_keep(rt: HostRuntime) {
    let before = kernel(rt.alloc()).expect(&rt, "memory");
    let after = capture(rt.alloc(), before).expect(&rt, "memory");
    let lists: [&[u32]; 4] = [&[], &[0], &[0], &[0, 1, 4]];
    for (i, list) in lists.iter().enumerate() {
        match after.lambdas.get(i) {
            Some(lambda) => assert_eq!(rt; lambda.captured.as_slice(), *list),
            None => assert!(rt; false),
        }
    }
}

// The lambda (lambda (x) (begin (set! x 1) (lambda () e))), with the assignment in column 7.
fn assigns(alloc: Global, inner: Expr) -> Result<Lambdas, NoMemory> {
    let mut parts = Items::new(alloc);
    let set = ExprKind::SetLocal(0, Boxed::new(alloc, one())?);
    parts.push(expr(7, set))?;
    parts.push(expr(1, ExprKind::Lambda(1)))?;
    let mut lambdas = Lambdas::new(alloc);
    lambdas.push(lambda(alloc, &[0], expr(1, ExprKind::Begin(parts)))?)?;
    lambdas.push(lambda(alloc, &[], inner)?)?;
    Ok(lambdas)
}

#[test]
fn finds_an_assignment_of_what_is_kept(rt: HostRuntime) {
    let form = expr(1, ExprKind::Lambda(0));
    let kept = assigns(rt.alloc(), local(0)).expect(&rt, "memory");
    let got = first_fixed_set(rt.alloc(), kept.as_slice(), &form).expect(&rt, "memory");
    assert_eq!(rt; got, Some(at(7)));
    let own = assigns(rt.alloc(), one()).expect(&rt, "memory");
    let got = first_fixed_set(rt.alloc(), own.as_slice(), &form).expect(&rt, "memory");
    assert_eq!(rt; got, None);
}
