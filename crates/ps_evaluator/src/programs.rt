//! The program of a kernel: the values that its definitions begin with, and where `main` stands.

ghost use Rattle.std.specs.Prelude.{◌≡◌, slice_get, IfOk};
ghost use Rattle.ps_kernel.specs.Texts.{defined_by, lambda_in, procedure_of};
ghost use Rattle.ps_meaning.specs.Source.{definition_place, main_place, run_global, run_globals};

use crate::machine::RunGlobals;
use byte_store::Value;
use ps_base::{Items, NoMemory, Place};
use ps_kernel::{Expr, ExprKind, Form, Kernel};
use ps_meaning::RunValue;
use std::alloc::Global;

// The lambda that an expression is.
fn lambda_in(e: &Expr) -> Option<u32>
    ensures { result ≡ lambda_in e.now }
{
    match &e.kind {
        ExprKind::Constant(_) => None,
        ExprKind::Local(_) => None,
        ExprKind::Global(_) => None,
        ExprKind::Lambda(l) => Some(*l),
        ExprKind::If(_, _, _) => None,
        ExprKind::Let(_, _, _) => None,
        ExprKind::Letrec(_, _) => None,
        ExprKind::Begin(_) => None,
        ExprKind::SetGlobal(_, _) => None,
        ExprKind::SetLocal(_, _) => None,
        ExprKind::Case(_, _, _, _) => None,
        ExprKind::Call(_, _) => None,
        ExprKind::ProperCall(_, _) => None,
        ExprKind::Primitive(_, _) => None,
    }
}

// The lambda by which forms define a definition, where it is a procedure definition.
fn defined_by(g: usize, forms: &[Form]) -> Option<u32>
    ensures { result ≡ defined_by g forms.now }
{
    match forms {
        [] => None,
        [form, more @ ..] => match form {
            Form::Define(d, e) => {
                if g == *d as usize {
                    lambda_in(e)
                } else {
                    defined_by(g, more)
                }
            }
            Form::Do(_) => defined_by(g, more),
        },
    }
}

// The lambda of a procedure definition.
fn procedure_of(kernel: &Kernel, g: usize) -> Option<u32>
    ensures { result ≡ procedure_of kernel.now g }
{
    defined_by(g, kernel.forms.as_slice())
}

// The value at run time of a definition, by its lambda and its value at compile time.
fn run_global(alloc: Global, procedure: Option<u32>, value: Option<Value>) -> Option<RunValue>
    ensures { result ≡ run_global procedure value }
{
    match procedure {
        Some(l) => Some(RunValue::Procedure(l, Items::new(alloc))),
        None => match value {
            Some(v) => Some(RunValue::Plain(v)),
            None => None,
        },
    }
}

/// The values at run time of definitions with these values.
pub fn run_globals(
    alloc: Global,
    kernel: &Kernel,
    values: &[Option<Value>],
) -> Result<RunGlobals, NoMemory>
    ensures { IfOk result (λ r. r ≡ run_globals kernel.now 0 values.now) }
{
    let mut all = Items::new(alloc);
    for (g, value) in values.iter().enumerate() {
        all.push(run_global(alloc, procedure_of(kernel, g), *value))?;
    }
    Ok(all)
}

// Where the definition of `main` stands.
fn definition_place(kernel: &Kernel) -> Place
    ensures { result ≡ definition_place (slice_get kernel.now.definitions kernel.now.main) }
{
    match kernel.definitions.get(kernel.main as usize) {
        Some(d) => d.place,
        None => Place {
            file: 0,
            line: 1,
            column: 1,
        },
    }
}

/// Where `main` stands.
pub fn main_place(kernel: &Kernel) -> Place
    ensures { result ≡ main_place kernel.now }
{
    let at = definition_place(kernel);
    match procedure_of(kernel, kernel.main as usize) {
        None => at,
        Some(l) => match kernel.lambdas.get(l as usize) {
            None => at,
            Some(m) => m.place,
        },
    }
}
