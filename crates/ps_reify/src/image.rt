//! The program, with the tables that its numbers are looked up in.

ghost use Rattle.std.specs.Prelude.{◌≡◌, ◌<◌, ◌≤◌, ℕ, length, slice_set, slice_index_or, Option, Some, None, IfOk, drop, replicate};
ghost use Rattle.ps_kernel.specs.Texts.{defined_by, lambda_in};
ghost use Rattle.ps_kernel.specs.Valid.{IsValid};
ghost use Rattle.ps_meaning.specs.Literals.{lay_all};
ghost use Rattle.ps_reify.specs.Answers.{program};
ghost use Rattle.ps_reify.specs.InsideWork.{program_of, IsImage, Noted, IsTable};

use crate::literals::values_of;
use byte_store::{Store, Value};
use ps_base::Items;
use ps_kernel::{Expr, ExprKind, Form, Kernel};
use std::alloc::{AllocError, Allocator, Global};

/// The program, the lambdas of its procedure definitions, and the values of its literals.
#[derive(Drop)]
pub struct Image<'a, A: Allocator + Copy> {
    pub kernel: &'a Kernel,
    pub globals: &'a [Option<Value>],
    pub store: &'a Store<Value, A>,
    pub procedures: Items<Option<u32>>,
    pub literals: Items<Value>,
}

/// The tables are made.
pub fn image_of<'a, A: Allocator + Copy>(
    alloc: Global,
    kernel: &'a Kernel,
    globals: &'a [Option<Value>],
    store: &'a Store<Value, A>,
) -> Result<Image<'a, A>, AllocError>
    requires valid { IsValid kernel.now }
    requires literals { length (lay_all kernel.now.literals).blocks < 4294967296 }
    ensures image { IfOk result (λ image. IsImage image) }
    ensures program { IfOk result (λ image. program_of image ≡ program kernel.now globals.now store.now) }
{
    Ok(Image {
        kernel,
        globals,
        store,
        procedures: procedures(alloc, kernel.definitions.len(), kernel.forms.as_slice())?,
        literals: values_of(alloc, kernel.literals.as_slice())?,
    })
}

// The lambda that an expression is.
fn lambda_in(e: &Expr) -> Option<u32>
    ensures { result ≡ lambda_in e.now }
{
    match &e.kind {
        ExprKind::Constant(_) => None,
        ExprKind::Local(_) => None,
        ExprKind::Global(_) => None,
        ExprKind::Lambda(l) => Some(*l),
        ExprKind::If(_, _, _) => None,
        ExprKind::Let(_, _, _) => None,
        ExprKind::Letrec(_, _) => None,
        ExprKind::Begin(_) => None,
        ExprKind::SetGlobal(_, _) => None,
        ExprKind::SetLocal(_, _) => None,
        ExprKind::Case(_, _, _, _) => None,
        ExprKind::Call(_, _) => None,
        ExprKind::ProperCall(_, _) => None,
        ExprKind::Primitive(_, _) => None,
    }
}

// A form is noted, before those that stand behind it.
fn note(form: &Form, table: &mut Items<Option<u32>>)
    ensures { Noted form.now table.old table.new }
{
    match form {
        Form::Define(g, e) => {
            let lambda = lambda_in(e);
            if (*g as usize) < table.len() {
                table.set(*g as usize, lambda);
            }
        }
        Form::Do(_) => {}
    }
}

// The lambda of each definition of so many, where it has one. The first form of a definition counts.
fn procedures(alloc: Global, count: usize, forms: &[Form]) -> Result<Items<Option<u32>>, AllocError>
    ensures { IfOk result (λ table. IsTable count forms.now table) }
{
    let mut table = Items::from_vec(vec![in alloc; None; count]?);
    let mut i = forms.len();
    while i > 0 {
        i -= 1;
        note(&forms[i], &mut table);
    }
    Ok(table)
}
