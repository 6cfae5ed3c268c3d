//! The tables: what the text of a kernel says of a number is looked up in constant time.

ghost use Rattle.std.specs.Prelude.{◌≡◌, ◌≤◌, ◌<◌, None, Some, length, slice_get, IfOk, ℕ};
ghost use Rattle.ps_kernel.specs.Texts.{lambda_in, procedure_of};
ghost use Rattle.ps_meaning.specs.Eval.{letrec_lambda};
ghost use Rattle.ps_runs.specs.Effects.{value_in};
ghost use Rattle.ps_static_tables.specs.InsideTables.{defined_among, lambda_among, lambda_for};
ghost use Rattle.ps_static_tables.specs.Tables.{AreTables};

use crate::texts::entries_of;
use ps_base::NoMemory;
use ps_kernel::{Expr, ExprKind, Form, GroupEntry, Kernel};
use std::alloc::Global;

/// The numbers of lambdas by other numbers, where there is one.
pub type Table = Vec<Option<u32>>;

/// The tables of a kernel.
#[derive(Drop)]
pub struct Tables {
    /// The lambda of a local that a `letrec` binds.
    pub locals: Table,
    /// The lambda of a procedure definition.
    pub procedures: Table,
}

/// The tables of a kernel. They are as long as the greatest number that has a lambda.
///
/// # Errors
///
/// `NoMemory` where memory runs out.
pub fn tables_of(alloc: Global, kernel: &Kernel) -> Result<Tables, NoMemory>
    ensures { IfOk result (λ t. AreTables kernel.now t) }
{
    let entries = entries_of(alloc, kernel)?;
    let locals = locals_of(alloc, entries.as_slice())?;
    let procedures = procedures_of(alloc, kernel.forms.as_slice())?;
    Ok(Tables { locals, procedures })
}

/// The lambda of a number.
pub fn lambda_at(table: &[Option<u32>], n: u32) -> Option<u32>
    ensures { result ≡ value_in (slice_get table.now n) }
{
    match table.get(n as usize) {
        Some(lambda) => *lambda,
        None => None,
    }
}

// There is room for a number, and no number has another lambda than before.
fn make_room(table: &mut Table, n: u32) -> Result<(), NoMemory>
    ensures same { (m : ℕ) → value_in (slice_get table.new.items m) ≡ value_in (slice_get table.old.items m) }
    ensures room { IfOk result (λ done. n < length table.new.items) }
{
    while table.as_slice().len() <= n as usize {
        table.push(None)?;
    }
    Ok(())
}

// A number has another lambda, or none.
fn put(table: &mut Table, n: u32, lambda: Option<u32>) -> Result<(), NoMemory>
    ensures { IfOk result (λ done. (m : ℕ) → value_in (slice_get table.new.items m) ≡ lambda_for n lambda m (value_in (slice_get table.old.items m))) }
{
    make_room(table, n)?;
    table[n as usize] = lambda;
    Ok(())
}

// The lambdas of the locals of these entries, of which the first of a local counts.
fn locals_of(alloc: Global, entries: &[GroupEntry]) -> Result<Table, NoMemory>
    ensures { IfOk result (λ t. (x : ℕ) → value_in (slice_get t.items x) ≡ lambda_among x entries.now None) }
{
    let mut table = Vec::new(alloc);
    let mut i = entries.len();
    while i > 0 {
        i -= 1;
        put(&mut table, entries[i].local, Some(entries[i].lambda))?;
    }
    Ok(table)
}

// The lambdas by which these forms define, of which the first form of a definition counts.
fn procedures_of(alloc: Global, forms: &[Form]) -> Result<Table, NoMemory>
    ensures { IfOk result (λ t. (g : ℕ) → value_in (slice_get t.items g) ≡ defined_among g forms.now None) }
{
    let mut table = Vec::new(alloc);
    let mut i = forms.len();
    while i > 0 {
        i -= 1;
        match &forms[i] {
            Form::Define(g, e) => put(&mut table, *g, lambda_in(e))?,
            Form::Do(_) => {}
        }
    }
    Ok(table)
}

// The lambda that an expression is.
fn lambda_in(e: &Expr) -> Option<u32>
    ensures { result ≡ lambda_in e.now }
{
    match &e.kind {
        ExprKind::Constant(_) => None,
        ExprKind::Local(_) => None,
        ExprKind::Global(_) => None,
        ExprKind::Lambda(l) => Some(*l),
        ExprKind::If(_, _, _) => None,
        ExprKind::Let(_, _, _) => None,
        ExprKind::Letrec(_, _) => None,
        ExprKind::Begin(_) => None,
        ExprKind::SetGlobal(_, _) => None,
        ExprKind::SetLocal(_, _) => None,
        ExprKind::Case(_, _, _, _) => None,
        ExprKind::Call(_, _) => None,
        ExprKind::ProperCall(_, _) => None,
        ExprKind::Primitive(_, _) => None,
    }
}
