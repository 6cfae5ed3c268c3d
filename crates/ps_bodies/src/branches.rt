//! The expression that a `case` is: a node of its own, or an `if` for each clause.

ghost use Rattle.ps_bodies.specs.Branches.{as_ifs as ifs_spec, as_node as node_spec, code_of as code_spec, comparison as comparison_spec, constant_of as constant_spec, ifs_of as ifs_of_spec, is_one_of as one_of_spec, is_same as same_spec, labelled as labelled_spec};
ghost use Rattle.ps_bodies.specs.InsideBranches.{or_test as or_spec};
ghost use Rattle.ps_expansion.specs.declared.stop.Stop.TheVariants.{NoMemory as WantOfMemory};
ghost use Rattle.ps_kernel.specs.Texts.{expr_at as expr_spec};
ghost use Rattle.ps_kernel.specs.declared.expr.ExprKind.TheVariants as k;
ghost use Rattle.std.specs.Prelude.{MatchResult, map, ◌≡◌};

use ps_base::{Boxed, Items, Place, Prim};
use ps_derived::Label;
use ps_expansion::{Stop, expr_at};
use ps_kernel::{Branches, CaseKind, Constant, Expr, ExprKind, Labelled, Labels};
use std::alloc::Global;

/// A clause whose expressions are expanded.
#[derive(Drop)]
pub struct Branch {
    /// Its data.
    pub labels: Items<Label>,
    /// What is evaluated where the key is one of them.
    pub body: Expr,
}

/// A `case` as a node.
///
/// # Errors
///
/// `NoMemory` where memory ran out.
pub fn as_node(
    alloc: Global,
    at: Place,
    kind: CaseKind,
    key: Expr,
    branches: Items<Branch>,
    last: Expr,
) -> Result<Expr, Stop>
    ensures { MatchResult result (λ e. e ≡ node_spec at kind key branches last) (λ e. e ≡ WantOfMemory) }
{
    let branches = labelled(alloc, branches)?;
    let key = Boxed::new(alloc, key)?;
    let last = Boxed::new(alloc, last)?;
    Ok(expr_at(at, ExprKind::Case(kind, key, branches, last)))
}

// Clauses as branches of a node.
fn labelled(alloc: Global, branches: Items<Branch>) -> Result<Branches, Stop>
    ensures { MatchResult result (λ bs. bs ≡ map labelled_spec branches) (λ e. e ≡ WantOfMemory) }
{
    let mut branches = branches;
    let mut all = Vec::new(alloc);
    while let Some(Branch { labels, body }) = branches.pop() {
        let labels = codes_of(alloc, labels.as_slice())?;
        all.push(Labelled { labels, body })?;
    }
    all.reverse();
    Ok(Items::from_vec(all))
}

// The codes of data.
fn codes_of(alloc: Global, labels: &[Label]) -> Result<Labels, Stop>
    ensures { MatchResult result (λ ls. ls ≡ map code_spec labels.now) (λ e. e ≡ WantOfMemory) }
{
    let mut all = Items::new(alloc);
    for label in labels {
        all.push(code_of(*label))?;
    }
    Ok(all)
}

// The code of a datum.
fn code_of(label: Label) -> i64
    ensures { result ≡ code_spec label }
{
    match label {
        Label::Integer(n) => n,
        Label::Char(code) => i64::from(code),
        Label::Boolean(_) => 0,
    }
}

/// A `case` as a let of its key to a local, and in it an `if` for each clause.
///
/// # Errors
///
/// `NoMemory` where memory ran out.
pub fn as_ifs(
    alloc: Global,
    at: Place,
    local: u32,
    key: Expr,
    branches: Items<Branch>,
    last: Expr,
) -> Result<Expr, Stop>
    ensures { MatchResult result (λ e. e ≡ ifs_spec at local key branches last) (λ e. e ≡ WantOfMemory) }
{
    let body = ifs_of(alloc, at, local, branches, last)?;
    let key = Boxed::new(alloc, key)?;
    let body = Boxed::new(alloc, body)?;
    Ok(expr_at(at, ExprKind::Let(local, key, body)))
}

// An `if` for each clause, and an expression where none is taken.
fn ifs_of(
    alloc: Global,
    at: Place,
    local: u32,
    branches: Items<Branch>,
    last: Expr,
) -> Result<Expr, Stop>
    ensures { MatchResult result (λ e. e ≡ ifs_of_spec at local branches last) (λ e. e ≡ WantOfMemory) }
{
    let mut branches = branches;
    let mut e = last;
    while let Some(Branch { labels, body }) = branches.pop() {
        let test = is_one_of(alloc, at, local, labels.as_slice())?;
        e = if_of(alloc, at, test, body, e)?;
    }
    Ok(e)
}

// Whether a local is one of these.
fn is_one_of(alloc: Global, at: Place, local: u32, labels: &[Label]) -> Result<Expr, Stop>
    ensures { MatchResult result (λ e. e ≡ one_of_spec at local labels.now) (λ e. e ≡ WantOfMemory) }
{
    match labels.split_last() {
        None => Ok(expr_at(at, ExprKind::Constant(Constant::Boolean(false)))),
        Some((label, front)) => {
            let test = is_same(alloc, at, local, *label)?;
            or_test(alloc, at, local, front, test)
        }
    }
}

// Whether a local is one of these, and otherwise a test.
fn or_test(alloc: Global, at: Place, local: u32, labels: &[Label], test: Expr) -> Result<Expr, Stop>
    ensures { MatchResult result (λ e. e ≡ or_spec at local labels.now test) (λ e. e ≡ WantOfMemory) }
{
    let mut rest = labels;
    let mut test = test;
    while let Some((label, front)) = rest.split_last() {
        let same = is_same(alloc, at, local, *label)?;
        let yes = expr_at(at, ExprKind::Constant(Constant::Boolean(true)));
        test = if_of(alloc, at, same, yes, test)?;
        rest = front;
    }
    Ok(test)
}

// Whether a local is this.
fn is_same(alloc: Global, at: Place, local: u32, label: Label) -> Result<Expr, Stop>
    ensures { MatchResult result (λ e. e ≡ same_spec at local label) (λ e. e ≡ WantOfMemory) }
{
    let (primitive, constant) = comparison(label);
    let mut both = Items::new(alloc);
    both.push(expr_at(at, ExprKind::Local(local)))?;
    both.push(expr_at(at, ExprKind::Constant(constant)))?;
    Ok(expr_at(at, ExprKind::Primitive(primitive, both)))
}

// What compares with a datum, and the constant that the datum is.
fn comparison(label: Label) -> (Prim, Constant)
    ensures comparison { result.0 ≡ comparison_spec label }
    ensures constant { result.1 ≡ constant_spec label }
{
    match label {
        Label::Integer(n) => (Prim::Equal, Constant::Integer(n)),
        Label::Char(code) => (Prim::CharEqual, Constant::Char(code)),
        Label::Boolean(b) => (Prim::BooleanEqual, Constant::Boolean(b)),
    }
}

/// An `if`.
///
/// # Errors
///
/// `NoMemory` where memory ran out.
pub fn if_of(alloc: Global, at: Place, x: Expr, y: Expr, z: Expr) -> Result<Expr, Stop>
    ensures { MatchResult result (λ e. e ≡ expr_spec at (k.If x y z)) (λ e. e ≡ WantOfMemory) }
{
    let x = Boxed::new(alloc, x)?;
    let y = Boxed::new(alloc, y)?;
    let z = Boxed::new(alloc, z)?;
    Ok(expr_at(at, ExprKind::If(x, y, z)))
}
