//! Expressions. Each stands at line 1 and column 1, unless it is written `(at COLUMN e)`.
//!
//! `5`, `#t`, `#\a`, `unit`, `null`, `(quoted N)`, `(local N)`, `(global N)`, `(lambda N)`, `(if a b c)`, `(let N a b)`,
//! `(letrec (LOCAL LAMBDA ...) b)`, `(begin e ...)`, `(set! N e)` of a definition, `(set-local! N e)`, `(call f e ...)`,
//! `(proper f e ...)`, `(maker K e ...)`, `(predicate K e ...)`, `(accessor (K FIELD) e ...)`, `(modifier (K FIELD) e ...)`, and
//! the name of a primitive with its operands. `(case KIND KEY ELSE (LABELS e) ...)` is a case, whose KIND is `integer` or
//! `char`, and LABELS a list of integers and characters, or `#(N COUNT)` for so many integers from N on. `(deep N)` is N levels
//! deep, and `(wide N)` a sequence of N parts, each of which binds a local of its own in 3 expressions.

use crate::data::{PLACE, labels_of, numbers_of};
use crate::trouble::Trouble;
use crate::words::{CASE_KINDS, HEADS, Head, meaning_of};
use ps_base::{Boxed, Items, Names, Place, Prim};
use ps_datum::{Datum, DatumKind};
use ps_kernel::{Constant, Expr, ExprKind, Exprs, Group, GroupEntry, Labelled};
use std::alloc::Global;

fn here(kind: ExprKind) -> Expr {
    Expr { place: PLACE, kind }
}

fn constant(c: Constant) -> Expr {
    here(ExprKind::Constant(c))
}

/// The expression that a datum writes.
#[cycle(expr)]
pub fn expr(alloc: Global, names: &Names, d: &Datum) -> Result<Expr, Trouble> {
    match &d.kind {
        DatumKind::Integer(i) => Ok(constant(Constant::Integer(*i))),
        DatumKind::Boolean(b) => Ok(constant(Constant::Boolean(*b))),
        DatumKind::Char(code) => Ok(constant(Constant::Char(*code))),
        DatumKind::Symbol(_) => leaf(alloc, d.place, meaning_of(HEADS, names, d)?, &[]),
        DatumKind::List(parts) => match parts.as_slice() {
            [word, rest @ ..] => form(alloc, names, d.place, meaning_of(HEADS, names, word)?, rest),
            [] => Err(Trouble::Unread(d.place)),
        },
        _ => Err(Trouble::Unread(d.place)),
    }
}

// The expression of a head and what is behind it.
#[cycle(expr)]
fn form(
    alloc: Global,
    names: &Names,
    at: Place,
    head: Head,
    rest: &[Datum],
) -> Result<Expr, Trouble> {
    if let Head::Case = head {
        return case(alloc, names, at, rest);
    }
    if !takes_numbers(head) {
        return node(alloc, at, head, &[], exprs(alloc, names, rest)?);
    }
    match rest {
        [first, rest @ ..] => {
            let numbers = numbers_of(alloc, first)?;
            node(
                alloc,
                at,
                head,
                numbers.as_slice(),
                exprs(alloc, names, rest)?,
            )
        }
        [] => Err(Trouble::Unread(at)),
    }
}

// The expressions that data write.
#[cycle(expr)]
fn exprs(alloc: Global, names: &Names, ds: &[Datum]) -> Result<Exprs, Trouble> {
    let mut all = Items::new(alloc);
    for d in ds {
        all.push(expr(alloc, names, d)?)?;
    }
    Ok(all)
}

// A case, by its kind, its key, its last expression and its branches.
#[cycle(expr)]
fn case(alloc: Global, names: &Names, at: Place, rest: &[Datum]) -> Result<Expr, Trouble> {
    let [kind, key, last, rest @ ..] = rest else {
        return Err(Trouble::Unread(at));
    };
    let kind = meaning_of(CASE_KINDS, names, kind)?;
    let key = Boxed::new(alloc, expr(alloc, names, key)?)?;
    let last = Boxed::new(alloc, expr(alloc, names, last)?)?;
    let mut branches = Items::new(alloc);
    for d in rest {
        branches.push(labelled(alloc, names, d)?)?;
    }
    Ok(here(ExprKind::Case(kind, key, branches, last)))
}

// A branch of a case.
#[cycle(expr)]
fn labelled(alloc: Global, names: &Names, d: &Datum) -> Result<Labelled, Trouble> {
    match &d.kind {
        DatumKind::List(parts) => match parts.as_slice() {
            [labels, body] => Ok(Labelled {
                labels: labels_of(alloc, labels)?,
                body: expr(alloc, names, body)?,
            }),
            _ => Err(Trouble::Unread(d.place)),
        },
        _ => Err(Trouble::Unread(d.place)),
    }
}

// Whether numbers stand behind a head.
fn takes_numbers(head: Head) -> bool {
    match head {
        Head::Unit => false,
        Head::Null => false,
        Head::If => false,
        Head::Begin => false,
        Head::Call => false,
        Head::Proper => false,
        Head::Prim(_) => false,
        _ => true,
    }
}

// The next one of the parts, in a box.
fn next(alloc: Global, at: Place, parts: &mut Exprs) -> Result<Boxed<Expr>, Trouble> {
    if parts.len() == 0 {
        return Err(Trouble::Unread(at));
    }
    Ok(Boxed::new(alloc, parts.remove(0))?)
}

// An expression without parts.
fn leaf(alloc: Global, at: Place, head: Head, numbers: &[u32]) -> Result<Expr, Trouble> {
    match (head, numbers) {
        (Head::Unit, []) => Ok(constant(Constant::Unit)),
        (Head::Null, []) => Ok(constant(Constant::NullAddress)),
        (Head::Quoted, [q]) => Ok(constant(Constant::Quoted(*q))),
        (Head::Local, [x]) => Ok(here(ExprKind::Local(*x))),
        (Head::Global, [g]) => Ok(here(ExprKind::Global(*g))),
        (Head::Lambda, [l]) => Ok(here(ExprKind::Lambda(*l))),
        (Head::Deep, [levels]) => deep(alloc, *levels),
        (Head::Wide, [count]) => wide(alloc, *count),
        _ => Err(Trouble::Unread(at)),
    }
}

// An expression of a head, its numbers and its parts.
fn node(
    alloc: Global,
    at: Place,
    head: Head,
    numbers: &[u32],
    parts: Exprs,
) -> Result<Expr, Trouble> {
    match (head, numbers) {
        (Head::Begin, _) => Ok(here(ExprKind::Begin(parts))),
        (Head::Prim(p), _) => Ok(primitive(p, parts)),
        (Head::Maker, [kind]) => Ok(primitive(Prim::Maker(*kind), parts)),
        (Head::Predicate, [kind]) => Ok(primitive(Prim::Predicate(*kind), parts)),
        (Head::Accessor, [kind, field]) => Ok(primitive(Prim::Accessor(*kind, *field), parts)),
        (Head::Modifier, [kind, field]) => Ok(primitive(Prim::Modifier(*kind, *field), parts)),
        _ => {
            if parts.is_empty() {
                leaf(alloc, at, head, numbers)
            } else {
                branch(alloc, at, head, numbers, parts)
            }
        }
    }
}

fn primitive(p: Prim, operands: Exprs) -> Expr {
    here(ExprKind::Primitive(p, operands))
}

// An expression whose parts stand at different places of it.
fn branch(
    alloc: Global,
    at: Place,
    head: Head,
    numbers: &[u32],
    parts: Exprs,
) -> Result<Expr, Trouble> {
    let mut parts = parts;
    let first = next(alloc, at, &mut parts)?;
    match (head, numbers) {
        (Head::At, [column]) => Ok(placed(*column, first.into_inner())),
        (Head::Set, [g]) => Ok(here(ExprKind::SetGlobal(*g, first))),
        (Head::SetLocal, [x]) => Ok(here(ExprKind::SetLocal(*x, first))),
        (Head::Letrec, entries) => Ok(here(ExprKind::Letrec(group(alloc, entries)?, first))),
        (Head::Call, _) => Ok(here(ExprKind::Call(first, parts))),
        (Head::Proper, _) => Ok(here(ExprKind::ProperCall(first, parts))),
        (Head::Let, [x]) => {
            let body = next(alloc, at, &mut parts)?;
            Ok(here(ExprKind::Let(*x, first, body)))
        }
        (Head::If, _) => {
            let yes = next(alloc, at, &mut parts)?;
            let no = next(alloc, at, &mut parts)?;
            Ok(here(ExprKind::If(first, yes, no)))
        }
        _ => Err(Trouble::Unread(at)),
    }
}

// The same expression, at a column of line 1.
fn placed(column: u32, e: Expr) -> Expr {
    Expr {
        place: Place { column, ..PLACE },
        kind: e.kind,
    }
}

// The locals and lambdas of a letrec, one behind the other.
fn group(alloc: Global, entries: &[u32]) -> Result<Group, Trouble> {
    let mut group = Items::new(alloc);
    for pair in entries.chunks_exact(2) {
        if let [local, lambda] = pair {
            group.push(GroupEntry {
                local: *local,
                lambda: *lambda,
            })?;
        }
    }
    Ok(group)
}

// An expression that is so many levels deep.
fn deep(alloc: Global, levels: u32) -> Result<Expr, Trouble> {
    let mut e = constant(Constant::Unit);
    for _ in 1..levels {
        e = here(ExprKind::SetGlobal(1, Boxed::new(alloc, e)?));
    }
    Ok(e)
}

// A sequence of so many parts, each of which binds a local of its own. The locals are spread wide.
fn wide(alloc: Global, count: u32) -> Result<Expr, Trouble> {
    let mut parts = Items::new(alloc);
    for i in 0..count {
        let x = u32::MAX.wrapping_sub(i.wrapping_mul(12_000));
        let value = Boxed::new(alloc, constant(Constant::Unit))?;
        let body = Boxed::new(alloc, here(ExprKind::Local(x)))?;
        parts.push(here(ExprKind::Let(x, value, body)))?;
    }
    Ok(here(ExprKind::Begin(parts)))
}
