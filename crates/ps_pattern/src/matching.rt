//! Matching of forms by patterns.

ghost use Rattle.std.specs.Prelude.{◌≡◌, map, drop, length, take, IfOk, MatchOption, Some, None, List, ◌∷◌, []};
ghost use Rattle.std.specs.Option.{option_map};
ghost use Rattle.ps_pattern.specs.declared.syntax.SyntaxNode.{out-SyntaxNode};
ghost use Rattle.ps_pattern.specs.declared.bound.Bound.TheVariants as o;
ghost use Rattle.ps_pattern.specs.Matching.{matched, all, exactly, then_each, when as when_spec, literal_of, columns, collect, dotted_of, both};
ghost use Rattle.ps_pattern.specs.Matching.{ident_matches, boolean_matches, integer_matches, char_matches, text_matches, list_parts_of, vector_parts_of, chain_parts_of, rest_from};

use crate::binding::{Scope, is_same_binding};
use crate::bound::{Binds, Bound};
use crate::columns::columns_of;
use crate::rules::Pattern;
use crate::syntax::{Ident, Syntax, SyntaxNode, copy, copy_all};
use ps_base::{Boxed, Bytes, Items, Place};
use sqlite_items::at;
use std::alloc::{AllocError, Global};

fn when(alloc: Global, test: bool) -> Option<Binds>
    ensures { result ≡ when_spec test }
{
    if test { Some(Items::new(alloc)) } else { None }
}

fn match_ident<S: Scope>(alloc: Global, scope: &S, id: &Ident, f: &Syntax) -> Option<Binds>
    ensures { result ≡ ident_matches (literal_of (S.rules_of scope.now) (S.use_of scope.now) id.now) (out-SyntaxNode f.now.node) }
{
    match &f.node {
        SyntaxNode::Ident(x) => when(alloc, is_same_binding(scope.at_rules(id), scope.at_use(x))),
        SyntaxNode::Boolean(_)
        | SyntaxNode::Integer(_)
        | SyntaxNode::Char(_)
        | SyntaxNode::Text(_)
        | SyntaxNode::List(_)
        | SyntaxNode::Dotted(_, _)
        | SyntaxNode::Vector(_) => None,
    }
}

fn match_boolean(alloc: Global, x: bool, f: &Syntax) -> Option<Binds>
    ensures { result ≡ boolean_matches x (out-SyntaxNode f.now.node) }
{
    match &f.node {
        SyntaxNode::Boolean(y) => when(alloc, if x { *y } else { !*y }),
        SyntaxNode::Ident(_)
        | SyntaxNode::Integer(_)
        | SyntaxNode::Char(_)
        | SyntaxNode::Text(_)
        | SyntaxNode::List(_)
        | SyntaxNode::Dotted(_, _)
        | SyntaxNode::Vector(_) => None,
    }
}

fn match_integer(alloc: Global, x: i64, f: &Syntax) -> Option<Binds>
    ensures { result ≡ integer_matches x (out-SyntaxNode f.now.node) }
{
    match &f.node {
        SyntaxNode::Integer(y) => when(alloc, x == *y),
        SyntaxNode::Ident(_)
        | SyntaxNode::Boolean(_)
        | SyntaxNode::Char(_)
        | SyntaxNode::Text(_)
        | SyntaxNode::List(_)
        | SyntaxNode::Dotted(_, _)
        | SyntaxNode::Vector(_) => None,
    }
}

fn match_char(alloc: Global, x: u8, f: &Syntax) -> Option<Binds>
    ensures { result ≡ char_matches x (out-SyntaxNode f.now.node) }
{
    match &f.node {
        SyntaxNode::Char(y) => when(alloc, x == *y),
        SyntaxNode::Ident(_)
        | SyntaxNode::Boolean(_)
        | SyntaxNode::Integer(_)
        | SyntaxNode::Text(_)
        | SyntaxNode::List(_)
        | SyntaxNode::Dotted(_, _)
        | SyntaxNode::Vector(_) => None,
    }
}

fn match_text(alloc: Global, x: &Bytes, f: &Syntax) -> Option<Binds>
    ensures { result ≡ text_matches x.now (out-SyntaxNode f.now.node) }
{
    match &f.node {
        SyntaxNode::Text(y) => when(alloc, x.as_slice() == y.as_slice()),
        SyntaxNode::Ident(_)
        | SyntaxNode::Boolean(_)
        | SyntaxNode::Integer(_)
        | SyntaxNode::Char(_)
        | SyntaxNode::List(_)
        | SyntaxNode::Dotted(_, _)
        | SyntaxNode::Vector(_) => None,
    }
}

fn one(alloc: Global, form: &Syntax) -> Result<Option<Binds>, AllocError>
    ensures { IfOk result (λ r. r ≡ Some (o.One form.now ∷ [])) }
{
    let mut bounds = Items::new(alloc);
    bounds.push(Bound::One(copy(alloc, form)?))?;
    Ok(Some(bounds))
}

/// The forms that are left, and behind them the last form of a dotted list.
fn rest_of(
    alloc: Global,
    place: Place,
    forms: &[Syntax],
    last: &Syntax,
) -> Result<Syntax, AllocError>
    ensures { IfOk result (λ r. r ≡ dotted_of place forms.now last.now) }
{
    if forms.is_empty() {
        copy(alloc, last)
    } else {
        let parts = copy_all(alloc, forms)?;
        let last = Boxed::new(alloc, copy(alloc, last)?)?;
        Ok(Syntax {
            place,
            node: SyntaxNode::Dotted(parts, last),
        })
    }
}

/// What the pattern's variables stand for, from left to right, where it matches.
#[cycle(matching)]
#[tactic(auto, unfolding(crate::specs::Matching::matched))]
pub fn matches<S: Scope>(
    alloc: Global,
    scope: &S,
    p: &Pattern,
    f: &Syntax,
) -> Result<Option<Binds>, AllocError>
    ensures { IfOk result (λ r. r ≡ matched (literal_of (S.rules_of scope.now) (S.use_of scope.now)) p.now f.now) }
{
    match p {
        Pattern::Ignored => Ok(Some(Items::new(alloc))),
        Pattern::Variable => one(alloc, f),
        Pattern::Literal(id) => Ok(match_ident(alloc, scope, id, f)),
        Pattern::Boolean(x) => Ok(match_boolean(alloc, *x, f)),
        Pattern::Integer(x) => Ok(match_integer(alloc, *x, f)),
        Pattern::Char(x) => Ok(match_char(alloc, *x, f)),
        Pattern::Text(x) => Ok(match_text(alloc, x, f)),
        Pattern::List(ps) => match list_parts(f) {
            None => Ok(None),
            Some(fs) => match_exactly(alloc, scope, ps.as_slice(), fs),
        },
        Pattern::ListEach(ps, p, width) => match list_parts(f) {
            None => Ok(None),
            Some(fs) => match match_all(alloc, scope, ps.as_slice(), fs)? {
                None => Ok(None),
                Some(front) => {
                    let rows = match_rows(alloc, scope, p.get(), after(fs, ps.len()))?;
                    join(front, bounds_of(alloc, rows, *width)?)
                }
            },
        },
        Pattern::Dotted(ps, p) => match chain_parts(f) {
            None => Ok(None),
            Some(fs) => match match_all(alloc, scope, ps.as_slice(), fs)? {
                None => Ok(None),
                Some(front) => {
                    let rest = rest_after(alloc, f, ps.len())?;
                    join(front, matches(alloc, scope, p.get(), &rest)?)
                }
            },
        },
        Pattern::Vector(ps) => match vector_parts(f) {
            None => Ok(None),
            Some(fs) => match_exactly(alloc, scope, ps.as_slice(), fs),
        },
        Pattern::VectorEach(ps, p, width) => match vector_parts(f) {
            None => Ok(None),
            Some(fs) => match match_all(alloc, scope, ps.as_slice(), fs)? {
                None => Ok(None),
                Some(front) => {
                    let rows = match_rows(alloc, scope, p.get(), after(fs, ps.len()))?;
                    join(front, bounds_of(alloc, rows, *width)?)
                }
            },
        },
    }
}

#[cycle(matching)]
#[tactic(auto, using(crate::proofs::Lists::both_none, crate::proofs::Lists::both_nothing))]
fn match_exactly<S: Scope>(
    alloc: Global,
    scope: &S,
    ps: &[Pattern],
    fs: &[Syntax],
) -> Result<Option<Binds>, AllocError>
    ensures { IfOk result (λ r. r ≡ exactly (map (matched (literal_of (S.rules_of scope.now) (S.use_of scope.now))) ps.now) fs.now) }
{
    if ps.len() != fs.len() {
        return Ok(None);
    }
    match_all(alloc, scope, ps, fs)
}

#[cycle(matching)]
fn match_all<S: Scope>(
    alloc: Global,
    scope: &S,
    ps: &[Pattern],
    fs: &[Syntax],
) -> Result<Option<Binds>, AllocError>
    ensures { IfOk result (λ r. r ≡ all (map (matched (literal_of (S.rules_of scope.now) (S.use_of scope.now))) ps.now) fs.now) }
{
    let mut binds = Items::new(alloc);
    for (i, p) in ps.iter().enumerate() {
        match at(fs, i) {
            None => return Ok(None),
            Some(f) => match matches(alloc, scope, p, f)? {
                None => return Ok(None),
                Some(more) => binds.append(more)?,
            },
        }
    }
    Ok(Some(binds))
}

#[cycle(matching)]
fn match_rows<S: Scope>(
    alloc: Global,
    scope: &S,
    p: &Pattern,
    fs: &[Syntax],
) -> Result<Option<Vec<Binds>>, AllocError>
    ensures { IfOk result (λ r. option_map (λ v. v.items) r ≡ collect (map (matched (literal_of (S.rules_of scope.now) (S.use_of scope.now)) p.now) fs.now)) }
{
    let mut rows = Vec::new(alloc);
    for f in fs {
        match matches(alloc, scope, p, f)? {
            None => return Ok(None),
            Some(row) => rows.push(row)?,
        }
    }
    Ok(Some(rows))
}

fn list_parts(f: &Syntax) -> Option<&[Syntax]>
    ensures { MatchOption result (list_parts_of (out-SyntaxNode f.now.node) ≡ None) (λ fs. list_parts_of (out-SyntaxNode f.now.node) ≡ Some fs.now) }
{
    match &f.node {
        SyntaxNode::List(fs) => Some(fs.as_slice()),
        SyntaxNode::Ident(_)
        | SyntaxNode::Boolean(_)
        | SyntaxNode::Integer(_)
        | SyntaxNode::Char(_)
        | SyntaxNode::Text(_)
        | SyntaxNode::Dotted(_, _)
        | SyntaxNode::Vector(_) => None,
    }
}

fn vector_parts(f: &Syntax) -> Option<&[Syntax]>
    ensures { MatchOption result (vector_parts_of (out-SyntaxNode f.now.node) ≡ None) (λ fs. vector_parts_of (out-SyntaxNode f.now.node) ≡ Some fs.now) }
{
    match &f.node {
        SyntaxNode::Vector(fs) => Some(fs.as_slice()),
        SyntaxNode::Ident(_)
        | SyntaxNode::Boolean(_)
        | SyntaxNode::Integer(_)
        | SyntaxNode::Char(_)
        | SyntaxNode::Text(_)
        | SyntaxNode::Dotted(_, _)
        | SyntaxNode::List(_) => None,
    }
}

fn chain_parts(f: &Syntax) -> Option<&[Syntax]>
    ensures { MatchOption result (chain_parts_of (out-SyntaxNode f.now.node) ≡ None) (λ fs. chain_parts_of (out-SyntaxNode f.now.node) ≡ Some fs.now) }
{
    match &f.node {
        SyntaxNode::List(fs) => Some(fs.as_slice()),
        SyntaxNode::Dotted(fs, _) => Some(fs.as_slice()),
        SyntaxNode::Ident(_)
        | SyntaxNode::Boolean(_)
        | SyntaxNode::Integer(_)
        | SyntaxNode::Char(_)
        | SyntaxNode::Text(_)
        | SyntaxNode::Vector(_) => None,
    }
}

/// What is left of a list or a dotted list behind its first n forms.
fn rest_after(alloc: Global, f: &Syntax, n: usize) -> Result<Syntax, AllocError>
    ensures { IfOk result (λ r. r ≡ rest_from f.now.place n (out-SyntaxNode f.now.node)) }
{
    match &f.node {
        SyntaxNode::List(fs) => Ok(Syntax {
            place: f.place,
            node: SyntaxNode::List(copy_all(alloc, after(fs.as_slice(), n))?),
        }),
        SyntaxNode::Dotted(fs, last) => {
            rest_of(alloc, f.place, after(fs.as_slice(), n), last.get())
        }
        SyntaxNode::Ident(_)
        | SyntaxNode::Boolean(_)
        | SyntaxNode::Integer(_)
        | SyntaxNode::Char(_)
        | SyntaxNode::Text(_)
        | SyntaxNode::Vector(_) => Ok(Syntax {
            place: f.place,
            node: SyntaxNode::List(Items::new(alloc)),
        }),
    }
}

#[tactic(auto, using(crate::proofs::Lists::drop_all))]
fn after(fs: &[Syntax], n: usize) -> &[Syntax]
    ensures { result.now ≡ drop n fs.now }
{
    if n < fs.len() {
        &fs[n..]
    } else {
        &fs[fs.len()..]
    }
}

fn join(front: Binds, more: Option<Binds>) -> Result<Option<Binds>, AllocError>
    ensures { IfOk result (λ r. r ≡ both (Some front) more) }
{
    match more {
        None => Ok(None),
        Some(more) => {
            let mut front = front;
            front.append(more)?;
            Ok(Some(front))
        }
    }
}

fn bounds_of(
    alloc: Global,
    rows: Option<Vec<Binds>>,
    width: usize,
) -> Result<Option<Binds>, AllocError>
    ensures { IfOk result (λ r. r ≡ option_map (columns width) (option_map (λ v. v.items) rows)) }
{
    match rows {
        None => Ok(None),
        Some(rows) => Ok(Some(columns_of(alloc, rows, width)?)),
    }
}
