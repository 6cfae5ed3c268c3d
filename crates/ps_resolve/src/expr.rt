//! Expressions.

ghost use Rattle.std.specs.Prelude.{ℕ, List, map};
ghost use Rattle.ps_plain.specs.Forms.{Part, part, keyword_of, form_by, operation_of, conditional_of, call_of, read_of, all_some};
ghost use Rattle.ps_resolve.specs.InsideAnswers.{IsRead, IsReadAs};
ghost use Rattle.ps_resolve.specs.InsideValues.{scope_of, test_of};

use crate::program::Unresolved;
use crate::scope::{Scope, called, parameter};
use crate::symbols::{keyword, word};
use crate::words;
use ps_base::{Boxed, Items, Place};
use ps_datum::{Datum, DatumKind};
use ps_plain::{Comparison, Expr, Keyword, Operator};
use std::alloc::Global;

// The test of a conditional.
#[derive(Drop)]
pub(crate) struct Test {
    pub place: Place,
    pub comparison: Comparison,
    pub left: Expr,
    pub right: Expr,
}

// The expression that a datum is.
#[cycle(expr)]
pub(crate) fn expr(alloc: Global, scope: &Scope<'_>, datum: &Datum) -> Result<Expr, Unresolved>
    ensures { IsRead result ((part scope.now.names.now datum.now).expr (scope_of scope.now)) }
{
    match &datum.kind {
        DatumKind::Integer(i) => Ok(Expr::Integer(datum.place, *i)),
        DatumKind::Symbol(name) => parameter(scope, datum.place, *name).ok_or(
            Unresolved::NotProgram,
        ),
        DatumKind::List(parts) => {
            let [first, operands @ ..] = parts.as_slice() else {
                return Err(Unresolved::NotProgram);
            };
            let Some(word) = word(scope.names, first) else {
                return Err(Unresolved::NotProgram);
            };
            form(alloc, scope, datum.place, first.place, word, operands)
        }
        DatumKind::Boolean(_) => Err(Unresolved::NotProgram),
        DatumKind::Char(_) => Err(Unresolved::NotProgram),
        DatumKind::Text(_) => Err(Unresolved::NotProgram),
        DatumKind::Dotted(_, _) => Err(Unresolved::NotProgram),
        DatumKind::Vector(_) => Err(Unresolved::NotProgram),
    }
}

// The expression of a word and these operands in a list at a place, where the word stands at a place of its own.
#[cycle(expr)]
fn form(
    alloc: Global,
    scope: &Scope<'_>,
    place: Place,
    at: Place,
    word: &[u8],
    operands: &[Datum],
) -> Result<Expr, Unresolved>
    ensures { IsRead result (form_by (scope_of scope.now) place at word.now (map (part scope.now.names.now) operands.now) (keyword_of word.now)) }
{
    match words::keyword(word) {
        None => call(alloc, scope, place, at, word, operands),
        Some(Keyword::Arithmetic(operator)) => operation(alloc, scope, place, operator, operands),
        Some(Keyword::If) => conditional(alloc, scope, place, operands),
        Some(Keyword::ReadByte) => read_byte(place, operands),
        Some(Keyword::Define) | Some(Keyword::WriteByte) | Some(Keyword::Compare(_)) => {
            Err(Unresolved::NotProgram)
        }
    }
}

// The operation on these operands, in a list at a place.
#[cycle(expr)]
fn operation(
    alloc: Global,
    scope: &Scope<'_>,
    place: Place,
    operator: Operator,
    operands: &[Datum],
) -> Result<Expr, Unresolved>
    ensures { IsRead result (operation_of (scope_of scope.now) place operator (map (part scope.now.names.now) operands.now)) }
{
    let [a, b] = operands else {
        return Err(Unresolved::NotProgram);
    };
    let a = expr(alloc, scope, a)?;
    let b = expr(alloc, scope, b)?;
    Ok(Expr::Operation(
        place,
        operator,
        Boxed::new(alloc, a)?,
        Boxed::new(alloc, b)?,
    ))
}

// The conditional of a test and two expressions, in a list at a place.
#[cycle(expr)]
fn conditional(
    alloc: Global,
    scope: &Scope<'_>,
    place: Place,
    operands: &[Datum],
) -> Result<Expr, Unresolved>
    ensures { IsRead result (conditional_of (scope_of scope.now) place (map (part scope.now.names.now) operands.now)) }
{
    let [t, c, d] = operands else {
        return Err(Unresolved::NotProgram);
    };
    let Test {
        place: at,
        comparison,
        left,
        right,
    } = read_test(alloc, scope, t)?;
    let c = expr(alloc, scope, c)?;
    let d = expr(alloc, scope, d)?;
    let left = Boxed::new(alloc, left)?;
    let right = Boxed::new(alloc, right)?;
    let c = Boxed::new(alloc, c)?;
    let d = Boxed::new(alloc, d)?;
    Ok(Expr::If(place, at, comparison, left, right, c, d))
}

// The test that a datum is.
#[cycle(expr)]
fn read_test(alloc: Global, scope: &Scope<'_>, datum: &Datum) -> Result<Test, Unresolved>
    ensures { IsReadAs test_of result ((part scope.now.names.now datum.now).test (scope_of scope.now)) }
{
    let DatumKind::List(parts) = &datum.kind else {
        return Err(Unresolved::NotProgram);
    };
    let [first, a, b] = parts.as_slice() else {
        return Err(Unresolved::NotProgram);
    };
    let Some(Keyword::Compare(comparison)) = keyword(scope.names, first) else {
        return Err(Unresolved::NotProgram);
    };
    let left = expr(alloc, scope, a)?;
    let right = expr(alloc, scope, b)?;
    Ok(Test {
        place: datum.place,
        comparison,
        left,
        right,
    })
}

// The call by a name with these operands, in a list at a place, where the name stands at a place of its own.
#[cycle(expr)]
fn call(
    alloc: Global,
    scope: &Scope<'_>,
    place: Place,
    at: Place,
    name: &[u8],
    operands: &[Datum],
) -> Result<Expr, Unresolved>
    ensures { IsRead result (call_of (scope_of scope.now) place at name.now (map (part scope.now.names.now) operands.now)) }
{
    let Some(procedure) = called(scope, name, operands.len()) else {
        return Err(Unresolved::NotProgram);
    };
    let exprs = exprs(alloc, scope, operands)?;
    Ok(Expr::Call(place, at, procedure, exprs))
}

// The expressions that these data are.
#[cycle(expr)]
fn exprs(alloc: Global, scope: &Scope<'_>, parts: &[Datum]) -> Result<Items<Expr>, Unresolved>
    ensures { IsRead result (all_some (map (λ (p : Part). p.expr (scope_of scope.now)) (map (part scope.now.names.now) parts.now))) }
{
    let mut exprs = Items::new(alloc);
    for datum in parts {
        exprs.push(expr(alloc, scope, datum)?)?;
    }
    Ok(exprs)
}

// The read of a byte, in a list at a place. It has no operands.
fn read_byte(place: Place, operands: &[Datum]) -> Result<Expr, Unresolved>
    ensures { (names : List (List ℕ)) → IsRead result (read_of place (map (part names) operands.now)) }
{
    if operands.is_empty() {
        Ok(Expr::ReadByte(place))
    } else {
        Err(Unresolved::NotProgram)
    }
}
