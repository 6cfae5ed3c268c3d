//! Names that break a condition. Each function gives the place of the first, in order of the text.

ghost use Rattle.std.specs.Prelude.{◌≡◌, map, slice_get, MatchOption, None, Some};
ghost use Rattle.ps_plain.specs.Forms.{keyword_of, has_arity};
ghost use Rattle.ps_plain.specs.Faults.{flaws, word_flaws, exprs_names, variable_names, call_names, conditional_names, form_names, behind_names, body_names};
ghost use Rattle.ps_resolve.specs.InsideNameTables.{scope_of, writes_names};

use crate::shapes::parts;
use crate::symbols::word;
use crate::words;
use crate::words::text;
use ps_base::{Name, Names, Place};
use ps_datum::{Datum, DatumKind};
use ps_plain::Keyword;

// The names that an expression may use: the parameters of the procedure around it, and procedures with their numbers of
// parameters.
#[derive(Drop)]
pub(crate) struct NamesInScope<'a> {
    pub parameters: &'a Names,
    pub procedures: &'a Names,
    pub arities: &'a [usize],
}

// A variable at a place.
fn variable_names(scope: &NamesInScope<'_>, place: Place, word: &[u8]) -> Option<Place>
    ensures { result ≡ variable_names (scope_of scope.now) place word.now }
{
    match scope.parameters.find(word) {
        Some(_) => None,
        None => Some(place),
    }
}

// A symbol at a place.
fn symbol_names(names: &Names, scope: &NamesInScope<'_>, place: Place, name: Name) -> Option<Place>
    ensures { result ≡ (word_flaws place (slice_get names.now name.0)).expr_names (scope_of scope.now) }
{
    let word = text(names, name)?;
    match words::keyword(word) {
        Some(_) => None,
        None => variable_names(scope, place, word),
    }
}

// The procedure of this number has as many parameters as there are operands.
fn has_operands(arities: &[usize], procedure: Name, operands: usize) -> bool
    ensures { result ≡ has_arity operands (slice_get arities.now procedure.0) }
{
    match arities.get(procedure.0 as usize) {
        Some(arity) => *arity == operands,
        None => false,
    }
}

// The names in an expression.
#[cycle(names)]
fn expr_names(names: &Names, scope: &NamesInScope<'_>, datum: &Datum) -> Option<Place>
    ensures { result ≡ (flaws names.now datum.now).expr_names (scope_of scope.now) }
{
    match &datum.kind {
        DatumKind::Symbol(name) => symbol_names(names, scope, datum.place, *name),
        DatumKind::List(parts) => {
            let [first, operands @ ..] = parts.as_slice() else {
                return None;
            };
            let word = word(names, first)?;
            form_names(names, scope, datum.place, first.place, word, operands)
        }
        DatumKind::Boolean(_) => None,
        DatumKind::Integer(_) => None,
        DatumKind::Char(_) => None,
        DatumKind::Text(_) => None,
        DatumKind::Dotted(_, _) => None,
        DatumKind::Vector(_) => None,
    }
}

// The names in a list at a place, where the word that it begins with stands at a place of its own.
#[cycle(names)]
fn form_names(
    names: &Names,
    scope: &NamesInScope<'_>,
    place: Place,
    at: Place,
    word: &[u8],
    operands: &[Datum],
) -> Option<Place>
    ensures { result ≡ form_names (scope_of scope.now) place at word.now (keyword_of word.now) (map (flaws names.now) operands.now) }
{
    match words::keyword(word) {
        None => call_names(names, scope, place, at, word, operands),
        Some(Keyword::Arithmetic(_)) => exprs_names(names, scope, operands),
        Some(Keyword::If) => conditional_names(names, scope, operands),
        Some(Keyword::ReadByte) => None,
        Some(Keyword::Define) => None,
        Some(Keyword::WriteByte) => None,
        Some(Keyword::Compare(_)) => None,
    }
}

// The names in a call at a place, where the called name stands at a place of its own.
#[cycle(names)]
fn call_names(
    names: &Names,
    scope: &NamesInScope<'_>,
    place: Place,
    at: Place,
    word: &[u8],
    operands: &[Datum],
) -> Option<Place>
    ensures { result ≡ call_names (scope_of scope.now) place at word.now (map (flaws names.now) operands.now) }
{
    if scope.parameters.find(word).is_some() {
        return Some(at);
    }
    let Some(procedure) = scope.procedures.find(word) else {
        return Some(at);
    };
    if has_operands(scope.arities, procedure, operands.len()) {
        exprs_names(names, scope, operands)
    } else {
        Some(place)
    }
}

// The names behind `if`.
#[cycle(names)]
fn conditional_names(names: &Names, scope: &NamesInScope<'_>, operands: &[Datum]) -> Option<Place>
    ensures { result ≡ conditional_names (scope_of scope.now) (map (flaws names.now) operands.now) }
{
    let [test, then, other] = operands else {
        return None;
    };
    if let Some(at) = test_names(names, scope, test) {
        return Some(at);
    }
    match expr_names(names, scope, then) {
        Some(at) => Some(at),
        None => expr_names(names, scope, other),
    }
}

// The names in expressions.
#[cycle(names)]
fn exprs_names(names: &Names, scope: &NamesInScope<'_>, items: &[Datum]) -> Option<Place>
    ensures { result ≡ exprs_names (scope_of scope.now) (map (flaws names.now) items.now) }
{
    for datum in items {
        if let Some(at) = expr_names(names, scope, datum) {
            return Some(at);
        }
    }
    None
}

// The names in a test.
#[cycle(names)]
fn test_names(names: &Names, scope: &NamesInScope<'_>, datum: &Datum) -> Option<Place>
    ensures { result ≡ (flaws names.now datum.now).test_names (scope_of scope.now) }
{
    match &datum.kind {
        DatumKind::List(parts) => {
            let [_, operands @ ..] = parts.as_slice() else {
                return None;
            };
            exprs_names(names, scope, operands)
        }
        DatumKind::Boolean(_) => None,
        DatumKind::Integer(_) => None,
        DatumKind::Char(_) => None,
        DatumKind::Text(_) => None,
        DatumKind::Symbol(_) => None,
        DatumKind::Dotted(_, _) => None,
        DatumKind::Vector(_) => None,
    }
}

// The names in a byte to write.
fn write_names(names: &Names, scope: &NamesInScope<'_>, datum: &Datum) -> Option<Place>
    ensures { result ≡ (flaws names.now datum.now).write_names (scope_of scope.now) }
{
    match parts(datum) {
        Some(parts) => behind_names(names, scope, parts),
        None => None,
    }
}

// The names in expressions behind the first part of a list.
fn behind_names(names: &Names, scope: &NamesInScope<'_>, parts: &[Datum]) -> Option<Place>
    ensures { result ≡ behind_names (scope_of scope.now) (map (flaws names.now) parts.now) }
{
    let [_, operands @ ..] = parts else {
        return None;
    };
    exprs_names(names, scope, operands)
}

// The names in bytes to write.
fn writes_names(names: &Names, scope: &NamesInScope<'_>, items: &[Datum]) -> Option<Place>
    ensures { result ≡ writes_names (scope_of scope.now) (map (flaws names.now) items.now) }
{
    for datum in items {
        if let Some(at) = write_names(names, scope, datum) {
            return Some(at);
        }
    }
    None
}

// The names in a body.
pub(crate) fn body_names(names: &Names, scope: &NamesInScope<'_>, body: &[Datum]) -> Option<Place>
    ensures { result ≡ body_names (scope_of scope.now) (map (flaws names.now) body.now) }
{
    let (value, writes) = body.split_last()?;
    match writes_names(names, scope, writes) {
        Some(at) => Some(at),
        None => expr_names(names, scope, value),
    }
}
