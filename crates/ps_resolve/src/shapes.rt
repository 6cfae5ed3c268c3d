//! Where a datum has not the shape that is expected in its place. Each function gives the first such place, a list before its
//! parts.

ghost use Rattle.std.specs.Prelude.{◌≡◌, if◌then◌else◌, map, slice_get, MatchOption, None, Some};
ghost use Rattle.ps_base.specs.Numbers.{is_word};
ghost use Rattle.ps_plain.specs.Faults.{flaws, word_flaws, expr_shapes, operands_shape, form_shape, conditional_shape, compared_shape, write_list_shape, head_list_shape, body_shape, definition_list_shape, defined_shape, shapes_fault};
ghost use Rattle.ps_resolve.specs.InsideKinds.{IsList, IsNoList, name_shapes, write_shapes};

use crate::symbols::{keyword, word};
use crate::words;
use crate::words::text;
use ps_base::{Name, Names, Place};
use ps_datum::{Datum, DatumKind};
use ps_plain::Keyword;

// The data between the brackets of a list.
pub(crate) fn parts(datum: &Datum) -> Option<&[Datum]>
    ensures { MatchOption result (IsNoList datum.now) (λ parts. IsList datum.now parts.now) }
{
    match &datum.kind {
        DatumKind::List(parts) => Some(parts.as_slice()),
        DatumKind::Boolean(_) => None,
        DatumKind::Integer(_) => None,
        DatumKind::Char(_) => None,
        DatumKind::Text(_) => None,
        DatumKind::Symbol(_) => None,
        DatumKind::Dotted(_, _) => None,
        DatumKind::Vector(_) => None,
    }
}

// A symbol where a name or a variable is expected: it is no keyword.
fn symbol_shape(names: &Names, place: Place, name: Name) -> Option<Place>
    ensures name { result ≡ (word_flaws place (slice_get names.now name.0)).name_shape }
    ensures variable { result ≡ (word_flaws place (slice_get names.now name.0)).expr_shape }
{
    let Some(word) = text(names, name) else {
        return Some(place);
    };
    match words::keyword(word) {
        Some(_) => Some(place),
        None => None,
    }
}

// A datum as the name of a parameter or a procedure.
fn name_shape(names: &Names, datum: &Datum) -> Option<Place>
    ensures { result ≡ (flaws names.now datum.now).name_shape }
{
    match &datum.kind {
        DatumKind::Symbol(name) => symbol_shape(names, datum.place, *name),
        DatumKind::Boolean(_) => Some(datum.place),
        DatumKind::Integer(_) => Some(datum.place),
        DatumKind::Char(_) => Some(datum.place),
        DatumKind::Text(_) => Some(datum.place),
        DatumKind::List(_) => Some(datum.place),
        DatumKind::Dotted(_, _) => Some(datum.place),
        DatumKind::Vector(_) => Some(datum.place),
    }
}

// An integer as an expression: it has 64 bits.
fn integer_shape(place: Place, integer: i64) -> Option<Place>
    ensures { result ≡ (if is_word integer then None else Some place) }
{
    None
}

// A datum as an expression.
#[cycle(shapes)]
fn expr_shape(names: &Names, datum: &Datum) -> Option<Place>
    ensures { result ≡ (flaws names.now datum.now).expr_shape }
{
    match &datum.kind {
        DatumKind::Integer(integer) => integer_shape(datum.place, *integer),
        DatumKind::Symbol(name) => symbol_shape(names, datum.place, *name),
        DatumKind::List(parts) => {
            let [first, operands @ ..] = parts.as_slice() else {
                return Some(datum.place);
            };
            let Some(word) = word(names, first) else {
                return Some(datum.place);
            };
            form_shape(names, datum.place, words::keyword(word), operands)
        }
        DatumKind::Boolean(_) => Some(datum.place),
        DatumKind::Char(_) => Some(datum.place),
        DatumKind::Text(_) => Some(datum.place),
        DatumKind::Dotted(_, _) => Some(datum.place),
        DatumKind::Vector(_) => Some(datum.place),
    }
}

// What stands behind a keyword or a name in a list at a place, as an expression.
#[cycle(shapes)]
fn form_shape(
    names: &Names,
    place: Place,
    keyword: Option<Keyword>,
    operands: &[Datum],
) -> Option<Place>
    ensures { result ≡ form_shape place keyword (map (flaws names.now) operands.now) }
{
    match keyword {
        None => expr_shapes(names, operands),
        Some(Keyword::Arithmetic(_)) => operands_shape(names, place, 2, operands),
        Some(Keyword::If) => conditional_shape(names, place, operands),
        Some(Keyword::ReadByte) => operands_shape(names, place, 0, operands),
        Some(Keyword::Define) => Some(place),
        Some(Keyword::WriteByte) => Some(place),
        Some(Keyword::Compare(_)) => Some(place),
    }
}

// Operands of a list at a place, which must be so many.
#[cycle(shapes)]
fn operands_shape(names: &Names, place: Place, count: usize, operands: &[Datum]) -> Option<Place>
    ensures { result ≡ operands_shape place count (map (flaws names.now) operands.now) }
{
    if operands.len() == count {
        expr_shapes(names, operands)
    } else {
        Some(place)
    }
}

// What stands behind `if` in a list at a place.
#[cycle(shapes)]
fn conditional_shape(names: &Names, place: Place, operands: &[Datum]) -> Option<Place>
    ensures { result ≡ conditional_shape place (map (flaws names.now) operands.now) }
{
    let [test, then, other] = operands else {
        return Some(place);
    };
    if let Some(at) = test_shape(names, test) {
        return Some(at);
    }
    match expr_shape(names, then) {
        Some(at) => Some(at),
        None => expr_shape(names, other),
    }
}

// Expressions.
#[cycle(shapes)]
fn expr_shapes(names: &Names, items: &[Datum]) -> Option<Place>
    ensures { result ≡ expr_shapes (map (flaws names.now) items.now) }
{
    for datum in items {
        if let Some(at) = expr_shape(names, datum) {
            return Some(at);
        }
    }
    None
}

// A datum as the test of a conditional.
#[cycle(shapes)]
fn test_shape(names: &Names, datum: &Datum) -> Option<Place>
    ensures { result ≡ (flaws names.now datum.now).test_shape }
{
    match &datum.kind {
        DatumKind::List(parts) => {
            let [first, operands @ ..] = parts.as_slice() else {
                return Some(datum.place);
            };
            compared_shape(names, datum.place, keyword(names, first), operands)
        }
        DatumKind::Boolean(_) => Some(datum.place),
        DatumKind::Integer(_) => Some(datum.place),
        DatumKind::Char(_) => Some(datum.place),
        DatumKind::Text(_) => Some(datum.place),
        DatumKind::Symbol(_) => Some(datum.place),
        DatumKind::Dotted(_, _) => Some(datum.place),
        DatumKind::Vector(_) => Some(datum.place),
    }
}

// What stands behind a keyword in a list at a place, as a test.
#[cycle(shapes)]
fn compared_shape(
    names: &Names,
    place: Place,
    keyword: Option<Keyword>,
    operands: &[Datum],
) -> Option<Place>
    ensures { result ≡ compared_shape place keyword (map (flaws names.now) operands.now) }
{
    match keyword {
        Some(Keyword::Compare(_)) => operands_shape(names, place, 2, operands),
        Some(Keyword::Define) => Some(place),
        Some(Keyword::If) => Some(place),
        Some(Keyword::WriteByte) => Some(place),
        Some(Keyword::ReadByte) => Some(place),
        Some(Keyword::Arithmetic(_)) => Some(place),
        None => Some(place),
    }
}

// A datum as a byte to write.
fn write_shape(names: &Names, datum: &Datum) -> Option<Place>
    ensures { result ≡ (flaws names.now datum.now).write_shape }
{
    match parts(datum) {
        Some(parts) => write_list_shape(names, datum.place, parts),
        None => Some(datum.place),
    }
}

// A list at a place as a byte to write.
fn write_list_shape(names: &Names, place: Place, parts: &[Datum]) -> Option<Place>
    ensures { result ≡ write_list_shape place (map (flaws names.now) parts.now) }
{
    let [first, operands @ ..] = parts else {
        return Some(place);
    };
    match keyword(names, first) {
        Some(Keyword::WriteByte) => operands_shape(names, place, 1, operands),
        Some(Keyword::Define) => Some(place),
        Some(Keyword::If) => Some(place),
        Some(Keyword::ReadByte) => Some(place),
        Some(Keyword::Arithmetic(_)) => Some(place),
        Some(Keyword::Compare(_)) => Some(place),
        None => Some(place),
    }
}

// Data as bytes to write.
fn write_shapes(names: &Names, items: &[Datum]) -> Option<Place>
    ensures { result ≡ write_shapes (map (flaws names.now) items.now) }
{
    for datum in items {
        if let Some(at) = write_shape(names, datum) {
            return Some(at);
        }
    }
    None
}

// The writes of a body, and its value.
fn body_shape(names: &Names, body: &[Datum]) -> Option<Place>
    ensures { result ≡ body_shape (map (flaws names.now) body.now) }
{
    let (value, writes) = body.split_last()?;
    match write_shapes(names, writes) {
        Some(at) => Some(at),
        None => expr_shape(names, value),
    }
}

// Data as the names of parameters.
fn name_shapes(names: &Names, items: &[Datum]) -> Option<Place>
    ensures { result ≡ name_shapes (map (flaws names.now) items.now) }
{
    for datum in items {
        if let Some(at) = name_shape(names, datum) {
            return Some(at);
        }
    }
    None
}

// A datum as the head of a definition.
fn head_shape(names: &Names, datum: &Datum) -> Option<Place>
    ensures { result ≡ (flaws names.now datum.now).head_shape }
{
    match parts(datum) {
        Some(parts) => head_list_shape(names, datum.place, parts),
        None => Some(datum.place),
    }
}

// A list at a place as the head of a definition.
fn head_list_shape(names: &Names, place: Place, parts: &[Datum]) -> Option<Place>
    ensures { result ≡ head_list_shape place (map (flaws names.now) parts.now) }
{
    let [name, parameters @ ..] = parts else {
        return Some(place);
    };
    match name_shape(names, name) {
        Some(_) => Some(place),
        None => name_shapes(names, parameters),
    }
}

// A datum as a definition.
fn definition_shape(names: &Names, datum: &Datum) -> Option<Place>
    ensures { result ≡ (flaws names.now datum.now).definition_shape }
{
    match parts(datum) {
        Some(parts) => definition_list_shape(names, datum.place, parts),
        None => Some(datum.place),
    }
}

// A list at a place as a definition.
fn definition_list_shape(names: &Names, place: Place, parts: &[Datum]) -> Option<Place>
    ensures { result ≡ definition_list_shape place (map (flaws names.now) parts.now) }
{
    let [first, head, body @ ..] = parts else {
        return Some(place);
    };
    if body.is_empty() {
        return Some(place);
    }
    defined_shape(names, place, keyword(names, first), head, body)
}

// The head and the body behind a keyword in a list at a place, as a definition.
fn defined_shape(
    names: &Names,
    place: Place,
    keyword: Option<Keyword>,
    head: &Datum,
    body: &[Datum],
) -> Option<Place>
    ensures { result ≡ defined_shape place keyword (flaws names.now head.now) (map (flaws names.now) body.now) }
{
    match keyword {
        Some(Keyword::Define) => match head_shape(names, head) {
            Some(at) => Some(at),
            None => body_shape(names, body),
        },
        Some(Keyword::If) => Some(place),
        Some(Keyword::WriteByte) => Some(place),
        Some(Keyword::ReadByte) => Some(place),
        Some(Keyword::Arithmetic(_)) => Some(place),
        Some(Keyword::Compare(_)) => Some(place),
        None => Some(place),
    }
}

// Data as definitions.
pub(crate) fn shapes_fault(names: &Names, forms: &[Datum]) -> Option<Place>
    ensures { result ≡ shapes_fault names.now forms.now }
{
    for form in forms {
        if let Some(at) = definition_shape(names, form) {
            return Some(at);
        }
    }
    None
}
