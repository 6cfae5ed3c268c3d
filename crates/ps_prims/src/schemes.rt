//! The types of primitives.

ghost use Rattle.std.specs.Prelude.{◌≡◌, [], ◌∷◌, map, IfOk};
ghost use Rattle.ps_types.specs.declared.types.Ty.TheVariants as types;
ghost use Rattle.ps_prims.specs.Records.{fields, maker_order};
ghost use Rattle.ps_prims.specs.Schemes.{has_variable, is_variable, procedure, scheme, scheme_of_sorts, type_of, type_of_field, variables_of};
ghost use Rattle.ps_prims.specs.InsideSorts.{items_of};

use crate::copies::copy_of;
use crate::kinds::{fields_of, maker_of};
use crate::sorts::{Sort, answer_of, named_operands};
use ps_base::{Boxed, Items, NoMemory, Prim};
use ps_types::{Kinds, Scheme, Ty};
use sqlite_items::at;
use std::alloc::Global;

// The type that a sort is. The type variable of a row is 0.
fn type_of(alloc: Global, sort: Sort) -> Result<Ty, NoMemory>
    ensures { IfOk result (λ t. t ≡ type_of sort) }
{
    match sort {
        Sort::Integer => Ok(Ty::Integer),
        Sort::Boolean => Ok(Ty::Boolean),
        Sort::Char => Ok(Ty::Char),
        Sort::Unit => Ok(Ty::Unit),
        Sort::Address => Ok(Ty::Address),
        Sort::Text => Ok(Ty::Text),
        Sort::Vector => Ok(Ty::Vector(Boxed::new(alloc, Ty::Var(0))?)),
        Sort::Record(k) => Ok(Ty::Tuple(k)),
        Sort::Any => Ok(Ty::Var(0)),
    }
}

// The types that some sorts are, in order.
fn types_of(alloc: Global, sorts: &[Sort]) -> Result<Items<Ty>, NoMemory>
    ensures { IfOk result (λ ts. ts ≡ map type_of sorts.now) }
{
    let mut types = Items::new(alloc);
    for sort in sorts {
        types.push(type_of(alloc, *sort)?)?;
    }
    Ok(types)
}

fn is_variable(sort: Sort) -> bool
    ensures { result ≡ is_variable sort }
{
    match sort {
        Sort::Integer => false,
        Sort::Boolean => false,
        Sort::Char => false,
        Sort::Unit => false,
        Sort::Address => false,
        Sort::Text => false,
        Sort::Vector => true,
        Sort::Record(_) => false,
        Sort::Any => true,
    }
}

// Whether one of some sorts has the type variable.
fn has_variable(sorts: &[Sort]) -> bool
    ensures { result ≡ has_variable sorts.now }
{
    for sort in sorts {
        if is_variable(*sort) {
            return true;
        }
    }
    false
}

// The type variables of a row.
fn variables_of(alloc: Global, operands: &[Sort], answer: Sort) -> Result<Items<u32>, NoMemory>
    ensures { IfOk result (λ xs. xs ≡ variables_of operands.now answer) }
{
    let mut variables = Items::new(alloc);
    if is_variable(answer) || has_variable(operands) {
        variables.push(0)?;
    }
    Ok(variables)
}

// The type of a row of these sorts.
fn scheme_of_sorts(alloc: Global, operands: &[Sort], answer: Sort) -> Result<Scheme, NoMemory>
    ensures { IfOk result (λ s. s ≡ scheme_of_sorts operands.now answer) }
{
    let variables = variables_of(alloc, operands, answer)?;
    let operands = types_of(alloc, operands)?;
    let answer = Boxed::new(alloc, type_of(alloc, answer)?)?;
    Ok(Scheme {
        variables,
        body: Ty::Proc(operands, answer),
    })
}

// A type without variables of the row's own.
fn procedure(alloc: Global, operands: Items<Ty>, answer: Ty) -> Result<Scheme, NoMemory>
    ensures { IfOk result (λ s. s ≡ procedure operands answer) }
{
    Ok(Scheme {
        variables: Items::new(alloc),
        body: Ty::Proc(operands, Boxed::new(alloc, answer)?),
    })
}

// The type of a field of a kind.
fn type_of_field(alloc: Global, kinds: &Kinds, k: u32, f: u32) -> Result<Ty, NoMemory>
    ensures { IfOk result (λ t. t ≡ type_of_field (fields kinds.now k) f) }
{
    match at(fields_of(kinds, k), f as usize) {
        Some(t) => copy_of(alloc, t),
        None => Ok(Ty::Var(0)),
    }
}

// The types of the fields of a kind, in the maker's order.
fn types_of_fields(alloc: Global, kinds: &Kinds, k: u32) -> Result<Items<Ty>, NoMemory>
    ensures { IfOk result (λ ts. ts ≡ map (type_of_field (fields kinds.now k)) (maker_order kinds.now k)) }
{
    let mut types = Items::new(alloc);
    let order = maker_of(kinds, k);
    for f in order {
        types.push(type_of_field(alloc, kinds, k, *f)?)?;
    }
    Ok(types)
}

// The type of the records of a kind, and these types behind it.
fn record_and(alloc: Global, k: u32, more: Option<Ty>) -> Result<Items<Ty>, NoMemory>
    ensures { IfOk result (λ ts. ts ≡ types.Tuple k ∷ items_of more) }
{
    let mut types = Items::new(alloc);
    types.push(Ty::Tuple(k))?;
    if let Some(t) = more {
        types.push(t)?;
    }
    Ok(types)
}

/// The type of a primitive: a procedure from its operands to its answer, in which its type variable, number 0, may be any
/// type. A maker takes the types of its kind's fields in the maker's order, and accessors and modifiers have that of the field.
///
/// # Errors
///
/// `NoMemory` where memory for the type runs out.
pub fn scheme_of(alloc: Global, p: Prim, kinds: &Kinds) -> Result<Scheme, NoMemory>
    ensures { IfOk result (λ s. s ≡ scheme kinds.now p) }
{
    match p {
        Prim::Maker(k) => procedure(alloc, types_of_fields(alloc, kinds, k)?, Ty::Tuple(k)),
        Prim::Predicate(k) => procedure(alloc, record_and(alloc, k, None)?, Ty::Boolean),
        Prim::Accessor(k, f) => {
            let field = type_of_field(alloc, kinds, k, f)?;
            procedure(alloc, record_and(alloc, k, None)?, field)
        }
        Prim::Modifier(k, f) => {
            let field = type_of_field(alloc, kinds, k, f)?;
            procedure(alloc, record_and(alloc, k, Some(field))?, Ty::Unit)
        }
        _ => scheme_of_sorts(alloc, named_operands(p), answer_of(p)),
    }
}
