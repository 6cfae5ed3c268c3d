//! Record types are defined.

ghost use Rattle.std.specs.Prelude.{◌≡◌, IfOk, map};
ghost use Rattle.ps_definitions.specs.Definitions.{defines_field, defines_fields, defines_procedures, integers as integers_spec, new_kind, next_kind};
ghost use Rattle.ps_derived.specs.Seen.{seen_field, seen_record};
ghost use Rattle.ps_expansion.specs.Does.{Does};

use crate::defining::{define_if, define_once};
use ps_base::{Items, NoMemory, Numbers, Place, Prim};
use ps_derived::{Field, RecordType};
use ps_expansion::{Expansion, Stop};
use ps_pattern::Binding;
use ps_types::{RecordKind, Ty, Tys};
use std::alloc::{AllocError, Global};

/// A record type is defined: its number. Its name means nothing in an expression.
pub(crate) fn define_kind(state: &mut Expansion, at: Place, x: &RecordType<'_>) -> Result<u32, Stop>
    ensures { Does result (new_kind at (seen_record x.now)) state.old state.new }
{
    define_once(state, at, x.kind, Binding::Unbound(x.kind.name))?;
    let kind = next_kind(state, x)?;
    define_procedures(state, at, kind, x)?;
    Ok(kind)
}

// A record type is numbered, from 0. The types of its fields are told in the second pass; until then they are integers.
fn next_kind(state: &mut Expansion, x: &RecordType<'_>) -> Result<u32, Stop>
    ensures { Does result (next_kind (seen_record x.now)) state.old state.new }
{
    let number = state.kinds.len();
    if number >= u32::MAX as usize {
        return Err(Stop::NoMemory);
    }
    let fields = integers(state.alloc, x.fields.as_slice())?;
    let maker = indices(state.alloc, x.operands.as_slice())?;
    state.kinds.push(RecordKind {
        name: x.kind.name,
        fields,
        maker,
    })?;
    let structure = state.hygiene.structure();
    let stamps = x.kind.stamps.as_slice();
    let binding = Binding::Primitive(Prim::Predicate(number as u32));
    state.types.define(structure, x.kind.name, stamps, binding)?;
    Ok(number as u32)
}

// A type for each field.
fn integers(alloc: Global, fields: &[Field<'_>]) -> Result<Tys, AllocError>
    ensures { IfOk result (λ r. r ≡ integers_spec (map seen_field fields.now)) }
{
    let mut types = Items::new(alloc);
    for field in fields {
        let _ = field;
        types.push(Ty::Integer)?;
    }
    Ok(types)
}

// For each operand of the maker the number of its field.
fn indices(alloc: Global, operands: &[usize]) -> Result<Numbers, NoMemory>
    ensures { IfOk result (λ r. r ≡ operands.now) }
{
    let mut all = Items::new(alloc);
    for operand in operands {
        if *operand > u32::MAX as usize {
            return Err(NoMemory);
        }
        all.push(*operand as u32)?;
    }
    Ok(all)
}

// The maker, the predicate, and the accessors and modifiers of the fields.
fn define_procedures(
    state: &mut Expansion,
    at: Place,
    kind: u32,
    x: &RecordType<'_>,
) -> Result<(), Stop>
    ensures { Does result (defines_procedures at kind (seen_record x.now)) state.old state.new }
{
    define_once(state, at, x.maker, Binding::Primitive(Prim::Maker(kind)))?;
    let predicate = Binding::Primitive(Prim::Predicate(kind));
    define_if(state, at, x.predicate, predicate)?;
    define_fields(state, at, kind, x.fields.as_slice())
}

// The accessors and modifiers of fields, in order.
fn define_fields(
    state: &mut Expansion,
    at: Place,
    kind: u32,
    fields: &[Field<'_>],
) -> Result<(), Stop>
    ensures { Does result (defines_fields at kind 0 (map seen_field fields.now)) state.old state.new }
{
    let mut number: u32 = 0;
    for field in fields {
        define_field(state, at, kind, number, field)?;
        if number == u32::MAX {
            return Err(Stop::NoMemory);
        }
        number += 1;
    }
    Ok(())
}

// The accessor and the modifier of the field of this number.
fn define_field(
    state: &mut Expansion,
    at: Place,
    kind: u32,
    number: u32,
    field: &Field<'_>,
) -> Result<(), Stop>
    ensures { Does result (defines_field at kind number (seen_field field.now)) state.old state.new }
{
    let accessor = Binding::Primitive(Prim::Accessor(kind, number));
    define_once(state, at, field.accessor, accessor)?;
    let modifier = Binding::Primitive(Prim::Modifier(kind, number));
    define_if(state, at, field.modifier, modifier)
}
