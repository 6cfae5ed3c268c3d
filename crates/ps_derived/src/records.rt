//! Record types.

ghost use Rattle.std.specs.Prelude.{◌≡◌, IfOk, map, [], true};
ghost use Rattle.std.specs.Option.{option_map};
ghost use Rattle.ps_pattern.specs.Identifiers.{all_keys};
ghost use Rattle.ps_derived.specs.Records.{field_at as field_spec, fields_in as fields_spec, field_names, different_fields as different_spec, if_fields_different as if_different, operands_in as operands_spec, indices_in as indices_spec, is_whole as whole_spec, maker_at as maker_spec, maker_in as maker_in_spec, rest_of as rest_spec, record_in as record_spec, record_behind as behind_spec, made as made_spec};
ghost use Rattle.ps_derived.specs.Distinct.{are_distinct};
ghost use Rattle.ps_derived.specs.Seen.{idents, seen_field, seen_record};
ghost use Rattle.ps_derived.specs.InsideRecords.{seen_maker, seen_rest};

use crate::distinct::are_distinct;
use crate::forms::{forms_of, ident_at, idents_in};
use crate::keys::Keys;
use crate::types::{Field, RecordType};
use ps_base::{Items, NoMemory};
use ps_pattern::{Ident, Syntax};
use std::alloc::Global;

/// A maker's name, and the forms of its operands.
#[derive(Clone, Copy, Drop)]
pub struct Maker<'a> {
    pub name: &'a Ident,
    pub operands: &'a [Syntax],
}

/// What stands behind the maker: a predicate's name, and the forms of the fields.
#[derive(Clone, Copy, Drop)]
pub struct Rest<'a> {
    pub predicate: Option<&'a Ident>,
    pub fields: &'a [Syntax],
}

/// The record type that forms define.
pub fn record_in<'a>(alloc: Global, forms: &'a [Syntax]) -> Result<Option<RecordType<'a>>, NoMemory>
    ensures { IfOk result (λ r. option_map seen_record r ≡ record_spec forms.now) }
{
    let [name, kind, maker, rest @ ..] = forms else {
        return Ok(None);
    };
    let Some(name) = ident_at(name) else {
        return Ok(None);
    };
    let Some(kind) = ident_at(kind) else {
        return Ok(None);
    };
    match maker_at(maker) {
        None => Ok(None),
        Some(maker) => record_behind(alloc, name, kind, &rest_of(rest), &maker),
    }
}

// A record type of these names, with this maker and what stands behind it.
fn record_behind<'a>(
    alloc: Global,
    name: &'a Ident,
    kind: &'a Ident,
    rest: &Rest<'a>,
    maker: &Maker<'a>,
) -> Result<Option<RecordType<'a>>, NoMemory>
    ensures { IfOk result (λ r. option_map seen_record r ≡ behind_spec name.now kind.now (seen_rest rest.now) (seen_maker maker.now)) }
{
    let Some(fields) = different_fields(alloc, rest.fields)? else {
        return Ok(None);
    };
    let Some(ids) = idents_in(alloc, maker.operands)? else {
        return Ok(None);
    };
    let names = names_of(alloc, fields.as_slice())?;
    let Some(operands) = operands_in(alloc, names.as_slice(), ids.as_slice())? else {
        return Ok(None);
    };
    Ok(Some(RecordType {
        name,
        kind,
        maker: maker.name,
        operands,
        predicate: rest.predicate,
        fields,
    }))
}

fn maker_at(form: &Syntax) -> Option<Maker<'_>>
    ensures { option_map seen_maker result ≡ maker_spec form.now }
{
    match forms_of(form)? {
        [] => None,
        [name, operands @ ..] => {
            let name = ident_at(name)?;
            Some(Maker { name, operands })
        }
    }
}

fn rest_of(forms: &[Syntax]) -> Rest<'_>
    ensures { seen_rest result ≡ rest_spec forms.now }
{
    match forms {
        [] => Rest {
            predicate: None,
            fields: forms,
        },
        [first, fields @ ..] => match ident_at(first) {
            None => Rest {
                predicate: None,
                fields: forms,
            },
            Some(id) => Rest {
                predicate: Some(id),
                fields,
            },
        },
    }
}

fn field_at(form: &Syntax) -> Option<Field<'_>>
    ensures { option_map seen_field result ≡ field_spec form.now }
{
    match forms_of(form)? {
        [name, kind, accessor] => {
            let name = ident_at(name)?;
            let accessor = ident_at(accessor)?;
            Some(Field {
                name,
                kind,
                accessor,
                modifier: None,
            })
        }
        [name, kind, accessor, modifier] => {
            let name = ident_at(name)?;
            let accessor = ident_at(accessor)?;
            let modifier = ident_at(modifier)?;
            Some(Field {
                name,
                kind,
                accessor,
                modifier: Some(modifier),
            })
        }
        _ => None,
    }
}

fn fields_in<'a>(alloc: Global, forms: &'a [Syntax]) -> Result<Option<Items<Field<'a>>>, NoMemory>
    ensures { IfOk result (λ r. option_map (map seen_field) r ≡ fields_spec forms.now) }
{
    let mut fields = Items::new(alloc);
    for form in forms {
        match field_at(form) {
            None => return Ok(None),
            Some(field) => fields.push(field)?,
        }
    }
    Ok(Some(fields))
}

fn names_of<'a>(alloc: Global, fields: &[Field<'a>]) -> Result<Items<&'a Ident>, NoMemory>
    ensures { IfOk result (λ ids. idents ids ≡ field_names (map seen_field fields.now)) }
{
    let mut ids = Items::new(alloc);
    for field in fields {
        ids.push(field.name)?;
    }
    Ok(ids)
}

// At least one field, and none of another one's name.
fn different_fields<'a>(
    alloc: Global,
    forms: &'a [Syntax],
) -> Result<Option<Items<Field<'a>>>, NoMemory>
    ensures { IfOk result (λ r. option_map (map seen_field) r ≡ different_spec forms.now) }
{
    let Some(fields) = fields_in(alloc, forms)? else {
        return Ok(None);
    };
    if fields.is_empty() {
        return Ok(None);
    }
    let names = names_of(alloc, fields.as_slice())?;
    if are_distinct(alloc, names.as_slice())? {
        Ok(Some(fields))
    } else {
        Ok(None)
    }
}

fn table_of(alloc: Global, names: &[&Ident]) -> Result<Keys, NoMemory>
    ensures { IfOk result (λ r. r ≡ all_keys [] (idents names.now)) }
{
    let mut keys = Keys::new(alloc);
    for name in names {
        keys.add(name)?;
    }
    Ok(keys)
}

fn indices_in(alloc: Global, keys: &Keys, ids: &[&Ident]) -> Result<Option<Items<usize>>, NoMemory>
    ensures { IfOk result (λ r. r ≡ indices_spec keys.now (idents ids.now)) }
{
    let mut indices = Items::new(alloc);
    for id in ids {
        match keys.find(id)? {
            None => return Ok(None),
            Some(index) => indices.push(index)?,
        }
    }
    Ok(Some(indices))
}

// Whether the operands of a maker are as many as the fields, and none stands twice.
fn is_whole(alloc: Global, names: &[&Ident], ids: &[&Ident]) -> Result<bool, NoMemory>
    ensures { IfOk result (λ r. r ≡ whole_spec (idents names.now) (idents ids.now)) }
{
    if ids.len() != names.len() {
        return Ok(false);
    }
    are_distinct(alloc, ids)
}

// For each operand of a maker the index of its field.
fn operands_in(
    alloc: Global,
    names: &[&Ident],
    ids: &[&Ident],
) -> Result<Option<Items<usize>>, NoMemory>
    requires { are_distinct (idents names.now) ≡ true }
    ensures { IfOk result (λ r. r ≡ operands_spec (idents names.now) (idents ids.now)) }
{
    if !is_whole(alloc, names, ids)? {
        return Ok(None);
    }
    let keys = table_of(alloc, names)?;
    indices_in(alloc, &keys, ids)
}
