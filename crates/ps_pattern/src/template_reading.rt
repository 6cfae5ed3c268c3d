//! Reading of templates.

ghost use Rattle.std.specs.Prelude.{◌≡◌, map, IfOk, Some, None, false, slice_get};
ghost use Rattle.std.specs.Option.{option_map, option_and_then};
ghost use Rattle.ps_pattern.specs.Templates.{template_of, view, ident_read, variable_under as under_spec, part_read, parts_read, each_of as each_spec, dotted_of as dotted_spec};
ghost use Rattle.ps_pattern.specs.declared.template.Template.TheVariants as t;

use crate::identifiers::{after, begins_in_dots, is_dots, is_named};
use crate::keys::Keys;
use crate::surveys::deep_variables;
use crate::syntax::{Ident, Syntax, SyntaxNode, copy_ident};
use crate::template::{Part, Parts, Template};
use ps_base::{Boxed, Items};
use sqlite_items::at;
use std::alloc::{AllocError, Global};

// A variable, where it may stand under so many ellipses.
fn variable_under(v: usize, depths: &[usize], around: usize) -> Option<Template>
    ensures { result ≡ under_spec v (slice_get depths.now v) around }
{
    match at(depths, v) {
        None => None,
        Some(d) => {
            if *d == 0 || *d == around {
                Some(Template::Variable(v))
            } else {
                None
            }
        }
    }
}

fn read_ident(
    alloc: Global,
    dots: Option<u32>,
    keys: &Keys,
    depths: &[usize],
    id: &Ident,
    around: usize,
) -> Result<Option<Template>, AllocError>
    ensures { IfOk result (λ r. r ≡ ident_read dots keys.now depths.now id.now around) }
{
    if is_named(dots, id) {
        return Ok(None);
    }
    match keys.find(id)? {
        None => Ok(Some(Template::Inserted(copy_ident(alloc, id)?))),
        Some(v) => Ok(variable_under(v, depths, around)),
    }
}

fn list_of(parts: Option<Parts>) -> Option<Template>
    ensures { result ≡ option_map t.List parts }
{
    match parts {
        None => None,
        Some(parts) => Some(Template::List(parts)),
    }
}

fn vector_of(parts: Option<Parts>) -> Option<Template>
    ensures { result ≡ option_map t.Vector parts }
{
    match parts {
        None => None,
        Some(parts) => Some(Template::Vector(parts)),
    }
}

fn dotted_of(
    alloc: Global,
    parts: Parts,
    last: Option<Template>,
) -> Result<Option<Template>, AllocError>
    ensures { IfOk result (λ r. r ≡ dotted_spec last parts) }
{
    match last {
        None => Ok(None),
        Some(last) => Ok(Some(Template::Dotted(parts, Boxed::new(alloc, last)?))),
    }
}

// A part with `...` behind it, where some variable of depth 1 or more stands in it.
fn each_of(alloc: Global, depths: &[usize], template: Template) -> Result<Option<Part>, AllocError>
    ensures { IfOk result (λ r. r ≡ each_spec depths.now template) }
{
    let through = deep_variables(alloc, depths, &template)?;
    if through.is_empty() {
        Ok(None)
    } else {
        Ok(Some(Part::Each(template, through)))
    }
}

/// The template that a form is under so many ellipses, where the pattern's variables have these keys and depths.
#[cycle(template)]
#[tactic(auto, unfolding(crate::specs::Templates::template_of, crate::specs::Templates::view))]
pub fn read_template(
    alloc: Global,
    dots: Option<u32>,
    keys: &Keys,
    depths: &[usize],
    form: &Syntax,
    around: usize,
) -> Result<Option<Template>, AllocError>
    ensures { IfOk result (λ r. r ≡ template_of dots keys.now depths.now form.now around) }
{
    match &form.node {
        SyntaxNode::Ident(id) => read_ident(alloc, dots, keys, depths, id, around),
        SyntaxNode::Boolean(x) => Ok(Some(Template::Boolean(*x))),
        SyntaxNode::Integer(x) => Ok(Some(Template::Integer(*x))),
        SyntaxNode::Char(x) => Ok(Some(Template::Char(*x))),
        SyntaxNode::Text(x) => Ok(Some(Template::Text(Items::from_slice(alloc, x.as_slice())?))),
        SyntaxNode::List(forms) => {
            Ok(list_of(read_parts(alloc, dots, keys, depths, forms.as_slice(), around)?))
        }
        SyntaxNode::Vector(forms) => {
            Ok(vector_of(read_parts(alloc, dots, keys, depths, forms.as_slice(), around)?))
        }
        SyntaxNode::Dotted(forms, last) => {
            match read_parts(alloc, dots, keys, depths, forms.as_slice(), around)? {
                None => Ok(None),
                Some(parts) => {
                    let last = read_template(alloc, dots, keys, depths, last.get(), around)?;
                    dotted_of(alloc, parts, last)
                }
            }
        }
    }
}

/// The parts of a list, each with the `...` behind it.
#[cycle(template)]
fn read_parts(
    alloc: Global,
    dots: Option<u32>,
    keys: &Keys,
    depths: &[usize],
    forms: &[Syntax],
    around: usize,
) -> Result<Option<Parts>, AllocError>
    ensures { IfOk result (λ r. r ≡ parts_read depths.now around false (map (view dots keys.now depths.now) forms.now)) }
{
    let mut parts: Parts = Items::new(alloc);
    let mut may = false;
    for (i, form) in forms.iter().enumerate() {
        if is_dots(dots, form) {
            if !may {
                return Ok(None);
            }
            may = false;
        } else {
            let each = begins_in_dots(dots, after(forms, i + 1));
            match read_part(alloc, dots, keys, depths, each, form, around)? {
                None => return Ok(None),
                Some(part) => parts.push(part)?,
            }
            may = true;
        }
    }
    Ok(Some(parts))
}

#[cycle(template)]
#[tactic(auto, unfolding(crate::specs::Templates::template_of))]
fn read_part(
    alloc: Global,
    dots: Option<u32>,
    keys: &Keys,
    depths: &[usize],
    each: bool,
    form: &Syntax,
    around: usize,
) -> Result<Option<Part>, AllocError>
    ensures { IfOk result (λ r. r ≡ part_read depths.now each (view dots keys.now depths.now form.now) around) }
{
    if !each {
        return match read_template(alloc, dots, keys, depths, form, around)? {
            None => Ok(None),
            Some(template) => Ok(Some(Part::Plain(template))),
        };
    }
    // a form under this many ellipses has no place in memory
    let Some(under) = around.checked_add(1) else {
        return Err(AllocError);
    };
    match read_template(alloc, dots, keys, depths, form, under)? {
        None => Ok(None),
        Some(template) => each_of(alloc, depths, template),
    }
}
