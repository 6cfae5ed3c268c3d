//! Lists of bindings and of parameters.

ghost use Rattle.std.specs.Prelude.{◌≡◌, IfOk, map};
ghost use Rattle.std.specs.Option.{option_map};
ghost use Rattle.ps_derived.specs.Bindings.{binding_at as binding_spec, bindings_in as bindings_spec, names_of, different_bindings as different_spec, loop_binding_at as loop_spec, loop_bindings_in as loops_spec, loop_names_of, different_loop_bindings as different_loops};
ghost use Rattle.ps_derived.specs.Bindings.{macro_in as macro_spec, macro_at as macro_at_spec, macros_in as macros_spec, keywords_of as keywords_spec, different_macros as different_macros_spec, different_idents as different_idents_spec};
ghost use Rattle.ps_derived.specs.Bindings.{bound_in as bound_spec, around_in as around_spec};
ghost use Rattle.ps_derived.specs.InsideBindings.{seen_bound, seen_around};
ghost use Rattle.ps_derived.specs.Seen.{idents, seen_binding, seen_loop_binding, seen_macro};

use crate::distinct::are_distinct;
use crate::forms::{forms_of, ident_at, idents_in, some};
use crate::types::{Binding, LoopBinding, Macro};
use ps_base::{Items, NoMemory};
use ps_pattern::{Ident, Syntax};
use std::alloc::Global;

/// The variables of bindings, in order.
///
/// # Errors
///
/// `NoMemory` where memory ran out.
pub fn variables_of<'a>(
    alloc: Global,
    bindings: &[Binding<'a>],
) -> Result<Items<&'a Ident>, NoMemory>
    ensures { IfOk result (λ ids. idents ids ≡ names_of (map seen_binding bindings.now)) }
{
    let mut ids = Items::new(alloc);
    for binding in bindings {
        ids.push(binding.name)?;
    }
    Ok(ids)
}

/// The variables of the bindings of a loop, in order.
///
/// # Errors
///
/// `NoMemory` where memory ran out.
pub fn loop_variables_of<'a>(
    alloc: Global,
    bindings: &[LoopBinding<'a>],
) -> Result<Items<&'a Ident>, NoMemory>
    ensures { IfOk result (λ ids. idents ids ≡ loop_names_of (map seen_loop_binding bindings.now)) }
{
    let mut ids = Items::new(alloc);
    for binding in bindings {
        ids.push(binding.name)?;
    }
    Ok(ids)
}

/// The keywords of macros, in order.
///
/// # Errors
///
/// `NoMemory` where memory ran out.
pub fn keywords_of<'a>(alloc: Global, macros: &[Macro<'a>]) -> Result<Items<&'a Ident>, NoMemory>
    ensures { IfOk result (λ ids. idents ids ≡ keywords_spec (map seen_macro macros.now)) }
{
    let mut ids = Items::new(alloc);
    for rules in macros {
        ids.push(rules.keyword)?;
    }
    Ok(ids)
}

fn binding_at(form: &Syntax) -> Option<Binding<'_>>
    ensures { option_map seen_binding result ≡ binding_spec form.now }
{
    match forms_of(form)? {
        [name, value] => {
            let name = ident_at(name)?;
            Some(Binding { name, value })
        }
        _ => None,
    }
}

fn bindings_in<'a>(
    alloc: Global,
    forms: &'a [Syntax],
) -> Result<Option<Items<Binding<'a>>>, NoMemory>
    ensures { IfOk result (λ r. option_map (map seen_binding) r ≡ bindings_spec forms.now) }
{
    let mut all = Items::new(alloc);
    for form in forms {
        match binding_at(form) {
            None => return Ok(None),
            Some(binding) => all.push(binding)?,
        }
    }
    Ok(Some(all))
}

/// The bindings of a list, with no name twice.
pub fn different_bindings<'a>(
    alloc: Global,
    form: &'a Syntax,
) -> Result<Option<Items<Binding<'a>>>, NoMemory>
    ensures { IfOk result (λ r. option_map (map seen_binding) r ≡ different_spec form.now) }
{
    let Some(forms) = forms_of(form) else {
        return Ok(None);
    };
    let Some(bindings) = bindings_in(alloc, forms)? else {
        return Ok(None);
    };
    let names = variables_of(alloc, bindings.as_slice())?;
    if are_distinct(alloc, names.as_slice())? {
        Ok(Some(bindings))
    } else {
        Ok(None)
    }
}

/// Bindings, and a body.
#[derive(Drop)]
pub struct Bound<'a> {
    pub bindings: Items<Binding<'a>>,
    pub body: &'a [Syntax],
}

/// The bindings and the body that forms are.
pub fn bound_in<'a>(alloc: Global, forms: &'a [Syntax]) -> Result<Option<Bound<'a>>, NoMemory>
    ensures { IfOk result (λ r. option_map seen_bound r ≡ bound_spec forms.now) }
{
    let [bindings, body @ ..] = forms else {
        return Ok(None);
    };
    let Some(body) = some(body) else {
        return Ok(None);
    };
    match different_bindings(alloc, bindings)? {
        None => Ok(None),
        Some(bindings) => Ok(Some(Bound { bindings, body })),
    }
}

fn loop_binding_at(form: &Syntax) -> Option<LoopBinding<'_>>
    ensures { option_map seen_loop_binding result ≡ loop_spec form.now }
{
    match forms_of(form)? {
        [name, first] => {
            let name = ident_at(name)?;
            Some(LoopBinding {
                name,
                first,
                step: None,
            })
        }
        [name, first, step] => {
            let name = ident_at(name)?;
            Some(LoopBinding {
                name,
                first,
                step: Some(step),
            })
        }
        _ => None,
    }
}

fn loop_bindings_in<'a>(
    alloc: Global,
    forms: &'a [Syntax],
) -> Result<Option<Items<LoopBinding<'a>>>, NoMemory>
    ensures { IfOk result (λ r. option_map (map seen_loop_binding) r ≡ loops_spec forms.now) }
{
    let mut all = Items::new(alloc);
    for form in forms {
        match loop_binding_at(form) {
            None => return Ok(None),
            Some(binding) => all.push(binding)?,
        }
    }
    Ok(Some(all))
}

/// The bindings of a loop, with no name twice.
pub fn different_loop_bindings<'a>(
    alloc: Global,
    form: &'a Syntax,
) -> Result<Option<Items<LoopBinding<'a>>>, NoMemory>
    ensures { IfOk result (λ r. option_map (map seen_loop_binding) r ≡ different_loops form.now) }
{
    let Some(forms) = forms_of(form) else {
        return Ok(None);
    };
    let Some(bindings) = loop_bindings_in(alloc, forms)? else {
        return Ok(None);
    };
    let names = loop_variables_of(alloc, bindings.as_slice())?;
    if are_distinct(alloc, names.as_slice())? {
        Ok(Some(bindings))
    } else {
        Ok(None)
    }
}

/// A keyword and its rules.
pub fn macro_in(forms: &[Syntax]) -> Option<Macro<'_>>
    ensures { option_map seen_macro result ≡ macro_spec forms.now }
{
    match forms {
        [keyword, rules] => {
            let keyword = ident_at(keyword)?;
            Some(Macro { keyword, rules })
        }
        _ => None,
    }
}

fn macro_at(form: &Syntax) -> Option<Macro<'_>>
    ensures { option_map seen_macro result ≡ macro_at_spec form.now }
{
    macro_in(forms_of(form)?)
}

fn macros_in<'a>(alloc: Global, forms: &'a [Syntax]) -> Result<Option<Items<Macro<'a>>>, NoMemory>
    ensures { IfOk result (λ r. option_map (map seen_macro) r ≡ macros_spec forms.now) }
{
    let mut all = Items::new(alloc);
    for form in forms {
        match macro_at(form) {
            None => return Ok(None),
            Some(rules) => all.push(rules)?,
        }
    }
    Ok(Some(all))
}

/// The macros of a list, with no keyword twice.
pub fn different_macros<'a>(
    alloc: Global,
    form: &'a Syntax,
) -> Result<Option<Items<Macro<'a>>>, NoMemory>
    ensures { IfOk result (λ r. option_map (map seen_macro) r ≡ different_macros_spec form.now) }
{
    let Some(forms) = forms_of(form) else {
        return Ok(None);
    };
    let Some(macros) = macros_in(alloc, forms)? else {
        return Ok(None);
    };
    let keywords = keywords_of(alloc, macros.as_slice())?;
    if are_distinct(alloc, keywords.as_slice())? {
        Ok(Some(macros))
    } else {
        Ok(None)
    }
}

/// Macros, and a body.
#[derive(Drop)]
pub struct Around<'a> {
    pub macros: Items<Macro<'a>>,
    pub body: &'a [Syntax],
}

/// The macros and the body that forms are.
pub fn around_in<'a>(alloc: Global, forms: &'a [Syntax]) -> Result<Option<Around<'a>>, NoMemory>
    ensures { IfOk result (λ r. option_map seen_around r ≡ around_spec forms.now) }
{
    let [macros, body @ ..] = forms else {
        return Ok(None);
    };
    let Some(body) = some(body) else {
        return Ok(None);
    };
    match different_macros(alloc, macros)? {
        None => Ok(None),
        Some(macros) => Ok(Some(Around { macros, body })),
    }
}

/// The identifiers of a list, none of them twice.
pub fn different_idents<'a>(
    alloc: Global,
    form: &'a Syntax,
) -> Result<Option<Items<&'a Ident>>, NoMemory>
    ensures { IfOk result (λ r. option_map idents r ≡ different_idents_spec form.now) }
{
    let Some(forms) = forms_of(form) else {
        return Ok(None);
    };
    let Some(ids) = idents_in(alloc, forms)? else {
        return Ok(None);
    };
    if are_distinct(alloc, ids.as_slice())? {
        Ok(Some(ids))
    } else {
        Ok(None)
    }
}
