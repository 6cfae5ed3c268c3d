//! Parts for which names are bound.

ghost use Rattle.ps_binders.specs.Binders.{body_inside as body_inside_spec, where_keyed as where_keyed_spec, where_named as where_named_spec};
ghost use Rattle.ps_derived.specs.Seen.{idents, seen_macro};
ghost use Rattle.ps_plans.specs.Seen.{seen_inside, seen_part, seen_staged};
ghost use Rattle.std.specs.Prelude.{IfOk, map, ◌∷◌, ◌≡◌};

use ps_base::{Boxed, Items, Numbers, Place};
use ps_derived::Macro;
use ps_expansion::Level;
use ps_pattern::Ident;
use ps_plans::{Inside, Part, Scope, Staged};
use std::alloc::{AllocError, Global};

/// A part in which names stand for locals.
pub(crate) fn where_named<'a>(
    alloc: Global,
    level: Level,
    names: Items<&'a Ident>,
    locals: Numbers,
    part: Part<'a>,
) -> Result<Staged<'a>, AllocError>
    ensures { IfOk result (λ s. seen_staged s ≡ where_named_spec level (idents names.entry) locals (seen_part part.entry)) }
{
    Ok(Staged {
        level,
        scope: Scope::Locals(names, locals),
        part: Boxed::new(alloc, part)?,
    })
}

/// A part in which keywords stand for macros, numbered in a row from this one on.
pub(crate) fn where_keyed<'a>(
    alloc: Global,
    level: Level,
    macros: &'a [Macro<'a>],
    first: u32,
    part: Part<'a>,
) -> Result<Staged<'a>, AllocError>
    ensures { IfOk result (λ s. seen_staged s ≡ where_keyed_spec level (map seen_macro macros.now) first (seen_part part.entry)) }
{
    Ok(Staged {
        level,
        scope: Scope::Keywords(macros, first),
        part: Boxed::new(alloc, part)?,
    })
}

/// The body of the lambda of a number whose parameters have these locals.
pub(crate) fn body_inside<'a>(
    alloc: Global,
    level: Level,
    number: u32,
    place: Place,
    names: Items<&'a Ident>,
    locals: Numbers,
    part: Part<'a>,
) -> Result<Inside<'a>, AllocError>
    ensures { IfOk result (λ i. seen_inside i ≡ body_inside_spec level number place (idents names.entry) locals (seen_part part.entry)) }
{
    let parameters = Items::from_slice(alloc, locals.as_slice())?;
    Ok(Inside {
        number,
        place,
        parameters,
        body: where_named(alloc, level, names, locals, part)?,
    })
}

/// One before others.
pub(crate) fn before<T: Copy + Drop>(
    alloc: Global,
    first: T,
    more: &[T],
) -> Result<Items<T>, AllocError>
    ensures { IfOk result (λ all. all ≡ first ∷ more.now) }
{
    let mut all = Items::new(alloc);
    all.push(first)?;
    all.append(Items::from_slice(alloc, more)?)?;
    Ok(all)
}
