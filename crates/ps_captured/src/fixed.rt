//! Assignments of locals that must stay as they are.

ghost use Rattle.std.specs.Prelude.{◌≡◌, IfOk, OnOk};
ghost use Rattle.std.specs.List.{fold, list_any};
ghost use Rattle.ps_captured.specs.FixedSets.{fixed_set};
ghost use Rattle.ps_captured.specs.InsideReading.{is_assigned, sights, sights_of};
ghost use Rattle.ps_captured.specs.InsideTables.{first_among, with_all_free, with_kept};

use crate::free::{add_all_free, entered_in};
use crate::locals::Locals;
use crate::reading::{text_of, text_of_form};
use crate::seen::Seen;
use ps_base::{NoMemory, Place};
use ps_kernel::{Expr, Lambda};
use std::alloc::Global;

#[tactic(auto, using(crate::proofs::SetsTell::tells, crate::proofs::SetsTell::tells_none))]
/// The place of the first assignment in a form, in order of its text with the bodies of its lambdas where these stand, that
/// assigns a local which a `letrec` of this text binds or which a lambda of this text keeps, because it names the local and binds
/// it nowhere; nothing where there is no such assignment (R5RS 4.1.6). The form's expression is given, and all lambdas that
/// stand in it by their numbers. What lies deeper than 1,000 levels is not read.
///
/// Its time grows as the text of the form with that of each lambda in it.
///
/// # Errors
///
/// `NoMemory` where memory ran out.
pub fn first_fixed_set(
    alloc: Global,
    lambdas: &[Lambda],
    form: &Expr,
) -> Result<Option<Place>, NoMemory>
    ensures { IfOk result (λ answer. answer ≡ fixed_set lambdas.now form.now) }
{
    let seen = text_of_form(alloc, lambdas, form)?;
    if !has_set(seen.as_slice()) {
        return Ok(None);
    }
    let mut locals = entered_in(alloc, seen.as_slice())?;
    add_all_kept(alloc, &mut locals, lambdas, seen.as_slice())?;
    Ok(first_in(&locals, seen.as_slice()))
}

// Whether something is assigned there.
fn has_set(seen: &[Seen<'_>]) -> bool
    ensures { result ≡ list_any is_assigned (sights seen.now) }
{
    for one in seen {
        match one {
            Seen::Stands(_, _) => {}
            Seen::Binds(_) => {}
            Seen::Enters(_) => {}
            Seen::Mentions(_) => {}
            Seen::Sets(_, _) => return true,
        }
    }
    false
}

// Puts the free locals of a lambda in a set.
fn add_kept(
    alloc: Global,
    locals: &mut Locals,
    lambdas: &[Lambda],
    number: u32,
) -> Result<(), NoMemory>
    ensures { OnOk result (locals.new ≡ with_all_free locals.old (sights_of lambdas.now number)) }
{
    let text = text_of(alloc, lambdas, number as usize)?;
    add_all_free(alloc, locals, text.as_slice())
}

// Puts the free locals of the lambdas that stand there in a set.
fn add_all_kept(
    alloc: Global,
    locals: &mut Locals,
    lambdas: &[Lambda],
    seen: &[Seen<'_>],
) -> Result<(), NoMemory>
    ensures { OnOk result (locals.new ≡ fold (with_kept lambdas.now) locals.old (sights seen.now)) }
{
    for one in seen {
        match one {
            Seen::Stands(number, _) => add_kept(alloc, locals, lambdas, *number)?,
            Seen::Binds(_) => {}
            Seen::Enters(_) => {}
            Seen::Mentions(_) => {}
            Seen::Sets(_, _) => {}
        }
    }
    Ok(())
}

// The place of the first assignment of one of these locals.
fn first_in(locals: &Locals, seen: &[Seen<'_>]) -> Option<Place>
    ensures { result ≡ first_among locals.now (sights seen.now) }
{
    for one in seen {
        match one {
            Seen::Stands(_, _) => {}
            Seen::Binds(_) => {}
            Seen::Enters(_) => {}
            Seen::Mentions(_) => {}
            Seen::Sets(place, local) => {
                if locals.contains(*local) {
                    return Some(*place);
                }
            }
        }
    }
    None
}
