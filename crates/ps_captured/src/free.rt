//! The locals that texts bind and those that they name without binding them.

ghost use Rattle.std.specs.Prelude.{◌≡◌, [], IfOk, OnOk};
ghost use Rattle.std.specs.List.{fold};
ghost use Rattle.ps_captured.specs.InsideReading.{sight_of, sights};
ghost use Rattle.ps_captured.specs.InsideTables.{with_all_free, with_bound, with_entered, with_free, with_other};

use crate::locals::Locals;
use crate::seen::Seen;
use ps_base::NoMemory;
use std::alloc::Global;

// Puts what is bound there in a set.
fn add_bound(locals: &mut Locals, seen: &Seen<'_>) -> Result<(), NoMemory>
    ensures { OnOk result (locals.new ≡ with_bound locals.old (sight_of seen.now)) }
{
    match seen {
        Seen::Stands(_, _) => Ok(()),
        Seen::Binds(local) => locals.insert(*local),
        Seen::Enters(local) => locals.insert(*local),
        Seen::Mentions(_) => Ok(()),
        Seen::Sets(_, _) => Ok(()),
    }
}

// Puts what a letrec binds there in a set.
fn add_entered(locals: &mut Locals, seen: &Seen<'_>) -> Result<(), NoMemory>
    ensures { OnOk result (locals.new ≡ with_entered locals.old (sight_of seen.now)) }
{
    match seen {
        Seen::Stands(_, _) => Ok(()),
        Seen::Binds(_) => Ok(()),
        Seen::Enters(local) => locals.insert(*local),
        Seen::Mentions(_) => Ok(()),
        Seen::Sets(_, _) => Ok(()),
    }
}

/// Puts a local in a set where another set does not have it.
pub fn add_other(locals: &mut Locals, bound: &Locals, local: u32) -> Result<(), NoMemory>
    ensures { OnOk result (locals.new ≡ with_other bound.now locals.old local) }
{
    if bound.contains(local) {
        return Ok(());
    }
    locals.insert(local)
}

// Puts what is named there in a set, where it is not bound.
fn add_free(locals: &mut Locals, bound: &Locals, seen: &Seen<'_>) -> Result<(), NoMemory>
    ensures { OnOk result (locals.new ≡ with_free bound.now locals.old (sight_of seen.now)) }
{
    match seen {
        Seen::Stands(_, _) => Ok(()),
        Seen::Binds(_) => Ok(()),
        Seen::Enters(_) => Ok(()),
        Seen::Mentions(local) => add_other(locals, bound, *local),
        Seen::Sets(_, local) => add_other(locals, bound, *local),
    }
}

/// The locals that a text binds.
pub fn bound_in(alloc: Global, seen: &[Seen<'_>]) -> Result<Locals, NoMemory>
    ensures { IfOk result (λ locals. locals ≡ fold with_bound [] (sights seen.now)) }
{
    let mut locals = Locals::new(alloc);
    for one in seen {
        add_bound(&mut locals, one)?;
    }
    Ok(locals)
}

/// The locals that letrecs of a text bind.
pub fn entered_in(alloc: Global, seen: &[Seen<'_>]) -> Result<Locals, NoMemory>
    ensures { IfOk result (λ locals. locals ≡ fold with_entered [] (sights seen.now)) }
{
    let mut locals = Locals::new(alloc);
    for one in seen {
        add_entered(&mut locals, one)?;
    }
    Ok(locals)
}

/// Puts what a text names in a set, where it is not bound.
pub fn add_each_free(locals: &mut Locals, bound: &Locals, seen: &[Seen<'_>]) -> Result<(), NoMemory>
    ensures { OnOk result (locals.new ≡ fold (with_free bound.now) locals.old (sights seen.now)) }
{
    for one in seen {
        add_free(locals, bound, one)?;
    }
    Ok(())
}

/// Puts the locals that a text names and binds nowhere in a set.
pub fn add_all_free(alloc: Global, locals: &mut Locals, seen: &[Seen<'_>]) -> Result<(), NoMemory>
    ensures { OnOk result (locals.new ≡ with_all_free locals.old (sights seen.now)) }
{
    let bound = bound_in(alloc, seen)?;
    add_each_free(locals, &bound, seen)
}
