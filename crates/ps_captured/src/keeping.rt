//! What the procedures of lambdas keep.

ghost use Rattle.std.specs.Prelude.{◌≡◌, [], IfOk, OnOk, length};
ghost use Rattle.std.specs.List.{fold};
ghost use Rattle.ps_kernel.specs.declared.kernel.Kernel.{Kernel};
ghost use Rattle.ps_kernel.specs.Marks.{locals_of};
ghost use Rattle.ps_captured.specs.InsideTables.{with_local};
ghost use Rattle.ps_captured.specs.InsideKeeping.{AreCaptured, IsKept, all_named as all, named_at, with_each, with_member};

use crate::chase::reached;
use crate::free::add_other;
use crate::locals::Locals;
use crate::named::{Named, all_named};
use crate::places::Places;
use crate::reading::text_of_forms;
use ps_base::{Items, NoMemory};
use ps_kernel::{GroupEntry, Kernel, Numbers};
use std::alloc::Global;

/// What the procedure of each lambda keeps.
pub fn all_kept(alloc: Global, kernel: &Kernel) -> Result<Items<Numbers>, NoMemory>
    ensures captured { IfOk result (λ lists. AreCaptured kernel.now lists) }
    ensures each { IfOk result (λ lists. length lists ≡ length kernel.now.lambdas) }
{
    let lambdas = kernel.lambdas.as_slice();
    let seen = text_of_forms(alloc, lambdas, kernel.forms.as_slice())?;
    let places = Places::new(alloc, seen.as_slice())?;
    let named = all_named(alloc, lambdas)?;
    let mut lists = Items::new(alloc);
    for lambda in 0..lambdas.len() {
        let list = kept(alloc, named.as_slice(), places.at(lambda), lambda)?;
        lists.push(list)?;
    }
    Ok(lists)
}

// What the procedure of a lambda keeps, which stands in this group or in none.
fn kept(
    alloc: Global,
    named: &[Named],
    group: &[GroupEntry],
    lambda: usize,
) -> Result<Numbers, NoMemory>
    ensures { IfOk result (λ list. (k : Kernel) → named.now ≡ all k.lambdas → IsKept k group.now lambda list) }
{
    let order = reached(alloc, named, group, lambda)?;
    let own = own_of(alloc, group)?;
    let mut locals = Locals::new(alloc);
    add_members(&mut locals, &own, named, order.as_slice())?;
    let list = locals.numbers(alloc)?;
    Ok(list)
}

// Puts the free locals of lambdas in a set where the group does not have them.
fn add_members(
    locals: &mut Locals,
    own: &Locals,
    named: &[Named],
    order: &[usize],
) -> Result<(), NoMemory>
    ensures { OnOk result (locals.new ≡ fold (with_member own.now named.now) locals.old order.now) }
{
    for member in order {
        add_member(locals, own, named, *member)?;
    }
    Ok(())
}

// The locals of a group.
fn own_of(alloc: Global, group: &[GroupEntry]) -> Result<Locals, NoMemory>
    ensures { IfOk result (λ own. own ≡ fold with_local [] (locals_of group.now)) }
{
    let mut own = Locals::new(alloc);
    for entry in group {
        own.insert(entry.local)?;
    }
    Ok(own)
}

// Puts the free locals of a lambda in a set where the group does not have them.
fn add_member(
    locals: &mut Locals,
    own: &Locals,
    named: &[Named],
    lambda: usize,
) -> Result<(), NoMemory>
    ensures { OnOk result (locals.new ≡ with_member own.now named.now locals.old lambda) }
{
    match named.get(lambda) {
        Some(one) => add_others(locals, own, one.free.as_slice()),
        None => Ok(()),
    }
}

// Puts locals in a set where another set does not have them.
fn add_others(locals: &mut Locals, own: &Locals, more: &[u32]) -> Result<(), NoMemory>
    ensures { OnOk result (locals.new ≡ with_each own.now locals.old more.now) }
{
    for local in more {
        add_other(locals, own, *local)?;
    }
    Ok(())
}
