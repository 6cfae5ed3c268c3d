//! What a walk does with one mark, and where the regions of locals begin and end.

ghost use Rattle.std.specs.Prelude.{◌≡◌, [], map, OnOk};
ghost use Rattle.std.specs.List.{fold};
ghost use Rattle.ps_kernel.specs.Marks.{Node, TooDeep, Stands, BindsEntry, Mentions, Sets, Reads, Assigns, Sequence, Replaces, Performs, Chooses};
ghost use Rattle.ps_kernel.specs.InsideSteps.{Passes, Closes, nowhere, opens, opens_parameter, opens_entry, closes_entry, constant_steps};
ghost use Rattle.ps_kernel.specs.InsideWalks.{step, checked};

use crate::expr::{CaseKind, Constant, GroupEntry, Labelled};
use crate::kernel::Kernel;
use crate::validity::branches::may_stand;
use crate::validity::walk::Walk;
use ps_base::{NoMemory, Prim};
use ps_prims::{arity_of, is_there};

// The most nodes that a kernel may have.
const NODES: u64 = 1_000_000;

/// An expression.
#[tactic(auto, unfolding(crate::specs::InsideWalks::step))]
pub fn meet_node(walk: &mut Walk, kernel: &Kernel)
    ensures { walk.new ≡ step kernel.now walk.old (Passes (Node nowhere)) }
{
    if walk.right {
        if walk.nodes < NODES {
            walk.nodes += 1;
        } else {
            walk.right = false;
        }
    }
}

/// An expression below the last level.
#[tactic(auto, unfolding(crate::specs::InsideWalks::step))]
pub fn meet_too_deep(walk: &mut Walk, kernel: &Kernel)
    ensures { walk.new ≡ step kernel.now walk.old (Passes TooDeep) }
{
    walk.right = false;
}

/// A lambda, where it stands.
#[tactic(auto, unfolding(crate::specs::InsideWalks::step))]
pub fn meet_lambda(walk: &mut Walk, kernel: &Kernel, lambda: u32)
    ensures { walk.new ≡ step kernel.now walk.old (Passes (Stands lambda [])) }
{
    if walk.right {
        match walk.stands.get(lambda as usize) {
            Some(false) => walk.stands.set(lambda as usize, true),
            Some(true) => walk.right = false,
            None => walk.right = false,
        }
    }
}

/// The region of a local begins.
#[tactic(auto, unfolding(crate::specs::InsideWalks::step))]
pub fn open(walk: &mut Walk, kernel: &Kernel, local: u32) -> Result<(), NoMemory>
    ensures { OnOk result (walk.new ≡ step kernel.now walk.old (opens local)) }
{
    if walk.right {
        match walk.locals.get(local) {
            Some(_) => walk.right = false,
            None => walk.locals.set(local, true)?,
        }
    }
    Ok(())
}

/// The region of a parameter begins.
#[tactic(auto, unfolding(crate::specs::InsideWalks::step))]
pub fn open_parameter(walk: &mut Walk, kernel: &Kernel, local: u32) -> Result<(), NoMemory>
    ensures { OnOk result (walk.new ≡ step kernel.now walk.old (opens_parameter local)) }
{
    if walk.right {
        match walk.locals.get(local) {
            Some(_) => walk.right = false,
            None => walk.locals.set(local, true)?,
        }
    }
    Ok(())
}

/// The region of a local of a group begins.
#[tactic(auto, unfolding(crate::specs::InsideWalks::step))]
pub fn open_entry(walk: &mut Walk, kernel: &Kernel, entry: GroupEntry) -> Result<(), NoMemory>
    ensures { OnOk result (walk.new ≡ step kernel.now walk.old (opens_entry entry)) }
{
    if walk.right {
        match walk.locals.get(entry.local) {
            Some(_) => walk.right = false,
            None => {
                walk.locals.set(entry.local, true)?;
                walk.entries.push(entry.local)?;
            }
        }
    }
    Ok(())
}

/// The region of a local ends.
#[tactic(auto, unfolding(crate::specs::InsideWalks::step))]
pub fn close(walk: &mut Walk, kernel: &Kernel, local: u32) -> Result<(), NoMemory>
    ensures { OnOk result (walk.new ≡ step kernel.now walk.old (Closes local)) }
{
    if walk.right {
        match walk.locals.get(local) {
            Some(_) => walk.locals.set(local, false)?,
            None => {}
        }
    }
    Ok(())
}

/// A local is mentioned.
#[tactic(auto, unfolding(crate::specs::InsideWalks::step))]
pub fn mention(walk: &mut Walk, kernel: &Kernel, local: u32)
    ensures { walk.new ≡ step kernel.now walk.old (Passes (Mentions local [])) }
{
    if walk.right {
        match walk.locals.get(local) {
            Some(true) => {}
            Some(false) => walk.right = false,
            None => walk.right = false,
        }
    }
}

/// A local is assigned.
#[tactic(auto, unfolding(crate::specs::InsideWalks::step))]
pub fn assign(walk: &mut Walk, kernel: &Kernel, local: u32) -> Result<(), NoMemory>
    ensures { OnOk result (walk.new ≡ step kernel.now walk.old (Passes (Sets local []))) }
{
    if walk.right {
        match walk.locals.get(local) {
            Some(true) => walk.assigned.push(local)?,
            Some(false) => walk.right = false,
            None => walk.right = false,
        }
    }
    Ok(())
}

/// The regions of locals begin.
pub fn open_all(walk: &mut Walk, kernel: &Kernel, locals: &[u32]) -> Result<(), NoMemory>
    ensures { OnOk result (walk.new ≡ fold (step kernel.now) walk.old (map opens_parameter locals.now)) }
{
    for local in locals {
        open_parameter(walk, kernel, *local)?;
    }
    Ok(())
}

/// The regions of locals end.
pub fn close_all(walk: &mut Walk, kernel: &Kernel, locals: &[u32]) -> Result<(), NoMemory>
    ensures { OnOk result (walk.new ≡ fold (step kernel.now) walk.old (map Closes locals.now)) }
{
    for local in locals {
        close(walk, kernel, *local)?;
    }
    Ok(())
}

/// The regions of a group's locals begin.
pub fn open_group(walk: &mut Walk, kernel: &Kernel, group: &[GroupEntry]) -> Result<(), NoMemory>
    ensures { OnOk result (walk.new ≡ fold (step kernel.now) walk.old (map opens_entry group.now)) }
{
    for entry in group {
        open_entry(walk, kernel, *entry)?;
    }
    Ok(())
}

/// The regions of a group's locals end.
pub fn close_group(walk: &mut Walk, kernel: &Kernel, group: &[GroupEntry]) -> Result<(), NoMemory>
    ensures { OnOk result (walk.new ≡ fold (step kernel.now) walk.old (map closes_entry group.now)) }
{
    for entry in group {
        close(walk, kernel, entry.local)?;
    }
    Ok(())
}

// The next mark is right or not.
#[tactic(auto, unfolding(crate::specs::InsideWalks::checked))]
fn check(walk: &mut Walk, right: bool)
    ensures { walk.new ≡ checked right walk.old }
{
    if walk.right {
        walk.right = right;
    }
}

/// A definition is read.
#[tactic(auto, unfolding(crate::specs::InsideWalks::checked, crate::specs::InsideWalks::step))]
pub fn read_global(walk: &mut Walk, kernel: &Kernel, global: u32)
    ensures { walk.new ≡ step kernel.now walk.old (Passes (Reads nowhere global)) }
{
    let right = (global as usize) < kernel.definitions.len();
    check(walk, right)
}

/// A definition is assigned.
#[tactic(auto, unfolding(crate::specs::InsideWalks::checked, crate::specs::InsideWalks::step))]
pub fn assign_global(walk: &mut Walk, kernel: &Kernel, global: u32)
    ensures { walk.new ≡ step kernel.now walk.old (Passes (Assigns nowhere global)) }
{
    let right = (global as usize) < kernel.definitions.len();
    check(walk, right)
}

/// A constant.
#[tactic(auto, unfolding(crate::specs::InsideWalks::checked, crate::specs::InsideWalks::step))]
pub fn quote(walk: &mut Walk, kernel: &Kernel, constant: Constant)
    ensures { walk.new ≡ fold (step kernel.now) walk.old (constant_steps constant) }
{
    match constant {
        Constant::Integer(_) => {}
        Constant::Boolean(_) => {}
        Constant::Char(_) => {}
        Constant::Unit => {}
        Constant::NullAddress => {}
        Constant::Quoted(literal) => {
            let right = (literal as usize) < kernel.literals.len();
            check(walk, right)
        }
    }
}

/// A sequence of so many parts.
#[tactic(auto, unfolding(crate::specs::InsideWalks::checked, crate::specs::InsideWalks::step))]
pub fn begin(walk: &mut Walk, kernel: &Kernel, parts: usize)
    ensures { walk.new ≡ step kernel.now walk.old (Passes (Sequence parts)) }
{
    check(walk, parts > 0)
}

/// A case with these branches.
#[tactic(auto, unfolding(crate::specs::InsideWalks::checked, crate::specs::InsideWalks::step))]
pub fn choose(walk: &mut Walk, kernel: &Kernel, kind: CaseKind, branches: &[Labelled])
    ensures { walk.new ≡ step kernel.now walk.old (Passes (Chooses kind branches.now)) }
{
    check(walk, may_stand(kind, branches))
}

/// A call that takes the place of its procedure, in tail position or not.
#[tactic(auto, unfolding(crate::specs::InsideWalks::checked, crate::specs::InsideWalks::step))]
pub fn replace(walk: &mut Walk, kernel: &Kernel, tail: bool)
    ensures { walk.new ≡ step kernel.now walk.old (Passes (Replaces tail)) }
{
    check(walk, tail)
}

/// A primitive with so many operands.
#[tactic(auto, unfolding(crate::specs::InsideWalks::checked, crate::specs::InsideWalks::step))]
pub fn perform(walk: &mut Walk, kernel: &Kernel, prim: Prim, operands: usize)
    ensures { walk.new ≡ step kernel.now walk.old (Passes (Performs nowhere prim operands)) }
{
    let right = is_there(prim, &kernel.kinds) && operands == arity_of(prim, &kernel.kinds);
    check(walk, right)
}
