//! The text of a kernel.

ghost use Rattle.std.specs.Prelude.{◌≡◌, ◌↔◌, ◌&&◌, [], true, false, IfOk, OnOk, length};
ghost use Rattle.std.specs.List.{fold, list_all};
ghost use Rattle.std.proofs.Math.ListN.{replicate};
ghost use Rattle.ps_kernel.specs.Rules.{CapturedStay, IsRightText, defined};
ghost use Rattle.ps_kernel.specs.Texts.{text};
ghost use Rattle.ps_kernel.specs.InsideSteps.{form_steps};
ghost use Rattle.ps_kernel.specs.InsideWalks.{has_none, keeps_none, put, starts, step};

use crate::kernel::{Form, Kernel, Lambda, Numbers};
use crate::validity::DEPTH;
use crate::validity::locals::Locals;
use crate::validity::once::{all_set, unset};
use crate::validity::walk::{Walk, walk_expr};
use ps_base::NoMemory;
use std::alloc::Global;

// A walk that has met nothing.
fn start(alloc: Global, kernel: &Kernel) -> Result<Walk, NoMemory>
    ensures { IfOk result (λ walk. walk ≡ starts (length kernel.now.lambdas)) }
{
    Ok(Walk {
        right: true,
        nodes: 0,
        stands: unset(alloc, kernel.lambdas.len())?,
        locals: Locals::new(alloc),
        assigned: Numbers::new(alloc),
        entries: Numbers::new(alloc),
    })
}

// Forms in order, of which each is read to so many levels.
fn walk_forms(walk: &mut Walk, kernel: &Kernel, forms: &[Form], levels: u32) -> Result<(), NoMemory>
    ensures { OnOk result (walk.new ≡ fold (step kernel.now) walk.old (form_steps kernel.now levels forms.now)) }
{
    for form in forms {
        match form {
            Form::Define(_, e) => walk_expr(walk, kernel, e, false, levels)?,
            Form::Do(e) => walk_expr(walk, kernel, e, false, levels)?,
        }
    }
    Ok(())
}

// A table of numbers.
fn table_of(alloc: Global, numbers: &[u32]) -> Result<Locals, NoMemory>
    ensures { IfOk result (λ table. table ≡ fold put [] numbers.now) }
{
    let mut table = Locals::new(alloc);
    for number in numbers {
        table.set(*number, true)?;
    }
    Ok(table)
}

// Whether a table has none of these numbers.
fn none_in(table: &Locals, numbers: &[u32]) -> bool
    ensures { result ≡ has_none table.now numbers.now }
{
    for number in numbers {
        match table.get(*number) {
            Some(_) => return false,
            None => {}
        }
    }
    true
}

// Whether a table has none of the locals that procedures keep.
fn none_kept(table: &Locals, lambdas: &[Lambda]) -> bool
    ensures { result ≡ keeps_none table.now lambdas.now }
{
    for lambda in lambdas {
        if !none_in(table, lambda.captured.as_slice()) {
            return false;
        }
    }
    true
}

// What is left to be right where a walk has met all marks.
fn rest_is_right(walk: &Walk, kernel: &Kernel, table: &Locals) -> bool
    ensures { result ≡ (list_all (λ b. b) walk.now.stands && (has_none table.now walk.now.entries && keeps_none table.now kernel.now.lambdas)) }
{
    if !all_set(walk.stands.as_slice()) {
        return false;
    }
    if !none_in(table, walk.entries.as_slice()) {
        return false;
    }
    none_kept(table, kernel.lambdas.as_slice())
}

#[tactic(auto, using(crate::proofs::WalkTellsRules::stopped_text, crate::proofs::WalkTellsRules::whole_text))]
/// Whether the text of a kernel keeps the rules.
pub fn is_right(alloc: Global, kernel: &Kernel) -> Result<bool, NoMemory>
    ensures { IfOk result (λ right. (right ≡ true) ↔ (IsRightText kernel.now (text kernel.now) × CapturedStay kernel.now)) }
{
    let mut walk = start(alloc, kernel)?;
    walk_forms(&mut walk, kernel, kernel.forms.as_slice(), DEPTH)?;
    if !walk.right {
        return Ok(false);
    }
    let table = table_of(alloc, walk.assigned.as_slice())?;
    Ok(rest_is_right(&walk, kernel, &table))
}

/// The definitions that have forms, in order of the forms.
pub fn defined_in(alloc: Global, forms: &[Form]) -> Result<Numbers, NoMemory>
    ensures { IfOk result (λ numbers. numbers ≡ defined forms.now) }
{
    let mut numbers = Numbers::new(alloc);
    for form in forms {
        match form {
            Form::Define(number, _) => numbers.push(*number)?,
            Form::Do(_) => {}
        }
    }
    Ok(numbers)
}
