//! Procedures, and the locals of a body that is entered.

ghost use Rattle.std.specs.Prelude.{◌≡◌, ◌++◌, IfOk};
ghost use Rattle.ps_kernel.specs.Scoped.{captured_of};
ghost use Rattle.ps_meaning.specs.Values.{pairs_of};
ghost use Rattle.ps_meaning.specs.Eval.{closure, entered, group_pairs};
ghost use Rattle.ps_evaluator.specs.InsideLists.{closed};

use crate::texts::mentioned;
use crate::values::{copied, kept_of, with_all_bound, with_bound};
use ps_base::{Items, NoMemory};
use ps_kernel::{GroupEntry, Kernel, Lambda, Numbers};
use ps_meaning::{Binding, Bindings, RunValue};
use std::alloc::Global;

// The locals that the procedure of a lambda keeps.
fn captured_of(alloc: Global, kernel: &Kernel, lambda: u32) -> Result<Numbers, NoMemory>
    ensures { IfOk result (λ r. r ≡ captured_of kernel.now lambda) }
{
    match kernel.lambdas.get(lambda as usize) {
        None => Ok(Items::new(alloc)),
        Some(m) => Ok(Items::from_slice(alloc, m.captured.as_slice())?),
    }
}

/// The procedure of a lambda that stands where locals have these values.
pub fn closure_of(
    alloc: Global,
    kernel: &Kernel,
    lambda: u32,
    env: &[Binding],
) -> Result<RunValue, NoMemory>
    ensures { IfOk result (λ r. r ≡ closure kernel.now lambda (pairs_of env.now)) }
{
    let captured = captured_of(alloc, kernel, lambda)?;
    let kept = kept_of(alloc, captured.as_slice(), env)?;
    Ok(RunValue::Procedure(lambda, kept))
}

/// The locals of a group are bound to the procedures of their lambdas, which keep what is known outside.
pub fn with_group_bound(
    alloc: Global,
    kernel: &Kernel,
    outside: &[Binding],
    group: &[GroupEntry],
    env: Bindings,
) -> Result<Bindings, NoMemory>
    ensures { IfOk result (λ r. pairs_of r ≡ group_pairs kernel.now group.now (pairs_of outside.now) ++ pairs_of env) }
{
    match group {
        [] => Ok(env),
        [entry, more @ ..] => {
            let procedure = closure_of(alloc, kernel, entry.lambda, outside)?;
            let rest = with_group_bound(alloc, kernel, outside, more, env)?;
            with_bound(alloc, entry.local, procedure, rest)
        }
    }
}

/// The locals of the body of a lambda, whose procedure keeps these values and is called with these operands.
pub fn entered(
    alloc: Global,
    kernel: &Kernel,
    lambda: u32,
    m: &Lambda,
    kept: &[Binding],
    operands: &[RunValue],
) -> Result<Bindings, NoMemory>
    ensures { IfOk result (λ r. pairs_of r ≡ entered kernel.now (closed lambda kept.now) m.now operands.now) }
{
    let group = mentioned(alloc, kernel, lambda)?;
    let own = copied(alloc, kept)?;
    let env = with_group_bound(alloc, kernel, kept, group.as_slice(), own)?;
    with_all_bound(alloc, m.parameters.as_slice(), operands, env)
}
