//! Values of bindings as operands.

ghost use Rattle.ps_binders.specs.Binders.{firsts as firsts_spec, step_of as step_of_spec, steps as steps_spec};
ghost use Rattle.ps_calls.specs.Applied.{values_in};
ghost use Rattle.ps_derived.specs.Seen.{seen_binding, seen_loop_binding};
ghost use Rattle.ps_plans.specs.Parts.{givens};
ghost use Rattle.ps_plans.specs.Seen.{seen_operand, seen_operands};
ghost use Rattle.std.specs.Option.{option_copied};
ghost use Rattle.std.specs.Prelude.{IfOk, map, ◌≡◌};

use ps_base::Place;
use ps_derived::{Binding, LoopBinding};
use ps_pattern::Syntax;
use ps_plans::Operand;
use std::alloc::{AllocError, Global};
use std::collections::VecDeque;

/// The values of bindings.
pub(crate) fn values_of<'a>(
    alloc: Global,
    bindings: &[Binding<'a>],
) -> Result<Vec<&'a Syntax>, AllocError>
    ensures { IfOk result (λ fs. map (λ f. f.now) fs.items ≡ values_in (map seen_binding bindings.now)) }
{
    let mut values = Vec::new(alloc);
    for binding in bindings {
        values.push(binding.value)?;
    }
    Ok(values)
}

/// The values of bindings as operands.
pub(crate) fn given_values<'a>(
    alloc: Global,
    bindings: &[Binding<'a>],
) -> Result<VecDeque<Operand<'a>>, AllocError>
    ensures { IfOk result (λ ps. seen_operands ps.items ≡ givens (values_in (map seen_binding bindings.now))) }
{
    let mut operands = Vec::new(alloc);
    for binding in bindings {
        operands.push(Operand::Given(binding.value))?;
    }
    Ok(VecDeque::from_vec(operands))
}

/// The first values of a loop as operands.
pub(crate) fn given_firsts<'a>(
    alloc: Global,
    bindings: &[LoopBinding<'a>],
) -> Result<VecDeque<Operand<'a>>, AllocError>
    ensures { IfOk result (λ ps. seen_operands ps.items ≡ givens (firsts_spec (map seen_loop_binding bindings.now))) }
{
    let mut operands = Vec::new(alloc);
    for binding in bindings {
        operands.push(Operand::Given(binding.first))?;
    }
    Ok(VecDeque::from_vec(operands))
}

/// What the next round of a loop begins with, whose variables have these locals.
pub(crate) fn steps<'a>(
    alloc: Global,
    at: Place,
    bindings: &[LoopBinding<'a>],
    locals: &[u32],
) -> Result<VecDeque<Operand<'a>>, AllocError>
    ensures { IfOk result (λ ps. seen_operands ps.items ≡ steps_spec at (map seen_loop_binding bindings.now) locals.now) }
{
    let mut operands = Vec::new(alloc);
    for (i, binding) in bindings.iter().enumerate() {
        if i < locals.len() {
            operands.push(step_of(at, locals[i], binding.step))?;
        }
    }
    Ok(VecDeque::from_vec(operands))
}

// A variable without a step stays.
fn step_of<'a>(at: Place, local: u32, step: Option<&'a Syntax>) -> Operand<'a>
    ensures { seen_operand result ≡ step_of_spec at local (option_copied step.entry) }
{
    match step {
        None => Operand::Held(at, local),
        Some(form) => Operand::Given(form),
    }
}
