//! What is applied (R5RS 4.1.3).

ghost use Rattle.ps_calls.specs.Applied.{applied_form as applied_form_spec, applied_lambda as applied_lambda_spec, applied_name as applied_name_spec};
ghost use Rattle.ps_expansion.specs.Does.{Does_by, task_of};
ghost use Rattle.ps_plans.specs.Seen.{seen_operands, seen_plan};

use crate::call::calls;
use crate::lets::lets;
use crate::primitive::performed;
use ps_base::{Core, FormKind, Place, Prim};
use ps_derived::Parts;
use ps_expansion::{Expansion, Level, Stop, Task, refused};
use ps_hygiene::Shape;
use ps_pattern::{Binding, Syntax};
use ps_plans::{Operand, Part, Plan};
use std::collections::VecDeque;

/// An operator that is no macro use, and its operands: the name of a primitive performs it, a lambda is a let, and all else is called.
///
/// # Errors
///
/// `Arity` at the place of the form where a primitive or a lambda has operands of another number, `BadForm` at a lambda of a wrong shape,
/// and what `Expansion::node` answers. `NoMemory` where memory or the numbers of locals ran out.
#[tactic(auto, unfolding(crate::specs::Applied::applied_form))]
pub fn applied_form<'a>(
    state: &mut Expansion,
    task: &Task,
    level: Level,
    at: Place,
    operator: &'a Syntax,
    operands: VecDeque<Operand<'a>>,
) -> Result<Plan<'a>, Stop>
    ensures { Does_by seen_plan result (applied_form_spec (task_of task.now) level at state.old.hygiene.here operator.now (seen_operands operands.entry.items)) state.old state.new }
{
    match state.hygiene.shape(operator) {
        Shape::Name(meant) => {
            applied_name(state, task, level, at, operator, operands, meant.binding)
        }
        Shape::Special(Core::Lambda) => applied_lambda(state, task, level, at, operator, operands),
        _ => calls(state, task, level, at, Part::Settled(operator), operands),
    }
}

fn applied_name<'a>(
    state: &mut Expansion,
    task: &Task,
    level: Level,
    at: Place,
    operator: &'a Syntax,
    operands: VecDeque<Operand<'a>>,
    binding: Binding,
) -> Result<Plan<'a>, Stop>
    ensures { Does_by seen_plan result (applied_name_spec (task_of task.now) level at operator.now (seen_operands operands.entry.items) binding) state.old state.new }
{
    match binding {
        Binding::Primitive(Prim::NullAddress) => {
            calls(state, task, level, at, Part::Settled(operator), operands)
        }
        Binding::Primitive(primitive) => performed(state, task, level, at, primitive, operands),
        _ => calls(state, task, level, at, Part::Settled(operator), operands),
    }
}

// A lambda that is applied where it stands.
fn applied_lambda<'a>(
    state: &mut Expansion,
    task: &Task,
    level: Level,
    at: Place,
    operator: &'a Syntax,
    operands: VecDeque<Operand<'a>>,
) -> Result<Plan<'a>, Stop>
    ensures { Does_by seen_plan result (applied_lambda_spec (task_of task.now) level at state.old.hygiene.here operator.now (seen_operands operands.entry.items)) state.old state.new }
{
    match state.parts(task, Core::Lambda, operator)? {
        Parts::Lambda(parameters, body) => {
            if operands.len() == parameters.len() {
                lets(
                    state,
                    task,
                    level,
                    at,
                    parameters,
                    operands,
                    operator.place,
                    body,
                )
            } else {
                Err(refused(FormKind::Arity, at))
            }
        }
        _ => Err(refused(FormKind::BadForm, operator.place)),
    }
}
