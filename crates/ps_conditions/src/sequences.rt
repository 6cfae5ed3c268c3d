//! Constants, and forms one behind another.

ghost use Rattle.ps_conditions.specs.Conditions.{begins as begins_spec, fixed as fixed_spec, sequence as sequence_spec};
ghost use Rattle.ps_expansion.specs.Does.{Does_by, task_of};
ghost use Rattle.ps_plans.specs.Seen.{seen_plan};

use ps_base::Place;
use ps_expansion::{Expansion, Level, Stop, Task};
use ps_kernel::Constant;
use ps_pattern::Syntax;
use ps_plans::{Node, Part, Plan, staged, staged_row};

/// A constant.
///
/// # Errors
///
/// `TooDeep` where no level is left, and `CoreSpent` where its node is one more than are allowed.
pub fn fixed<'a>(
    state: &mut Expansion,
    task: &Task,
    level: Level,
    at: Place,
    value: Constant,
) -> Result<Plan<'a>, Stop>
    ensures { Does_by seen_plan result (fixed_spec (task_of task.now) level at value) state.old state.new }
{
    Ok(Plan::Done(state.constant(task, level, at, value)?))
}

/// Forms one behind another, as a node.
///
/// # Errors
///
/// `TooDeep` where no level is left, and `CoreSpent` where its node is one more than are allowed. `NoMemory` where memory ran out.
pub fn begins<'a>(
    state: &mut Expansion,
    task: &Task,
    level: Level,
    at: Place,
    forms: &'a [Syntax],
) -> Result<Plan<'a>, Stop>
    ensures { Does_by seen_plan result (begins_spec (task_of task.now) level at forms.now) state.old state.new }
{
    state.node(task, level.left, at)?;
    let parts = staged_row(state.alloc, level, forms)?;
    Ok(Plan::Of(at, Node::Begin(parts)))
}

/// No form, which is a unit, one, or several one behind another.
///
/// # Errors
///
/// Those of `fixed` and of `begins`.
pub fn sequence<'a>(
    state: &mut Expansion,
    task: &Task,
    level: Level,
    at: Place,
    forms: &'a [Syntax],
) -> Result<Plan<'a>, Stop>
    ensures { Does_by seen_plan result (sequence_spec (task_of task.now) level at forms.now) state.old state.new }
{
    match forms {
        [] => fixed(state, task, level, at, Constant::Unit),
        [form] => Ok(Plan::Same(staged(state.alloc, level, Part::One(form))?)),
        [_, _, ..] => begins(state, task, level, at, forms),
    }
}
