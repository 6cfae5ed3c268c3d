//! Calls (R5RS 4.1.3).

ghost use Rattle.ps_calls.specs.Calls.{calls as calls_spec, proper_calls as proper_calls_spec, replaces as replaces_spec};
ghost use Rattle.ps_expansion.specs.Does.{Does_by, task_of};
ghost use Rattle.ps_plans.specs.Seen.{seen_operands, seen_part, seen_plan};

use ps_base::{FormKind, Place};
use ps_expansion::{Expansion, Level, Stop, Task, refused};
use ps_pattern::Syntax;
use ps_plans::{Node, Operand, Part, Plan, staged, staged_all, staged_forms};
use std::collections::VecDeque;

/// A call. It is in tail position where its form is; none of its parts is.
pub fn calls<'a>(
    state: &mut Expansion,
    task: &Task,
    level: Level,
    at: Place,
    operator: Part<'a>,
    operands: VecDeque<Operand<'a>>,
) -> Result<Plan<'a>, Stop>
    ensures { Does_by seen_plan result (calls_spec (task_of task.now) level at (seen_part operator.entry) (seen_operands operands.entry.items)) state.old state.new }
{
    state.node(task, level.left, at)?;
    let operator = staged(state.alloc, level.down(), operator)?;
    let operands = staged_all(state.alloc, level.down(), operands)?;
    Ok(Plan::Of(at, Node::Call(level.tail, operator, operands)))
}

/// A call by `goto`, which replaces its procedure.
///
/// # Errors
///
/// `BadForm` at its place where it is not in tail position, and what `Expansion::node` answers. `NoMemory` where memory ran out.
pub fn replaces<'a>(
    state: &mut Expansion,
    task: &Task,
    level: Level,
    at: Place,
    operator: &'a Syntax,
    operands: &'a [Syntax],
) -> Result<Plan<'a>, Stop>
    ensures { Does_by seen_plan result (replaces_spec (task_of task.now) level at operator.now operands.now) state.old state.new }
{
    if level.tail {
        proper_calls(state, task, level, at, operator, operands)
    } else {
        Err(refused(FormKind::BadForm, at))
    }
}

fn proper_calls<'a>(
    state: &mut Expansion,
    task: &Task,
    level: Level,
    at: Place,
    operator: &'a Syntax,
    operands: &'a [Syntax],
) -> Result<Plan<'a>, Stop>
    ensures { Does_by seen_plan result (proper_calls_spec (task_of task.now) level at operator.now operands.now) state.old state.new }
{
    state.node(task, level.left, at)?;
    let operator = staged(state.alloc, level.down(), Part::One(operator))?;
    let operands = staged_forms(state.alloc, level.down(), operands)?;
    Ok(Plan::Of(at, Node::ProperCall(operator, operands)))
}
