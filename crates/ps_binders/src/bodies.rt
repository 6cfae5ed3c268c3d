//! Bodies (R5RS 5.2.2): definitions are a letrec, in which the expressions stand.

ghost use Rattle.ps_binders.specs.Binders.{bare as bare_spec, begins_with as begins_with_spec, defining as defining_spec, expressions_row as expressions_row_spec, headed as headed_spec};
ghost use Rattle.ps_bodies.specs.InsideBodies.{headed_of};
ghost use Rattle.ps_expansion.specs.Does.{Does_by, task_of};
ghost use Rattle.ps_plans.specs.Seen.{seen_plan};

use crate::letrec::entries;
use ps_base::Place;
use ps_bodies::{Heads, decided_definitions};
use ps_expansion::{Expansion, Level, Stop, Task};
use ps_pattern::Syntax;
use ps_plans::{Node, Part, Piece, Plan, in_row, staged, staged_row};
use std::collections::VecDeque;

/// A body that makes a node, once its head is read and its names are bound.
///
/// # Errors
///
/// The fault of its node where none may be made, then the first fault of the values of its definitions, and `NoMemory` where memory or the
/// numbers of lambdas ran out.
pub fn headed<'a>(
    state: &mut Expansion,
    task: &Task,
    level: Level,
    at: Place,
    heads: &'a Heads<'a>,
    more: &'a [Syntax],
) -> Result<Plan<'a>, Stop>
    ensures { Does_by seen_plan result (headed_spec (task_of task.now) level at (headed_of heads.now more.now state.old.hygiene.here)) state.old state.new }
{
    match heads.definitions.as_slice() {
        [] => begins_with(state, task, level, at, heads.first.form(), more),
        [_, ..] => defining(state, task, level, at, heads, more),
    }
}

/// A body once its head is read and its names are bound, which makes no node where it is a single expression.
///
/// # Errors
///
/// Those of `headed`.
pub fn bare<'a>(
    state: &mut Expansion,
    task: &Task,
    level: Level,
    at: Place,
    heads: &'a Heads<'a>,
    more: &'a [Syntax],
) -> Result<Plan<'a>, Stop>
    ensures { Does_by seen_plan result (bare_spec (task_of task.now) level at (headed_of heads.now more.now state.old.hygiene.here)) state.old state.new }
{
    match heads.definitions.as_slice() {
        [] => expressions_row(state, task, level, at, heads.first.form(), more),
        [_, ..] => defining(state, task, level, at, heads, more),
    }
}

/// What stands behind the definitions of a body, of which the first is no macro use.
///
/// # Errors
///
/// The fault of its node where it makes one and none may be made, and `NoMemory` where memory ran out.
pub fn expressions_row<'a>(
    state: &mut Expansion,
    task: &Task,
    level: Level,
    at: Place,
    first: &'a Syntax,
    more: &'a [Syntax],
) -> Result<Plan<'a>, Stop>
    ensures { Does_by seen_plan result (expressions_row_spec (task_of task.now) level at first.now more.now) state.old state.new }
{
    match more {
        [] => {
            let only = staged(state.alloc, level, Part::Settled(first))?;
            Ok(Plan::Same(only))
        }
        [_, ..] => begins_with(state, task, level, at, first, more),
    }
}

// An expression that is no macro use, and others behind it.
fn begins_with<'a>(
    state: &mut Expansion,
    task: &Task,
    level: Level,
    at: Place,
    first: &'a Syntax,
    more: &'a [Syntax],
) -> Result<Plan<'a>, Stop>
    ensures { Does_by seen_plan result (begins_with_spec (task_of task.now) level at first.now more.now) state.old state.new }
{
    state.node(task, level.left, at)?;
    let mut parts = staged_row(state.alloc, level, more)?;
    let first = staged(state.alloc, in_row(level, more), Part::Settled(first))?;
    parts.push_front(first)?;
    Ok(Plan::Of(at, Node::Begin(parts)))
}

// Definitions, and the expressions behind them.
fn defining<'a>(
    state: &mut Expansion,
    task: &Task,
    level: Level,
    at: Place,
    heads: &'a Heads<'a>,
    more: &'a [Syntax],
) -> Result<Plan<'a>, Stop>
    ensures { Does_by seen_plan result (defining_spec (task_of task.now) level at (headed_of heads.now more.now state.old.hygiene.here)) state.old state.new }
{
    state.node(task, level.left, at)?;
    let members = decided_definitions(state, task, heads.definitions.as_slice())?;
    let group = entries(state.alloc, heads.locals.as_slice(), members.as_slice())?;
    let part = Part::Row(Piece::Expressions(at, heads.first.form(), more));
    let rest = staged(state.alloc, level.passed(), part)?;
    let members = VecDeque::from_vec(members);
    Ok(Plan::Of(at, Node::Group(group, level.inner(), members, rest)))
}
