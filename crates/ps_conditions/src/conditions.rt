//! `if`, `and` and `or`.

ghost use Rattle.ps_conditions.specs.Conditions.{and_from as and_from_spec, ands as ands_spec, ands_row as ands_row_spec};
ghost use Rattle.ps_conditions.specs.Conditions.{if_of as if_of_spec, ifs as ifs_spec, or_from as or_from_spec, ors as ors_spec};
ghost use Rattle.ps_conditions.specs.Conditions.{ors_row as ors_row_spec, otherwise as otherwise_spec};
ghost use Rattle.ps_expansion.specs.Does.{Does_by, task_of};
ghost use Rattle.ps_plans.specs.Seen.{seen_part, seen_plan};
ghost use Rattle.std.specs.Option.{option_copied};
ghost use Rattle.std.specs.Prelude.{◌≡◌};

use crate::sequences::{begins, fixed};
use ps_base::Place;
use ps_expansion::{Expansion, Level, Stop, Task};
use ps_kernel::Constant;
use ps_pattern::Syntax;
use ps_plans::{Node, Part, Piece, Plan, staged};

/// `if`: its test, and its branches, of which the second is a unit where there is none.
///
/// # Errors
///
/// `TooDeep` where no level is left, and `CoreSpent` where its node is one more than are allowed. `NoMemory` where memory ran out.
pub fn ifs<'a>(
    state: &mut Expansion,
    task: &Task,
    level: Level,
    at: Place,
    test: &'a Syntax,
    yes: &'a Syntax,
    no: Option<&'a Syntax>,
) -> Result<Plan<'a>, Stop>
    ensures { Does_by seen_plan result
        (ifs_spec (task_of task.now) level at test.now yes.now (option_copied no.entry))
        state.old state.new }
{
    if_of(
        state,
        task,
        level,
        at,
        Part::One(test),
        Part::One(yes),
        otherwise(at, no),
    )
}

/// `and`, whose single operand makes the node of the form.
///
/// # Errors
///
/// As `ifs`.
pub fn ands<'a>(
    state: &mut Expansion,
    task: &Task,
    level: Level,
    at: Place,
    forms: &'a [Syntax],
) -> Result<Plan<'a>, Stop>
    ensures { Does_by seen_plan result (ands_spec (task_of task.now) level at forms.now) state.old state.new }
{
    match forms {
        [] => fixed(state, task, level, at, Constant::Boolean(true)),
        [_] => begins(state, task, level, at, forms),
        [first, rest @ ..] => and_from(state, task, level, at, first, rest),
    }
}

/// `or`, whose single operand makes the node of the form.
///
/// # Errors
///
/// As `ifs`.
pub fn ors<'a>(
    state: &mut Expansion,
    task: &Task,
    level: Level,
    at: Place,
    forms: &'a [Syntax],
) -> Result<Plan<'a>, Stop>
    ensures { Does_by seen_plan result (ors_spec (task_of task.now) level at forms.now) state.old state.new }
{
    match forms {
        [] => fixed(state, task, level, at, Constant::Boolean(false)),
        [_] => begins(state, task, level, at, forms),
        [first, rest @ ..] => or_from(state, task, level, at, first, rest),
    }
}

/// The other operands of `and`, of which the last is what it is.
///
/// # Errors
///
/// As `ifs`.
pub fn ands_row<'a>(
    state: &mut Expansion,
    task: &Task,
    level: Level,
    at: Place,
    forms: &'a [Syntax],
) -> Result<Plan<'a>, Stop>
    ensures { Does_by seen_plan result (ands_row_spec (task_of task.now) level at forms.now) state.old state.new }
{
    match forms {
        [] => fixed(state, task, level, at, Constant::Boolean(true)),
        [form] => Ok(Plan::Same(staged(state.alloc, level, Part::One(form))?)),
        [first, rest @ ..] => and_from(state, task, level, at, first, rest),
    }
}

/// The other operands of `or`, of which the last is what it is.
///
/// # Errors
///
/// As `ifs`.
pub fn ors_row<'a>(
    state: &mut Expansion,
    task: &Task,
    level: Level,
    at: Place,
    forms: &'a [Syntax],
) -> Result<Plan<'a>, Stop>
    ensures { Does_by seen_plan result (ors_row_spec (task_of task.now) level at forms.now) state.old state.new }
{
    match forms {
        [] => fixed(state, task, level, at, Constant::Boolean(false)),
        [form] => Ok(Plan::Same(staged(state.alloc, level, Part::One(form))?)),
        [first, rest @ ..] => or_from(state, task, level, at, first, rest),
    }
}

/// A test, and the branches to which tail position is passed.
pub(crate) fn if_of<'a>(
    state: &mut Expansion,
    task: &Task,
    level: Level,
    at: Place,
    test: Part<'a>,
    yes: Part<'a>,
    no: Part<'a>,
) -> Result<Plan<'a>, Stop>
    ensures { Does_by seen_plan result
        (if_of_spec (task_of task.now) level at (seen_part test.entry) (seen_part yes.entry) (seen_part no.entry))
        state.old state.new }
{
    state.node(task, level.left, at)?;
    let test = staged(state.alloc, level.down(), test)?;
    let yes = staged(state.alloc, level.passed(), yes)?;
    let no = staged(state.alloc, level.passed(), no)?;
    Ok(Plan::Of(at, Node::If(test, yes, no)))
}

/// A form, or a unit where there is none.
fn otherwise<'a>(at: Place, form: Option<&'a Syntax>) -> Part<'a>
    ensures { seen_part result ≡ otherwise_spec at (option_copied form.entry) }
{
    match form {
        None => Part::Row(Piece::Fixed(at, Constant::Unit)),
        Some(form) => Part::One(form),
    }
}

/// An operand of `and`, and those behind it.
fn and_from<'a>(
    state: &mut Expansion,
    task: &Task,
    level: Level,
    at: Place,
    first: &'a Syntax,
    rest: &'a [Syntax],
) -> Result<Plan<'a>, Stop>
    ensures { Does_by seen_plan result (and_from_spec (task_of task.now) level at first.now rest.now) state.old state.new }
{
    if_of(
        state,
        task,
        level,
        at,
        Part::One(first),
        Part::Row(Piece::Ands(at, rest)),
        Part::Row(Piece::Fixed(at, Constant::Boolean(false))),
    )
}

/// An operand of `or`, and those behind it.
fn or_from<'a>(
    state: &mut Expansion,
    task: &Task,
    level: Level,
    at: Place,
    first: &'a Syntax,
    rest: &'a [Syntax],
) -> Result<Plan<'a>, Stop>
    ensures { Does_by seen_plan result (or_from_spec (task_of task.now) level at first.now rest.now) state.old state.new }
{
    if_of(
        state,
        task,
        level,
        at,
        Part::One(first),
        Part::Row(Piece::Fixed(at, Constant::Boolean(true))),
        Part::Row(Piece::Ors(at, rest)),
    )
}
