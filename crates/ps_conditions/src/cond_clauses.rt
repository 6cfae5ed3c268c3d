//! `cond`.

ghost use Rattle.ps_conditions.specs.Conditions.{arrow_row as arrow_row_spec, cond_clause as cond_clause_spec, conds as conds_spec};
ghost use Rattle.ps_conditions.specs.Conditions.{conds_row as conds_row_spec};
ghost use Rattle.ps_derived.specs.PartsOf as clauses_of;
ghost use Rattle.ps_derived.specs.Seen.{seen_clause};
ghost use Rattle.ps_expansion.specs.Does.{Does_by, task_of};
ghost use Rattle.ps_plans.specs.Parts as parts;
ghost use Rattle.ps_plans.specs.Seen.{seen_operands, seen_plan};
ghost use Rattle.std.specs.Option.{option_copied};
ghost use Rattle.std.specs.Prelude.{IfOk, [], map, ◌∷◌, ◌≡◌};

use crate::conditions::if_of;
use crate::sequences::{begins, fixed, sequence};
use ps_base::Place;
use ps_derived::Clause;
use ps_expansion::{Expansion, Level, Stop, Task};
use ps_kernel::Constant;
use ps_pattern::Syntax;
use ps_plans::{Node, Operand, Part, Piece, Plan, staged};
use std::alloc::{AllocError, Global};
use std::collections::VecDeque;

/// `cond`, whose `else` alone makes the node of the form.
///
/// # Errors
///
/// `TooDeep` where no level is left, and `CoreSpent` where its node is one more than are allowed. `NoMemory` where memory or the numbers of
/// locals ran out.
pub fn conds<'a>(
    state: &mut Expansion,
    task: &Task,
    level: Level,
    at: Place,
    clauses: &'a [Clause<'a>],
    last: Option<&'a [Syntax]>,
) -> Result<Plan<'a>, Stop>
    ensures { Does_by seen_plan result
        (conds_spec (task_of task.now) level at (map seen_clause clauses.now) (option_copied last.entry))
        state.old state.new }
{
    match clauses {
        [] => match last {
            None => fixed(state, task, level, at, Constant::Unit),
            Some(forms) => begins(state, task, level, at, forms),
        },
        [clause, rest @ ..] => cond_clause(state, task, level, at, clause, rest, last),
    }
}

/// The other clauses of `cond`, and the expressions of its `else`.
///
/// # Errors
///
/// As `conds`.
pub fn conds_row<'a>(
    state: &mut Expansion,
    task: &Task,
    level: Level,
    at: Place,
    clauses: &'a [Clause<'a>],
    last: Option<&'a [Syntax]>,
) -> Result<Plan<'a>, Stop>
    ensures { Does_by seen_plan result
        (conds_row_spec (task_of task.now) level at (map seen_clause clauses.now) (option_copied last.entry))
        state.old state.new }
{
    match clauses {
        [] => match last {
            None => fixed(state, task, level, at, Constant::Unit),
            Some(forms) => sequence(state, task, level, at, forms),
        },
        [clause, rest @ ..] => cond_clause(state, task, level, at, clause, rest, last),
    }
}

/// A test whose value a local has, what is applied to that, and the other clauses.
///
/// # Errors
///
/// As `conds`.
pub fn arrow_row<'a>(
    state: &mut Expansion,
    task: &Task,
    level: Level,
    at: Place,
    local: u32,
    operator: &'a Syntax,
    clauses: &'a [Clause<'a>],
    last: Option<&'a [Syntax]>,
) -> Result<Plan<'a>, Stop>
    ensures { Does_by seen_plan result
        (arrow_row_spec (task_of task.now) level at local operator.now (map seen_clause clauses.now) (option_copied last.entry))
        state.old state.new }
{
    let operands = only_held(state.alloc, at, local)?;
    if_of(
        state,
        task,
        level,
        at,
        Part::Row(Piece::Mention(at, local)),
        Part::Applied(at, operator, operands),
        Part::Row(Piece::Conds(at, clauses, last)),
    )
}

/// A clause of `cond`, and those behind it.
fn cond_clause<'a>(
    state: &mut Expansion,
    task: &Task,
    level: Level,
    at: Place,
    clause: &'a Clause<'a>,
    clauses: &'a [Clause<'a>],
    last: Option<&'a [Syntax]>,
) -> Result<Plan<'a>, Stop>
    ensures { Does_by seen_plan result
        (cond_clause_spec (task_of task.now) level at (seen_clause clause.now) (map seen_clause clauses.now) (option_copied last.entry))
        state.old state.new }
{
    match *clause {
        Clause::Alone(test) => if_of(
            state,
            task,
            level,
            at,
            Part::One(test),
            Part::Row(Piece::Fixed(at, Constant::Boolean(true))),
            Part::Row(Piece::Conds(at, clauses, last)),
        ),
        Clause::Then(test, body) => if_of(
            state,
            task,
            level,
            at,
            Part::One(test),
            Part::Row(Piece::Sequence(at, body)),
            Part::Row(Piece::Conds(at, clauses, last)),
        ),
        Clause::Arrow(test, operator) => arrow(
            state, task, level, at, test, operator, clauses, last,
        ),
    }
}

/// A clause whose test has a local, and those behind it.
fn arrow<'a>(
    state: &mut Expansion,
    task: &Task,
    level: Level,
    at: Place,
    test: &'a Syntax,
    operator: &'a Syntax,
    clauses: &'a [Clause<'a>],
    last: Option<&'a [Syntax]>,
) -> Result<Plan<'a>, Stop>
    ensures { Does_by seen_plan result
        (cond_clause_spec (task_of task.now) level at (clauses_of.Arrow test.now operator.now)
        (map seen_clause clauses.now) (option_copied last.entry))
        state.old state.new }
{
    state.node(task, level.left, at)?;
    let local = state.next_local()?;
    let value = staged(state.alloc, level.down(), Part::One(test))?;
    let rest = staged(
        state.alloc,
        level.passed(),
        Part::Row(Piece::Arrow(at, local, operator, clauses, last)),
    )?;
    Ok(Plan::Of(at, Node::Let(local, value, rest)))
}

/// A local as the only operand.
fn only_held<'a>(alloc: Global, at: Place, local: u32) -> Result<VecDeque<Operand<'a>>, AllocError>
    ensures { IfOk result (λ ps. seen_operands ps.items ≡ parts.Held at local ∷ []) }
{
    let mut all = Vec::new(alloc);
    all.push(Operand::Held(at, local))?;
    Ok(VecDeque::from_vec(all))
}
