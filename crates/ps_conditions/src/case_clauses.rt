//! `case`.

ghost use Rattle.ps_conditions.specs.Conditions.{branch_row as branch_row_spec, cases as cases_spec, choice as choice_spec};
ghost use Rattle.ps_conditions.specs.Conditions.{choices as choices_spec, last_of as last_of_spec};
ghost use Rattle.ps_derived.specs.Seen.{seen_case_clause};
ghost use Rattle.ps_expansion.specs.Does.{Does_by, task_of};
ghost use Rattle.ps_plans.specs.Seen.{seen_choice, seen_choices, seen_part, seen_plan};
ghost use Rattle.std.specs.Option.{option_copied};
ghost use Rattle.std.specs.Prelude.{IfOk, map, ◌≡◌};

use ps_base::{Items, Place};
use ps_bodies::{kind_of, tests_counted};
use ps_derived::{CaseClause, Label};
use ps_expansion::{Expansion, Level, Stop, Task};
use ps_kernel::Constant;
use ps_pattern::Syntax;
use ps_plans::{Choice, Node, Part, Piece, Plan, staged};
use std::alloc::{AllocError, Global};
use std::collections::VecDeque;

/// `case`: a node of its own, or a local for the key and an `if` for each clause.
///
/// # Errors
///
/// `TooDeep` where no level is left, and `CoreSpent` where its node is one more than are allowed. `NoMemory` where memory or the numbers of
/// locals ran out.
pub fn cases<'a>(
    state: &mut Expansion,
    task: &Task,
    level: Level,
    at: Place,
    key: &'a Syntax,
    clauses: &'a [CaseClause<'a>],
    last: Option<&'a [Syntax]>,
) -> Result<Plan<'a>, Stop>
    ensures { Does_by seen_plan result
        (cases_spec (task_of task.now) level at key.now (map seen_case_clause clauses.now) (option_copied last.entry))
        state.old state.new }
{
    state.node(task, level.left, at)?;
    let behind = level.passed().lowered(clauses.len());
    let value = staged(state.alloc, level.down(), Part::One(key))?;
    let branches = choices(state.alloc, level.passed(), at, clauses)?;
    let other = staged(state.alloc, behind, last_of(at, last))?;
    match kind_of(state.alloc, clauses)? {
        Some(kind) => Ok(Plan::Of(at, Node::Case(kind, value, branches, other))),
        None => {
            let local = state.next_local()?;
            Ok(Plan::Of(at, Node::Ifs(local, value, branches, other)))
        }
    }
}

/// A clause of `case`: the nodes of its `if` and of its tests, and then its body.
///
/// # Errors
///
/// `TooDeep` at the first node for which no level is left, and `CoreSpent` where it is one more than are allowed. `NoMemory` where memory
/// ran out.
pub fn branch_row<'a>(
    state: &mut Expansion,
    task: &Task,
    level: Level,
    at: Place,
    labels: &'a [Label],
    body: &'a [Syntax],
) -> Result<Plan<'a>, Stop>
    ensures { Does_by seen_plan result (branch_row_spec (task_of task.now) level at labels.now body.now) state.old state.new }
{
    state.node(task, level.left, at)?;
    tests_counted(state, task, level.left.saturating_sub(1), at, labels)?;
    let part = Part::Row(Piece::Sequence(at, body));
    Ok(Plan::Same(staged(state.alloc, level.passed(), part)?))
}

/// The clauses one behind another.
fn choices<'a>(
    alloc: Global,
    level: Level,
    at: Place,
    clauses: &'a [CaseClause<'a>],
) -> Result<VecDeque<Choice<'a>>, AllocError>
    ensures { IfOk result (λ xs. seen_choices xs.items ≡ choices_spec level at (map seen_case_clause clauses.now)) }
{
    let mut level = level;
    let mut all = Vec::new(alloc);
    for clause in clauses {
        all.push(choice(alloc, level, at, clause)?)?;
        level = level.passed();
    }
    Ok(VecDeque::from_vec(all))
}

/// A clause: its data, and what it gives.
fn choice<'a>(
    alloc: Global,
    level: Level,
    at: Place,
    clause: &'a CaseClause<'a>,
) -> Result<Choice<'a>, AllocError>
    ensures { IfOk result (λ x. seen_choice x ≡ choice_spec level at (seen_case_clause clause.now)) }
{
    let labels = Items::from_slice(alloc, clause.labels.as_slice())?;
    let part = Part::Row(Piece::Branch(at, clause.labels.as_slice(), clause.body));
    let body = staged(alloc, level, part)?;
    Ok(Choice { labels, body })
}

/// The expressions of `else`, or a unit where there is none.
fn last_of<'a>(at: Place, last: Option<&'a [Syntax]>) -> Part<'a>
    ensures { seen_part result ≡ last_of_spec at (option_copied last.entry) }
{
    match last {
        None => Part::Row(Piece::Fixed(at, Constant::Unit)),
        Some(forms) => Part::Row(Piece::Sequence(at, forms)),
    }
}
