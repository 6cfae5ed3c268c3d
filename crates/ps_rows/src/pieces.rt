//! Parts with rows of their own.

ghost use Rattle.ps_expansion.specs.Does.{Does_by, task_of};
ghost use Rattle.ps_expansion.specs.Names.{local as local_spec};
ghost use Rattle.ps_plans.specs.Seen.{seen_piece, seen_plan};
ghost use Rattle.ps_rows.specs.Rows.{done as done_spec, piece as piece_spec};

use ps_base::Place;
use ps_binders::{again_row, commands_row, expressions_row, lambdas, round_row, values_row};
use ps_calls::{lets_row, stars_row};
use ps_conditions::{ands_row, arrow_row, branch_row, conds_row, fixed, ors_row, sequence};
use ps_expansion::{Expansion, Level, Stop, Task};
use ps_plans::{Piece, Plan};

/// A part with a row of its own.
///
/// # Errors
///
/// The faults of its row.
pub fn piece<'a>(
    state: &mut Expansion,
    task: &Task,
    level: Level,
    piece: Piece<'a>,
) -> Result<Plan<'a>, Stop>
    ensures { Does_by seen_plan result (piece_spec (task_of task.now) level state.old.hygiene.here (seen_piece piece.entry)) state.old state.new }
{
    match piece {
        Piece::Mention(at, local) => mention(state, task, level, at, local),
        Piece::Fixed(at, value) => fixed(state, task, level, at, value),
        Piece::Expressions(at, first, more) => expressions_row(state, task, level, at, first, more),
        Piece::Sequence(at, forms) => sequence(state, task, level, at, forms),
        Piece::Ands(at, forms) => ands_row(state, task, level, at, forms),
        Piece::Ors(at, forms) => ors_row(state, task, level, at, forms),
        Piece::Conds(at, clauses, last) => conds_row(state, task, level, at, clauses, last),
        Piece::Arrow(at, local, operator, clauses, last) => {
            arrow_row(state, task, level, at, local, operator, clauses, last)
        }
        Piece::Branch(at, labels, body) => branch_row(state, task, level, at, labels, body),
        Piece::Lambda(at, names, body) => lambdas(state, task, level, at, names, body),
        Piece::Lets(at, lets) => lets_row(state, task, level, at, lets),
        Piece::Stars(at, bindings, body) => stars_row(state, task, level, at, bindings, body),
        Piece::Values(at, bindings, locals, body) => {
            values_row(state, task, level, at, bindings, locals, body)
        }
        Piece::Round(at, round) => round_row(state, task, level, at, round),
        Piece::Commands(at, forms, local, nexts) => {
            commands_row(state, task, level, at, forms, local, nexts)
        }
        Piece::Again(at, local, nexts) => again_row(state, task, level, at, local, nexts),
    }
}

// A mention of a local.
fn mention<'a>(
    state: &mut Expansion,
    task: &Task,
    level: Level,
    at: Place,
    local: u32,
) -> Result<Plan<'a>, Stop>
    ensures { Does_by seen_plan result (done_spec (local_spec task.now.limits.now level at local)) state.old state.new }
{
    Ok(Plan::Done(state.local(task, level, at, local)?))
}
