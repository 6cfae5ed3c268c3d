//! Named lets and `do` (R5RS 4.2.4): a letrec of one local, and a call of its lambda.

ghost use Rattle.ps_binders.specs.Binders.{again_row as again_row_spec, commands_row as commands_row_spec, dos as dos_spec, loop_at as loop_at_spec, named_lets as named_lets_spec, round_row as round_row_spec};
ghost use Rattle.ps_derived.specs.Seen.{seen_binding, seen_loop_binding};
ghost use Rattle.ps_expansion.specs.Does.{Does_by, task_of};
ghost use Rattle.ps_plans.specs.Seen.{seen_inside, seen_operands, seen_plan, seen_round};
ghost use Rattle.std.specs.Prelude.{IfOk, map, ◌≡◌};

use crate::operands::{given_firsts, given_values, steps};
use crate::scoped::{before, body_inside, where_named};
use ps_base::Place;
use ps_calls::calls;
use ps_derived::{Binding, LoopBinding, loop_variables_of, variables_of};
use ps_expansion::{Expansion, Level, Stop, Task};
use ps_pattern::{Ident, Syntax};
use ps_plans::{Inside, Node, Operand, Part, Piece, Plan, Round, staged, staged_forms};
use std::alloc::{AllocError, Global};
use std::collections::VecDeque;

/// A named let: the body of its lambda sees its name and the names of its bindings, and their values see neither.
///
/// # Errors
///
/// The fault of its node where none may be made, and `NoMemory` where memory or the numbers of lambdas or of locals ran out.
pub fn named_lets<'a>(
    state: &mut Expansion,
    task: &Task,
    level: Level,
    at: Place,
    name: &'a Ident,
    bindings: &'a [Binding<'a>],
    body: &'a [Syntax],
) -> Result<Plan<'a>, Stop>
    ensures { Does_by seen_plan result (named_lets_spec (task_of task.now) level at name.now (map seen_binding bindings.now) body.now) state.old state.new }
{
    state.node(task, level.left, at)?;
    let local = state.next_local()?;
    let number = state.next_lambda(at)?;
    let parameters = state.next_locals(bindings.len())?;
    let variables = variables_of(state.alloc, bindings)?;
    let names = before(state.alloc, name, variables.as_slice())?;
    let locals = before(state.alloc, local, parameters.as_slice())?;
    let body = where_named(
        state.alloc,
        level.inner(),
        names,
        locals,
        Part::Body(at, body),
    )?;
    let inside = Inside {
        number,
        place: at,
        parameters,
        body,
    };
    let firsts = given_values(state.alloc, bindings)?;
    Ok(loop_at(state.alloc, level, at, local, inside, firsts)?)
}

/// A `do`: a round of it is the body of its lambda.
///
/// # Errors
///
/// The fault of its node where none may be made, and `NoMemory` where memory or the numbers of lambdas or of locals ran out.
pub fn dos<'a>(
    state: &mut Expansion,
    task: &Task,
    level: Level,
    at: Place,
    bindings: &'a [LoopBinding<'a>],
    test: &'a Syntax,
    results: &'a [Syntax],
    commands: &'a [Syntax],
) -> Result<Plan<'a>, Stop>
    ensures { Does_by seen_plan result (dos_spec (task_of task.now) level at (map seen_loop_binding bindings.now) test.now results.now commands.now) state.old state.new }
{
    state.node(task, level.left, at)?;
    let local = state.next_local()?;
    let number = state.next_lambda(at)?;
    let locals = state.next_locals(bindings.len())?;
    let nexts = steps(state.alloc, at, bindings, locals.as_slice())?;
    let names = loop_variables_of(state.alloc, bindings)?;
    let round = Round {
        local,
        test,
        results,
        commands,
        nexts,
    };
    let part = Part::Row(Piece::Round(at, round));
    let inside = body_inside(state.alloc, level.inner(), number, at, names, locals, part)?;
    let firsts = given_firsts(state.alloc, bindings)?;
    Ok(loop_at(state.alloc, level, at, local, inside, firsts)?)
}

// A letrec of one local, and the first call of its lambda.
fn loop_at<'a>(
    alloc: Global,
    level: Level,
    at: Place,
    local: u32,
    inside: Inside<'a>,
    firsts: VecDeque<Operand<'a>>,
) -> Result<Plan<'a>, AllocError>
    ensures { IfOk result (λ p. seen_plan p ≡ loop_at_spec level at local (seen_inside inside.entry) (seen_operands firsts.entry.items)) }
{
    let part = Part::Row(Piece::Again(at, local, firsts));
    let rest = staged(alloc, level.passed(), part)?;
    Ok(Plan::Of(at, Node::Loop(local, inside, rest)))
}

/// A round of a `do`: the test, the results, and else the commands and the next round.
///
/// # Errors
///
/// The fault of its node where none may be made, and `NoMemory` where memory ran out.
pub fn round_row<'a>(
    state: &mut Expansion,
    task: &Task,
    level: Level,
    at: Place,
    round: Round<'a>,
) -> Result<Plan<'a>, Stop>
    ensures { Does_by seen_plan result (round_row_spec (task_of task.now) level at (seen_round round.entry)) state.old state.new }
{
    state.node(task, level.left, at)?;
    let Round {
        local,
        test,
        results,
        commands,
        nexts,
    } = round;
    let test = staged(state.alloc, level.down(), Part::One(test))?;
    let yes = Part::Row(Piece::Sequence(at, results));
    let yes = staged(state.alloc, level.passed(), yes)?;
    let no = Part::Row(Piece::Commands(at, commands, local, nexts));
    let no = staged(state.alloc, level.passed(), no)?;
    Ok(Plan::Of(at, Node::If(test, yes, no)))
}

/// The call of the local that is the loop.
///
/// # Errors
///
/// The fault of its node where none may be made, and `NoMemory` where memory ran out.
pub fn again_row<'a>(
    state: &mut Expansion,
    task: &Task,
    level: Level,
    at: Place,
    local: u32,
    nexts: VecDeque<Operand<'a>>,
) -> Result<Plan<'a>, Stop>
    ensures { Does_by seen_plan result (again_row_spec (task_of task.now) level at local (seen_operands nexts.entry.items)) state.old state.new }
{
    let operator = Part::Row(Piece::Mention(at, local));
    calls(state, task, level, at, operator, nexts)
}

/// The commands of a round in order, and then the next round.
///
/// # Errors
///
/// The fault of its node where none may be made, and `NoMemory` where memory ran out.
pub fn commands_row<'a>(
    state: &mut Expansion,
    task: &Task,
    level: Level,
    at: Place,
    forms: &'a [Syntax],
    local: u32,
    nexts: VecDeque<Operand<'a>>,
) -> Result<Plan<'a>, Stop>
    ensures { Does_by seen_plan result (commands_row_spec (task_of task.now) level at forms.now local (seen_operands nexts.entry.items)) state.old state.new }
{
    match forms {
        [] => again_row(state, task, level, at, local, nexts),
        [_, ..] => {
            state.node(task, level.left, at)?;
            let mut parts = staged_forms(state.alloc, level.down(), forms)?;
            let again = Part::Row(Piece::Again(at, local, nexts));
            let again = staged(state.alloc, level.passed(), again)?;
            parts.push_back(again)?;
            Ok(Plan::Of(at, Node::Begin(parts)))
        }
    }
}
