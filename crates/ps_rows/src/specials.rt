//! Special forms.

ghost use Rattle.ps_derived.specs.Seen.{seen as seen_parts};
ghost use Rattle.ps_expansion.specs.Does.{Does_by, task_of};
ghost use Rattle.ps_plans.specs.Seen.{seen_plan};
ghost use Rattle.ps_rows.specs.Rows.{special as special_spec};

use crate::quotes::quote;
use ps_base::{FormKind, Items, Place};
use ps_binders::{dos, lambdas, let_macros, letrec_macros, letrecs, named_lets, sets};
use ps_calls::{let_forms, let_stars, replaces};
use ps_conditions::{ands, begins, cases, conds, ifs, ors};
use ps_derived::Parts;
use ps_expansion::{Expansion, Level, Stop, Task, refused};
use ps_plans::Plan;

/// The special form at a place, of which the first operand stands at another, by its parts.
///
/// # Errors
///
/// `BadForm` at the form's place for a definition, which stands out of place here, and the faults of its row.
pub fn special<'a>(
    state: &mut Expansion,
    task: &Task,
    level: Level,
    at: Place,
    first_at: Place,
    parts: &'a Parts<'a>,
) -> Result<Plan<'a>, Stop>
    ensures { Does_by seen_plan result (special_spec (task_of task.now) level at first_at state.old.hygiene.here (seen_parts parts.now)) state.old state.new }
{
    match parts {
        Parts::Define(_) | Parts::DefineSyntax(_) | Parts::RecordType(_) => {
            Err(refused(FormKind::BadForm, at))
        }
        Parts::Lambda(names, body) => {
            let names = Items::from_slice(state.alloc, names.as_slice())?;
            lambdas(state, task, level, at, names, body)
        }
        Parts::If(test, yes, no) => ifs(state, task, level, at, test, yes, *no),
        Parts::Let(bindings, body) => let_forms(state, task, level, at, bindings.as_slice(), body),
        Parts::NamedLet(name, bindings, body) => {
            named_lets(state, task, level, at, name, bindings.as_slice(), body)
        }
        Parts::LetStar(bindings, body) => {
            let_stars(state, task, level, at, bindings.as_slice(), body)
        }
        Parts::Letrec(bindings, body) => letrecs(state, task, level, at, bindings.as_slice(), body),
        Parts::Begin(forms) => begins(state, task, level, at, forms),
        Parts::Set(name, value) => sets(state, task, level, at, first_at, name, value),
        Parts::Quote(form) => quote(state, task, level, at, form),
        Parts::Cond(clauses, last) => conds(state, task, level, at, clauses.as_slice(), *last),
        Parts::Case(key, clauses, last) => {
            cases(state, task, level, at, key, clauses.as_slice(), *last)
        }
        Parts::And(forms) => ands(state, task, level, at, forms),
        Parts::Or(forms) => ors(state, task, level, at, forms),
        Parts::Do(bindings, test, results, commands) => dos(
            state,
            task,
            level,
            at,
            bindings.as_slice(),
            test,
            results,
            commands,
        ),
        Parts::Goto(operator, operands) => replaces(state, task, level, at, operator, operands),
        Parts::LetSyntax(macros, body) => {
            let_macros(state, task, level, at, macros.as_slice(), body)
        }
        Parts::LetrecSyntax(macros, body) => {
            letrec_macros(state, task, level, at, macros.as_slice(), body)
        }
    }
}
