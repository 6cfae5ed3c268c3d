//! Local macros (R5RS 4.3.1).

ghost use Rattle.ps_binders.specs.Binders.{let_macros as let_macros_spec, letrec_macros as letrec_macros_spec};
ghost use Rattle.ps_derived.specs.Seen.{seen_macro};
ghost use Rattle.ps_expansion.specs.Does.{Does_by, task_of};
ghost use Rattle.ps_plans.specs.Seen.{seen_plan};
ghost use Rattle.std.specs.Prelude.{map};

use crate::scoped::where_keyed;
use ps_base::Place;
use ps_derived::Macro;
use ps_expansion::{Expansion, Level, Stop, Task};
use ps_pattern::Syntax;
use ps_plans::{Part, Plan};

/// Macros whose rules stand outside, and a body that sees them.
///
/// # Errors
///
/// The first fault of the rules in their order, and `NoMemory` where memory or the numbers of macros ran out.
#[tactic(auto, unfolding(crate::specs::Binders::let_macros))]
pub fn let_macros<'a>(
    state: &mut Expansion,
    task: &Task,
    level: Level,
    at: Place,
    macros: &'a [Macro<'a>],
    body: &'a [Syntax],
) -> Result<Plan<'a>, Stop>
    ensures { Does_by seen_plan result (let_macros_spec (task_of task.now) level at state.old.hygiene.here (map seen_macro macros.now) body.now) state.old state.new }
{
    let first = state.next_macro()?;
    state.add_macros(task, macros)?;
    let rest = where_keyed(state.alloc, level, macros, first, Part::Alone(at, body))?;
    Ok(Plan::Same(rest))
}

/// Macros whose rules see them, and a body that does.
///
/// # Errors
///
/// The first fault of the rules in their order, and `NoMemory` where memory or the numbers of macros ran out.
#[tactic(auto, unfolding(crate::specs::Binders::letrec_macros))]
pub fn letrec_macros<'a>(
    state: &mut Expansion,
    task: &Task,
    level: Level,
    at: Place,
    macros: &'a [Macro<'a>],
    body: &'a [Syntax],
) -> Result<Plan<'a>, Stop>
    ensures { Does_by seen_plan result (letrec_macros_spec (task_of task.now) level at state.old.hygiene.here (map seen_macro macros.now) body.now) state.old state.new }
{
    let first = state.next_macro()?;
    state.bind_macros(macros, first)?;
    state.add_macros(task, macros)?;
    state.hygiene.leave(macros.len());
    let rest = where_keyed(state.alloc, level, macros, first, Part::Alone(at, body))?;
    Ok(Plan::Same(rest))
}
