//! Quoted data.

ghost use Rattle.ps_derived.specs.Seen.{seen_quoted};
ghost use Rattle.ps_expansion.specs.Does.{Does, Does_by, task_of};
ghost use Rattle.ps_plans.specs.Seen.{seen_plan};
ghost use Rattle.ps_rows.specs.Rows.{done as done_spec, first_operand_place as first_operand_spec, quoted_form as quoted_form_spec, quotes as quotes_spec};
ghost use Rattle.std.specs.Prelude.{◌≡◌};

use ps_base::Place;
use ps_derived::{Quoted, quoted};
use ps_expansion::{Expansion, Level, Stop, Task};
use ps_kernel::{Constant, Expr};
use ps_pattern::{Syntax, SyntaxNode, datum_of};
use ps_plans::Plan;

/// A quoted datum (R5RS 4.1.2).
pub(crate) fn quote<'a>(
    state: &mut Expansion,
    task: &Task,
    level: Level,
    at: Place,
    form: &'a Syntax,
) -> Result<Plan<'a>, Stop>
    ensures { Does_by seen_plan result (done_spec (quoted_form_spec (task_of task.now) level at form.now)) state.old state.new }
{
    Ok(Plan::Done(quoted_form(state, task, level, at, form)?))
}

/// The place of the first operand of a form, or of the form where it has none.
#[tactic(auto, unfolding(crate::specs::Rows::first_operand_place))]
pub fn first_operand_place(form: &Syntax) -> Place
    ensures { result ≡ first_operand_spec form.now }
{
    match &form.node {
        SyntaxNode::List(forms) => match forms.as_slice() {
            [_, first, ..] => first.place,
            [] | [_] => form.place,
        },
        SyntaxNode::Ident(_)
        | SyntaxNode::Boolean(_)
        | SyntaxNode::Integer(_)
        | SyntaxNode::Char(_)
        | SyntaxNode::Text(_)
        | SyntaxNode::Dotted(_, _)
        | SyntaxNode::Vector(_) => form.place,
    }
}

fn quoted_form(
    state: &mut Expansion,
    task: &Task,
    level: Level,
    at: Place,
    form: &Syntax,
) -> Result<Expr, Stop>
    ensures { Does result (quoted_form_spec (task_of task.now) level at form.now) state.old state.new }
{
    let found = quoted(form, at)?;
    quotes(state, task, level, at, found)
}

fn quotes(
    state: &mut Expansion,
    task: &Task,
    level: Level,
    at: Place,
    found: Quoted<'_>,
) -> Result<Expr, Stop>
    ensures { Does result (quotes_spec (task_of task.now) level at (seen_quoted found.entry)) state.old state.new }
{
    match found {
        Quoted::Boolean(x) => state.constant(task, level, at, Constant::Boolean(x)),
        Quoted::Integer(n) => state.constant(task, level, at, Constant::Integer(n)),
        Quoted::Char(x) => state.constant(task, level, at, Constant::Char(x)),
        Quoted::Block(x) => {
            let datum = datum_of(state.alloc, x)?;
            state.literal(task, level, at, datum)
        }
    }
}
