//! Primitives with operands (R5RS 6).

ghost use Rattle.ps_calls.specs.Calls.{by_row as by_row_spec, difference_of as difference_spec, negates as negates_spec, nodes_down as nodes_down_spec, performed as performed_spec, performs as performs_spec, sum_of as sum_spec, sums as sums_spec};
ghost use Rattle.ps_expansion.specs.Does.{Does, Does_by, task_of};
ghost use Rattle.ps_plans.specs.Seen.{seen_operand, seen_operands, seen_plan};

use ps_base::{FormKind, Place, Prim};
use ps_expansion::{Expansion, Level, Stop, Task, refused};
use ps_kernel::Constant;
use ps_plans::{Node, Operand, Part, Piece, Plan, part_of, staged, staged_all, staged_sum};
use ps_prims::arity_of;
use std::collections::VecDeque;

/// A primitive and its operands. `+`, `*` and `-` take two or more, which are grouped to the left, and `-` also one, which is taken from 0.
///
/// # Errors
///
/// `Arity` at the place where a primitive has operands of another number, and what `Expansion::node` answers. `NoMemory` where memory
/// ran out.
pub fn performed<'a>(
    state: &mut Expansion,
    task: &Task,
    level: Level,
    at: Place,
    primitive: Prim,
    operands: VecDeque<Operand<'a>>,
) -> Result<Plan<'a>, Stop>
    ensures { Does_by seen_plan result (performed_spec (task_of task.now) level at primitive (seen_operands operands.entry.items)) state.old state.new }
{
    match primitive {
        Prim::Add => sum_of(state, task, level, at, Prim::Add, operands),
        Prim::Multiply => sum_of(state, task, level, at, Prim::Multiply, operands),
        Prim::Subtract => difference_of(state, task, level, at, operands),
        _ => by_row(state, task, level, at, primitive, operands),
    }
}

// A primitive with as many operands as its row has.
fn by_row<'a>(
    state: &mut Expansion,
    task: &Task,
    level: Level,
    at: Place,
    primitive: Prim,
    operands: VecDeque<Operand<'a>>,
) -> Result<Plan<'a>, Stop>
    ensures { Does_by seen_plan result (by_row_spec (task_of task.now) level at primitive (seen_operands operands.entry.items)) state.old state.new }
{
    if operands.len() == arity_of(primitive, &state.kinds) {
        performs(state, task, level, at, primitive, operands)
    } else {
        Err(refused(FormKind::Arity, at))
    }
}

fn performs<'a>(
    state: &mut Expansion,
    task: &Task,
    level: Level,
    at: Place,
    primitive: Prim,
    operands: VecDeque<Operand<'a>>,
) -> Result<Plan<'a>, Stop>
    ensures { Does_by seen_plan result (performs_spec (task_of task.now) level at primitive (seen_operands operands.entry.items)) state.old state.new }
{
    state.node(task, level.left, at)?;
    let operands = staged_all(state.alloc, level.down(), operands)?;
    Ok(Plan::Of(at, Node::Primitive(primitive, operands)))
}

// Two operands or more.
fn sum_of<'a>(
    state: &mut Expansion,
    task: &Task,
    level: Level,
    at: Place,
    primitive: Prim,
    operands: VecDeque<Operand<'a>>,
) -> Result<Plan<'a>, Stop>
    ensures { Does_by seen_plan result (sum_spec (task_of task.now) level at primitive (seen_operands operands.entry.items)) state.old state.new }
{
    let mut rest = operands;
    match rest.pop_front() {
        None => Err(refused(FormKind::Arity, at)),
        Some(first) => {
            if rest.is_empty() {
                return Err(refused(FormKind::Arity, at));
            }
            sums(state, task, level, at, primitive, first, rest)
        }
    }
}

// One operand, which is taken from 0, or more.
fn difference_of<'a>(
    state: &mut Expansion,
    task: &Task,
    level: Level,
    at: Place,
    operands: VecDeque<Operand<'a>>,
) -> Result<Plan<'a>, Stop>
    ensures { Does_by seen_plan result (difference_spec (task_of task.now) level at (seen_operands operands.entry.items)) state.old state.new }
{
    let mut rest = operands;
    match rest.pop_front() {
        None => Err(refused(FormKind::Arity, at)),
        Some(first) => {
            if rest.is_empty() {
                return negates(state, task, level, at, first);
            }
            sums(state, task, level, at, Prim::Subtract, first, rest)
        }
    }
}

fn negates<'a>(
    state: &mut Expansion,
    task: &Task,
    level: Level,
    at: Place,
    operand: Operand<'a>,
) -> Result<Plan<'a>, Stop>
    ensures { Does_by seen_plan result (negates_spec (task_of task.now) level at (seen_operand operand.entry)) state.old state.new }
{
    state.node(task, level.left, at)?;
    let zero = Part::Row(Piece::Fixed(at, Constant::Integer(0)));
    let mut both = Vec::new(state.alloc);
    both.push(staged(state.alloc, level.down(), zero)?)?;
    both.push(staged(state.alloc, level.down(), part_of(operand))?)?;
    Ok(Plan::Of(
        at,
        Node::Primitive(Prim::Subtract, VecDeque::from_vec(both)),
    ))
}

// Operands that are grouped to the left.
fn sums<'a>(
    state: &mut Expansion,
    task: &Task,
    level: Level,
    at: Place,
    primitive: Prim,
    first: Operand<'a>,
    operands: VecDeque<Operand<'a>>,
) -> Result<Plan<'a>, Stop>
    ensures { Does_by seen_plan result (sums_spec (task_of task.now) level at primitive (seen_operand first.entry) (seen_operands operands.entry.items)) state.old state.new }
{
    let count = operands.len();
    nodes_down(state, task, count, level.left, at)?;
    let first = staged(state.alloc, level.operand_at(count), part_of(first))?;
    let more = staged_sum(state.alloc, level, operands)?;
    Ok(Plan::Of(at, Node::Sum(primitive, first, more)))
}

// So many nodes one in another.
fn nodes_down(
    state: &mut Expansion,
    task: &Task,
    count: usize,
    left: u64,
    at: Place,
) -> Result<(), Stop>
    ensures { Does result (nodes_down_spec (task_of task.now) count left at) state.old state.new }
{
    let mut lower = left;
    'nodes: for _ in 0..count {
        state.node(task, lower, at)?;
        lower = lower.saturating_sub(1);
    }
    Ok(())
}
