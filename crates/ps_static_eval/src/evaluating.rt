//! The evaluation of the top-level forms of a kernel.

ghost use Rattle.std.specs.Prelude.{◌≡◌, [], None, Some, replicate, IfOk};
ghost use Rattle.ps_prims.specs.Kinds.{AreKinds};
ghost use Rattle.ps_meaning.specs.Source.{Top};
ghost use Rattle.ps_static_eval.specs.Ends.{ComesTo, fault_of};
ghost use Rattle.ps_static_eval.specs.InsideKnown.{IsKnown};
ghost use Rattle.ps_static_eval.specs.InsideMachine.{halt_of};

use crate::forms::run_forms;
use crate::known::Known;
use crate::literals::{NUMBERS, lay_each, pay_all, values_of};
use crate::machine::{Halt, Machine};
use byte_store::{Store, Value, World};
use ps_base::{Fault, Items, Limits, NoMemory, Refusal};
use ps_kernel::Kernel;
use ps_static_tables::tables_of;
use std::alloc::{Allocator, Global};
use std::mem;

/// The values of definitions by their numbers. A procedure definition has none.
pub type Globals = Items<Option<Value>>;

// What is known of a kernel.
fn known_of(alloc: Global, kernel: &Kernel) -> Result<Known, NoMemory>
    ensures { IfOk result (λ t. IsKnown kernel.now t) }
{
    let numbers = tables_of(alloc, kernel)?;
    let literals = values_of(alloc, kernel.literals.as_slice(), 0)?;
    Ok(Known { numbers, literals })
}

// So many definitions without values.
fn no_values(alloc: Global, count: usize) -> Result<Globals, NoMemory>
    ensures { IfOk result (λ globals. globals ≡ replicate count None) }
{
    let mut globals = Items::new(alloc);
    for _ in 0..count {
        globals.push(None)?;
    }
    Ok(globals)
}

// The fault of a run that stops.
fn fault_of(limits: &Limits, halt: Halt) -> Fault
    ensures { fault_of limits.now (halt_of halt) ≡ Some result }
{
    match halt {
        Halt::Running => Fault::BudgetSpent(limits.budget),
        Halt::Cells => Fault::CellsSpent(limits.cells),
        Halt::Undefined(op, at) => Fault::StaticUndefined(op, at),
        Halt::Wrong(at) => Fault::StaticWrong(at),
        Halt::RunOnly(at) => Fault::StaticRunOnly(at),
    }
}

/// Evaluates the top-level forms of a kernel in order, into a store that holds nothing yet: the values of all definitions, which a
/// procedure definition has none of, and in the store the blocks of the literals and of all that was made. The kinds of records
/// must have at least one field each, and makers that name each field once. Nothing else is asked of the kernel.
///
/// What it works with lies in the arena, but for the values that it answers and the tables of the kernel's text. It always comes
/// to an end, since each turn of it falls behind the calls that are left and what is left of the text.
///
/// # Errors
///
/// The store may then be changed, and is given up.
/// - `StaticWrong`, `StaticUndefined` and `StaticRunOnly` where the forms so end, each at its place.
/// - `BudgetSpent` where they are still running when as many procedures as the budget says were entered.
/// - `CellsSpent` where more cells would be made than the limit says; those of the literals count first.
/// - `NoMemory` where memory runs out, or a block would be made beyond 4,294,967,294 others: the store has no number for it.
pub fn evaluate<A: Allocator + Copy>(
    alloc: Global,
    arena: A,
    kernel: &Kernel,
    store: &mut Store<Value, A>,
    limits: &Limits,
) -> Result<Globals, Refusal>
    requires kinds { AreKinds kernel.now.kinds }
    requires empty { store.old ≡ record { fixed = []; made = [] } }
    ensures { ComesTo limits.now result store.new (Top kernel.now limits.now.budget limits.now.cells) }
{
    let Some(cells) = pay_all(kernel.literals.as_slice(), limits.cells) else {
        return Err(Refusal::Fault(Fault::CellsSpent(limits.cells)));
    };
    let known = known_of(alloc, kernel)?;
    let globals = no_values(alloc, kernel.definitions.len())?;
    lay_each(alloc, kernel.literals.as_slice(), store)?;
    if store.next_fixed() >= NUMBERS {
        return Err(Refusal::NoMemory);
    }
    let mut machine = Machine {
        calls: limits.budget,
        cells,
        store: mem::replace(store, Store::new(arena)),
        globals,
        world: World::new(Items::new(alloc), Items::new(alloc)),
        events: Items::new(alloc),
    };
    let halt = run_forms(alloc, arena, kernel, &known, &mut machine)?;
    *store = machine.store;
    match halt {
        None => Ok(machine.globals),
        Some(halt) => Err(Refusal::Fault(fault_of(limits, halt))),
    }
}
