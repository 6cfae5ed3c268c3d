//! The turns of the machine that take operands off, and do what they are for.

ghost use Rattle.std.specs.Prelude.{MatchOption, false, [], ◌∷◌, ◌≡◌, ◌≤◌, ◌<◌, ◌+◌, ◌*◌, ◌++◌, ℕ, List, length, reverse, IfOk, IsTrue};
ghost use Rattle.byte_store.specs.declared.pointer.Value.{Value as ValueSpec};
ghost use Rattle.byte_store.specs.Blocks.{next_number};
ghost use Rattle.ps_prims.specs.declared.stages.Stage.TheVariants.{Compile};
ghost use Rattle.ps_prims.specs.Kinds.{AreKinds};
ghost use Rattle.ps_prims.specs.Sorts.{first_order};
ghost use Rattle.ps_prims.specs.Rows.{perform, row};
ghost use Rattle.ps_prims.specs.Cells.{asked_at};
ghost use Rattle.ps_prims.specs.Needs.{Takes, need};
ghost use Rattle.ps_prims.specs.Performing.{Performs, state};
ghost use Rattle.ps_kernel.specs.declared.kernel.Kernel.{Kernel as KernelSpec};
ghost use Rattle.ps_meaning.specs.Eval.{CompileEnter, belongs, compile_entering, operation};
ghost use Rattle.ps_slots.specs.declared.cell.Cell.TheVariants.{Entered, Waits};
ghost use Rattle.ps_static_eval.specs.declared.machine.Control.TheVariants.{Take};
ghost use Rattle.ps_static_eval.specs.InsideMachine.{Becomes, Begins, Cells, Resumes, Turns, control_of, enters, job_done, left, slots};
ghost use Rattle.ps_static_eval.specs.InsideNumbers.{blocks_for};
ghost use Rattle.ps_static_eval.specs.InsideWeight.{bodies, cell_weight, cells_weight, control_weight, waiting_weight};

use crate::machine::{Control, Ending, Halt, Job, Machine, NOWHERE, Waiting};
use crate::turns::Frames;
use byte_store::{Events, Store, Value, World};
use ps_base::{NoMemory, Place, Prim};
use ps_kernel::Kernel;
use ps_prims::{PrimOut, Stage, Stages, cells_asked, perform, stages_of};
use ps_slots::Cell;
use std::alloc::{Allocator, Global};

// The last number that a fixed block could have. It is kept back, since a primitive is performed only where there is a number for
// one more block, whatever it makes.
const LAST: u32 = 4_294_967_294;

// Whether there is no number for the block of so many cells.
fn is_full<A: Allocator + Copy>(asked: u64, store: &Store<Value, A>) -> bool
    ensures { result ≡ false → next_number store.now.fixed < 4294967295 → next_number store.now.fixed + blocks_for asked < 4294967295 }
{
    if asked == 0 {
        return false;
    }
    store.next_fixed() >= LAST
}

// A primitive is performed whose row belongs to compile time. It takes at most one number of a block, and none where it asks for
// no cells.
fn perform_few<A: Allocator + Copy>(
    alloc: Global,
    kernel: &Kernel,
    p: Prim,
    operands: &[Value],
    store: &mut Store<Value, A>,
    world: &mut World,
    events: &mut Events,
) -> PrimOut
    requires kinds { AreKinds kernel.now.kinds }
    requires belongs { IsTrue (belongs (row first_order kernel.now.kinds p).stages Compile) }
    requires room { next_number store.old.fixed < 4294967295 }
    ensures row { Performs (Takes (need p) Compile) result (state store.old world.old events.old) (state store.new world.new events.new) (perform first_order kernel.now.kinds p operands.now Compile (record { memory = store.old; world = world.old })) }
    ensures few { next_number store.new.fixed ≤ next_number store.old.fixed + blocks_for (asked_at first_order kernel.now.kinds p operands.now Compile (record { memory = store.old; world = world.old })) }
{
    let stage = Stage::Compile;
    perform(
        alloc,
        p,
        operands,
        stage,
        &kernel.kinds,
        store,
        world,
        events,
    )
}

// A primitive is performed whose row belongs to compile time: its cells are counted, and then it takes effect.
fn perform_row<A: Allocator + Copy>(
    alloc: Global,
    kernel: &Kernel,
    p: Prim,
    at: Place,
    operands: &[Value],
    machine: &mut Machine<A>,
) -> Result<Ending, NoMemory>
    requires kinds { AreKinds kernel.now.kinds }
    requires belongs { IsTrue (belongs (row first_order kernel.now.kinds p).stages Compile) }
    ensures same { IfOk result (λ r. Becomes (operation kernel.now Compile first_order at p operands.now) (left machine.old) r (left machine.new)) }
    ensures calls { machine.new.calls ≡ machine.old.calls }
{
    let asked = cells_asked(
        p,
        operands,
        Stage::Compile,
        &kernel.kinds,
        &machine.store,
        &machine.world,
    );
    if machine.cells < asked {
        return Ok(Ending::Halted(Halt::Cells));
    }
    if is_full(asked, &machine.store) {
        return Err(NoMemory);
    }
    machine.cells -= asked;
    let (store, world, events) = (&mut machine.store, &mut machine.world, &mut machine.events);
    match perform_few(alloc, kernel, p, operands, store, world, events) {
        PrimOut::Value(v) => Ok(Ending::Gave(v)),
        PrimOut::Undefined(op) => Ok(Ending::Halted(Halt::Undefined(op, at))),
        PrimOut::Wrong => Ok(Ending::Halted(Halt::Wrong(at))),
        PrimOut::NoMemory => Err(NoMemory),
    }
}

// A primitive is performed, if it belongs to compile time.
fn operate<A: Allocator + Copy>(
    alloc: Global,
    kernel: &Kernel,
    p: Prim,
    at: Place,
    operands: &[Value],
    machine: &mut Machine<A>,
) -> Result<Ending, NoMemory>
    requires kinds { AreKinds kernel.now.kinds }
    ensures same { IfOk result (λ r. Becomes (operation kernel.now Compile first_order at p operands.now) (left machine.old) r (left machine.new)) }
    ensures calls { machine.new.calls ≡ machine.old.calls }
{
    match stages_of(p) {
        Stages::Both => perform_row(alloc, kernel, p, at, operands, machine),
        Stages::CompileOnly => perform_row(alloc, kernel, p, at, operands, machine),
        Stages::RunOnly => Ok(Ending::Halted(Halt::RunOnly(at))),
    }
}

// Takes off the locals on top, and what is below them: where a frame begins, or what waits, which is the answer.
fn below_locals<'a, A: Allocator>(frames: &mut Frames<'a, A>) -> Option<Waiting<'a>>
    ensures same { MatchOption result
        ((k : KernelSpec) (new : Cells) → new ≡ frames.new ++ Entered ∷ [] → Begins k frames.old new)
        (λ w. (k : KernelSpec) (again new : Cells) → again ≡ frames.new ++ Waits w ∷ [] → new ≡ again ++ Entered ∷ [] → Begins k frames.old new) }
    ensures lighter { MatchOption result
        (cells_weight frames.new ≤ cells_weight frames.old)
        (λ w. cells_weight frames.new + waiting_weight w ≤ cells_weight frames.old) }
{
    while let Some(cell) = frames.pop() {
        match cell {
            Cell::Local(_, _) => {}
            Cell::Entered => return None,
            Cell::Waits(waiting) => return Some(waiting),
        }
    }
    None
}

// A frame begins. Locals on top are dropped before, since nothing reads them again; a frame that would only return is used
// again.
fn begin_frame<'a, A: Allocator>(frames: &mut Frames<'a, A>) -> Result<(), NoMemory>
    ensures same { (k : KernelSpec) → IfOk result (λ done. Begins k frames.old frames.new) }
    ensures lighter { IfOk result (λ done. cells_weight frames.new ≤ 1 + cells_weight frames.old) }
{
    match below_locals(frames) {
        Some(waiting) => {
            frames.wait(waiting)?;
            Ok(frames.enter()?)
        }
        None => Ok(frames.enter()?),
    }
}

// The parameters get their slots.
fn bind_all<'a, A: Allocator>(
    parameters: &[u32],
    frames: &mut Frames<'a, A>,
    given: &mut Vec<Value, A>,
) -> Result<(), NoMemory>
    ensures same { IfOk result (λ done. frames.new ≡ frames.old ++ slots parameters.now (reverse given.old.items)) }
    ensures lighter { IfOk result (λ done. cells_weight frames.new ≤ length parameters.now + cells_weight frames.old) }
{
    for x in parameters {
        match given.pop() {
            None => return Ok(()),
            Some(v) => frames.bind(*x, v)?,
        }
    }
    Ok(())
}

// The procedure of a lambda is entered, if it takes so many operands, and if a call is left.
fn enter<'a, A: Allocator>(
    kernel: &'a Kernel,
    l: u32,
    at: Place,
    frames: &mut Frames<'a, A>,
    given: &mut Vec<Value, A>,
    machine: &mut Machine<A>,
) -> Result<Control<'a>, NoMemory>
    ensures same { IfOk result (λ c. (f : CompileEnter) → Turns kernel.now f (compile_entering kernel.now f 0 at l (reverse given.old.items)) frames.old (left machine.old) c given.new.items frames.new (left machine.new)) }
    ensures falls { machine.new.calls ≤ machine.old.calls }
    ensures lighter { IfOk result (λ c. machine.new.calls * (bodies kernel.now + 1) + control_weight c + cells_weight frames.new < machine.old.calls * (bodies kernel.now + 1) + 2 + cells_weight frames.old) }
{
    let Some(lambda) = kernel.lambdas.get(l as usize) else {
        return Ok(Control::Halted(Halt::Wrong(at)));
    };
    if lambda.parameters.len() != given.as_slice().len() {
        return Ok(Control::Halted(Halt::Wrong(at)));
    }
    if machine.calls == 0 {
        return Ok(Control::Halted(Halt::Running));
    }
    machine.calls -= 1;
    begin_frame(frames)?;
    bind_all(lambda.parameters.as_slice(), frames, given)?;
    Ok(Control::Work(&lambda.body))
}

// A value is given, or the run stops.
fn control_of<'a>(ending: Ending) -> Control<'a>
    ensures same { result ≡ control_of ending }
    ensures lighter { control_weight result < 2 }
{
    match ending {
        Ending::Gave(v) => Control::Give(v),
        Ending::Halted(h) => Control::Halted(h),
    }
}

// What the operands are for is done.
fn do_job<'a, A: Allocator + Copy>(
    alloc: Global,
    kernel: &'a Kernel,
    job: Job,
    at: Place,
    frames: &mut Frames<'a, A>,
    given: &mut Vec<Value, A>,
    machine: &mut Machine<A>,
) -> Result<Control<'a>, NoMemory>
    requires kinds { AreKinds kernel.now.kinds }
    ensures same { IfOk result (λ c. (f : CompileEnter) → Turns kernel.now f (job_done kernel.now f job at (reverse given.old.items)) frames.old (left machine.old) c given.new.items frames.new (left machine.new)) }
    ensures falls { machine.new.calls ≤ machine.old.calls }
    ensures lighter { IfOk result (λ c. machine.new.calls * (bodies kernel.now + 1) + control_weight c + cells_weight frames.new < machine.old.calls * (bodies kernel.now + 1) + 2 + cells_weight frames.old) }
{
    match job {
        Job::Perform(p) => {
            given.reverse();
            let ending = operate(alloc, kernel, p, at, given.as_slice(), machine)?;
            Ok(control_of(ending))
        }
        Job::Enter(l) => enter(kernel, l, at, frames, given, machine),
    }
}

// What was waiting on top is an operand that is taken off, or the job of the operands that were taken off.
fn take_waiting<'a, A: Allocator + Copy>(
    alloc: Global,
    kernel: &'a Kernel,
    waiting: Waiting<'a>,
    frames: &mut Frames<'a, A>,
    given: &mut Vec<Value, A>,
    machine: &mut Machine<A>,
) -> Result<Control<'a>, NoMemory>
    requires kinds { AreKinds kernel.now.kinds }
    ensures same { IfOk result (λ c. (n : ℕ) → machine.old.calls ≤ n → Resumes kernel.now (enters kernel.now n) Take given.old.items (Waits waiting.entry) frames.old (left machine.old) c given.new.items frames.new (left machine.new)) }
    ensures falls { machine.new.calls ≤ machine.old.calls }
    ensures lighter { IfOk result (λ c. machine.new.calls * (bodies kernel.now + 1) + control_weight c + cells_weight frames.new < machine.old.calls * (bodies kernel.now + 1) + 1 + waiting_weight waiting.entry + cells_weight frames.old) }
{
    match waiting {
        Waiting::Operand(v) => {
            given.push(v)?;
            Ok(Control::Take)
        }
        Waiting::Gather(job, at) => do_job(alloc, kernel, job, at, frames, given, machine),
        Waiting::Branch(_, _, _) => Ok(Control::Halted(Halt::Wrong(NOWHERE))),
        Waiting::Choice(_, _, _, _) => Ok(Control::Halted(Halt::Wrong(NOWHERE))),
        Waiting::Body(_, _) => Ok(Control::Halted(Halt::Wrong(NOWHERE))),
        Waiting::Rest(_, _) => Ok(Control::Halted(Halt::Wrong(NOWHERE))),
        Waiting::Assigned(_) => Ok(Control::Halted(Halt::Wrong(NOWHERE))),
        Waiting::Put(_, _) => Ok(Control::Halted(Halt::Wrong(NOWHERE))),
        Waiting::Operands(_) => Ok(Control::Halted(Halt::Wrong(NOWHERE))),
    }
}

/// The topmost operand is taken off, or, with all taken off, what they are for is done.
pub fn take_off<'a, A: Allocator + Copy>(
    alloc: Global,
    kernel: &'a Kernel,
    cell: Cell<Waiting<'a>>,
    frames: &mut Frames<'a, A>,
    given: &mut Vec<Value, A>,
    machine: &mut Machine<A>,
) -> Result<Control<'a>, NoMemory>
    requires kinds { AreKinds kernel.now.kinds }
    ensures same { IfOk result (λ c. (n : ℕ) → machine.old.calls ≤ n → Resumes kernel.now (enters kernel.now n) Take given.old.items cell.entry frames.old (left machine.old) c given.new.items frames.new (left machine.new)) }
    ensures falls { machine.new.calls ≤ machine.old.calls }
    ensures lighter { IfOk result (λ c. machine.new.calls * (bodies kernel.now + 1) + control_weight c + cells_weight frames.new < machine.old.calls * (bodies kernel.now + 1) + 1 + cell_weight cell.entry + cells_weight frames.old) }
{
    match cell {
        Cell::Waits(waiting) => take_waiting(alloc, kernel, waiting, frames, given, machine),
        Cell::Local(_, _) => Ok(Control::Halted(Halt::Wrong(NOWHERE))),
        Cell::Entered => Ok(Control::Halted(Halt::Wrong(NOWHERE))),
    }
}
