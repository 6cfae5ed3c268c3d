//! Primitives that make a block, or copy strings.

ghost use Rattle.std.specs.Prelude.{◌≡◌, List, IfOk, ◌<◌, [], ◌∷◌, ◌++◌, length, map, replicate, Some, true};
ghost use Rattle.byte_store.specs.declared.event.Event.{Event as EventSpec};
ghost use Rattle.byte_store.specs.Worlds.{Surroundings};
ghost use Rattle.ps_prims.specs.declared.stages.Stage.TheVariants as Stage;
ghost use Rattle.ps_prims.specs.declared.stages.Stage.{Stage as StageSpec};
ghost use Rattle.byte_store.specs.declared.event.Event.TheVariants as Event;
ghost use Rattle.byte_store.specs.declared.pointer.Value.TheVariants as Value;
ghost use Rattle.byte_store.specs.Blocks.{next_number};
ghost use Rattle.byte_store.specs.Operations.{allocate, allocate_cells};
ghost use Rattle.byte_store.specs.Words.{word_of};
ghost use Rattle.ps_base.specs.declared.language.PrimName.TheVariants as PrimName;
ghost use Rattle.ps_prims.specs.Sorts.{first_order};
ghost use Rattle.ps_prims.specs.Rows.{appended, equal_texts, perform_row, row, vector_of};
ghost use Rattle.ps_prims.specs.InsideGroups.{make_row};
ghost use Rattle.ps_prims.specs.Needs.{HasNumber};
ghost use Rattle.ps_prims.specs.Inside.{Fixes, FoundInCopies, Makes, next_pointer, string_block, vector_block};
ghost use Rattle.ps_prims.specs.Performing.{Belongs, Comes, state};

use crate::groups::Make;
use crate::operands::{integer_and_any, one_integer, two_texts};
use crate::outcome::{PrimOut, fault_out};
use crate::stages::Stage;
use crate::telling::{tell, untell};
use byte_store::{Base, Cell, Event, Events, Pointer, Store, StoreFault, Value, World};
use ps_base::{Bytes, Items, NoMemory, Op};
use std::alloc::{Allocator, Global};

// The most cells of a vector.
const MOST: i64 = 1_099_511_627_776;

// Where the next made block begins, or null where its allocation will be refused.
fn next_pointer<A: Allocator + Copy>(store: &Store<Value, A>, world: &World) -> Pointer
    requires room { length store.now.made < 4294967295 }
    ensures { result ≡ next_pointer store.now world.now }
{
    if world.granted() {
        Pointer::At(Base::Made(store.next_made()), 0)
    } else {
        Pointer::Null
    }
}

// Makes a block of bytes, at run time.
fn make_bytes<A: Allocator + Copy>(
    size: i64,
    store: &mut Store<Value, A>,
    world: &mut World,
    events: &mut Events,
) -> PrimOut
    requires room { length store.old.made < 4294967295 }
    ensures { Makes result (λ p. Value.Address p) (allocate store.old world.old size) (λ p. Event.Allocate size p) (state store.old world.old events.old) (state store.new world.new events.new) }
{
    let start = next_pointer(store, world);
    if tell(events, Stage::Run, Event::Allocate(size, start)).is_err() {
        return PrimOut::NoMemory;
    }
    match store.allocate(world, size) {
        Ok(p) => PrimOut::Value(Value::Address(p)),
        Err(fault) => {
            untell(events, Stage::Run);
            fault_out(fault)
        }
    }
}

// Makes a vector, at run time.
fn make_cells<A: Allocator + Copy>(
    count: i64,
    fill: Value,
    store: &mut Store<Value, A>,
    world: &mut World,
    events: &mut Events,
) -> PrimOut
    requires room { length store.old.made < 4294967295 }
    ensures { Makes result (λ p. Value.Vector p) (allocate_cells store.old world.old count (Some fill)) (λ p. Event.Fill count (word_of fill) p) (state store.old world.old events.old) (state store.new world.new events.new) }
{
    let start = next_pointer(store, world);
    if tell(events, Stage::Run, Event::Fill(count, fill.word(), start)).is_err() {
        return PrimOut::NoMemory;
    }
    match store.allocate_cells(world, count, Some(fill)) {
        Ok(p) => PrimOut::Value(Value::Vector(p)),
        Err(fault) => {
            untell(events, Stage::Run);
            fault_out(fault)
        }
    }
}

/// So many values, each the same. Memory for all is asked for at once.
///
/// # Errors
///
/// `NoMemory` where it runs out.
pub fn filled(alloc: Global, fill: Value, count: usize) -> Result<Items<Value>, NoMemory>
    ensures { IfOk result (λ all. all ≡ replicate count fill) }
{
    let mut all = Vec::with_capacity(alloc, count)?;
    for _ in 0..count {
        all.push(fill)?;
    }
    Ok(Items::from_vec(all))
}

// Makes a vector, at compile time.
#[tactic(auto, using(crate::proofs::MakesAreTheRows::filled_is))]
fn fix_vector<A: Allocator + Copy>(
    alloc: Global,
    count: i64,
    fill: Value,
    store: &mut Store<Value, A>,
) -> PrimOut
    requires room { next_number store.old.fixed < 4294967295 }
    ensures { Fixes result (λ p. Value.Vector p) (vector_block count fill) store.old store.new }
{
    if count < 1 || MOST < count {
        return PrimOut::Undefined(Op::Size);
    }
    let Ok(cells) = filled(alloc, fill, count as usize) else {
        return PrimOut::NoMemory;
    };
    let number = store.next_fixed();
    match store.fix_cells(number, cells) {
        Ok(()) => PrimOut::Value(Value::Vector(Pointer::At(Base::Fixed(number), 0))),
        Err(NoMemory) => PrimOut::NoMemory,
    }
}

// The bytes of two strings, one behind the other, with the byte 0 behind them.
fn joined(mut a: Bytes, b: Bytes) -> Result<Bytes, NoMemory>
    ensures { IfOk result (λ all. all ≡ a ++ b ++ 0 ∷ []) }
{
    a.append(b)?;
    a.push(0)?;
    Ok(a)
}

// Makes a string of two.
fn fix_string<A: Allocator + Copy>(
    alloc: Global,
    p: Pointer,
    q: Pointer,
    store: &mut Store<Value, A>,
) -> PrimOut
    requires room { next_number store.old.fixed < 4294967295 }
    ensures { Fixes result (λ p. Value.Text p) (string_block store.old p q) store.old store.new }
{
    let a = match store.text(alloc, p) {
        Ok(a) => a,
        Err(fault) => return fault_out(fault),
    };
    let b = match store.text(alloc, q) {
        Ok(b) => b,
        Err(fault) => return fault_out(fault),
    };
    let Ok(bytes) = joined(a, b) else {
        return PrimOut::NoMemory;
    };
    let number = store.next_fixed();
    match store.fix_bytes(number, bytes.as_slice()) {
        Ok(()) => PrimOut::Value(Value::Text(Pointer::At(Base::Fixed(number), 0))),
        Err(NoMemory) => PrimOut::NoMemory,
    }
}

#[tactic(auto, using(crate::proofs::MakesAreTheRows::vector_comes, crate::proofs::MakesAreTheRows::vector_comes_fixed, crate::proofs::MakesAreTheRows::comes_wrong))]
fn perform_make_vector<A: Allocator + Copy>(
    alloc: Global,
    args: &[Value],
    stage: Stage,
    store: &mut Store<Value, A>,
    world: &mut World,
    events: &mut Events,
) -> PrimOut
    requires room { HasNumber stage store.old }
    ensures { Comes result (state store.old world.old events.old) (state store.new world.new events.new) (perform_row first_order (row first_order [] PrimName.MakeVector) args.now stage (record { memory = store.old; world = world.old })) }
{
    let Some((count, fill)) = integer_and_any(args) else {
        return PrimOut::Wrong;
    };
    match stage {
        Stage::Compile => fix_vector(alloc, count, fill, store),
        Stage::Run => make_cells(count, fill, store, world, events),
    }
}

#[tactic(auto, using(crate::proofs::MakesAreTheRows::allocate_comes, crate::proofs::MakesAreTheRows::comes_wrong))]
fn perform_allocate_memory<A: Allocator + Copy>(
    args: &[Value],
    store: &mut Store<Value, A>,
    world: &mut World,
    events: &mut Events,
) -> PrimOut
    requires room { length store.old.made < 4294967295 }
    ensures { Comes result (state store.old world.old events.old) (state store.new world.new events.new) (perform_row first_order (row first_order [] PrimName.AllocateMemory) args.now Stage.Run (record { memory = store.old; world = world.old })) }
{
    match one_integer(args) {
        Some(size) => make_bytes(size, store, world, events),
        None => PrimOut::Wrong,
    }
}

#[tactic(auto, using(crate::proofs::MakesAreTheRows::string_comes, crate::proofs::MakesAreTheRows::comes_wrong))]
fn perform_string_append<A: Allocator + Copy>(
    alloc: Global,
    args: &[Value],
    store: &mut Store<Value, A>,
) -> PrimOut
    requires room { next_number store.old.fixed < 4294967295 }
    ensures { (world : Surroundings) (events : List EventSpec) → Comes result (state store.old world events) (state store.new world events) (perform_row first_order (row first_order [] PrimName.StringAppend) args.now Stage.Compile (record { memory = store.old; world = world })) }
{
    match two_texts(args) {
        Some((p, q)) => fix_string(alloc, p, q, store),
        None => PrimOut::Wrong,
    }
}

// Whether two strings have the same bytes, found in copies.
fn found_string_equal<A: Allocator + Copy>(
    alloc: Global,
    p: Pointer,
    q: Pointer,
    store: &Store<Value, A>,
) -> PrimOut
    ensures { FoundInCopies result (equal_texts store.now p q) (λ b. Value.Boolean b) }
{
    let a = match store.text(alloc, p) {
        Ok(a) => a,
        Err(fault) => return fault_out(fault),
    };
    match store.text(alloc, q) {
        Ok(b) => PrimOut::Value(Value::Boolean(a.as_slice() == b.as_slice())),
        Err(fault) => fault_out(fault),
    }
}

#[tactic(auto, using(crate::proofs::MakesAreTheRows::string_equal_comes, crate::proofs::MakesAreTheRows::comes_wrong))]
fn perform_string_equal<A: Allocator + Copy>(
    alloc: Global,
    args: &[Value],
    store: &Store<Value, A>,
) -> PrimOut
    ensures { (stage : StageSpec) (world : Surroundings) (events : List EventSpec) → Comes result (state store.now world events) (state store.now world events) (perform_row first_order (row first_order [] PrimName.StringEqual) args.now stage (record { memory = store.now; world = world })) }
{
    match two_texts(args) {
        Some((p, q)) => found_string_equal(alloc, p, q, store),
        None => PrimOut::Wrong,
    }
}

/// Performs a primitive that makes a block, or copies strings.
pub fn perform_make<A: Allocator + Copy>(
    alloc: Global,
    p: Make,
    args: &[Value],
    stage: Stage,
    store: &mut Store<Value, A>,
    world: &mut World,
    events: &mut Events,
) -> PrimOut
    requires belongs { Belongs (make_row p).stages stage }
    requires room { HasNumber stage store.old }
    ensures { Comes result (state store.old world.old events.old) (state store.new world.new events.new) (perform_row first_order (make_row p) args.now stage (record { memory = store.old; world = world.old })) }
{
    match (p, stage) {
        (Make::Vector, _) => perform_make_vector(alloc, args, stage, store, world, events),
        (Make::Memory, Stage::Run) => perform_allocate_memory(args, store, world, events),
        (Make::Memory, Stage::Compile) => unreachable!(),
        (Make::String, Stage::Compile) => perform_string_append(alloc, args, store),
        (Make::String, Stage::Run) => unreachable!(),
        (Make::StringEqual, _) => perform_string_equal(alloc, args, store),
    }
}
