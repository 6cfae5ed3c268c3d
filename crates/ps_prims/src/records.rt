//! Primitives of the records of a kind.

ghost use Rattle.std.specs.Prelude.{◌≡◌, ℕ, pos, ◌<◌, ◌≤◌, List, [], ◌++◌, map, length, replicate, take, not, true, false, Some, None, Ok, Err, IfOk, MatchResult};
ghost use Rattle.byte_store.specs.Blocks.{Memory, next_number};
ghost use Rattle.byte_store.specs.Operations.{allocate_cells, and_then, is_null, is_size, plus, put};
ghost use Rattle.byte_store.specs.Store.{Allocates};
ghost use Rattle.byte_store.specs.Words.{word_of};
ghost use Rattle.byte_store.specs.declared.pointer.Pointer.TheVariants.{At};
ghost use Rattle.byte_store.specs.declared.event.Event.TheVariants as Event;
ghost use Rattle.byte_store.specs.Worlds.{Surroundings, next_grant};
ghost use Rattle.byte_store.specs.declared.event.Event.{Event as EventSpec};
ghost use Rattle.byte_store.specs.declared.pointer.Value.{Value as ValueSpec};
ghost use Rattle.byte_store.specs.declared.pointer.Value.TheVariants as Value;
ghost use Rattle.ps_base.specs.declared.language.PrimName.TheVariants as PrimName;
ghost use Rattle.ps_prims.specs.declared.stages.Stage.TheVariants as Stage;
ghost use Rattle.ps_prims.specs.Sorts.{first_order, fits};
ghost use Rattle.ps_prims.specs.Records.{made, put_fields};
ghost use Rattle.ps_prims.specs.Rows.{perform_row, row};
ghost use Rattle.ps_prims.specs.Kinds.{AreKinds};
ghost use Rattle.ps_prims.specs.Once.{EachOnce};
ghost use Rattle.ps_prims.specs.Needs.{HasNumber, HasRoom, Takes, Wanting};
ghost use Rattle.ps_prims.specs.Performing.{Comes, state};
ghost use Rattle.ps_prims.specs.Inside.{Acts, Changed, FoundQuietly};
ghost use Rattle.ps_prims.specs.InsideGroups.{record_need, record_row};
ghost use Rattle.ps_prims.specs.InsidePerforming.{Changes, Looks, LooksQuietly};
ghost use Rattle.ps_prims.specs.InsideRecords.{record_seen, scattered};

use crate::changes::change_cell;
use crate::groups::OnRecord;
use crate::kinds::{fields_of, maker_of};
use crate::looks::found_vector_ref;
use crate::makes::filled;
use crate::operands::{is_of, one_record, record_and_value};
use crate::outcome::{PrimOut, fault_out};
use crate::sorts::sort_of_field;
use crate::stages::Stage;
use crate::telling::tell;
use byte_store::{Base, Cell, Event, Events, Pointer, Store, StoreFault, Value, World};
use ps_base::{Items, NoMemory, Op};
use ps_types::Kinds;
use std::alloc::{Allocator, Global};

// The most cells of a block.
const MOST: usize = 1_099_511_627_776;

/// Performs a primitive of the records of a kind.
pub fn perform_on_record<A: Allocator + Copy>(
    alloc: Global,
    p: OnRecord,
    args: &[Value],
    stage: Stage,
    kinds: &Kinds,
    store: &mut Store<Value, A>,
    world: &mut World,
    events: &mut Events,
) -> PrimOut
    requires kinds { AreKinds kinds.now }
    requires room { HasRoom (record_need p) stage store.old }
    ensures row { Comes result (state store.old world.old events.old) (state store.new world.new events.new) (perform_row first_order (record_row kinds.now p) args.now stage (record { memory = store.old; world = world.old })) }
    ensures memory { Wanting result (Takes (record_need p) stage) }
{
    match p {
        OnRecord::Maker(k) => perform_maker(alloc, k, args, stage, kinds, store, world, events),
        OnRecord::Predicate(k) => perform_predicate(k, args, store),
        OnRecord::Accessor(k, f) => perform_accessor(k, f, args, stage, store, events),
        OnRecord::Modifier(k, f) => perform_modifier(k, f, args, stage, kinds, store, events),
    }
}

fn perform_maker<A: Allocator + Copy>(
    alloc: Global,
    k: u32,
    args: &[Value],
    stage: Stage,
    kinds: &Kinds,
    store: &mut Store<Value, A>,
    world: &mut World,
    events: &mut Events,
) -> PrimOut
    requires kinds { AreKinds kinds.now }
    requires room { HasNumber stage store.old }
    ensures { Comes result (state store.old world.old events.old) (state store.new world.new events.new) (perform_row first_order (row first_order kinds.now (PrimName.Maker k)) args.now stage (record { memory = store.old; world = world.old })) }
{
    if !fit_maker(k, args, kinds) {
        return PrimOut::Wrong;
    }
    let count = fields_of(kinds, k).len();
    let order = maker_of(kinds, k);
    match stage {
        Stage::Compile => fix_record(alloc, k, count, order, args, store),
        Stage::Run => make_record(k, count, order, args, store, world, events),
    }
}

/// Whether these are the operands of the maker of a kind: a value for each field that it names, of the field's sort.
pub fn fit_maker(k: u32, args: &[Value], kinds: &Kinds) -> bool
    ensures { result ≡ fits first_order (row first_order kinds.now (PrimName.Maker k)).operands args.now }
{
    let order = maker_of(kinds, k);
    if order.len() != args.len() {
        return false;
    }
    for i in 0..args.len() {
        if !is_of(args[i], sort_of_field(kinds, k, order[i])) {
            return false;
        }
    }
    true
}

// Makes a record of so many fields, at compile time, and fills them in this order.
fn fix_record<A: Allocator + Copy>(
    alloc: Global,
    k: u32,
    count: usize,
    order: &[u32],
    args: &[Value],
    store: &mut Store<Value, A>,
) -> PrimOut
    requires room { next_number store.old.fixed < 4294967295 }
    requires maker { EachOnce count order.now }
    requires lengths { length args.now ≡ length order.now }
    ensures { (world : Surroundings) (events : List EventSpec) → Acts result (λ p. Value.Tuple k p) Stage.Compile (made first_order count order.now args.now Stage.Compile (record { memory = store.old; world = world })) (state store.old world events) (state store.new world events) }
{
    if !has_size(count) {
        return PrimOut::Undefined(Op::Size);
    }
    let Ok(cells) = placed(alloc, count, order, args) else {
        return PrimOut::NoMemory;
    };
    let number = store.next_fixed();
    match store.fix_cells(number, cells) {
        Ok(()) => PrimOut::Value(Value::Tuple(k, Pointer::At(Base::Fixed(number), 0))),
        Err(NoMemory) => PrimOut::NoMemory,
    }
}

// Whether a block may have so many cells.
fn has_size(count: usize) -> bool
    ensures { result ≡ is_size count }
{
    1 <= count && count <= MOST
}

// Makes a record of so many fields, at run time, and fills them in this order.
fn make_record<A: Allocator + Copy>(
    k: u32,
    count: usize,
    order: &[u32],
    args: &[Value],
    store: &mut Store<Value, A>,
    world: &mut World,
    events: &mut Events,
) -> PrimOut
    requires room { length store.old.made < 4294967295 }
    requires maker { EachOnce count order.now }
    requires lengths { length args.now ≡ length order.now }
    ensures { Acts result (λ p. Value.Tuple k p) Stage.Run (made first_order count order.now args.now Stage.Run (record { memory = store.old; world = world.old })) (state store.old world.old events.old) (state store.new world.new events.new) }
{
    if !has_size(count) {
        return PrimOut::Undefined(Op::Size);
    }
    if world.granted() {
        make_granted(k, count, order, args, store, world, events)
    } else {
        refuse(k, count, world, events)
    }
}

// The refusal of a record of so many fields.
fn refuse(k: u32, count: usize, world: &mut World, events: &mut Events) -> PrimOut
    requires size { is_size count ≡ true }
    requires refused { next_grant world.old.grants ≡ false }
    ensures { (order : List ℕ) (args : List ValueSpec) (m : Memory ValueSpec) → Acts result (λ p. Value.Tuple k p) Stage.Run (made first_order count order args Stage.Run (record { memory = m; world = world.old })) (state m world.old events.old) (state m world.new events.new) }
{
    if tell(
        events,
        Stage::Run,
        Event::Tuple(count as i64, Pointer::Null),
    )
    .is_err()
    {
        return PrimOut::NoMemory;
    }
    world.use_grant();
    PrimOut::Value(Value::Tuple(k, Pointer::Null))
}

// Makes a record of so many fields where it is granted, once there is memory for what is seen.
fn make_granted<A: Allocator + Copy>(
    k: u32,
    count: usize,
    order: &[u32],
    args: &[Value],
    store: &mut Store<Value, A>,
    world: &mut World,
    events: &mut Events,
) -> PrimOut
    requires room { length store.old.made < 4294967295 }
    requires maker { EachOnce count order.now }
    requires lengths { length args.now ≡ length order.now }
    requires size { is_size count ≡ true }
    requires granted { next_grant world.old.grants ≡ true }
    ensures { Acts result (λ p. Value.Tuple k p) Stage.Run (made first_order count order.now args.now Stage.Run (record { memory = store.old; world = world.old })) (state store.old world.old events.old) (state store.new world.new events.new) }
{
    let base = Base::Made(store.next_made());
    let before = events.len();
    if tell_record(base, count, order, args, events).is_err() {
        return PrimOut::NoMemory;
    }
    match allocate(count, store, world) {
        Ok(p) => match fill(p, order, args, store) {
            Ok(()) => PrimOut::Value(Value::Tuple(k, p)),
            Err(op) => PrimOut::Undefined(op),
        },
        Err(fault) => {
            take_back(events, before);
            fault_out(fault)
        }
    }
}

fn allocate<A: Allocator + Copy>(
    count: usize,
    store: &mut Store<Value, A>,
    world: &mut World,
) -> Result<Pointer, StoreFault>
    requires room { length store.old.made < 4294967295 }
    requires size { is_size count ≡ true }
    ensures { Allocates result store.old store.new world.old world.new (allocate_cells store.old world.old (pos count) None) }
{
    store.allocate_cells(world, count as i64, None)
}

// Puts values into these fields of a record, one after another.
fn fill<A: Allocator + Copy>(
    p: Pointer,
    order: &[u32],
    args: &[Value],
    store: &mut Store<Value, A>,
) -> Result<(), Op>
    requires lengths { length args.now ≡ length order.now }
    ensures { MatchResult result (λ done. put_fields store.old p order.now args.now ≡ Ok store.new) (λ op. put_fields store.old p order.now args.now ≡ Err op) }
{
    for i in 0..order.len() {
        if let Err(op) = put_field(p, order[i], args[i], store) {
            return Err(op);
        }
    }
    Ok(())
}

fn put_field<A: Allocator + Copy>(
    p: Pointer,
    f: u32,
    x: Value,
    store: &mut Store<Value, A>,
) -> Result<(), Op>
    ensures { MatchResult result (λ done. put store.old p (pos f) x ≡ Ok store.new) (λ op. put store.old p (pos f) x ≡ Err op) }
{
    store.put(p, i64::from(f), x)
}

// Adds what is seen of a record that is made at the start of a block.
fn tell_record(
    base: Base,
    count: usize,
    order: &[u32],
    args: &[Value],
    events: &mut Events,
) -> Result<(), NoMemory>
    requires lengths { length args.now ≡ length order.now }
    requires size { is_size count ≡ true }
    ensures { MatchResult result (λ done. events.new ≡ events.old ++ record_seen first_order base count order.now args.now) (λ e. events.new ≡ events.old) }
{
    let before = events.len();
    if tell_fields(base, count, order, args, events).is_err() {
        take_back(events, before);
        return Err(NoMemory);
    }
    Ok(())
}

// The same; where memory runs out, what was told before stays.
fn tell_fields(
    base: Base,
    count: usize,
    order: &[u32],
    args: &[Value],
    events: &mut Events,
) -> Result<(), NoMemory>
    requires lengths { length args.now ≡ length order.now }
    requires size { is_size count ≡ true }
    ensures { MatchResult result (λ done. events.new ≡ events.old ++ record_seen first_order base count order.now args.now) (λ e. (more : List EventSpec) × (events.new ≡ events.old ++ more)) }
{
    events.push(Event::Tuple(count as i64, Pointer::At(base, 0)))?;
    for i in 0..order.len() {
        events.push(field_event(base, order[i], args[i]))?;
    }
    Ok(())
}

fn field_event(base: Base, f: u32, x: Value) -> Event
    ensures { result ≡ Event.Put (plus (At base (pos 0)) (pos f)) (word_of x) }
{
    Event::Put(Pointer::At(base, i64::from(f)), x.word())
}

// Takes back the events that stand behind the first ones.
fn take_back(events: &mut Events, kept: usize)
    requires { kept ≤ length events.old }
    ensures { events.new ≡ take kept events.old }
{
    while kept < events.len() {
        let _event = events.pop();
    }
}

// The values of a record's fields, in the order of the fields, from those in this order.
fn placed(
    alloc: Global,
    count: usize,
    order: &[u32],
    args: &[Value],
) -> Result<Items<Value>, NoMemory>
    requires maker { EachOnce count order.now }
    requires lengths { length args.now ≡ length order.now }
    ensures { IfOk result (λ cells. map Some cells ≡ scattered order.now (map Some args.now) (replicate count None)) }
{
    let mut cells = filled(alloc, Value::Unit, count)?;
    for i in 0..order.len() {
        cells.set(order[i] as usize, args[i]);
    }
    Ok(cells)
}

#[tactic(auto, using(crate::proofs::RecordsAreTheRows::predicate_looks, crate::proofs::LooksChangeNothing::looks_quietly_wrong))]
fn perform_predicate<A: Allocator + Copy>(
    k: u32,
    args: &[Value],
    store: &Store<Value, A>,
) -> PrimOut
    ensures { LooksQuietly result store.now (perform_row first_order (row first_order [] (PrimName.Predicate k)) args.now) }
{
    match one_record(k, args) {
        Some(p) => found_is_record(p, store),
        None => PrimOut::Wrong,
    }
}

fn found_is_record<A: Allocator + Copy>(p: Pointer, store: &Store<Value, A>) -> PrimOut
    ensures { FoundQuietly result (and_then (is_null store.now p) (λ b. Ok (not b))) (λ b. Value.Boolean b) }
{
    match store.is_null(p) {
        Ok(b) => PrimOut::Value(Value::Boolean(!b)),
        Err(op) => PrimOut::Undefined(op),
    }
}

#[tactic(auto, using(crate::proofs::RecordsAreTheRows::accessor_looks, crate::proofs::LooksChangeNothing::looks_wrong))]
fn perform_accessor<A: Allocator + Copy>(
    k: u32,
    f: u32,
    args: &[Value],
    stage: Stage,
    store: &Store<Value, A>,
    events: &mut Events,
) -> PrimOut
    ensures { Looks result stage store.now events.old events.new (perform_row first_order (row first_order [] (PrimName.Accessor k f)) args.now) }
{
    match one_record(k, args) {
        Some(p) => found_vector_ref(p, i64::from(f), stage, store, events),
        None => PrimOut::Wrong,
    }
}

fn perform_modifier<A: Allocator + Copy>(
    k: u32,
    f: u32,
    args: &[Value],
    stage: Stage,
    kinds: &Kinds,
    store: &mut Store<Value, A>,
    events: &mut Events,
) -> PrimOut
    ensures { Changes result stage store.old store.new events.old events.new (perform_row first_order (row first_order kinds.now (PrimName.Modifier k f)) args.now) }
{
    match record_and_value(k, sort_of_field(kinds, k, f), args) {
        Some((p, x)) => change_field(p, f, x, stage, store, events),
        None => PrimOut::Wrong,
    }
}

fn change_field<A: Allocator + Copy>(
    p: Pointer,
    f: u32,
    x: Value,
    stage: Stage,
    store: &mut Store<Value, A>,
    events: &mut Events,
) -> PrimOut
    ensures { Changed result (put store.old p (pos f) x) (Event.Put (plus p (pos f)) (word_of x)) stage store.old store.new events.old events.new }
{
    change_cell(p, i64::from(f), x, stage, store, events)
}
