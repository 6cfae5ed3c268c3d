//! Primitives are performed.

ghost use Rattle.std.specs.Prelude.{◌≡◌, [], ◌∷◌, List};
ghost use Rattle.byte_store.specs.declared.event.Event.TheVariants as Event;
ghost use Rattle.byte_store.specs.declared.event.Event.{Event as EventSpec};
ghost use Rattle.byte_store.specs.declared.pointer.Value.TheVariants as Value;
ghost use Rattle.byte_store.specs.declared.pointer.Value.{Value as ValueSpec};
ghost use Rattle.byte_store.specs.Blocks.{Memory};
ghost use Rattle.byte_store.specs.Worlds.{Surroundings};
ghost use Rattle.ps_base.specs.declared.language.PrimName.TheVariants as PrimName;
ghost use Rattle.ps_prims.specs.Sorts.{first_order};
ghost use Rattle.ps_prims.specs.Rows.{byte_of, perform, perform_row, reads, row};
ghost use Rattle.ps_prims.specs.Kinds.{AreKinds};
ghost use Rattle.ps_prims.specs.Inside.{Acts, Found};
ghost use Rattle.ps_prims.specs.InsideGroups.{group_need, group_row};
ghost use Rattle.ps_prims.specs.Needs.{HasRoom, Takes, Wanting, need};
ghost use Rattle.ps_prims.specs.Performing.{Belongs, Comes, Performs, state};
ghost use Rattle.ps_prims.specs.InsidePerforming.{Quiet};

use crate::changes::perform_change;
use crate::glances::perform_glance;
use crate::groups::{Group, group_of};
use crate::looks::perform_look;
use crate::makes::perform_make;
use crate::numbers::byte;
use crate::operands::{no_operand, one_integer};
use crate::outcome::PrimOut;
use crate::plain::{
    perform_arithmetic, perform_comparison, perform_division, perform_plain, perform_shift,
    perform_test,
};
use crate::records::perform_on_record;
use crate::stages::Stage;
use crate::telling::{tell, told};
use byte_store::{Event, Events, Store, Value, World};
use ps_base::Prim;
use ps_types::Kinds;
use std::alloc::{Allocator, Global};

// Takes the next byte of the input, once there is memory for the event.
fn take_byte(stage: Stage, world: &mut World, events: &mut Events) -> PrimOut
    ensures { (m : Memory ValueSpec) → Acts result (λ i. Value.Integer i) stage (reads stage (record { memory = m; world = world.old })) (state m world.old events.old) (state m world.new events.new) }
{
    if tell(events, stage, Event::Input(world.peek())).is_err() {
        return PrimOut::NoMemory;
    }
    PrimOut::Value(Value::Integer(world.read()))
}

#[tactic(auto, using(crate::proofs::PerformsTheRow::reads_comes, crate::proofs::MakesAreTheRows::comes_wrong))]
fn perform_read_byte(
    args: &[Value],
    stage: Stage,
    world: &mut World,
    events: &mut Events,
) -> PrimOut
    ensures { (m : Memory ValueSpec) → Comes result (state m world.old events.old) (state m world.new events.new) (perform_row first_order (row first_order [] PrimName.ReadByte) args.now stage (record { memory = m; world = world.old })) }
{
    if no_operand(args) {
        take_byte(stage, world, events)
    } else {
        PrimOut::Wrong
    }
}

#[tactic(auto, using(crate::proofs::LooksChangeNothing::found_told))]
fn put_byte(i: i64, stage: Stage, events: &mut Events) -> PrimOut
    ensures { Found result (byte_of i) (λ b. Value.Unit) (λ b. Event.Output b ∷ []) stage events.old events.new }
{
    match byte(i) {
        Ok(b) => told(events, stage, Event::Output(b), Value::Unit),
        Err(op) => PrimOut::Undefined(op),
    }
}

#[tactic(auto, using(crate::proofs::PerformsTheRow::writes_comes, crate::proofs::MakesAreTheRows::comes_wrong))]
fn perform_write_byte(args: &[Value], stage: Stage, events: &mut Events) -> PrimOut
    ensures { (m : Memory ValueSpec) (w : Surroundings) → Comes result (state m w events.old) (state m w events.new) (perform_row first_order (row first_order [] PrimName.WriteByte) args.now stage (record { memory = m; world = w })) }
{
    match one_integer(args) {
        Some(i) => put_byte(i, stage, events),
        None => PrimOut::Wrong,
    }
}

// Performs a primitive of a group.
#[tactic(auto, using(crate::proofs::PerformsTheRow::quiet_comes))]
fn perform_group<A: Allocator + Copy>(
    alloc: Global,
    p: Group,
    args: &[Value],
    stage: Stage,
    kinds: &Kinds,
    store: &mut Store<Value, A>,
    world: &mut World,
    events: &mut Events,
) -> PrimOut
    requires belongs { Belongs (group_row kinds.now p).stages stage }
    requires room { HasRoom (group_need p) stage store.old }
    requires kinds { AreKinds kinds.now }
    ensures row { Comes result (state store.old world.old events.old) (state store.new world.new events.new) (perform_row first_order (group_row kinds.now p) args.now stage (record { memory = store.old; world = world.old })) }
    ensures memory { Wanting result (Takes (group_need p) stage) }
{
    match p {
        Group::Arithmetic(operation) => perform_arithmetic(operation, args),
        Group::Division(operation) => perform_division(operation, args),
        Group::Shift(operation) => perform_shift(operation, args),
        Group::Comparison(order) => perform_comparison(order, args),
        Group::Sign(sign) => perform_test(sign, args),
        Group::Plain(p) => perform_plain(p, args),
        Group::Look(p) => perform_look(p, args, stage, store, events),
        Group::Glance(p) => perform_glance(p, args, store),
        Group::Change(p) => perform_change(p, args, stage, store, events),
        Group::Make(p) => perform_make(alloc, p, args, stage, store, world, events),
        Group::OnRecord(p) => {
            perform_on_record(alloc, p, args, stage, kinds, store, world, events)
        }
        Group::ReadByte => perform_read_byte(args, stage, world, events),
        Group::WriteByte => perform_write_byte(args, stage, events),
    }
}

/// Performs a primitive at these operands, which must belong to the stage. At run time what is seen from outside is added to
/// the events, and at compile time nothing is. A block that it makes is a fixed one at compile time, the next one, and at run
/// time a made one, which uses a grant. The records are of these kinds, of which each maker must name each field once.
///
/// At compile time the number of the next fixed block must be below 4,294,967,295, whatever the primitive. At run time fewer
/// than 4,294,967,295 blocks must be made, if the primitive makes one.
///
/// After all answers but a value, nothing is changed. `NoMemory` comes only where memory is taken: for an event at run time,
/// for a block or a record, or for the copies of strings that are appended or compared.
pub fn perform<A: Allocator + Copy>(
    alloc: Global,
    p: Prim,
    args: &[Value],
    stage: Stage,
    kinds: &Kinds,
    store: &mut Store<Value, A>,
    world: &mut World,
    events: &mut Events,
) -> PrimOut
    requires belongs { Belongs (row first_order kinds.now p).stages stage }
    requires room { HasRoom (need p) stage store.old }
    requires kinds { AreKinds kinds.now }
    ensures { Performs (Takes (need p) stage) result (state store.old world.old events.old) (state store.new world.new events.new) (perform first_order kinds.now p args.now stage (record { memory = store.old; world = world.old })) }
{
    perform_group(alloc, group_of(p), args, stage, kinds, store, world, events)
}
