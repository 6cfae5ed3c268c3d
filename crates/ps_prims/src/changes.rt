//! Primitives that change the memory.

ghost use Rattle.std.specs.Prelude.{[]};
ghost use Rattle.byte_store.specs.declared.event.Event.TheVariants as Event;
ghost use Rattle.byte_store.specs.Operations.{plus, put, release, set_byte, set_word};
ghost use Rattle.byte_store.specs.Words.{word_of};
ghost use Rattle.ps_base.specs.declared.language.PrimName.TheVariants as PrimName;
ghost use Rattle.ps_prims.specs.Sorts.{first_order};
ghost use Rattle.ps_prims.specs.Rows.{perform_row, row};
ghost use Rattle.ps_prims.specs.InsideGroups.{change_row};
ghost use Rattle.ps_prims.specs.Inside.{Changed};
ghost use Rattle.ps_prims.specs.InsidePerforming.{Changes};

use crate::groups::Change;
use crate::operands::{address_and_integer, one_address, one_vector, vector_integer_any};
use crate::outcome::PrimOut;
use crate::stages::Stage;
use crate::telling::{tell, untell};
use byte_store::{Cell, Event, Events, Pointer, Store, Value};
use std::alloc::Allocator;

fn change_block<A: Allocator + Copy>(
    p: Pointer,
    stage: Stage,
    store: &mut Store<Value, A>,
    events: &mut Events,
) -> PrimOut
    ensures { Changed result (release store.old p) (Event.Free p) stage store.old store.new events.old events.new }
{
    if tell(events, stage, Event::Free(p)).is_err() {
        return PrimOut::NoMemory;
    }
    match store.release(p) {
        Ok(()) => PrimOut::Value(Value::Unit),
        Err(op) => {
            untell(events, stage);
            PrimOut::Undefined(op)
        }
    }
}

fn change_byte<A: Allocator + Copy>(
    p: Pointer,
    byte: i64,
    stage: Stage,
    store: &mut Store<Value, A>,
    events: &mut Events,
) -> PrimOut
    ensures { Changed result (set_byte store.old p byte) (Event.Keep p byte) stage store.old store.new events.old events.new }
{
    if tell(events, stage, Event::Keep(p, byte)).is_err() {
        return PrimOut::NoMemory;
    }
    match store.set_byte(p, byte) {
        Ok(()) => PrimOut::Value(Value::Unit),
        Err(op) => {
            untell(events, stage);
            PrimOut::Undefined(op)
        }
    }
}

fn change_word<A: Allocator + Copy>(
    p: Pointer,
    word: i64,
    stage: Stage,
    store: &mut Store<Value, A>,
    events: &mut Events,
) -> PrimOut
    ensures { Changed result (set_word store.old p word) (Event.KeepWord p word) stage store.old store.new events.old events.new }
{
    if tell(events, stage, Event::KeepWord(p, word)).is_err() {
        return PrimOut::NoMemory;
    }
    match store.set_word(p, word) {
        Ok(()) => PrimOut::Value(Value::Unit),
        Err(op) => {
            untell(events, stage);
            PrimOut::Undefined(op)
        }
    }
}

// Puts a value so much further on than a pointer, which is where `q` leads.
fn put_at<A: Allocator + Copy>(
    p: Pointer,
    k: i64,
    q: Pointer,
    x: Value,
    stage: Stage,
    store: &mut Store<Value, A>,
    events: &mut Events,
) -> PrimOut
    ensures { Changed result (put store.old p k x) (Event.Put q (word_of x)) stage store.old store.new events.old events.new }
{
    if tell(events, stage, Event::Put(q, x.word())).is_err() {
        return PrimOut::NoMemory;
    }
    match store.put(p, k, x) {
        Ok(()) => PrimOut::Value(Value::Unit),
        Err(op) => {
            untell(events, stage);
            PrimOut::Undefined(op)
        }
    }
}

/// Puts a value so much further on than a pointer in a block of cells.
#[tactic(auto, using(crate::proofs::ChangesAreTheRows::put_is_further, crate::proofs::WhatIsReadIsAPlace::moved_is_plus))]
pub fn change_cell<A: Allocator + Copy>(
    p: Pointer,
    k: i64,
    x: Value,
    stage: Stage,
    store: &mut Store<Value, A>,
    events: &mut Events,
) -> PrimOut
    ensures { Changed result (put store.old p k x) (Event.Put (plus p k) (word_of x)) stage store.old store.new events.old events.new }
{
    match store.move_by(p, k) {
        Ok(q) => put_at(p, k, q, x, stage, store, events),
        Err(op) => PrimOut::Undefined(op),
    }
}

#[tactic(auto, using(crate::proofs::ChangesAreTheRows::vector_set_changes, crate::proofs::ChangesAreTheRows::changes_wrong))]
fn perform_vector_set<A: Allocator + Copy>(
    args: &[Value],
    stage: Stage,
    store: &mut Store<Value, A>,
    events: &mut Events,
) -> PrimOut
    ensures { Changes result stage store.old store.new events.old events.new (perform_row first_order (row first_order [] PrimName.VectorSet) args.now) }
{
    match vector_integer_any(args) {
        Some((p, k, x)) => change_cell(p, k, x, stage, store, events),
        None => PrimOut::Wrong,
    }
}

#[tactic(auto, using(crate::proofs::ChangesAreTheRows::free_vector_changes, crate::proofs::ChangesAreTheRows::changes_wrong))]
fn perform_deallocate_vector<A: Allocator + Copy>(
    args: &[Value],
    stage: Stage,
    store: &mut Store<Value, A>,
    events: &mut Events,
) -> PrimOut
    ensures { Changes result stage store.old store.new events.old events.new (perform_row first_order (row first_order [] PrimName.DeallocateVector) args.now) }
{
    match one_vector(args) {
        Some(p) => change_block(p, stage, store, events),
        None => PrimOut::Wrong,
    }
}

#[tactic(auto, using(crate::proofs::ChangesAreTheRows::free_memory_changes, crate::proofs::ChangesAreTheRows::changes_wrong))]
fn perform_deallocate_memory<A: Allocator + Copy>(
    args: &[Value],
    stage: Stage,
    store: &mut Store<Value, A>,
    events: &mut Events,
) -> PrimOut
    ensures { Changes result stage store.old store.new events.old events.new (perform_row first_order (row first_order [] PrimName.DeallocateMemory) args.now) }
{
    match one_address(args) {
        Some(p) => change_block(p, stage, store, events),
        None => PrimOut::Wrong,
    }
}

#[tactic(auto, using(crate::proofs::ChangesAreTheRows::byte_set_changes, crate::proofs::ChangesAreTheRows::changes_wrong))]
fn perform_byte_set<A: Allocator + Copy>(
    args: &[Value],
    stage: Stage,
    store: &mut Store<Value, A>,
    events: &mut Events,
) -> PrimOut
    ensures { Changes result stage store.old store.new events.old events.new (perform_row first_order (row first_order [] PrimName.UnsignedByteSet) args.now) }
{
    match address_and_integer(args) {
        Some((p, byte)) => change_byte(p, byte, stage, store, events),
        None => PrimOut::Wrong,
    }
}

#[tactic(auto, using(crate::proofs::ChangesAreTheRows::word_set_changes, crate::proofs::ChangesAreTheRows::changes_wrong))]
fn perform_word_set<A: Allocator + Copy>(
    args: &[Value],
    stage: Stage,
    store: &mut Store<Value, A>,
    events: &mut Events,
) -> PrimOut
    ensures { Changes result stage store.old store.new events.old events.new (perform_row first_order (row first_order [] PrimName.WordSet) args.now) }
{
    match address_and_integer(args) {
        Some((p, word)) => change_word(p, word, stage, store, events),
        None => PrimOut::Wrong,
    }
}

/// Performs a primitive that changes the memory.
pub fn perform_change<A: Allocator + Copy>(
    p: Change,
    args: &[Value],
    stage: Stage,
    store: &mut Store<Value, A>,
    events: &mut Events,
) -> PrimOut
    ensures { Changes result stage store.old store.new events.old events.new (perform_row first_order (change_row p) args.now) }
{
    match p {
        Change::VectorSet => perform_vector_set(args, stage, store, events),
        Change::DeallocateVector => perform_deallocate_vector(args, stage, store, events),
        Change::DeallocateMemory => perform_deallocate_memory(args, stage, store, events),
        Change::ByteSet => perform_byte_set(args, stage, store, events),
        Change::WordSet => perform_word_set(args, stage, store, events),
    }
}
