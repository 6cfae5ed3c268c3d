//! Primitives that look at the memory, which is seen from outside.

ghost use Rattle.std.specs.Prelude.{◌≡◌, [], ◌∷◌, pos};
ghost use Rattle.byte_store.specs.declared.event.Event.TheVariants as Event;
ghost use Rattle.byte_store.specs.declared.pointer.Value.TheVariants as Value;
ghost use Rattle.byte_store.specs.Operations.{and_then, get, load, load_word, plus, text_at, text_length};
ghost use Rattle.byte_store.specs.Words.{word_of};
ghost use Rattle.ps_base.specs.declared.language.PrimName.TheVariants as PrimName;
ghost use Rattle.ps_prims.specs.Sorts.{first_order};
ghost use Rattle.ps_prims.specs.Rows.{char_of, perform_row, row};
ghost use Rattle.ps_prims.specs.InsideGroups.{look_row};
ghost use Rattle.ps_prims.specs.Inside.{Found};
ghost use Rattle.ps_prims.specs.InsidePerforming.{Looks};

use crate::groups::Look;
use crate::numbers;
use crate::operands::{one_address, one_text, text_and_integer, vector_and_integer};
use crate::outcome::PrimOut;
use crate::stages::Stage;
use crate::telling::told;
use byte_store::{Cell, Event, Events, Pointer, Store, Value};
use ps_base::Op;
use std::alloc::Allocator;

#[tactic(auto, using(crate::proofs::LooksChangeNothing::found_told))]
fn found_string_length<A: Allocator + Copy>(
    p: Pointer,
    stage: Stage,
    store: &Store<Value, A>,
    events: &mut Events,
) -> PrimOut
    ensures { Found result (text_length store.now p) (λ n. Value.Integer n) (λ n. Event.Length p n ∷ []) stage events.old events.new }
{
    match store.text_length(p) {
        Ok(n) => told(events, stage, Event::Length(p, n), Value::Integer(n)),
        Err(op) => PrimOut::Undefined(op),
    }
}

#[tactic(auto, using(crate::proofs::LooksAreTheRows::string_length_looks, crate::proofs::LooksChangeNothing::looks_wrong))]
fn perform_string_length<A: Allocator + Copy>(
    args: &[Value],
    stage: Stage,
    store: &Store<Value, A>,
    events: &mut Events,
) -> PrimOut
    ensures { Looks result stage store.now events.old events.new (perform_row first_order (row first_order [] PrimName.StringLength) args.now) }
{
    match one_text(args) {
        Some(p) => found_string_length(p, stage, store, events),
        None => PrimOut::Wrong,
    }
}

#[tactic(auto, using(crate::proofs::LooksAreTheRows::string_ref_looks, crate::proofs::LooksChangeNothing::looks_wrong))]
fn perform_string_ref<A: Allocator + Copy>(
    args: &[Value],
    stage: Stage,
    store: &Store<Value, A>,
    events: &mut Events,
) -> PrimOut
    ensures { Looks result stage store.now events.old events.new (perform_row first_order (row first_order [] PrimName.StringRef) args.now) }
{
    match text_and_integer(args) {
        Some((p, k)) => found_string_ref(p, k, stage, store, events),
        None => PrimOut::Wrong,
    }
}

#[tactic(auto, using(crate::proofs::LooksAreTheRows::vector_ref_looks, crate::proofs::LooksChangeNothing::looks_wrong))]
fn perform_vector_ref<A: Allocator + Copy>(
    args: &[Value],
    stage: Stage,
    store: &Store<Value, A>,
    events: &mut Events,
) -> PrimOut
    ensures { Looks result stage store.now events.old events.new (perform_row first_order (row first_order [] PrimName.VectorRef) args.now) }
{
    match vector_and_integer(args) {
        Some((p, k)) => found_vector_ref(p, k, stage, store, events),
        None => PrimOut::Wrong,
    }
}

#[tactic(auto, using(crate::proofs::LooksChangeNothing::found_told))]
fn found_byte_ref<A: Allocator + Copy>(
    p: Pointer,
    stage: Stage,
    store: &Store<Value, A>,
    events: &mut Events,
) -> PrimOut
    ensures { Found result (load store.now p) (λ n. Value.Integer n) (λ n. Event.Load p n ∷ []) stage events.old events.new }
{
    match store.load(p) {
        Ok(n) => told(events, stage, Event::Load(p, n), Value::Integer(n)),
        Err(op) => PrimOut::Undefined(op),
    }
}

#[tactic(auto, using(crate::proofs::LooksAreTheRows::byte_ref_looks, crate::proofs::LooksChangeNothing::looks_wrong))]
fn perform_byte_ref<A: Allocator + Copy>(
    args: &[Value],
    stage: Stage,
    store: &Store<Value, A>,
    events: &mut Events,
) -> PrimOut
    ensures { Looks result stage store.now events.old events.new (perform_row first_order (row first_order [] PrimName.UnsignedByteRef) args.now) }
{
    match one_address(args) {
        Some(p) => found_byte_ref(p, stage, store, events),
        None => PrimOut::Wrong,
    }
}

#[tactic(auto, using(crate::proofs::LooksChangeNothing::found_told))]
fn found_word_ref<A: Allocator + Copy>(
    p: Pointer,
    stage: Stage,
    store: &Store<Value, A>,
    events: &mut Events,
) -> PrimOut
    ensures { Found result (load_word store.now p) (λ n. Value.Integer n) (λ n. Event.LoadWord p n ∷ []) stage events.old events.new }
{
    match store.load_word(p) {
        Ok(n) => told(events, stage, Event::LoadWord(p, n), Value::Integer(n)),
        Err(op) => PrimOut::Undefined(op),
    }
}

#[tactic(auto, using(crate::proofs::LooksAreTheRows::word_ref_looks, crate::proofs::LooksChangeNothing::looks_wrong))]
fn perform_word_ref<A: Allocator + Copy>(
    args: &[Value],
    stage: Stage,
    store: &Store<Value, A>,
    events: &mut Events,
) -> PrimOut
    ensures { Looks result stage store.now events.old events.new (perform_row first_order (row first_order [] PrimName.WordRef) args.now) }
{
    match one_address(args) {
        Some(p) => found_word_ref(p, stage, store, events),
        None => PrimOut::Wrong,
    }
}

// The byte at an index of a string, as a character.
fn char_at<A: Allocator + Copy>(p: Pointer, k: i64, store: &Store<Value, A>) -> Result<u8, Op>
    ensures { result ≡ and_then (text_at store.now p k) char_of }
{
    match store.text_at(p, k) {
        Ok(byte) => numbers::character(byte),
        Err(op) => Err(op),
    }
}

#[tactic(auto, using(crate::proofs::LooksChangeNothing::found_told, crate::proofs::WhatIsReadIsAPlace::text_is_further, crate::proofs::WhatIsReadIsAPlace::moved_is_plus))]
fn found_string_ref<A: Allocator + Copy>(
    p: Pointer,
    k: i64,
    stage: Stage,
    store: &Store<Value, A>,
    events: &mut Events,
) -> PrimOut
    ensures { Found result (and_then (text_at store.now p k) char_of) (λ c. Value.Char c) (λ c. Event.Load (plus p k) (pos c) ∷ []) stage events.old events.new }
{
    match char_at(p, k, store) {
        Ok(c) => match store.move_by(p, k) {
            Ok(q) => told(events, stage, Event::Load(q, i64::from(c)), Value::Char(c)),
            Err(op) => PrimOut::Undefined(op),
        },
        Err(op) => PrimOut::Undefined(op),
    }
}

/// What stands so much further on than a pointer in a block of cells.
#[tactic(auto, using(crate::proofs::LooksChangeNothing::found_told, crate::proofs::WhatIsReadIsAPlace::get_is_further, crate::proofs::WhatIsReadIsAPlace::moved_is_plus))]
pub fn found_vector_ref<A: Allocator + Copy>(
    p: Pointer,
    k: i64,
    stage: Stage,
    store: &Store<Value, A>,
    events: &mut Events,
) -> PrimOut
    ensures { Found result (get store.now p k) (λ x. x) (λ x. Event.Get (plus p k) (word_of x) ∷ []) stage events.old events.new }
{
    match store.get(p, k) {
        Ok(x) => match store.move_by(p, k) {
            Ok(q) => told(events, stage, Event::Get(q, x.word()), x),
            Err(op) => PrimOut::Undefined(op),
        },
        Err(op) => PrimOut::Undefined(op),
    }
}

/// Performs a primitive that looks at the memory, which is seen from outside.
pub fn perform_look<A: Allocator + Copy>(
    p: Look,
    args: &[Value],
    stage: Stage,
    store: &Store<Value, A>,
    events: &mut Events,
) -> PrimOut
    ensures { Looks result stage store.now events.old events.new (perform_row first_order (look_row p) args.now) }
{
    match p {
        Look::StringLength => perform_string_length(args, stage, store, events),
        Look::StringRef => perform_string_ref(args, stage, store, events),
        Look::VectorRef => perform_vector_ref(args, stage, store, events),
        Look::ByteRef => perform_byte_ref(args, stage, store, events),
        Look::WordRef => perform_word_ref(args, stage, store, events),
    }
}
