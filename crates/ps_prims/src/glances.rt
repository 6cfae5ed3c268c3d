//! Primitives that look at the memory, which is not seen from outside.

ghost use Rattle.std.specs.Prelude.{◌≡◌, []};
ghost use Rattle.byte_store.specs.declared.pointer.Value.TheVariants as Value;
ghost use Rattle.byte_store.specs.Operations.{before, cell_count, difference, is_null, moved, same};
ghost use Rattle.ps_base.specs.declared.language.PrimName.TheVariants as PrimName;
ghost use Rattle.ps_prims.specs.Sorts.{first_order};
ghost use Rattle.ps_prims.specs.Rows.{perform_row, row};
ghost use Rattle.ps_prims.specs.InsideGroups.{glance_row};
ghost use Rattle.ps_prims.specs.Inside.{FoundQuietly};
ghost use Rattle.ps_prims.specs.InsidePerforming.{LooksQuietly};

use crate::groups::Glance;
use crate::operands::{address_and_integer, one_address, one_vector, two_addresses};
use crate::outcome::PrimOut;
use byte_store::{Pointer, Store, Value};
use std::alloc::Allocator;

fn found_is_null<A: Allocator + Copy>(p: Pointer, store: &Store<Value, A>) -> PrimOut
    ensures { FoundQuietly result (is_null store.now p) (λ b. Value.Boolean b) }
{
    match store.is_null(p) {
        Ok(b) => PrimOut::Value(Value::Boolean(b)),
        Err(op) => PrimOut::Undefined(op),
    }
}

fn found_address_add<A: Allocator + Copy>(p: Pointer, k: i64, store: &Store<Value, A>) -> PrimOut
    ensures { FoundQuietly result (moved store.now p k) (λ q. Value.Address q) }
{
    match store.move_by(p, k) {
        Ok(q) => PrimOut::Value(Value::Address(q)),
        Err(op) => PrimOut::Undefined(op),
    }
}

fn found_address_difference<A: Allocator + Copy>(
    p: Pointer,
    q: Pointer,
    store: &Store<Value, A>,
) -> PrimOut
    ensures { FoundQuietly result (difference store.now p q) (λ n. Value.Integer n) }
{
    match store.difference(p, q) {
        Ok(n) => PrimOut::Value(Value::Integer(n)),
        Err(op) => PrimOut::Undefined(op),
    }
}

fn found_address_equal<A: Allocator + Copy>(
    p: Pointer,
    q: Pointer,
    store: &Store<Value, A>,
) -> PrimOut
    ensures { FoundQuietly result (same store.now p q) (λ b. Value.Boolean b) }
{
    match store.same(p, q) {
        Ok(b) => PrimOut::Value(Value::Boolean(b)),
        Err(op) => PrimOut::Undefined(op),
    }
}

fn found_address_less<A: Allocator + Copy>(
    p: Pointer,
    q: Pointer,
    store: &Store<Value, A>,
) -> PrimOut
    ensures { FoundQuietly result (before store.now p q) (λ b. Value.Boolean b) }
{
    match store.before(p, q) {
        Ok(b) => PrimOut::Value(Value::Boolean(b)),
        Err(op) => PrimOut::Undefined(op),
    }
}

fn found_vector_length<A: Allocator + Copy>(p: Pointer, store: &Store<Value, A>) -> PrimOut
    ensures { FoundQuietly result (cell_count store.now p) (λ n. Value.Integer n) }
{
    match store.cell_count(p) {
        Ok(n) => PrimOut::Value(Value::Integer(n)),
        Err(op) => PrimOut::Undefined(op),
    }
}

#[tactic(auto, using(crate::proofs::LooksAreTheRows::is_null_vector_looks, crate::proofs::LooksChangeNothing::looks_quietly_wrong))]
fn perform_is_null_vector<A: Allocator + Copy>(args: &[Value], store: &Store<Value, A>) -> PrimOut
    ensures { LooksQuietly result store.now (perform_row first_order (row first_order [] PrimName.IsNullVector) args.now) }
{
    match one_vector(args) {
        Some(p) => found_is_null(p, store),
        None => PrimOut::Wrong,
    }
}

#[tactic(auto, using(crate::proofs::LooksAreTheRows::is_null_address_looks, crate::proofs::LooksChangeNothing::looks_quietly_wrong))]
fn perform_is_null_address<A: Allocator + Copy>(args: &[Value], store: &Store<Value, A>) -> PrimOut
    ensures { LooksQuietly result store.now (perform_row first_order (row first_order [] PrimName.IsNullAddress) args.now) }
{
    match one_address(args) {
        Some(p) => found_is_null(p, store),
        None => PrimOut::Wrong,
    }
}

#[tactic(auto, using(crate::proofs::LooksAreTheRows::address_add_looks, crate::proofs::LooksChangeNothing::looks_quietly_wrong))]
fn perform_address_add<A: Allocator + Copy>(args: &[Value], store: &Store<Value, A>) -> PrimOut
    ensures { LooksQuietly result store.now (perform_row first_order (row first_order [] PrimName.AddressAdd) args.now) }
{
    match address_and_integer(args) {
        Some((p, k)) => found_address_add(p, k, store),
        None => PrimOut::Wrong,
    }
}

#[tactic(auto, using(crate::proofs::LooksAreTheRows::address_difference_looks, crate::proofs::LooksChangeNothing::looks_quietly_wrong))]
fn perform_address_difference<A: Allocator + Copy>(
    args: &[Value],
    store: &Store<Value, A>,
) -> PrimOut
    ensures { LooksQuietly result store.now (perform_row first_order (row first_order [] PrimName.AddressDifference) args.now) }
{
    match two_addresses(args) {
        Some((p, q)) => found_address_difference(p, q, store),
        None => PrimOut::Wrong,
    }
}

#[tactic(auto, using(crate::proofs::LooksAreTheRows::address_equal_looks, crate::proofs::LooksChangeNothing::looks_quietly_wrong))]
fn perform_address_equal<A: Allocator + Copy>(args: &[Value], store: &Store<Value, A>) -> PrimOut
    ensures { LooksQuietly result store.now (perform_row first_order (row first_order [] PrimName.AddressEqual) args.now) }
{
    match two_addresses(args) {
        Some((p, q)) => found_address_equal(p, q, store),
        None => PrimOut::Wrong,
    }
}

#[tactic(auto, using(crate::proofs::LooksAreTheRows::address_less_looks, crate::proofs::LooksChangeNothing::looks_quietly_wrong))]
fn perform_address_less<A: Allocator + Copy>(args: &[Value], store: &Store<Value, A>) -> PrimOut
    ensures { LooksQuietly result store.now (perform_row first_order (row first_order [] PrimName.AddressLess) args.now) }
{
    match two_addresses(args) {
        Some((p, q)) => found_address_less(p, q, store),
        None => PrimOut::Wrong,
    }
}

#[tactic(auto, using(crate::proofs::LooksAreTheRows::vector_length_looks, crate::proofs::LooksChangeNothing::looks_quietly_wrong))]
fn perform_vector_length<A: Allocator + Copy>(args: &[Value], store: &Store<Value, A>) -> PrimOut
    ensures { LooksQuietly result store.now (perform_row first_order (row first_order [] PrimName.VectorLength) args.now) }
{
    match one_vector(args) {
        Some(p) => found_vector_length(p, store),
        None => PrimOut::Wrong,
    }
}

/// Performs a primitive that looks at the memory, which is not seen from outside.
pub fn perform_glance<A: Allocator + Copy>(
    p: Glance,
    args: &[Value],
    store: &Store<Value, A>,
) -> PrimOut
    ensures { LooksQuietly result store.now (perform_row first_order (glance_row p) args.now) }
{
    match p {
        Glance::IsNullVector => perform_is_null_vector(args, store),
        Glance::IsNullAddress => perform_is_null_address(args, store),
        Glance::AddressAdd => perform_address_add(args, store),
        Glance::AddressDifference => perform_address_difference(args, store),
        Glance::AddressEqual => perform_address_equal(args, store),
        Glance::AddressLess => perform_address_less(args, store),
        Glance::VectorLength => perform_vector_length(args, store),
    }
}
