//! The cells that primitives ask for.

ghost use Rattle.std.specs.Prelude.{◌≡◌, pos, ◌+◌, ◌/◌, List};
ghost use Rattle.ps_base.specs.declared.language.PrimName.TheVariants as PrimName;
ghost use Rattle.byte_store.specs.declared.pointer.Value.{Value as ValueSpec};
ghost use Rattle.byte_store.specs.Blocks.{Memory};
ghost use Rattle.byte_store.specs.Operations.{text};
ghost use Rattle.ps_types.specs.declared.types.RecordKind.{RecordKind as KindSpec};
ghost use Rattle.ps_prims.specs.Sorts.{first_order};
ghost use Rattle.ps_prims.specs.InsideSorts.{length_of};
ghost use Rattle.ps_prims.specs.Cells.{asked, asked_at, for_bytes, for_cells, for_texts};

use crate::kinds::fields_of;
use crate::operands::{integer_and_any, one_integer, two_texts};
use crate::records::fit_maker;
use crate::stages::Stage;
use byte_store::{Pointer, Store, Value, World};
use ps_base::Prim;
use ps_types::Kinds;
use std::alloc::Allocator;

// The most cells or bytes of a block.
const MOST: i64 = 1_099_511_627_776;

/// How many cells a primitive asks for at these operands, where these are the kinds of records, before it takes effect: as many
/// as the memory gains where it is performed. What is undefined or wrong asks for none, and so does each primitive at run time
/// where the next allocation is refused. It takes no memory.
pub fn cells_asked<A: Allocator + Copy>(
    p: Prim,
    args: &[Value],
    stage: Stage,
    kinds: &Kinds,
    store: &Store<Value, A>,
    world: &World,
) -> u64
    ensures { result ≡ asked_at first_order kinds.now p args.now stage (record { memory = store.now; world = world.now }) }
{
    match stage {
        Stage::Compile => asked(p, args, kinds, store),
        Stage::Run => {
            if world.granted() {
                asked(p, args, kinds, store)
            } else {
                0
            }
        }
    }
}

// The cells that a primitive asks for, where its allocation is granted.
fn asked<A: Allocator + Copy>(
    p: Prim,
    args: &[Value],
    kinds: &Kinds,
    store: &Store<Value, A>,
) -> u64
    ensures { result ≡ asked first_order kinds.now p args.now store.now }
{
    match p {
        Prim::MakeVector => asked_for_vector(args),
        Prim::AllocateMemory => asked_for_memory(args),
        Prim::StringAppend => asked_for_string(args, store),
        Prim::Maker(k) => asked_for_record(k, args, kinds),
        _ => 0,
    }
}

// The cells of a vector.
fn asked_for_vector(args: &[Value]) -> u64
    ensures { (kinds : List KindSpec) (m : Memory ValueSpec) → result ≡ asked first_order kinds PrimName.MakeVector args.now m }
{
    match integer_and_any(args) {
        Some((count, _)) => for_cells(count),
        None => 0,
    }
}

// The cells of a block of bytes.
fn asked_for_memory(args: &[Value]) -> u64
    ensures { (kinds : List KindSpec) (m : Memory ValueSpec) → result ≡ asked first_order kinds PrimName.AllocateMemory args.now m }
{
    match one_integer(args) {
        Some(size) => for_bytes(size),
        None => 0,
    }
}

// The cells of a string of two.
fn asked_for_string<A: Allocator + Copy>(args: &[Value], store: &Store<Value, A>) -> u64
    ensures { (kinds : List KindSpec) → result ≡ asked first_order kinds PrimName.StringAppend args.now store.now }
{
    match two_texts(args) {
        Some((p, q)) => for_texts(p, q, store),
        None => 0,
    }
}

// The cells of a record.
fn asked_for_record(k: u32, args: &[Value], kinds: &Kinds) -> u64
    ensures { (m : Memory ValueSpec) → result ≡ asked first_order kinds.now (PrimName.Maker k) args.now m }
{
    if fit_maker(k, args, kinds) {
        for_fields(fields_of(kinds, k).len())
    } else {
        0
    }
}

// As many cells as a block may have.
fn for_cells(count: i64) -> u64
    ensures { result ≡ for_cells count }
{
    if count < 1 || MOST < count {
        0
    } else {
        count as u64
    }
}

// The cells of as many bytes as a block may have.
fn for_bytes(size: i64) -> u64
    ensures { result ≡ for_bytes size }
{
    if size < 1 || MOST < size {
        0
    } else {
        (size as u64 + 7) / 8
    }
}

// The cells of as many fields as a block may have.
fn for_fields(count: usize) -> u64
    ensures { result ≡ for_cells (pos count) }
{
    match i64::try_from(count) {
        Ok(count) => for_cells(count),
        Err(_) => 0,
    }
}

// The cells of two strings, one behind the other, where both are there.
#[tactic(auto, using(crate::proofs::TextsAreLong::both_long, crate::proofs::TextsAreLong::first_none, crate::proofs::TextsAreLong::second_none))]
fn for_texts<A: Allocator + Copy>(p: Pointer, q: Pointer, store: &Store<Value, A>) -> u64
    ensures { result ≡ for_texts (text store.now p) (text store.now q) }
{
    match (length_of(p, store), length_of(q, store)) {
        (Some(a), Some(b)) => cells_of_lengths(a, b),
        (None, _) => 0,
        (_, None) => 0,
    }
}

// The length of a string, where it is there.
#[tactic(auto, using(crate::proofs::TextsAreLong::is_long, crate::proofs::TextsAreLong::is_none))]
fn length_of<A: Allocator + Copy>(p: Pointer, store: &Store<Value, A>) -> Option<u64>
    ensures { result ≡ length_of (text store.now p) }
{
    match store.text_length(p) {
        Ok(n) => Some(n.unsigned_abs()),
        Err(_) => None,
    }
}

// The cells of a string that is so long and so much longer.
fn cells_of_lengths(a: u64, b: u64) -> u64
    ensures { result ≡ (a + b + 8) / 8 }
{
    ((u128::from(a) + u128::from(b) + 8) / 8) as u64
}
