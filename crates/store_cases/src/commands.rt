//! Commands, and what each of them answers.
//!
//! Beside the primitives these are `(asks (PRIMITIVE VALUE ...))`, the cells that it would ask for, `(fix-bytes N BYTE ...)` and `(fix-cells N VALUE ...)`, which add fixed block N,
//! `(cells COUNT)`, which makes a block of cells of which none is set, `(world (BYTE ...) (GRANT ...))`, another world,
//! `(use-grant)` and `(read)`, and what only looks: `(peek)`, `(granted)`, `(next-fixed)`, `(next-made)`, `(fixed-count)`,
//! `(fixed N)`, what fixed block N has, and `(fixed-blocks)`, each with its number.

ghost use Rattle.std.specs.Prelude.{◌≡◌, ◌<◌, ◌≤◌, length, true, IsTrue};
ghost use Rattle.byte_store.specs.Blocks.{next_number};
ghost use Rattle.ps_prims.specs.Kinds.{AreKinds};

use crate::blocks::{block_text, blocks_text};
use crate::data::{byte_of, flag_of, form_of, integer_of, members, number_of, values_of, word};
use crate::kinds::kinds;
use crate::scene::Scene;
use crate::tables::{PRIMS, found};
use crate::trouble::Trouble;
use byte_store::{Base, Pointer, Store, Value, World};
use ps_base::{Bytes, Flags, Items, Names, Op, Prim};
use ps_datum::Datum;
use ps_prims::{PrimOut, Stage, Stages, cells_asked, perform, stages_of};
use ps_types::Kinds;
use std::alloc::{AllocError, Global};

// Whether there is a number for one more made block.
fn has_room(store: &Store<Value>) -> bool
    ensures { IsTrue result → length store.now.made < 4294967295 }
{
    let last = Pointer::At(Base::Made(4_294_967_294), 0);
    store.move_by(last, 0) == Err(Op::Bounds)
}

// Performs a primitive at run time.
fn at_run(
    alloc: Global,
    p: Prim,
    values: &[Value],
    kinds: &Kinds,
    scene: &mut Scene,
) -> Option<PrimOut>
    requires { AreKinds kinds.now }
{
    let (store, world, events) = (&mut scene.store, &mut scene.world, &mut scene.events);
    if !has_room(store) {
        return None;
    }
    match stages_of(p) {
        Stages::Both => Some(perform(alloc, p, values, Stage::Run, kinds, store, world, events)),
        Stages::RunOnly => {
            Some(perform(alloc, p, values, Stage::Run, kinds, store, world, events))
        }
        Stages::CompileOnly => None,
    }
}

// Performs a primitive at compile time.
fn at_compile(
    alloc: Global,
    p: Prim,
    values: &[Value],
    kinds: &Kinds,
    scene: &mut Scene,
) -> Option<PrimOut>
    requires { AreKinds kinds.now }
{
    let (store, world, events) = (&mut scene.store, &mut scene.world, &mut scene.events);
    if store.next_fixed() == u32::MAX {
        return None;
    }
    match stages_of(p) {
        Stages::Both => {
            Some(perform(
                alloc,
                p,
                values,
                Stage::Compile,
                kinds,
                store,
                world,
                events,
            ))
        }
        Stages::CompileOnly => {
            Some(perform(
                alloc,
                p,
                values,
                Stage::Compile,
                kinds,
                store,
                world,
                events,
            ))
        }
        Stages::RunOnly => None,
    }
}

fn performed(
    alloc: Global,
    p: Prim,
    values: &[Value],
    stage: Stage,
    scene: &mut Scene,
) -> Result<String, Trouble> {
    let kinds = kinds(alloc)?;
    let out = match stage {
        Stage::Compile => at_compile(alloc, p, values, &kinds, scene),
        Stage::Run => at_run(alloc, p, values, &kinds, scene),
    };
    Ok(out_text(alloc, out)?)
}

fn out_text(alloc: Global, out: Option<PrimOut>) -> Result<String, AllocError> {
    match out {
        Some(PrimOut::Value(value)) => format!(in alloc; "{value:?}"),
        Some(PrimOut::Undefined(op)) => format!(in alloc; "{op:?}"),
        Some(PrimOut::Wrong) => String::from_str(alloc, "wrong"),
        Some(PrimOut::NoMemory) => String::from_str(alloc, "no memory"),
        None => String::from_str(alloc, "not at this stage"),
    }
}

// How many cells a primitive asks for.
fn asked(
    alloc: Global,
    names: &Names,
    d: &Datum,
    stage: Stage,
    scene: &Scene,
) -> Result<String, Trouble> {
    let (first, parts) = form_of(d)?;
    let Some(p) = found(PRIMS, word(names, first)) else {
        return Err(Trouble::Unread(first.place));
    };
    let values = values_of(alloc, names, parts)?;
    let kinds = kinds(alloc)?;
    let count = cells_asked(
        p,
        values.as_slice(),
        stage,
        &kinds,
        &scene.store,
        &scene.world,
    );
    Ok(format!(in alloc; "{count}")?)
}

fn bytes_of(alloc: Global, parts: &[Datum]) -> Result<Bytes, Trouble> {
    let mut bytes = Items::new(alloc);
    for d in parts {
        bytes.push(byte_of(d)?)?;
    }
    Ok(bytes)
}

fn flags_of(alloc: Global, parts: &[Datum]) -> Result<Flags, Trouble> {
    let mut flags = Items::new(alloc);
    for d in parts {
        flags.push(flag_of(d)?)?;
    }
    Ok(flags)
}

// Whether a number may be that of the next fixed block.
fn may_be_fixed(store: &Store<Value>, number: u32) -> bool
    ensures { result ≡ true → (next_number store.now.fixed ≤ number) × (number < 4294967295) }
{
    store.next_fixed() <= number && number < u32::MAX
}

fn fix_bytes(number: u32, bytes: &[u8], store: &mut Store<Value>) -> &'static str {
    if !may_be_fixed(store, number) {
        return "no number";
    }
    match store.fix_bytes(number, bytes) {
        Ok(()) => "fixed",
        Err(_) => "no memory",
    }
}

fn fix_cells(number: u32, cells: Items<Value>, store: &mut Store<Value>) -> &'static str {
    if !may_be_fixed(store, number) {
        return "no number";
    }
    match store.fix_cells(number, cells) {
        Ok(()) => "fixed",
        Err(_) => "no memory",
    }
}

fn cells(alloc: Global, count: i64, scene: &mut Scene) -> Result<String, AllocError> {
    if !has_room(&scene.store) {
        return String::from_str(alloc, "no room");
    }
    match scene.store.allocate_cells(&mut scene.world, count, None) {
        Ok(p) => format!(in alloc; "{p:?}"),
        Err(fault) => format!(in alloc; "{fault:?}"),
    }
}

fn next_made(store: &Store<Value>) -> u32 {
    if has_room(store) {
        store.next_made()
    } else {
        u32::MAX
    }
}

// A command on one block or on the world, by its word.
fn other(
    alloc: Global,
    names: &Names,
    first: &Datum,
    parts: &[Datum],
    scene: &mut Scene,
) -> Result<String, Trouble> {
    match (word(names, first), parts) {
        (b"fix-bytes", [number, bytes @ ..]) => {
            let bytes = bytes_of(alloc, bytes)?;
            let done = fix_bytes(number_of(number)?, bytes.as_slice(), &mut scene.store);
            Ok(String::from_str(alloc, done)?)
        }
        (b"fix-cells", [number, cells @ ..]) => {
            let cells = Items::from_vec(values_of(alloc, names, cells)?);
            let done = fix_cells(number_of(number)?, cells, &mut scene.store);
            Ok(String::from_str(alloc, done)?)
        }
        (b"cells", [count]) => Ok(cells(alloc, integer_of(count)?, scene)?),
        (b"world", [input, grants]) => {
            let input = bytes_of(alloc, members(input)?)?;
            scene.world = World::new(input, flags_of(alloc, members(grants)?)?);
            Ok(String::from_str(alloc, "world")?)
        }
        (b"use-grant", []) => {
            scene.world.use_grant();
            Ok(String::from_str(alloc, "used")?)
        }
        (b"read", []) => Ok(format!(in alloc; "{:?}", scene.world.read())?),
        _ => look(alloc, names, first, parts, scene),
    }
}

// A command that only looks, by its word.
fn look(
    alloc: Global,
    names: &Names,
    first: &Datum,
    parts: &[Datum],
    scene: &Scene,
) -> Result<String, Trouble> {
    match (word(names, first), parts) {
        (b"peek", []) => Ok(format!(in alloc; "{:?}", scene.world.peek())?),
        (b"granted", []) => Ok(format!(in alloc; "{:?}", scene.world.granted())?),
        (b"next-fixed", []) => Ok(format!(in alloc; "{:?}", scene.store.next_fixed())?),
        (b"next-made", []) => Ok(format!(in alloc; "{:?}", next_made(&scene.store))?),
        (b"fixed-count", []) => Ok(format!(in alloc; "{:?}", scene.store.fixed_count())?),
        (b"fixed", [number]) => block_text(alloc, number, &scene.store),
        (b"fixed-blocks", []) => blocks_text(alloc, &scene.store),
        _ => Err(Trouble::Unread(first.place)),
    }
}

/// What a command answers.
pub fn answer(
    alloc: Global,
    names: &Names,
    d: &Datum,
    stage: Stage,
    scene: &mut Scene,
) -> Result<String, Trouble> {
    let (first, parts) = form_of(d)?;
    match (found(PRIMS, word(names, first)), word(names, first), parts) {
        (Some(p), _, _) => {
            let values = values_of(alloc, names, parts)?;
            performed(alloc, p, values.as_slice(), stage, scene)
        }
        (None, b"asks", [d]) => asked(alloc, names, d, stage, scene),
        (None, _, _) => other(alloc, names, first, parts, scene),
    }
}
