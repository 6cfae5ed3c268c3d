//! Runs of the units that texts are translated to.

ghost use Rattle.std.specs.Prelude.{◌≤◌, length};
ghost use Rattle.c_ast.specs.WellFormed.{IsWellFormed};

use crate::failure::Failure;
use crate::parts::{members, number, text};
use byte_store::{Event, Events, World, write_event};
use c_ast::CUnit;
use c_meaning::{CState, StepOut, step};
use ps_base::{
    Bytes, Items, MemorySink, Names, Sink, op_word_of, put, put_integer, put_number, write_all,
};
use ps_command::translate;
use ps_datum::Datum;
use std::alloc::Global;

// What the machine did in so many steps, and how many frames waited at most.
#[derive(Drop)]
struct Run {
    out: StepOut,
    waiting: usize,
    events: Events,
}

// Performs so many steps of a unit, also behind its end, where a further step answers the same.
fn perform(alloc: Global, unit: &CUnit, input: Bytes, steps: u64) -> Result<Run, Failure>
    requires { IsWellFormed unit.now }
{
    let mut state = CState::start(alloc, unit)?;
    let mut world = World::new(input, Items::new(alloc));
    let mut events = Items::new(alloc);
    let mut out = StepOut::Going;
    let mut waiting = 0;
    for _ in 0..steps {
        out = step(unit, &mut state, &mut world, &mut events);
        waiting = waiting.max(state.waiting());
    }
    Ok(Run {
        out,
        waiting,
        events,
    })
}

// Writes the line of an event, with `; ` for its end.
fn put_event<O: Sink>(alloc: Global, event: &Event, out: &mut O) -> Result<(), Failure> {
    let mut line = MemorySink::new(alloc, 100, 100, Items::new(alloc))?;
    write_event(event, &mut line)?;
    if let Some(front) = line.bytes().strip_suffix(b"\n") {
        write_all(out, front)?;
    }
    Ok(write_all(out, b"; ")?)
}

// Writes how a run ended.
fn put_end<O: Sink>(end: StepOut, out: &mut O) -> Result<(), Failure> {
    let written = match end {
        StepOut::Going => put(out, Ok(()), b"running"),
        StepOut::NoMemory => put(out, Ok(()), b"no memory"),
        StepOut::Stuck(op) => {
            let so_far = put(out, Ok(()), b"stuck ");
            put(out, so_far, op_word_of(op))
        }
        StepOut::Returned(value) => {
            let so_far = put(out, Ok(()), b"returned ");
            put_integer(out, so_far, value)
        }
    };
    Ok(put(out, written, b"\n")?)
}

// Writes what a run did, how many frames it had at most, and how it ended.
fn put_outcome<O: Sink>(alloc: Global, run: &Run, out: &mut O) -> Result<(), Failure> {
    for event in run.events.as_slice() {
        put_event(alloc, event, out)?;
    }
    write_all(out, b"frames ")?;
    put_number(out, Ok(()), (run.waiting as u64).saturating_add(1))?;
    write_all(out, b"; ")?;
    put_end(run.out, out)
}

// Translates a text, and runs its unit.
fn put_translated<O: Sink>(
    alloc: Global,
    text: &[u8],
    input: Bytes,
    steps: u64,
    out: &mut O,
) -> Result<(), Failure>
    requires { length text.now ≤ 4194304 }
{
    match translate(alloc, text) {
        Ok(unit) => {
            let run = perform(alloc, &unit, input, steps)?;
            put_outcome(alloc, &run, out)
        }
        Err(_) => Ok(write_all(out, b"refused\n")?),
    }
}

/// Runs the unit of a text with an input, so many steps of the machine, and writes what it did, each operation with `; `
/// behind it, how many frames it had at most, and how it ended.
pub fn put_run<O: Sink>(
    alloc: Global,
    names: &Names,
    parts: &[Datum],
    out: &mut O,
) -> Result<(), Failure> {
    let [input, steps, parts @ ..] = parts else {
        return Err(Failure::NoCase);
    };
    let input = text(alloc, names, members(input))?;
    let text = text(alloc, names, parts)?;
    if text.len() > 4_194_304 {
        return Ok(write_all(out, b"too long\n")?);
    }
    put_translated(alloc, text.as_slice(), input, number(steps), out)
}
