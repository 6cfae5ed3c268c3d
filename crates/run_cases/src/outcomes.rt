//! What came of a run, as a line: the events, the depth and the end.

use byte_store::{Event, World, write_event};
use kernel_data::{Building, Trouble};
use ps_base::{Items, MemorySink, NoMemory, Place, op_word_of};
use ps_evaluator::{Ended, Evaluated, Finish, evaluate};
use std::alloc::{AllocError, Global};

fn put_place(out: &mut String, at: Place) -> Result<(), AllocError> {
    write!(out, " {}:{}:{}", at.file, at.line, at.column)
}

// Writes the line of an event, and a comma in place of its end.
fn put_event(alloc: Global, out: &mut String, event: &Event) -> Result<(), NoMemory> {
    let mut sink = MemorySink::new(alloc, 100, 100, Items::new(alloc))?;
    let _ = write_event(event, &mut sink);
    let line = str::from_utf8(sink.bytes()).unwrap_or("?");
    out.push_str(line.trim_end())?;
    Ok(out.push_str(", ")?)
}

fn put_end(out: &mut String, end: Ended) -> Result<(), AllocError> {
    match end {
        Ended::Returned(i) => write!(out, "returned {i}"),
        Ended::Running => out.push_str("running"),
        Ended::Undefined(op, at) => {
            out.push_str("undefined ")?;
            out.push_str(str::from_utf8(op_word_of(op)).unwrap_or("?"))?;
            put_place(out, at)
        }
        Ended::Wrong(at) => {
            out.push_str("wrong")?;
            put_place(out, at)
        }
    }
}

fn put_finish(alloc: Global, out: &mut String, finish: &Finish) -> Result<(), NoMemory> {
    for event in finish.events.as_slice() {
        put_event(alloc, out, event)?;
    }
    write!(out, "depth {}, ", finish.depth)?;
    Ok(put_end(out, finish.end)?)
}

fn put_evaluated(alloc: Global, out: &mut String, evaluated: &Evaluated) -> Result<(), NoMemory> {
    match evaluated {
        Evaluated::Finished(finish) => put_finish(alloc, out, finish),
        Evaluated::Unfinished => Ok(out.push_str("unfinished")?),
        Evaluated::Unsupported(at) => {
            out.push_str("unsupported")?;
            Ok(put_place(out, *at)?)
        }
    }
}

/// What comes of the program of a kernel.
pub fn outcome(alloc: Global, building: Building) -> Result<String, Trouble> {
    let Building {
        kernel,
        globals,
        store,
        input,
        grants,
        calls,
        turns,
    } = building;
    let world = World::new(input, grants);
    let evaluated = evaluate(
        alloc,
        &kernel,
        globals.as_slice(),
        store,
        world,
        calls,
        turns,
    )?;
    let mut out = String::new(alloc);
    put_evaluated(alloc, &mut out, &evaluated)?;
    Ok(out)
}
