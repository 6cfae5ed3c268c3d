//! Runs of the compiler over objects in memory.

ghost use Rattle.std.specs.Prelude.{◌<◌};

use crate::failure::Failure;
use crate::parts::{members, number, numbers, strings, text};
use c_ast::PRELUDE;
use ps_base::{Bytes, Calls, Items, MemorySink, Names, Sink, put_number, write_all};
use ps_command::{Answer, run_psc, status_of};
use ps_datum::Datum;
use ps_edge::{GatherSink, MemorySource};
use std::alloc::Global;

// What stands behind the statements of the last function.
const FOOT: &[u8] = b"}\nint main(void) { return (int)(ps_f0() & 255); }\n";

// The input, the output and the error output of a run.
#[derive(Drop)]
struct Objects {
    input: MemorySource,
    output: MemorySink,
    errors: MemorySink,
}

// How many bytes an object gives or takes at most in one call.
fn step_of(steps: &Datum) -> usize
    ensures { 0 < result }
{
    match members(steps) {
        [step, ..] => (number(step) as usize).max(1),
        [] => 4096,
    }
}

// The numbers of the calls at which an object fails.
fn failing_of(alloc: Global, steps: &Datum) -> Result<Calls, Failure> {
    match members(steps) {
        [_, calls @ ..] => numbers(alloc, calls),
        [] => Ok(Items::new(alloc)),
    }
}

fn source(alloc: Global, steps: &Datum, text: Bytes) -> Result<MemorySource, Failure> {
    let failing = failing_of(alloc, steps)?;
    Ok(MemorySource::new(text, step_of(steps), failing))
}

fn sink(alloc: Global, steps: &Datum) -> Result<MemorySink, Failure> {
    let failing = failing_of(alloc, steps)?;
    Ok(MemorySink::new(alloc, 100_000, step_of(steps), failing)?)
}

// The objects of a run of a text, of which none fails.
fn steady(alloc: Global, text: Bytes) -> Result<Objects, Failure> {
    let input = MemorySource::new(text, 4096, Items::new(alloc));
    let output = MemorySink::new(alloc, 1_000_000, 4096, Items::new(alloc))?;
    let errors = MemorySink::new(alloc, 1000, 4096, Items::new(alloc))?;
    Ok(Objects {
        input,
        output,
        errors,
    })
}

// The objects of a run of a text, with the steps of each.
fn unsteady(
    alloc: Global,
    text: Bytes,
    input: &Datum,
    output: &Datum,
    errors: &Datum,
) -> Result<Objects, Failure> {
    let input = source(alloc, input, text)?;
    let output = sink(alloc, output)?;
    let errors = sink(alloc, errors)?;
    Ok(Objects {
        input,
        output,
        errors,
    })
}

fn run(alloc: Global, words: &[String], objects: &mut Objects) -> Answer {
    run_psc(
        alloc,
        words,
        &mut objects.input,
        &mut objects.output,
        &mut objects.errors,
    )
}

// What `compile` answers to a text, and what it writes.
fn compiled(alloc: Global, names: &Names, parts: &[Datum]) -> Result<(Answer, Objects), Failure> {
    let mut objects = steady(alloc, text(alloc, names, parts)?)?;
    let mut words = Vec::new(alloc);
    words.push(String::from_str(alloc, "compile")?)?;
    let answer = run(alloc, &words, &mut objects);
    Ok((answer, objects))
}

// `done` where a text was compiled, and else the line of the refusal.
fn line_of(answer: Answer, objects: &Objects) -> &[u8] {
    let written = objects.output.bytes();
    if answer == Answer::Done && written.ends_with(FOOT) {
        b"done\n"
    } else if written.is_empty() {
        objects.errors.bytes()
    } else {
        b"a part\n"
    }
}

/// Writes `done` where the text that the parts make up is compiled, and else the line of the refusal.
pub fn put_compiled<O: Sink>(
    alloc: Global,
    names: &Names,
    parts: &[Datum],
    out: &mut O,
) -> Result<(), Failure> {
    let (answer, objects) = compiled(alloc, names, parts)?;
    Ok(write_all(out, line_of(answer, &objects))?)
}

// Writes bytes in one line, with `|` for byte 10.
fn put_flat<O: Sink>(bytes: &[u8], out: &mut O) -> Result<(), Failure> {
    for i in 0..bytes.len() {
        let byte = match &bytes[i..=i] {
            b"\n" => b"|",
            byte => byte,
        };
        write_all(out, byte)?;
    }
    Ok(())
}

/// Writes the C text of the text that the parts make up, behind the prelude, in one line.
pub fn put_c<O: Sink>(
    alloc: Global,
    names: &Names,
    parts: &[Datum],
    out: &mut O,
) -> Result<(), Failure> {
    let (_, objects) = compiled(alloc, names, parts)?;
    match objects.output.bytes().strip_prefix(PRELUDE) {
        Some(text) => put_flat(text, out)?,
        None => write_all(out, b"no prelude")?,
    }
    Ok(write_all(out, b"\n")?)
}

// The words and the objects of a run that parts tell: `(WORD ...) INPUT OUTPUT ERRORS TEXT`.
fn given(alloc: Global, names: &Names, parts: &[Datum]) -> Result<(Vec<String>, Objects), Failure> {
    let [words, input, output, errors, parts @ ..] = parts else {
        return Err(Failure::NoCase);
    };
    let words = strings(alloc, members(words))?;
    let text = text(alloc, names, parts)?;
    Ok((words, unsteady(alloc, text, input, output, errors)?))
}

// Writes a status, how many bytes were written, and in quotes what the error output got.
fn put_outcome<O: Sink>(
    answer: Answer,
    output: &MemorySink,
    errors: &MemorySink,
    out: &mut O,
) -> Result<(), Failure> {
    put_number(out, Ok(()), status_of(&answer) as u64)?;
    write_all(out, b" ")?;
    put_number(out, Ok(()), output.bytes().len() as u64)?;
    write_all(out, b" \"")?;
    put_flat(errors.bytes(), out)?;
    Ok(write_all(out, b"\"\n")?)
}

/// Runs the compiler with words on a text, with objects that give or take so many bytes in a call and fail at calls, and
/// writes its status, how many bytes of C the output got, and in quotes what the error output got.
pub fn put_answer<O: Sink>(
    alloc: Global,
    names: &Names,
    parts: &[Datum],
    out: &mut O,
) -> Result<(), Failure> {
    let (words, mut objects) = given(alloc, names, parts)?;
    let answer = run(alloc, &words, &mut objects);
    put_outcome(answer, &objects.output, &objects.errors, out)
}

/// The same with sinks before the output and the error output that gather what is written.
pub fn put_gathered<O: Sink>(
    alloc: Global,
    names: &Names,
    parts: &[Datum],
    out: &mut O,
) -> Result<(), Failure> {
    let (words, objects) = given(alloc, names, parts)?;
    let Objects {
        mut input,
        output,
        errors,
    } = objects;
    let mut output = GatherSink::new(output);
    let mut errors = GatherSink::new(errors);
    let answer = run_psc(alloc, &words, &mut input, &mut output, &mut errors);
    put_outcome(answer, output.behind(), errors.behind(), out)
}

/// Writes how many lines the C text of the text that the parts make up has.
pub fn put_lines<O: Sink>(
    alloc: Global,
    names: &Names,
    parts: &[Datum],
    out: &mut O,
) -> Result<(), Failure> {
    let (_, objects) = compiled(alloc, names, parts)?;
    let lines = objects
        .output
        .bytes()
        .iter()
        .filter(|b| **b == b'\n')
        .count();
    put_number(out, Ok(()), lines as u64)?;
    Ok(write_all(out, b"\n")?)
}

/// Writes how many bytes and lines the prelude has.
pub fn put_prelude<O: Sink>(out: &mut O) -> Result<(), Failure> {
    put_number(out, Ok(()), PRELUDE.len() as u64)?;
    write_all(out, b" bytes, ")?;
    let lines = PRELUDE.iter().filter(|b| **b == b'\n').count();
    put_number(out, Ok(()), lines as u64)?;
    Ok(write_all(out, b" lines\n")?)
}
