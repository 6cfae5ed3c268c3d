//! Cases of the top call, of the lines of faults, and of the units that texts are translated to.
//!
//! Reads cases from standard input as data, and writes one line for each to standard output. A case is one of these, where a
//! TEXT is any number of parts: a string, an integer for a byte, `(times N PART ...)` for so many times other parts, and in
//! it `count` and `next` for the number of the turn, from 0, and for one more.
//!
//! - `(compile TEXT)`: `done`, where the text is compiled, and else the line of the refusal.
//! - `(c TEXT)`: the C text behind the prelude, with `|` for the ends of lines.
//! - `(lines TEXT)`: how many lines the C text has.
//! - `(answer (WORD ...) INPUT OUTPUT ERRORS TEXT)`, where each of the three objects is `(STEP CALL ...)`, how many bytes it
//!   gives or takes at most in a call, and the calls at which it fails: the status, how many bytes of C were written, and in
//!   quotes what the error output got.
//! - `(gathered (WORD ...) INPUT OUTPUT ERRORS TEXT)`: the same with sinks before the output and the error output that gather
//!   what is written.
//! - `(run (PART ...) N TEXT)`: what the unit of the text does with this input in N steps of its machine, how many frames it
//!   has at most, and how it ends.
//! - `(fault N)`: the status and the line of an answer, by its number in a list of them.
//! - `(prelude)`: how many bytes and lines the prelude has.
#![tactic(auto)]

mod answers;
mod failure;
mod faults;
mod parts;
mod runs;

use answers::{put_answer, put_c, put_compiled, put_gathered, put_lines, put_prelude};
use failure::Failure;
use faults::put_fault;
use parts::{members, word};
use ps_base::{Names, Sink, write_all};
use ps_datum::Datum;
use ps_edge::{GatherSink, ReaderSource, Source, WriterSink, read_text};
use ps_read::read_all;
use runs::put_run;
use std::alloc::Global;
use std::process::ExitCode;

// Writes the line of a case.
fn put_case<O: Sink>(
    alloc: Global,
    names: &Names,
    case: &Datum,
    out: &mut O,
) -> Result<(), Failure> {
    let [kind, parts @ ..] = members(case) else {
        return Err(Failure::NoCase);
    };
    match word(names, kind) {
        b"compile" => put_compiled(alloc, names, parts, out),
        b"c" => put_c(alloc, names, parts, out),
        b"lines" => put_lines(alloc, names, parts, out),
        b"answer" => put_answer(alloc, names, parts, out),
        b"gathered" => put_gathered(alloc, names, parts, out),
        b"run" => put_run(alloc, names, parts, out),
        b"fault" => put_fault(alloc, parts, out),
        b"prelude" => put_prelude(out),
        _ => Err(Failure::NoCase),
    }
}

fn put_cases<I: Source, O: Sink>(alloc: Global, input: &mut I, out: &mut O) -> Result<(), Failure> {
    let Ok(text) = read_text(alloc, input, 1_000_000) else {
        return Err(Failure::NoCase);
    };
    let mut names = Names::new(alloc);
    let Ok(cases) = read_all(alloc, text.as_slice(), 0, &mut names) else {
        return Err(Failure::NoCase);
    };
    for case in cases.as_slice() {
        put_case(alloc, &names, case, out)?;
    }
    Ok(())
}

// What went wrong, as the last line.
fn stopped(failure: Failure) -> &'static [u8] {
    match failure {
        Failure::NoCase => b"stopped: no case\n",
        Failure::NoMemory => b"stopped: no memory\n",
        Failure::Sink => b"stopped: a sink failed\n",
    }
}

fn main(rt: HostRuntime) -> ExitCode {
    let mut input = ReaderSource::new(rt.stdin());
    let mut out = GatherSink::new(WriterSink::new(rt.stdout()));
    let written = match put_cases(rt.alloc(), &mut input, &mut out) {
        Ok(()) => Ok(()),
        Err(failure) => write_all(&mut out, stopped(failure)),
    };
    match (written, out.flush()) {
        (Ok(()), Ok(())) => ExitCode::SUCCESS,
        _ => ExitCode::FAILURE,
    }
}
