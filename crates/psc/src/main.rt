//! `psc`: a compiler from Pre-Scheme to C.
//!
//! `psc compile` reads a text from standard input and writes its translation to standard output. A refused run writes one
//! line to standard error and ends with the fault's number as its status. This crate takes the words from the environment and
//! gathers what is written into large pieces; all else is `run_psc`.
#![tactic(auto)]

ghost use Rattle.std.specs.Prelude.{◌≡◌, ◌∷◌, [], IfOk, string_bytes};
ghost use Rattle.std.specs.Str.{IsUtf8};

use ps_base::{Names, NoMemory, Sink};
use ps_command::{Answer, run_psc, status_of, write_fault};
use ps_edge::{GatherSink, ReaderSource, WriterSink};
use std::alloc::Global;
use std::env::FillError;
use std::process::ExitCode;
use std::rt::Env;
use std::str;

// The text of a word, or `?` where it is none.
fn text_of(alloc: Global, word: &[u8]) -> Result<String, NoMemory>
    ensures text { IfOk result (λ t. IsUtf8 word.now → string_bytes t ≡ word.now) }
    ensures none { IfOk result (λ t. ¬ (IsUtf8 word.now) → string_bytes t ≡ 63 ∷ []) }
{
    let text = match str::from_utf8(word) {
        Ok(text) => text,
        Err(_) => "?",
    };
    Ok(String::from_str(alloc, text)?)
}

// The word of this number, if there is one. A word that is no text, or has more than 4,096 bytes, breaks the rules in any
// place, and is given as `?`, which does so too.
fn word_of(rt: &(impl Env + Alloc<A = Global>), i: usize) -> Result<Option<String>, NoMemory> {
    let mut bytes = [0; 4096];
    match rt.arg(i, &mut bytes) {
        Ok(size) => Ok(Some(text_of(rt.alloc(), &bytes[..size])?)),
        Err(FillError::TooLong) => Ok(Some(text_of(rt.alloc(), b"?")?)),
        Err(FillError::NotPresent) => Ok(None),
    }
}

// The words behind the program's name.
fn words_of(rt: &(impl Env + Alloc<A = Global>)) -> Result<Vec<String>, NoMemory> {
    let mut words = Vec::new(rt.alloc());
    for i in 1..usize::MAX {
        match word_of(rt, i)? {
            Some(word) => words.push(word)?,
            None => return Ok(words),
        }
    }
    Ok(words)
}

fn main(rt: HostRuntime) -> ExitCode {
    let mut input = ReaderSource::new(rt.stdin());
    let mut output = GatherSink::new(WriterSink::new(rt.stdout()));
    let mut errors = GatherSink::new(WriterSink::new(rt.stderr()));
    let answer = match words_of(&rt) {
        Ok(words) => run_psc(rt.alloc(), &words, &mut input, &mut output, &mut errors),
        Err(NoMemory) => {
            let _ = write_fault(&Answer::NoMemory, &Names::new(rt.alloc()), &mut errors);
            let _ = errors.flush();
            Answer::NoMemory
        }
    };
    ExitCode::from(status_of(&answer))
}
