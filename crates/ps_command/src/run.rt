//! The top call.

ghost use Rattle.std.specs.Prelude.{◌≡◌, ℕ, List, [], map, string_bytes};
ghost use Rattle.ps_command.specs.Lines.{answer_line};
ghost use Rattle.c_ast.specs.Text.{text_of};
ghost use Rattle.ps_command.specs.Answers.{Says, Answers, LineWritten, IsHandedOn};
ghost use Rattle.ps_command.specs.Inside.{Delivers};

use crate::answer::Answer;
use crate::lines::write_fault;
use crate::translation::translate;
use crate::words::usage_of;
use c_ast::CUnit;
use c_emit::emit;
use ps_base::{Fault, Limits, Names, Refusal, Sink, SinkFault};
use ps_edge::{Source, TextFault, read_text};
use std::alloc::Global;

// Writes the text of a unit, and has the output hand on what it holds back.
#[tactic(auto, using(crate::proofs::WrittenThenFlushed::delivered))]
fn deliver<O: Sink>(unit: &CUnit, output: &mut O) -> Result<(), SinkFault>
    ensures { Delivers (O.shows output.old) (O.shows output.new) (text_of unit.now) result }
{
    emit(unit, output)?;
    output.flush()
}

// Reads the input to its end, and writes the translation of its text.
fn compile<I: Source, O: Sink>(alloc: Global, input: &mut I, output: &mut O) -> Answer
    ensures { Says result (I.shows input.old) (I.shows input.new) (O.shows output.old) (O.shows output.new) }
{
    let text = match read_text(alloc, input, Limits::standard().text_bytes) {
        Ok(text) => text,
        Err(TextFault::Failed) => return Answer::Refused(Fault::Source),
        Err(TextFault::TooLong) => return Answer::Refused(Fault::TooLong(0)),
        Err(TextFault::NoMemory) => return Answer::NoMemory,
    };
    let unit = match translate(alloc, text.as_slice()) {
        Ok(unit) => unit,
        Err(Refusal::Fault(fault)) => return Answer::Refused(fault),
        Err(Refusal::NoMemory) => return Answer::NoMemory,
    };
    match deliver(&unit, output) {
        Ok(()) => Answer::Done,
        Err(SinkFault) => Answer::Refused(Fault::Sink),
    }
}

// Writes the line of an answer, and has the error output hand on what it holds back.
#[tactic(auto, using(crate::proofs::WrittenThenFlushed::line_told, crate::proofs::WrittenThenFlushed::handed_on))]
fn tell<E: Sink>(answer: &Answer, names: &Names, errors: &mut E)
    ensures line { LineWritten (E.shows errors.old) (E.shows errors.new) (answer_line names.now answer.now) }
    ensures told { IsHandedOn (E.shows errors.old) (E.shows errors.new) }
{
    let _ = write_fault(answer, names, errors);
    let _ = errors.flush();
}

/// All that the program does: reads the words, reads the text of the input to its end, and writes its translation to C to
/// the output.
///
/// The words are exactly `compile`. A text is one or more definitions `(define (f x ...) (write-byte E) ... E)` of at most
/// 4,194,304 bytes, of which one is that of `main`, without parameters. E is an integer of 64 bits, a parameter, an operation
/// `(+ E E)`, `(- E E)` or `(* E E)`, a conditional `(if (< E E) E E)` or `(if (= E E) E E)`, a call `(f E ...)`, or
/// `(read-byte)`. No name is defined twice, a procedure has at most 127 parameters, all with different names, each name
/// stands for something, and a call has as many operands as the procedure has parameters. At most 200 brackets are open at
/// once.
///
/// # Answers
///
/// - `Done`: the whole translation was appended to the output, which holds nothing back. In every world it does what the program does to which the
///   top-level forms of the text's kernel come, and has at most one frame more than that program's calls are deep.
/// - `Refused(Usage(i))`: exactly where word i is the first that breaks the rules, or the command is missing. Nothing was
///   read or written.
/// - `Refused(Source)`: only where the input's count of faults rose. Nothing was written.
/// - `Refused(TooLong(0))`: exactly where more than 4,194,304 bytes were taken from the input. Nothing was written.
/// - `Refused(Syntax(kind, place))`: exactly where the text that was read is not that of data (R5RS 7.1.1 and 7.1.2, in this
///   project's profile), with its first breach. Nothing was written.
/// - `Refused(NotBuilt(place))`: exactly where the text is that of data that are no program, with the place of the first fault:
///   the first datum that has not the shape expected in its place; else the first name that breaks a condition; else 0:1:1.
///   Nothing was written.
/// - `Refused(Sink)`: only where the output's count of faults rose. A front of the translation was appended.
/// - `NoMemory`: where memory ran out. Nothing was written.
///
/// Where the answer is not `Done`, its line was appended to `errors`, or a front of it where the count of faults of
/// `errors` rose. Where that count did not rise, `errors` holds nothing back. The failures of `errors` change no answer.
pub fn run_psc<I: Source, O: Sink, E: Sink>(
    alloc: Global,
    words: &[String],
    input: &mut I,
    output: &mut O,
    errors: &mut E,
) -> Answer
    ensures answer { Answers result (map string_bytes words.now) (I.shows input.old) (I.shows input.new) (O.shows output.old) (O.shows output.new) }
    ensures line { LineWritten (E.shows errors.old) (E.shows errors.new) (answer_line [] result) }
    ensures told { IsHandedOn (E.shows errors.old) (E.shows errors.new) }
{
    let answer = match usage_of(words) {
        Some(word) => Answer::Refused(Fault::Usage(word)),
        None => compile(alloc, input, output),
    };
    tell(&answer, &Names::new(alloc), errors);
    answer
}
