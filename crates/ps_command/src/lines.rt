//! The line that a refused run writes.

ghost use Rattle.std.specs.Prelude.{◌≡◌, ℕ, List, decimal, codes};
ghost use Rattle.ps_base.specs.Sinks.{Adds, Writes};
ghost use Rattle.ps_base.specs.Texts.{◌&◌};
ghost use Rattle.ps_base.specs.Wording.{place_text};
ghost use Rattle.ps_command.specs.Lines.{at_place, of_kind, with_number, name_text, definition_text, width_text, fault_text, answer_line};

use crate::answer::Answer;
use crate::kinds::{
    form_word_of, module_word_of, position_word_of, survive_word_of, syntax_word_of,
};
use ps_base::{
    Fault, Name, Names, Place, Sink, SinkFault, Written, op_word_of, put, put_number, put_place,
};

#[tactic(auto, using(ps_base::proofs::Writing::adds_then), unfolding(crate::specs::Lines::at_place))]
fn put_at_place<O: Sink>(out: &mut O, so_far: Written, words: &[u8], place: Place) -> Written
    ensures { Adds (O.shows out.old) so_far (O.shows out.new) result (at_place words.now place) }
{
    let so_far = put(out, so_far, words);
    put_place(out, so_far, place)
}

#[tactic(auto, using(ps_base::proofs::Writing::adds_then), unfolding(crate::specs::Lines::of_kind))]
fn put_of_kind<O: Sink>(
    out: &mut O,
    so_far: Written,
    words: &[u8],
    kind: &[u8],
    place: Place,
) -> Written
    ensures { Adds (O.shows out.old) so_far (O.shows out.new) result (of_kind words.now kind.now place) }
{
    let so_far = put(out, so_far, words);
    let so_far = put(out, so_far, kind);
    let so_far = put(out, so_far, b" ");
    put_place(out, so_far, place)
}

#[tactic(auto, using(ps_base::proofs::Writing::adds_then), unfolding(crate::specs::Lines::with_number))]
fn put_with_number<O: Sink>(out: &mut O, so_far: Written, words: &[u8], number: u64) -> Written
    ensures { Adds (O.shows out.old) so_far (O.shows out.new) result (with_number words.now number) }
{
    let so_far = put(out, so_far, words);
    put_number(out, so_far, number)
}

fn put_name<O: Sink>(out: &mut O, so_far: Written, names: &Names, name: Name) -> Written
    ensures { Adds (O.shows out.old) so_far (O.shows out.new) result (name_text names.now name) }
{
    if name.0 < names.len() {
        put(out, so_far, names.text(name))
    } else {
        put(out, so_far, b"")
    }
}

#[tactic(auto, using(ps_base::proofs::Writing::adds_then), unfolding(crate::specs::Lines::definition_text))]
fn put_definition<O: Sink>(
    out: &mut O,
    so_far: Written,
    names: &Names,
    structure: Name,
    name: Name,
    place: Place,
) -> Written
    ensures { Adds (O.shows out.old) so_far (O.shows out.new) result (definition_text names.now structure name place) }
{
    let so_far = put(out, so_far, b"13 type ");
    let so_far = put_name(out, so_far, names, structure);
    let so_far = put(out, so_far, b"/");
    let so_far = put_name(out, so_far, names, name);
    let so_far = put(out, so_far, b" ");
    put_place(out, so_far, place)
}

fn put_width<O: Sink>(out: &mut O, so_far: Written, width: u64, place: Place) -> Written
    ensures { Adds (O.shows out.old) so_far (O.shows out.new) result (width_text width place) }
{
    let so_far = put(out, so_far, b"15 too-wide ");
    let so_far = put_number(out, so_far, width);
    let so_far = put(out, so_far, b" ");
    put_place(out, so_far, place)
}

// The number and the words of a fault.
#[tactic(auto, unfolding(crate::specs::Lines::fault_text))]
fn put_fault<O: Sink>(out: &mut O, so_far: Written, names: &Names, fault: Fault) -> Written
    ensures { Adds (O.shows out.old) so_far (O.shows out.new) result (fault_text names.now fault) }
{
    match fault {
        Fault::Usage(word) => put_with_number(out, so_far, b"1 usage ", word),
        Fault::Source => put(out, so_far, b"2 source"),
        Fault::Sink => put(out, so_far, b"3 sink"),
        Fault::Library(k) => put_with_number(out, so_far, b"4 library ", k),
        Fault::TooLong(file) => put_with_number(out, so_far, b"5 too-long ", file as u64),
        Fault::Syntax(kind, p) => put_of_kind(out, so_far, b"6 syntax ", syntax_word_of(kind), p),
        Fault::Module(kind, p) => put_of_kind(out, so_far, b"7 module ", module_word_of(kind), p),
        Fault::Form(kind, p) => put_of_kind(out, so_far, b"8 form ", form_word_of(kind), p),
        Fault::ExpansionSpent(n) => put_with_number(out, so_far, b"9 expansion-spent ", n),
        Fault::CoreSpent(n) => put_with_number(out, so_far, b"9 core-spent ", n),
        Fault::StaticWrong(p) => put_at_place(out, so_far, b"10 static wrong ", p),
        Fault::StaticUndefined(op, p) => {
            put_of_kind(out, so_far, b"10 static undefined ", op_word_of(op), p)
        }
        Fault::StaticRunOnly(p) => put_at_place(out, so_far, b"10 static run-only ", p),
        Fault::BudgetSpent(n) => put_with_number(out, so_far, b"11 budget-spent ", n),
        Fault::CellsSpent(n) => put_with_number(out, so_far, b"11 cells-spent ", n),
        Fault::Survives(kind, p) => {
            put_of_kind(out, so_far, b"12 survives ", survive_word_of(kind), p)
        }
        Fault::TypeFault(structure, name, p) => {
            put_definition(out, so_far, names, structure, name, p)
        }
        Fault::Unresolved(position, p) => {
            put_of_kind(
                out,
                so_far,
                b"14 unresolved ",
                position_word_of(position),
                p,
            )
        }
        Fault::KeysSpent(n) => put_with_number(out, so_far, b"15 keys-spent ", n),
        Fault::InlineSpent(p) => put_at_place(out, so_far, b"15 inline-spent ", p),
        Fault::TooWide(n, p) => put_width(out, so_far, n, p),
        Fault::CodeSpent(n) => put_with_number(out, so_far, b"16 code-spent ", n),
        Fault::NotBuilt(p) => put_at_place(out, so_far, b"17 not-built ", p),
        Fault::CText(p) => put_at_place(out, so_far, b"18 c-text ", p),
        Fault::ShowDeep(p) => put_at_place(out, so_far, b"19 show-deep ", p),
        Fault::ShowLong(n) => put_with_number(out, so_far, b"19 show-long ", n),
    }
}

/// Writes the line of an answer, which is `psc: `, the fault's number and its words. `Done` has no line. The names that a
/// fault speaks of are printed by their texts in the table; a name that is not there is printed as nothing. It fails only
/// where the sink's count of faults rose; then a front of the line was appended. It takes no memory.
pub fn write_fault<E: Sink>(answer: &Answer, names: &Names, errors: &mut E) -> Result<(), SinkFault>
    ensures { Writes (E.shows errors.old) (E.shows errors.new) (answer_line names.now answer.now) result }
{
    match answer {
        Answer::Done => Ok(()),
        Answer::Refused(fault) => {
            let so_far = put(errors, Ok(()), b"psc: ");
            let so_far = put_fault(errors, so_far, names, *fault);
            put(errors, so_far, b"\n")
        }
        Answer::NoMemory => put(errors, Ok(()), b"psc: 20 no-memory\n"),
    }
}
