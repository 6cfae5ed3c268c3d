//! The lines of faults.

use crate::failure::Failure;
use crate::parts::number;
use ps_base::Fault::*;
use ps_base::{
    FormKind, ModuleKind, Name, Names, Op, Place, Position, Sink, SurviveKind, SyntaxKind,
    put_number, write_all,
};
use ps_command::Answer::{self, Done, NoMemory, Refused};
use ps_command::{status_of, write_fault};
use ps_datum::Datum;
use std::alloc::Global;

const AT: Place = Place {
    file: 2,
    line: 3,
    column: 45,
};

const START: Place = Place {
    file: 0,
    line: 1,
    column: 1,
};

const LINE: Place = Place {
    file: 0,
    line: 7,
    column: 1,
};

// An answer of each kind. The names are those of a table of `user` and `main`.
const ANSWERS: &[Answer] = &[
    Done,
    Refused(Usage(18446744073709551615)),
    Refused(Source),
    Refused(ps_base::Fault::Sink),
    Refused(Library(1)),
    Refused(TooLong(0)),
    Refused(Syntax(SyntaxKind::FloatLiteral, AT)),
    Refused(Module(ModuleKind::NoMain, AT)),
    Refused(Form(FormKind::LetrecValue, AT)),
    Refused(ExpansionSpent(100000)),
    Refused(CoreSpent(1000000)),
    Refused(StaticWrong(AT)),
    Refused(StaticUndefined(Op::Division, AT)),
    Refused(StaticRunOnly(AT)),
    Refused(BudgetSpent(5)),
    Refused(CellsSpent(16000000)),
    Refused(Survives(SurviveKind::CompileOnly, AT)),
    Refused(TypeFault(Name(0), Name(1), AT)),
    Refused(Unresolved(Position::Branch, AT)),
    Refused(KeysSpent(4096)),
    Refused(InlineSpent(AT)),
    Refused(TooWide(128, AT)),
    Refused(CodeSpent(2000000)),
    Refused(NotBuilt(START)),
    Refused(CText(LINE)),
    Refused(ShowDeep(AT)),
    Refused(ShowLong(4194304)),
    NoMemory,
];

// Writes the status and the line of an answer.
fn put_line<O: Sink>(answer: &Answer, names: &Names, out: &mut O) -> Result<(), Failure> {
    put_number(out, Ok(()), status_of(answer) as u64)?;
    match answer {
        Done => write_all(out, b"\n")?,
        _ => {
            write_all(out, b" ")?;
            write_fault(answer, names, out)?;
        }
    }
    Ok(())
}

/// Writes the status and the line of the answer of this number in the list above.
pub fn put_fault<O: Sink>(alloc: Global, parts: &[Datum], out: &mut O) -> Result<(), Failure> {
    let mut names = Names::new(alloc);
    names.add(b"user")?;
    names.add(b"main")?;
    let [place] = parts else {
        return Err(Failure::NoCase);
    };
    match ANSWERS.get(number(place) as usize) {
        Some(answer) => put_line(answer, &names, out),
        None => Err(Failure::NoCase),
    }
}
