//! What a run of the compiler answers.

ghost use Rattle.std.specs.Prelude.{◌≡◌};
ghost use Rattle.ps_command.specs.Lines.{status};

use ps_base::Fault;

/// How a run of the compiler ended.
#[derive(Clone, Copy, Debug, PartialEq, Eq)]
pub enum Answer {
    /// All that was asked for was written.
    Done,
    /// The run was refused, with this cause.
    Refused(Fault),
    /// Memory ran out.
    NoMemory,
}

/// The status that the program ends with: 0 for `Done`, the fault's number, from 1 to 19, or 20 for want of memory.
pub fn status_of(answer: &Answer) -> u8
    ensures { result ≡ status answer.now }
{
    match answer {
        Answer::Done => 0,
        Answer::Refused(fault) => fault.number(),
        Answer::NoMemory => 20,
    }
}
