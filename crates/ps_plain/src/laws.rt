//! Laws of the definitions. Each is the contract of a function that does nothing.

ghost use Rattle.ps_plain.specs.Laws.{CallsEnterProcedures, DataHaveOneProgram, FaultsTellPrograms, LargerBoundKeeps, ProgramIsSound, ProgramIsValid};

/// A call with no more calls left than the bound does what entering its procedure does, where calls do the same: the bound on
/// nesting is never met before the calls that are left.
pub fn calls_enter_procedures()
    ensures { CallsEnterProcedures }
{}

/// A larger bound keeps an outcome that is not Running, and extends the events of a Running one.
pub fn larger_bound_keeps()
    ensures { LargerBoundKeeps }
{}

/// No run of a valid program is Wrong or stops at its cells.
pub fn program_is_sound()
    ensures { ProgramIsSound }
{}

/// A program of data is valid, and is no larger than the data.
pub fn program_is_valid()
    ensures { ProgramIsValid }
{}

/// Data are one program, whichever definition of `main` is taken out of its place.
pub fn data_have_one_program()
    ensures { DataHaveOneProgram }
{}

/// Data have no fault exactly where they are a program.
pub fn faults_tell_programs()
    ensures { FaultsTellPrograms }
{}
