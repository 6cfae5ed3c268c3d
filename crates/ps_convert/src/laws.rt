//! Laws of the kernels that programs are converted to. Each is the contract of a function that does nothing.

ghost use Rattle.ps_convert.specs.Converting.{ProgramsConvert};
ghost use Rattle.ps_convert.specs.Laws.{FormsDoNothing, KernelsDoTheSame};

/// The forms of a converted kernel do nothing at compile time, whatever the budget and the number of cells are: no definition
/// has a value but the procedure of its lambda, and the memory stays empty.
pub fn forms_do_nothing()
    ensures { FormsDoNothing }
{}

/// In every world and for every number of procedures that may be entered, the kernel of a valid program has the outcome of the
/// program: the same events, depth and end, at the same place.
pub fn kernels_do_the_same()
    ensures { KernelsDoTheSame }
{}

/// Data that are a program of procedures are a kernel. Its forms come to a program within every budget, and that has the
/// outcome of the program of procedures in every world.
pub fn programs_convert()
    ensures { ProgramsConvert }
{}
