//! Laws of the words of runs. Each is the contract of a function that does nothing.

ghost use Rattle.ps_runs.specs.Laws.{CellsComeFirst, EndsUnseen};

/// What is done to the locals of a procedure at its end is not seen behind it, so that a call in tail position needs nothing to
/// come back to.
pub fn ends_are_unseen<V, A>()
    ensures { EndsUnseen V A }
{}

/// A primitive that asks for more cells than are left stops the run before it takes effect: its operations are not among those
/// so far, and the memory is as it was.
pub fn cells_come_first<V>()
    ensures { CellsComeFirst V }
{}
