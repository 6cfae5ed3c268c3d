//! Laws of the machine. Each is the contract of a function that does nothing.

ghost use Rattle.c_meaning.specs.Laws.{LargerBoundKeeps};

/// A larger bound keeps an outcome that is not Running, and extends the events of a Running one.
pub fn larger_bound_keeps()
    ensures { LargerBoundKeeps }
{}
