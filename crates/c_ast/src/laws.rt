//! The law of the grammar. It is the contract of a function that does nothing.

ghost use Rattle.c_ast.specs.Laws.{TextHasOneUnit};

/// A list of bytes is the text of at most one unit. That a unit has exactly one text is said by the grammar itself.
pub fn text_has_one_unit()
    ensures { TextHasOneUnit }
{}
