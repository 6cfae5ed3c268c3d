//! Laws of the definitions. Each is the contract of a function that does nothing.

ghost use Rattle.ps_modules.specs.Laws.{WalkHasOneEnd, StructuresStandInOrder};

/// Where the files are the same, a walk comes to the same structures or the same fault. So what `link` answers, where every library
/// tells its files, is exactly what the walk of the text comes to, unless a library failed or memory ran out.
pub fn walk_has_one_end()
    ensures { WalkHasOneEnd }
{}

/// Where `link` answers structures, each opens only such as stand before it, and the last one exports `main` as a value.
pub fn structures_stand_in_order()
    ensures { StructuresStandInOrder }
{}
