//! Laws of the definitions. Each is the contract of a function that does nothing.

ghost use Rattle.ps_derived.specs.Worked.{WorkedForms};

/// Small forms of each row are taken apart as they are meant to be, and small forms of other shapes are not.
pub fn worked_forms()
    ensures { WorkedForms }
{}
