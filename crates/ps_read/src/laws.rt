//! Laws of the definitions. Each is the contract of a function that does nothing.

ghost use Rattle.ps_read.specs.Laws.{FirstBreachIsFirst, TextHasOneReading};

/// The first breach is shown by the first token such that no list of data begins with the tokens up to it, or the tokens are
/// cut off by the end of the text.
pub fn first_breach_is_first()
    ensures { FirstBreachIsFirst }
{}

/// A text is the text of at most one row of data.
pub fn text_has_one_reading()
    ensures { TextHasOneReading }
{}
