//! The law of what `write_datum` writes.

ghost use Rattle.ps_read.specs.Again.{WrittenReadsAgain};

/// What is written reads again: the text of each datum of a text, over the table of names behind that text, reads as one
/// datum, which is the same but for places, and leaves the table as it is.
pub fn written_data_read_again()
    ensures { WrittenReadsAgain }
{}
