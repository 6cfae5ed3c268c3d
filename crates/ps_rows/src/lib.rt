//! From the parts of a special form, and from a part with a row of its own, to a plan, by `special` and `piece`, serving
//! `specs/Rows.antt`: a line a form, a line a part. `quoted_form` makes constants of data.
#![tactic(auto)]

mod pieces;
mod quotes;
mod specials;

pub use pieces::piece;
pub use quotes::first_operand_place;
pub use specials::special;
