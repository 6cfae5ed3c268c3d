//! The reader: from the bytes of a text to its data and the table of their names, or to its first breach, by `read_all`.
//!
//! It serves `Reads` of `specs/Reading.antt`, which stands on the tokens of `Lexical.antt` and the grammar of `Grammar.antt`,
//! and `FirstBreach` of `Breaches.antt`.
#![tactic(auto)]

mod again;
mod bytes;
mod laws;
mod lexer;
mod machine;
mod numbers;
mod reading;
mod stack;
mod token;

pub use again::written_data_read_again;
pub use laws::{first_breach_is_first, text_has_one_reading};
pub use reading::read_all;
pub use token::{Breach, Frame, Front, Shape, Token, Word};
