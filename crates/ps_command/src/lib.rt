//! From the words of the command line and the bytes of a text to bytes of C, by `run_psc`: the passes in a row, the line that
//! a refused run writes, and its status. It serves the definitions of `specs/Headline.antt`, which say when bytes are a right
//! translation of a text, and of `specs/Answers.antt`, which say what is answered, and why.
#![tactic(auto)]

mod answer;
mod kinds;
mod lines;
mod run;
mod translation;
mod words;

pub use answer::{Answer, status_of};
pub use lines::write_fault;
pub use run::run_psc;
pub use translation::translate;
