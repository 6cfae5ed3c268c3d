//! From a kernel and the table of its names to one Scheme text without modules and macros, by `show`, for `kernel_text` of
//! `specs/ShowText.antt`; which answer it gives of that text is `specs/Answers.antt`.
#![tactic(auto)]

mod kinds;
mod lines;
mod literals;
mod locals;
mod nodes;
mod page;
mod survey;
mod words;

pub use lines::show;
pub use page::ShowFault;
