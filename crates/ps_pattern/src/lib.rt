//! `syntax-rules`: from the form of a macro's rules to its compiled rules, by `compile_rules`, and from a use of a macro to
//! the form that it stands for, by `transcribe`.
#![tactic(auto)]

mod binding;
mod bound;
mod columns;
mod compile;
mod conversion;
mod environment;
mod filling;
mod identifiers;
mod keys;
mod laws;
mod literals;
mod matching;
mod reading;
mod room;
mod rules;
mod surveys;
mod syntax;
mod template;
mod template_reading;
mod transcription;
mod uneven;
mod variables;

pub use binding::{Binding, Scope};
pub use compile::compile_rules;
pub use conversion::{datum_of, syntax_of};
pub use laws::{matches_shaped, rules_fit, templates_fit, turns_shaped};
pub use rules::{Pattern, Patterns};
pub use syntax::{Ident, Nodes, Syntax, SyntaxNode, copy, copy_all, copy_ident};
pub use template::{Part, Parts, Template, Variables};
pub use transcription::{PatternFault, Rule, Rules, transcribe};
