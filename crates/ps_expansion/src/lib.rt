//! What an expansion knows and has counted, `Expansion`, and its small steps: nodes, locals, lambdas and literals are numbered, names and
//! primitives become expressions, macros are made, forms are transcribed and taken apart. Each step does what a step of
//! `specs/States.antt`, `Names.antt` or `Macros.antt` does, by `Does` of `specs/Does.antt`.
#![tactic(auto)]

mod apart;
mod expansion;
mod level;
mod macros;
mod names;
mod settled;
mod stop;
mod task;

pub use expansion::{Expansion, expr_at, refused};
pub use level::Level;
pub use names::is_null_address;
pub use settled::Held;
pub use stop::Stop;
pub use task::Task;
