//! The frames of a run.

use ps_base::Items;

/// A frame that waits for the value of a call.
#[derive(Debug, Drop)]
pub struct Waiting {
    /// The number of its function.
    pub function: u32,
    /// Its variables, each with its value where it was assigned.
    pub locals: Items<Option<i64>>,
    /// The place of the statement behind the call.
    pub next: usize,
    /// The variable to which the value goes.
    pub target: u32,
}
