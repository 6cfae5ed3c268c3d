//! The cells of frames.

use byte_store::Value;

/// A cell of a frame.
#[derive(Clone, Copy, Debug, PartialEq, Eq)]
pub enum Cell<J> {
    /// A frame begins. Locals that are bound below it are not in scope above it.
    Entered,
    /// The slot of a local, with its value.
    Local(u32, Value),
    /// What waits until the cells above it are done with.
    Waits(J),
}
