//! What the walk from `main` visits, and what there is to do there.

use byte_store::Value;
use ps_base::{Place, Prim};

/// What an expression in a body leads to, or may not do there.
#[derive(Clone, Copy, Debug)]
pub enum Mark {
    /// The definition of this number is mentioned.
    Reads(u32),
    /// The definition of this number is assigned.
    Assigns(u32),
    /// The literal of this number is quoted.
    Quotes(u32),
    /// A primitive is performed.
    Performs(Prim),
    /// The lambda of this number stands here.
    Stands(u32),
}

/// A mark, and the place of its expression.
#[derive(Clone, Copy, Debug)]
pub struct Marked {
    /// The place.
    pub at: Place,
    /// The mark.
    pub mark: Mark,
}

/// What is visited, each once.
#[derive(Clone, Copy, Debug)]
pub enum Node {
    /// The definition of this number.
    Global(u32),
    /// The body of the lambda of this number.
    Inner(u32),
    /// The fixed block of this number.
    Data(u32),
}

/// Something to do at a node.
#[derive(Clone, Copy, Debug)]
pub enum Step {
    /// An expression of a body.
    Does(Marked),
    /// The lambda of this number, which a procedure definition has.
    Enters(u32),
    /// A value, which another definition or a cell has.
    Keeps(Value),
}
