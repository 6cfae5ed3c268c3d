//! What is read of patterns.

use crate::rules::{Pattern, Patterns};
use crate::syntax::Ident;
use ps_base::Items;

pub type Vars = Items<Var>;

/// A variable of a pattern, and under how many ellipses it stands there.
#[derive(Drop)]
pub struct Var {
    pub id: Ident,
    pub depth: usize,
}

/// A pattern, and its variables from left to right.
#[derive(Drop)]
pub struct Read {
    pub pattern: Pattern,
    pub vars: Vars,
}

/// The parts of a list or vector: one pattern a part, or at the end one for all that is left, with the number of its variables.
#[derive(Drop)]
pub enum Row {
    Plain(Patterns),
    Each(Patterns, Pattern, usize),
}

/// A row, and its variables from left to right.
#[derive(Drop)]
pub struct RowRead {
    pub row: Row,
    pub vars: Vars,
}
