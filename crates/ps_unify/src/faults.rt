//! Why types were not made equal.

/// Why `unify` made two types not equal.
#[derive(Clone, Copy, Debug, PartialEq, Eq)]
pub enum UnifyFault {
    /// Nothing that extends the bindings makes them equal.
    Unequal,
    /// Memory ran out.
    NoMemory,
}

/// Why `unify_within` made two types not equal.
#[derive(Clone, Copy, Debug, PartialEq, Eq)]
pub enum WithinFault {
    /// Nothing that extends the bindings makes them equal.
    Unequal,
    /// Whatever makes them equal makes them larger than the limit.
    TooLarge,
    /// Memory ran out.
    NoMemory,
}
