//! The values of a program at run time.

use byte_store::Value;
use ps_base::Items;

/// A value at run time.
#[cycle(values)]
#[derive(Debug, Drop)]
pub enum RunValue {
    /// A value of first order.
    Plain(Value),
    /// A procedure: the number of its lambda, and the values of the locals that it keeps.
    Procedure(u32, Items<Binding>),
}

/// The value of a local.
#[cycle(values)]
#[derive(Debug, Drop)]
pub struct Binding {
    /// The local's number.
    pub local: u32,
    /// Its value.
    pub value: RunValue,
}

/// The values of locals. Where one stands there twice, the first counts.
pub type Bindings = Items<Binding>;
