//! What is known of a kernel before its forms are run.

use byte_store::Value;
use ps_base::Items;
use ps_static_tables::Tables;

/// What the machine looks up of a kernel.
#[derive(Drop)]
pub struct Known {
    /// The lambdas that its locals and definitions stand for.
    pub numbers: Tables,
    /// The values of its literals.
    pub literals: Items<Value>,
}
