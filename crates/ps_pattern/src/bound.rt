//! What variables stand for.

use crate::syntax::Syntax;
use ps_base::Items;

pub type Binds = Items<Bound>;

/// A form, or under an ellipsis one such for each form that matched.
#[cycle(bound)]
#[derive(Drop)]
pub enum Bound {
    One(Syntax),
    Many(Items<Bound>),
}
