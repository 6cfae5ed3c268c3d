//! What is expanded.

use ps_base::{Limits, Names};
use ps_modules::Linked;

/// What is expanded: the structures, the table in which their names stand, and the limits.
#[derive(Clone, Copy, Drop)]
pub struct Task<'a> {
    pub names: &'a Names,
    pub linked: &'a Linked,
    pub limits: &'a Limits,
}
