//! What of a source goes on into the compiled program, as definitions and laws of them. No call computes.
//! From a program, which its top-level forms have come to, to what `main` reaches: `Reaches` and the walk, in `specs/Walk.antt`;
//! from a walk to its survivors: `IsSurvivors` in `specs/Kept.antt`. What there is to do in a body is `specs/Bodies.antt`.
#![tactic(auto)]

mod laws;
mod steps;

pub use laws::{
    a_fault_is_reached, one_answer, walks_end, walks_have_one_end, what_is_seen_is_closed,
    what_is_seen_is_reached,
};
pub use steps::{Mark, Marked, Node, Step};
