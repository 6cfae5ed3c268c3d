//! Groups of nodes that mention each other: the strongly connected components of a graph, in an order in which each group stands
//! behind all that it mentions.
//! From a table of numbers to the group of each, by `groups`, for `AreGroups` of `specs/Groups.antt`.
#![tactic(auto)]

mod finding;
mod search;

pub use finding::groups;
