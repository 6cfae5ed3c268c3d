//! The types of what survives, as definitions and laws of them. No call computes.
//! From a kernel and its survivors to a typing: the rules, a row for each kind of expression, in `specs/Rules.antt`, with the types
//! of data in `specs/Data.antt`; groups and their order in `specs/Order.antt` and `Texts.antt`; what inference answers, `IsTyped` and
//! `FailsAt`, in `specs/Typings.antt`.
#![tactic(auto)]

mod laws;

pub use laws::{
    cases_are_unfolded, data_has_no_variables, data_has_one_type, data_is_typed_by_cells,
    groups_are_kept, identity_has_two_types, local_has_one_type, one_fault, one_order, one_text,
    parts_are_together, rules_are_kept, settled_is_typing, some_is_ready, typed_is_no_fault,
    types_are_listed,
};
