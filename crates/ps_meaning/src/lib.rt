//! What a kernel means, as definitions and laws of them. No call computes.
//! From a kernel to what its forms come to at compile time, a program: `Top` in `specs/Source.antt`.
//! From a program to what it does in a world at run time: `Source` and `Traced`, there too. `specs/Eval.antt` is under all, and
//! says what each form does in the words of runs.
#![tactic(auto)]

mod laws;
mod values;

pub use laws::{
    calls_enter_procedures, cases_do_what_they_unfold_to, cells_only_stop, compile_calls_enter,
    forms_leave_what_can_be_kept, larger_bound_keeps, larger_budget_keeps, more_cells_keep_forms,
    primitives_embed, run_only_at_its_place,
};
pub use values::{Binding, Bindings, RunValue};
