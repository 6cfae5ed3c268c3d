//! The kernel, from which each pass goes on once macros, modules and derived forms are gone, and what of it survives.
//! From a kernel to whether it keeps the rules: `valid`, by `specs/Valid.antt`, `Rules.antt` and `Marks.antt`.
//! What lambdas keep is `specs/Captured.antt`, of which `example_keeps` works out an example; laws of kernels that keep the
//! rules are `specs/Laws.antt` and `Unfold.antt`.
#![tactic(auto)]

mod expr;
mod kernel;
mod laws;
mod survivors;
mod validity;

pub use expr::{
    Branches, CaseKind, Constant, Expr, ExprKind, Exprs, Group, GroupEntry, Labelled, Labels,
};
pub use kernel::{
    Definition, Definitions, Form, Forms, Kernel, Lambda, Lambdas, Literals, Numbers,
};
pub use laws::{
    bodies_are_scoped, cases_unfold, example_keeps, example_sizes, kinds_are_filled,
    lambdas_have_places, one_answer,
};
pub use survivors::{
    DefinitionScheme, Kept, KeptBlock, KeptGlobal, KeptProcedure, LocalTy, NumberedBlock,
    ProcedureTypes, Survivors, Typed,
};
pub use validity::valid;
