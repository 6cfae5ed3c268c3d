//! Special forms: from a form to its parts, by the shape of its row, by `parts`, serving `parts_of` of `specs/Parts.antt`; from a quoted
//! datum to a constant, by `quoted`, serving `quoted` of `specs/Quotation.antt`; and from the form of a field's type to the type, by
//! `type_of`, serving `type_of` of `specs/FieldTypes.antt`.
#![tactic(auto)]

mod bindings;
mod clauses;
mod distinct;
mod field_types;
mod forms;
mod keys;
mod laws;
mod quotation;
mod records;
mod rows;
mod types;

pub use bindings::{keywords_of, loop_variables_of, variables_of};
pub use distinct::are_distinct;
pub use field_types::type_of;
pub use laws::worked_forms;
pub use quotation::quoted;
pub use rows::parts;
pub use types::{
    Binding, CaseClause, Clause, Defined, Field, Label, LoopBinding, Macro, Parts, Quoted,
    RecordType, TypeForm,
};
