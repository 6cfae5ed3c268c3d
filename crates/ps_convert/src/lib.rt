//! From programs of procedures of integers to kernels.
//! By `convert`, which serves `kernel_of` of `specs/Kernels.antt`.
//! That the kernel does what the program does is the law `kernels_do_the_same`, and of data `programs_convert`.
#![tactic(auto)]

mod conversion;
mod laws;

pub use conversion::convert;
pub use laws::{forms_do_nothing, kernels_do_the_same, programs_convert};
