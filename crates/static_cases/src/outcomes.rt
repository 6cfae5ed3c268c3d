//! The evaluation of the forms of a kernel, in an arena of its own.

ghost use Rattle.std.specs.Prelude.{IfOk, IsTrue};
ghost use Rattle.ps_prims.specs.Kinds.{AreKinds};

use crate::writing::{Asked, line};
use bumpalo::Bump;
use byte_store::Store;
use kernel_data::Trouble;
use ps_base::{Limits, NoMemory};
use ps_kernel::{Kernel, valid};
use ps_static_eval::evaluate;
use std::alloc::Global;

// Whether a kernel keeps the rules, by which its kinds of records fit.
#[tactic(auto, using(ps_kernel::proofs::ValidKindsAreFilled::are_filled))]
fn keeps_the_rules(alloc: Global, kernel: &Kernel) -> Result<bool, NoMemory>
    ensures { IfOk result (λ right. IsTrue right → AreKinds kernel.now.kinds) }
{
    valid(alloc, kernel)
}

/// What the forms of a kernel come to, where so many procedures may be entered and so many cells be made.
pub fn outcome(
    alloc: Global,
    asked: Asked,
    kernel: &Kernel,
    budget: u64,
    cells: u64,
) -> Result<String, Trouble> {
    if !keeps_the_rules(alloc, kernel)? {
        return Ok(String::from_str(alloc, "trouble")?);
    }
    let limits = Limits {
        budget,
        cells,
        ..Limits::standard()
    };
    let arena = Bump::new(alloc);
    let mut store = Store::new(&arena);
    let answer = evaluate(alloc, &arena, kernel, &mut store, &limits);
    line(alloc, asked, &answer, &store)
}
