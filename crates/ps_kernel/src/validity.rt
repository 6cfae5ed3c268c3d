//! Whether a kernel keeps the rules.

ghost use Rattle.std.specs.Prelude.{◌≡◌, ◌↔◌, true, IfOk};
ghost use Rattle.ps_kernel.specs.Valid.{IsValid};

mod branches;
mod kinds;
mod labels;
mod literals;
mod locals;
mod once;
mod passing;
mod text;
mod walk;

use crate::kernel::Kernel;
use ps_base::NoMemory;
use std::alloc::Global;

// The deepest that an expression may stand, and that a literal may be.
const DEPTH: u32 = 1_000;

/// Whether a kernel keeps the rules that every pass relies on: each number names what is there, each local is bound at one
/// place, and mentioned or assigned where it is bound, none is assigned that a letrec binds or that a lambda lists as kept,
/// each lambda stands at one place that is reached from the forms, each proper call stands in tail position (R5RS 3.5), each
/// definition has one form, each primitive its number of operands, each sequence a part (R5RS 4.2.3) and each case from 1 to
/// 1,023 labels, all different, the literals and the kinds of records are such as may stand there, and there are at most
/// 1,000,000 expressions, none deeper than 1,000, where a case counts as what it unfolds to. That the lambdas list what their
/// procedures keep is not looked into.
///
/// # Errors
///
/// `NoMemory` where memory ran out.
pub fn valid(alloc: Global, kernel: &Kernel) -> Result<bool, NoMemory>
    ensures { IfOk result (λ right. (right ≡ true) ↔ IsValid kernel.now) }
{
    if (kernel.main as usize) >= kernel.definitions.len() {
        return Ok(false);
    }
    let numbers = text::defined_in(alloc, kernel.forms.as_slice())?;
    if !once::each_once(alloc, kernel.definitions.len(), numbers.as_slice())? {
        return Ok(false);
    }
    if !literals::all_right(kernel.literals.as_slice()) {
        return Ok(false);
    }
    if !kinds::all_right(alloc, kernel.kinds.as_slice())? {
        return Ok(false);
    }
    text::is_right(alloc, kernel)
}
