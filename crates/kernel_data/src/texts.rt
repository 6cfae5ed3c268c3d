//! Texts, and the kernels that they are.

ghost use Rattle.std.specs.Prelude.{◌≡◌, ◌<◌, [], IfOk};
ghost use Rattle.ps_base.specs.Limits.{most_numbered};
ghost use Rattle.ps_datum.specs.Weight.{weights};

use crate::trouble::Trouble;
use ps_base::{Fault, Items, Name, Names};
use ps_convert::convert;
use ps_datum::Datum;
use ps_kernel::Kernel;
use ps_read::read_all;
use ps_resolve::resolve;
use std::alloc::Global;

/// The data of a text, and their names.
pub fn data_of(alloc: Global, text: &[u8], names: &mut Names) -> Result<Items<Datum>, Trouble>
    requires { names.old ≡ [] }
    ensures { IfOk result (λ ds. weights ds < most_numbered) }
{
    if text.len() > 4_194_304 {
        return Err(Trouble::Refused(Fault::TooLong(0)));
    }
    Ok(read_all(alloc, text, 0, names)?)
}

/// The kernel of the program that a text is.
pub fn kernel_of(alloc: Global, text: &[u8]) -> Result<Kernel, Trouble> {
    let mut names = Names::new(alloc);
    let forms = data_of(alloc, text, &mut names)?;
    let program = resolve(alloc, &names, forms.as_slice())?;
    Ok(convert(alloc, Name(0), &program)?)
}
