//! From texts to units of the C subset: the passes, one after another.

ghost use Rattle.std.specs.Prelude.{◌≤◌, length, IfOk, IfErr};
ghost use Rattle.ps_command.specs.Headline.{Translates};
ghost use Rattle.ps_command.specs.Refusals.{IsRefusalOf};

use byte_store::same_each_agrees;
use c_ast::CUnit;
use c_emit::build;
use ps_base::{Names, Refusal};
use ps_convert::programs_convert;
use ps_read::read_all;
use ps_resolve::resolve;
use std::alloc::Global;

/// The unit that a text of at most 4,194,304 bytes, read as file 0, is translated to.
///
/// # Errors
///
/// `Syntax` with the kind and the place of the first breach, exactly where the text is not that of data. `NotBuilt` with the
/// place of the first fault, exactly where it is that of data that are no program. `NoMemory` where memory ran out.
#[tactic(auto, using(crate::proofs::UnitsTranslateTexts::translated))]
pub fn translate(alloc: Global, text: &[u8]) -> Result<CUnit, Refusal>
    requires { length text.now ≤ 4194304 }
    ensures translated { IfOk result (λ unit. Translates text.now unit) }
    ensures refused { IfErr result (λ refusal. IsRefusalOf text.now refusal) }
{
    programs_convert();
    same_each_agrees();
    let mut names = Names::new(alloc);
    let forms = read_all(alloc, text, 0, &mut names)?;
    let program = resolve(alloc, &names, forms.as_slice())?;
    let unit = build(alloc, &program)?;
    Ok(unit)
}
