//! The variables of depth 1 or more in a template.

ghost use Rattle.std.specs.Prelude.{◌≡◌, ◌++◌, map, IfOk, OnOk, slice_get};
ghost use Rattle.ps_pattern.specs.Surveys.{deep, deep_in, all_deep, deep_one};

use crate::template::{Part, Template, Variables};
use sqlite_items::at;
use std::alloc::{AllocError, Global};

/// Those of one template, in order. The depths are those of the pattern's variables.
pub fn deep_variables(
    alloc: Global,
    depths: &[usize],
    template: &Template,
) -> Result<Variables, AllocError>
    ensures { IfOk result (λ r. r ≡ deep depths.now template.now) }
{
    let mut out = Variables::new(alloc);
    gather(depths, template, &mut out)?;
    Ok(out)
}

// One variable, where its depth is 1 or more.
fn gather_one(depths: &[usize], v: usize, out: &mut Variables) -> Result<(), AllocError>
    ensures { OnOk result (out.new ≡ out.old ++ deep_one (slice_get depths.now v) v) }
{
    match at(depths, v) {
        None => Ok(()),
        Some(d) => { if *d == 0 { Ok(()) } else { out.push(v) } }
    }
}

#[cycle(gathering)]
#[tactic(auto, unfolding(crate::specs::Surveys::deep, crate::specs::Surveys::survey))]
fn gather(depths: &[usize], template: &Template, out: &mut Variables) -> Result<(), AllocError>
    ensures { OnOk result (out.new ≡ out.old ++ deep depths.now template.now) }
{
    match template {
        Template::Variable(v) => gather_one(depths, *v, out),
        Template::Inserted(_)
        | Template::Boolean(_)
        | Template::Integer(_)
        | Template::Char(_)
        | Template::Text(_) => Ok(()),
        Template::List(parts) => gather_all(depths, parts.as_slice(), out),
        Template::Vector(parts) => gather_all(depths, parts.as_slice(), out),
        Template::Dotted(parts, last) => {
            gather_all(depths, parts.as_slice(), out)?;
            gather(depths, last.get(), out)
        }
    }
}

#[cycle(gathering)]
fn gather_all(depths: &[usize], parts: &[Part], out: &mut Variables) -> Result<(), AllocError>
    ensures { OnOk result (out.new ≡ out.old ++ all_deep (map (deep_in depths.now) parts.now)) }
{
    for part in parts {
        gather_part(depths, part, out)?;
    }
    Ok(())
}

#[cycle(gathering)]
#[tactic(auto, unfolding(crate::specs::Surveys::deep, crate::specs::Surveys::deep_in, crate::specs::Surveys::survey, crate::specs::Surveys::survey_part))]
fn gather_part(depths: &[usize], part: &Part, out: &mut Variables) -> Result<(), AllocError>
    ensures { OnOk result (out.new ≡ out.old ++ deep_in depths.now part.now) }
{
    match part {
        Part::Plain(template) => gather(depths, template, out),
        Part::Each(template, _) => gather(depths, template, out),
    }
}
