//! What the texts of lambdas name.

ghost use Rattle.std.specs.Prelude.{◌≡◌, Some, IfOk};
ghost use Rattle.ps_captured.specs.InsideReading.{sights};
ghost use Rattle.ps_captured.specs.InsideKeeping.{all_named as all, named_in as named_spec, named_of as of_sights, sights_in};

use crate::free::{add_all_free, add_each_free};
use crate::locals::Locals;
use crate::reading::text_in;
use crate::seen::Seen;
use ps_base::{Items, NoMemory};
use ps_kernel::{Lambda, Numbers};
use std::alloc::Global;

/// What the text of a lambda names.
#[derive(Drop)]
pub struct Named {
    /// The locals that it names, in order of their numbers.
    pub names: Numbers,
    /// Those of them that it binds nowhere.
    pub free: Numbers,
}

/// What the text of each lambda names.
pub fn all_named(alloc: Global, lambdas: &[Lambda]) -> Result<Items<Named>, NoMemory>
    ensures { IfOk result (λ named. named ≡ all lambdas.now) }
{
    let mut named = Items::new(alloc);
    for lambda in lambdas {
        let text = text_in(alloc, lambdas, lambda)?;
        let one = named_of(alloc, text.as_slice())?;
        named.push(one)?;
    }
    Ok(named)
}

// What a text names.
fn named_of(alloc: Global, seen: &[Seen<'_>]) -> Result<Named, NoMemory>
    ensures { IfOk result (λ named. named ≡ of_sights (sights seen.now)) }
{
    let none = Locals::new(alloc);
    let mut names = Locals::new(alloc);
    add_each_free(&mut names, &none, seen)?;
    let mut free = Locals::new(alloc);
    add_all_free(alloc, &mut free, seen)?;
    Ok(Named {
        names: names.numbers(alloc)?,
        free: free.numbers(alloc)?,
    })
}
