//! A kernel with the lists of what procedures keep.

ghost use Rattle.std.specs.Prelude.{◌≡◌, ◌<◌, [], ◌∷◌, ◌++◌, IfOk, length, reverse};
ghost use Rattle.ps_captured.specs.Filled.{IsFilled};
ghost use Rattle.ps_captured.specs.InsideKeeping.{with_list as listed, with_lists as filled};

use crate::keeping::all_kept;
use ps_base::{Items, NoMemory};
use ps_kernel::{Kernel, Lambda, Lambdas, Numbers};
use std::alloc::Global;

/// The same kernel, in which each lambda lists the locals that its procedure keeps, in order of their numbers: the free ones of its
/// text, which it mentions or assigns and binds nowhere, and in a `letrec` (R5RS 4.2.2) those of each lambda of the group that it
/// reaches through mentions, without the group's own locals. The lists that it had are not looked at. All else stays as it was.
///
/// It does so for every kernel. Its time grows as the texts of the lambdas, of which each is read once, with those inside it.
///
/// # Errors
///
/// `NoMemory` where memory ran out.
pub fn capture(alloc: Global, kernel: Kernel) -> Result<Kernel, NoMemory>
    ensures { IfOk result (λ after. IsFilled kernel after) }
{
    let lists = all_kept(alloc, &kernel)?;
    Ok(Kernel {
        definitions: kernel.definitions,
        lambdas: with_lists(alloc, kernel.lambdas, lists)?,
        literals: kernel.literals,
        kinds: kernel.kinds,
        forms: kernel.forms,
        main: kernel.main,
    })
}

// Lambdas with lists in their order.
fn with_lists(alloc: Global, lambdas: Lambdas, lists: Items<Numbers>) -> Result<Lambdas, NoMemory>
    requires { length lists ≡ length lambdas }
    ensures { IfOk result (λ after. after ≡ filled lambdas lists) }
{
    let mut lambdas = lambdas;
    let mut lists = lists;
    let mut behind = Lambdas::new(alloc);
    while let Some(lambda) = lambdas.pop() {
        let captured = last_of(alloc, &mut lists);
        behind.push(with_list(lambda, captured))?;
    }
    in_reverse(alloc, behind)
}

// The last of some lists, which is taken off.
fn last_of(alloc: Global, lists: &mut Items<Numbers>) -> Numbers
    requires { 0 < length lists.old }
    ensures { lists.old ≡ lists.new ++ result ∷ [] }
{
    match lists.pop() {
        Some(list) => list,
        None => Numbers::new(alloc),
    }
}

// A lambda with a list.
fn with_list(lambda: Lambda, captured: Numbers) -> Lambda
    ensures { result ≡ listed lambda captured }
{
    Lambda {
        place: lambda.place,
        parameters: lambda.parameters,
        captured,
        body: lambda.body,
    }
}

// Lambdas from the last to the first.
fn in_reverse(alloc: Global, lambdas: Lambdas) -> Result<Lambdas, NoMemory>
    ensures { IfOk result (λ after. after ≡ reverse lambdas) }
{
    let mut lambdas = lambdas;
    let mut after = Lambdas::new(alloc);
    while let Some(lambda) = lambdas.pop() {
        after.push(lambda)?;
    }
    Ok(after)
}
