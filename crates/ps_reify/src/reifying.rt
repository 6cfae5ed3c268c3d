//! The public call.

ghost use Rattle.std.specs.Prelude.{◌≡◌, ◌<◌, length};
ghost use Rattle.ps_kernel.specs.Valid.{IsValid};
ghost use Rattle.ps_meaning.specs.Literals.{lay_all};
ghost use Rattle.ps_reify.specs.Answers.{Answers, program};
ghost use Rattle.ps_reify.specs.InsideWork.{program_of, IsImage, IsOver};

use crate::find::{Walk, begins, missing_place, run, start};
use crate::image::{Image, image_of};
use crate::keep::kept;
use byte_store::{Store, Value};
use ps_base::{Fault, Refusal, SurviveKind};
use ps_kernel::{Kernel, Survivors};
use std::alloc::{Allocator, Global};

/// What `main` reaches: the procedure definitions in the order of the walk from `main`, each once, and the blocks and the other
/// definitions in order of their numbers, with their values as the forms left them. `globals` has the value of each definition,
/// by its number, and `store` the memory that the forms left. The kernel must keep the rules, and there must be fewer than
/// 4,294,967,296 definitions and blocks of literals.
///
/// # Errors
///
/// `Survives` at the first fault of the walk: `MainMissing` at the definition of `main`, where that is no procedure without
/// parameters; `CompileOnly` at a primitive for compile time alone; `ProcedureAssigned` at a `set!` of a procedure definition.
/// `NoMemory` where memory runs out.
pub fn reify<A: Allocator + Copy>(
    alloc: Global,
    kernel: &Kernel,
    globals: &[Option<Value>],
    store: &Store<Value, A>,
) -> Result<Survivors, Refusal>
    requires valid { IsValid kernel.now }
    requires definitions { length globals.now < 4294967296 }
    requires literals { length (lay_all kernel.now.literals).blocks < 4294967296 }
    ensures { Answers (program kernel.now globals.now store.now) result }
{
    let image = match image_of(alloc, kernel, globals, store) {
        Ok(image) => image,
        Err(_) => return Err(Refusal::NoMemory),
    };
    if !begins(&image) {
        return Err(Refusal::Fault(Fault::Survives(
            SurviveKind::MainMissing,
            missing_place(&image),
        )));
    }
    let walk = match start(alloc, &image) {
        Ok(walk) => walk,
        Err(_) => return Err(Refusal::NoMemory),
    };
    match run(alloc, &image, walk) {
        Ok(walk) => copied(alloc, &image, &walk),
        Err(refusal) => Err(refusal),
    }
}

// The survivors of a walk that ended well.
fn copied<A: Allocator + Copy>(
    alloc: Global,
    image: &Image<'_, A>,
    walk: &Walk,
) -> Result<Survivors, Refusal>
    requires image { IsImage image.now }
    requires walk { IsOver (program_of image.now) walk.now }
    requires definitions { length image.now.globals.now < 4294967296 }
    ensures { Answers (program_of image.now) result }
{
    match kept(alloc, image, walk) {
        Ok(survivors) => Ok(survivors),
        Err(_) => Err(Refusal::NoMemory),
    }
}
