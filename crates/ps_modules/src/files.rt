//! The bodies of structures, and their files.

ghost use Rattle.std.specs.Prelude.{◌≡◌, ℕ, ◌+◌, ◌-◌, ◌<◌, ◌≤◌, ◌^◌, length, map, min, ◌∷◌, []};
ghost use Rattle.ps_modules.specs.declared.shapes.Part.TheVariants as parts;
ghost use Rattle.ps_modules.specs.InsideWalking.{BodyIs};
ghost use Rattle.ps_modules.specs.Walking.{counted, room_of};
ghost use Rattle.ps_modules.specs.Playing.{refusal_of};

use crate::copies::copied_data;
use crate::shapes::{FileName, Part};
use ps_base::{Fault, Items, Limits, ModuleKind, Names, Place, Refusal};
use ps_datum::Datum;
use ps_library::{FetchFault, Library, fetch};
use ps_read::read_all;
use std::alloc::Global;

/// How many files were fetched, and how many bytes were taken with the input.
#[derive(Clone, Copy, Debug)]
pub(crate) struct Count {
    pub(crate) number: u32,
    pub(crate) taken: u64,
}

/// A body, and the count behind its files.
#[derive(Drop)]
pub(crate) struct Body {
    pub(crate) forms: Items<Datum>,
    pub(crate) count: Count,
}

/// The forms of a structure's parts in order, where its files are fetched and read one after another.
pub(crate) fn body_of(
    alloc: Global,
    parts: &[Part],
    count: Count,
    names: &mut Names,
    libs: &mut Vec<Box<dyn Library>>,
    limits: &Limits,
) -> Result<Body, Refusal>
    requires taken { count.taken ≤ limits.now.all_bytes }
    requires room { length names.old + (limits.now.all_bytes - count.taken) < 2 ^ 32 - 1 }
    ensures { BodyIs limits.now parts.now count names.old (map (λ b. shows b) libs.old.items) names.new (map (λ b. shows b) libs.new.items) result }
{
    let mut forms = Items::new(alloc);
    let mut count = count;
    for part in parts {
        match part_of(alloc, part, count, names, libs, limits) {
            Ok(more) => {
                count = more.count;
                if forms.append(more.forms).is_err() {
                    return Err(Refusal::NoMemory);
                }
            }
            Err(refusal) => return Err(refusal),
        }
    }
    Ok(Body { forms, count })
}

// The forms of one part.
fn part_of(
    alloc: Global,
    part: &Part,
    count: Count,
    names: &mut Names,
    libs: &mut Vec<Box<dyn Library>>,
    limits: &Limits,
) -> Result<Body, Refusal>
    requires taken { count.taken ≤ limits.now.all_bytes }
    requires room { length names.old + (limits.now.all_bytes - count.taken) < 2 ^ 32 - 1 }
    ensures { BodyIs limits.now (part.now ∷ []) count names.old (map (λ b. shows b) libs.old.items) names.new (map (λ b. shows b) libs.new.items) result }
{
    match part {
        Part::Forms(ds) => match copied_data(alloc, ds.as_slice()) {
            Ok(forms) => Ok(Body { forms, count }),
            Err(_) => Err(Refusal::NoMemory),
        },
        Part::File(file) => file_of(alloc, file, count, names, libs, limits),
    }
}

// The forms of a file. It may have as many bytes as a text may, and no more than are left of those for all texts.
fn file_of(
    alloc: Global,
    file: &FileName,
    count: Count,
    names: &mut Names,
    libs: &mut Vec<Box<dyn Library>>,
    limits: &Limits,
) -> Result<Body, Refusal>
    requires taken { count.taken ≤ limits.now.all_bytes }
    requires room { length names.old + (limits.now.all_bytes - count.taken) < 2 ^ 32 - 1 }
    ensures { BodyIs limits.now (parts.File file.now ∷ []) count names.old (map (λ b. shows b) libs.old.items) names.new (map (λ b. shows b) libs.new.items) result }
{
    match fetch(alloc, libs, file.text.as_slice(), room_of(count, limits)) {
        Ok(text) => {
            let count = counted(count, text.len());
            match read_all(alloc, text.as_slice(), count.number, names) {
                Ok(forms) => Ok(Body { forms, count }),
                Err(refusal) => Err(refusal),
            }
        }
        Err(fault) => Err(refusal_of(file.place, count, fault)),
    }
}

// How many bytes the next file may have.
fn room_of(count: Count, limits: &Limits) -> u64
    requires { count.taken ≤ limits.now.all_bytes }
    ensures is { result ≡ room_of limits.now count }
    ensures within { count.taken + result < 2 ^ 64 }
{
    limits.text_bytes.min(limits.all_bytes - count.taken)
}

// The count behind a file of so many bytes.
fn counted(count: Count, bytes: usize) -> Count
    requires { count.taken + bytes < 2 ^ 64 }
    ensures { result ≡ counted count bytes }
{
    Count {
        number: count.number.saturating_add(1),
        taken: count.taken + bytes as u64,
    }
}

// What a file that was not fetched refuses.
fn refusal_of(place: Place, count: Count, fault: FetchFault) -> Refusal
    ensures { result ≡ refusal_of place count fault }
{
    match fault {
        FetchFault::Absent => Refusal::Fault(Fault::Module(ModuleKind::MissingFile, place)),
        FetchFault::Failed(i) => Refusal::Fault(Fault::Library(i)),
        FetchFault::TooLong => Refusal::Fault(Fault::TooLong(count.number.saturating_add(1))),
        FetchFault::NoMemory => Refusal::NoMemory,
    }
}
