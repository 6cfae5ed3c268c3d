//! Quoted data.

ghost use Rattle.std.specs.Prelude.{◌≡◌, ℕ, Bool, true, map, slice_get};
ghost use Rattle.std.specs.List.{list_all};
ghost use Rattle.ps_datum.specs.Writing.{written, is_known};
ghost use Rattle.ps_datum.specs.declared.datum.Datum.{out-Datum};
ghost use Rattle.ps_datum.specs.declared.datum.DatumKind.{out-DatumKind};
ghost use Rattle.ps_show.specs.InsidePages.{Adds};
ghost use Rattle.ps_show.specs.Shown.{Text};
ghost use Rattle.ps_show.specs.ShowText.{fits, members_fit, member_fits, is_string, is_string_kind, literal_text, datum_text};
ghost use Rattle.ps_show.specs.InsideForms.{kind_fits};

use crate::page::{MOST, Page, ShowFault, deepen};
use ps_base::{Names, NoMemory, Place};
use ps_datum::{Datum, DatumKind, has_known_names, write_datum};
use ps_kernel::Kernel;

// Whether the brackets of a datum fit into so many levels.
#[cycle(fitting)]
fn fits(d: &Datum, levels: u32) -> bool
    ensures { result ≡ fits d.now levels }
{
    kind_fits(&d.kind, levels)
}

// The same of what a datum is, without its place.
#[cycle(fitting)]
fn kind_fits(kind: &DatumKind, levels: u32) -> bool
    ensures { result ≡ kind_fits kind.now levels }
{
    match kind {
        DatumKind::Boolean(_) => true,
        DatumKind::Integer(_) => true,
        DatumKind::Char(_) => true,
        DatumKind::Text(_) => true,
        DatumKind::Symbol(_) => true,
        DatumKind::List(items) => members_fit(items.as_slice(), levels),
        DatumKind::Dotted(items, tail) => {
            members_fit(items.as_slice(), levels) && member_fits(tail.get(), levels)
        }
        DatumKind::Vector(items) => members_fit(items.as_slice(), levels),
    }
}

// The same of brackets around a datum.
#[cycle(fitting)]
fn member_fits(d: &Datum, levels: u32) -> bool
    ensures { result ≡ member_fits (fits d.now) levels }
{
    if levels == 0 {
        return false;
    }
    fits(d, levels - 1)
}

// The same of brackets around data.
#[cycle(fitting)]
fn members_fit(ds: &[Datum], levels: u32) -> bool
    ensures { result ≡ members_fit (map fits ds.now) levels }
{
    if levels == 0 {
        return false;
    }
    all_fit(ds, levels - 1)
}

// The same of each datum.
#[cycle(fitting)]
fn all_fit(ds: &[Datum], levels: u32) -> bool
    ensures { result ≡ list_all (λ (f : ℕ → Bool). f levels) (map fits ds.now) }
{
    for d in ds {
        if !fits(d, levels) {
            return false;
        }
    }
    true
}

// A datum that fits. Its text is appended as a whole, and only then is it decided whether it is too long.
fn put_written(page: &mut Page, d: &Datum, names: &Names)
    requires { is_known names.now d.now ≡ true }
    ensures { Adds page.old page.new (Text (written names.now d.now)) }
{
    if page.fault.is_some() {
        return;
    }
    match write_datum(d, names, &mut page.bytes) {
        Ok(()) => {
            if page.bytes.len() > MOST {
                page.fault = Some(ShowFault::Long);
            }
        }
        Err(NoMemory) => page.fault = Some(ShowFault::NoMemory),
    }
}

// A datum that stands in so many levels, in the form of a place.
#[tactic(auto, using(crate::proofs::PagesAreJoined::adds_nothing), unfolding(crate::specs::ShowText::datum_text))]
fn put_datum(page: &mut Page, names: &Names, place: Place, levels: u32, d: &Datum)
    ensures { Adds page.old page.new (datum_text names.now place levels d.now) }
{
    if has_known_names(d, names) {
        if fits(d, levels) {
            put_written(page, d, names);
        } else {
            deepen(page, place);
        }
    }
}

/// The literal of a number that stands in so many levels, in the form of a place.
#[tactic(auto, using(crate::proofs::PagesAreJoined::adds_nothing))]
pub(crate) fn put_literal(
    page: &mut Page,
    kernel: &Kernel,
    names: &Names,
    place: Place,
    levels: u32,
    number: u32,
)
    ensures { Adds page.old page.new (literal_text names.now place levels (slice_get kernel.now.literals number)) }
{
    match kernel.literals.get(number as usize) {
        Some(d) => put_datum(page, names, place, levels, d),
        None => {}
    }
}

// Whether a datum is a string.
fn is_text(d: &Datum) -> bool
    ensures { result ≡ is_string_kind (out-DatumKind (out-Datum d.now).kind) }
{
    match &d.kind {
        DatumKind::Boolean(_) => false,
        DatumKind::Integer(_) => false,
        DatumKind::Char(_) => false,
        DatumKind::Text(_) => true,
        DatumKind::Symbol(_) => false,
        DatumKind::List(_) => false,
        DatumKind::Dotted(_, _) => false,
        DatumKind::Vector(_) => false,
    }
}

/// Whether the literal of a number is a string.
pub(crate) fn is_string(kernel: &Kernel, number: u32) -> bool
    ensures { result ≡ is_string (slice_get kernel.now.literals number) }
{
    match kernel.literals.get(number as usize) {
        Some(d) => is_text(d),
        None => false,
    }
}
