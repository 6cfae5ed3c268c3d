//! A page: the text so far, or why there is none. Nothing more is written on it behind a fault, but that what is too long may
//! still turn out to be too deep.

ghost use Rattle.std.specs.Prelude.{◌≡◌, [], ◌∷◌, None, codes, decimal};
ghost use Rattle.std.specs.Fmt.{signed_decimal};
ghost use Rattle.ps_show.specs.InsidePages.{Adds, HoldsText, deeper};
ghost use Rattle.ps_show.specs.Shown.{Text, Deep, ◌⋄◌};
ghost use Rattle.ps_show.specs.Words.{numbered};

use itoa::Buffer;
use ps_base::{Bytes, Place};
use std::alloc::Global;

/// Why a kernel is not shown.
#[derive(Clone, Copy, Debug, PartialEq, Eq)]
pub enum ShowFault {
    /// A bracket would open level 201; the place of its form.
    Deep(Place),
    /// The text would have more than 4,194,304 bytes.
    Long,
    /// Memory ran out.
    NoMemory,
}

/// The most bytes that a text has.
pub(crate) const MOST: usize = 4_194_304;

/// Where brackets are told to stand that belong to no node.
pub(crate) const BEGINNING: Place = Place {
    file: 0,
    line: 1,
    column: 1,
};

/// A text so far.
#[derive(Drop)]
pub(crate) struct Page {
    /// Its bytes, where there is no fault.
    pub bytes: Bytes,
    /// Why it is no text.
    pub fault: Option<ShowFault>,
}

/// A page with nothing on it.
pub(crate) fn empty(alloc: Global) -> Page
    ensures { HoldsText result (Text []) }
{
    Page {
        bytes: Bytes::new(alloc),
        fault: None,
    }
}

/// One byte.
pub(crate) fn put_byte(page: &mut Page, byte: u8)
    ensures { Adds page.old page.new (Text (byte ∷ [])) }
{
    if page.fault.is_some() {
        return;
    }
    if page.bytes.len() >= MOST {
        page.fault = Some(ShowFault::Long);
        return;
    }
    match page.bytes.push(byte) {
        Ok(()) => {}
        Err(_) => page.fault = Some(ShowFault::NoMemory),
    }
}

/// Bytes as they are.
pub(crate) fn put(page: &mut Page, bytes: &[u8])
    ensures { Adds page.old page.new (Text bytes.now) }
{
    for byte in bytes {
        put_byte(page, *byte);
    }
}

/// A number in decimal digits.
pub(crate) fn put_number(page: &mut Page, number: u64)
    ensures { Adds page.old page.new (Text (decimal number)) }
{
    let mut buffer = Buffer::new();
    put(page, buffer.format(number).as_bytes());
}

/// A word and a number behind it.
#[tactic(auto, using(crate::proofs::PagesAreJoined::adds_then), unfolding(crate::specs::Words::numbered))]
pub(crate) fn put_numbered(page: &mut Page, word: &[u8], number: u64)
    ensures { Adds page.old page.new (numbered word.now number) }
{
    put(page, word);
    put_number(page, number);
}

/// An integer in decimal digits.
pub(crate) fn put_integer(page: &mut Page, integer: i64)
    ensures { Adds page.old page.new (Text (signed_decimal integer)) }
{
    let mut buffer = Buffer::new();
    put(page, buffer.format(integer).as_bytes());
}

/// A bracket that would be too deep, in the form of a place.
pub(crate) fn deepen(page: &mut Page, place: Place)
    ensures { Adds page.old page.new (Deep place) }
{
    match page.fault {
        None => page.fault = Some(ShowFault::Deep(place)),
        Some(fault) => page.fault = Some(deeper(fault, place)),
    }
}

// What a fault becomes with a bracket that would be too deep. The first such bracket decides.
fn deeper(fault: ShowFault, place: Place) -> ShowFault
    ensures { result ≡ deeper fault place }
{
    match fault {
        ShowFault::Deep(first) => ShowFault::Deep(first),
        ShowFault::Long => ShowFault::Deep(place),
        ShowFault::NoMemory => ShowFault::NoMemory,
    }
}
