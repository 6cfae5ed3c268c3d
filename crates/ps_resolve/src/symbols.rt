//! The words that data are.

ghost use Rattle.std.specs.Prelude.{◌≡◌, MatchOption, None, Some};
ghost use Rattle.ps_plain.specs.Forms.{part, keyword_in};
ghost use Rattle.ps_plain.specs.Faults.{flaws};

use crate::words;
use ps_base::{Name, Names};
use ps_datum::{Datum, DatumKind};
use ps_plain::Keyword;

// The word that a datum is: its name, and the text of this.
pub(crate) fn symbol<'a>(names: &'a Names, datum: &Datum) -> Option<(Name, &'a [u8])>
    ensures reads { MatchOption result ((part names.now datum.now).word ≡ None) (λ r. ((part names.now datum.now).symbol ≡ Some r.0) × ((part names.now datum.now).word ≡ Some r.1.now)) }
    ensures tells { MatchOption result ((flaws names.now datum.now).word ≡ None) (λ r. (flaws names.now datum.now).word ≡ Some r.1.now) }
{
    match &datum.kind {
        DatumKind::Symbol(name) => match words::text(names, *name) {
            Some(text) => Some((*name, text)),
            None => None,
        },
        DatumKind::Boolean(_) => None,
        DatumKind::Integer(_) => None,
        DatumKind::Char(_) => None,
        DatumKind::Text(_) => None,
        DatumKind::List(_) => None,
        DatumKind::Dotted(_, _) => None,
        DatumKind::Vector(_) => None,
    }
}

// The word that a datum is: the text of its name.
pub(crate) fn word<'a>(names: &'a Names, datum: &Datum) -> Option<&'a [u8]>
    ensures reads { MatchOption result ((part names.now datum.now).word ≡ None) (λ w. (part names.now datum.now).word ≡ Some w.now) }
    ensures tells { MatchOption result ((flaws names.now datum.now).word ≡ None) (λ w. (flaws names.now datum.now).word ≡ Some w.now) }
{
    let (_, text) = symbol(names, datum)?;
    Some(text)
}

// The keyword that a datum is.
pub(crate) fn keyword(names: &Names, datum: &Datum) -> Option<Keyword>
    ensures reads { result ≡ keyword_in (part names.now datum.now).word }
    ensures tells { result ≡ keyword_in (flaws names.now datum.now).word }
{
    match word(names, datum) {
        Some(word) => words::keyword(word),
        None => None,
    }
}
