//! Words: those with a meaning of their own, and names.

ghost use Rattle.std.specs.Prelude.{◌≡◌, slice_get, MatchOption, None, Some};
ghost use Rattle.std.specs.Str.{bytes_eq};
ghost use Rattle.ps_plain.specs.Forms.{is_name, keyword_of};

use ps_base::{Name, Names};
use ps_plain::{Comparison, Keyword, Operator};

// The text of a name, where the table has it.
pub(crate) fn text(names: &Names, name: Name) -> Option<&[u8]>
    ensures { MatchOption result (slice_get names.now name.0 ≡ None) (λ w. slice_get names.now name.0 ≡ Some w.now) }
{
    if name.0 < names.len() {
        Some(names.text(name))
    } else {
        None
    }
}

// The word is this text.
pub(crate) fn is(word: &[u8], text: &[u8]) -> bool
    ensures { result ≡ bytes_eq word.now text.now }
{
    word == text
}

// The meaning of its own that the word has.
pub(crate) fn keyword(word: &[u8]) -> Option<Keyword>
    ensures { result ≡ keyword_of word.now }
{
    if is(word, b"define") {
        Some(Keyword::Define)
    } else if is(word, b"if") {
        Some(Keyword::If)
    } else if is(word, b"write-byte") {
        Some(Keyword::WriteByte)
    } else if is(word, b"read-byte") {
        Some(Keyword::ReadByte)
    } else if is(word, b"+") {
        Some(Keyword::Arithmetic(Operator::Add))
    } else if is(word, b"-") {
        Some(Keyword::Arithmetic(Operator::Subtract))
    } else if is(word, b"*") {
        Some(Keyword::Arithmetic(Operator::Multiply))
    } else if is(word, b"<") {
        Some(Keyword::Compare(Comparison::Less))
    } else if is(word, b"=") {
        Some(Keyword::Compare(Comparison::Equal))
    } else {
        None
    }
}

// The word may be the name of a parameter or a procedure.
pub(crate) fn is_name(word: &[u8]) -> bool
    ensures { result ≡ is_name word.now }
{
    keyword(word).is_none()
}
