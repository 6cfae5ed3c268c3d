//! Parts of a row of bytes.

ghost use Rattle.std.specs.Prelude.{◌≡◌, drop, slice_index};
ghost use Rattle.std.specs.Str.{bytes_eq};
ghost use Rattle.ps_read.specs.Lexical.{small};

/// The byte at a place, or 0 where there is none.
pub(crate) fn byte(text: &[u8], at: usize) -> u8
    ensures { result ≡ slice_index text.now at }
{
    if at < text.len() { text[at] } else { 0 }
}

/// What is left behind some bytes, which is nothing where there are fewer.
pub(crate) fn past(text: &[u8], count: usize) -> &[u8]
    ensures { result.now ≡ drop count text.now }
{
    if count <= text.len() {
        &text[count..]
    } else {
        &[]
    }
}

/// The bytes are this text.
pub(crate) fn is(bytes: &[u8], text: &[u8]) -> bool
    ensures { result ≡ bytes_eq bytes.now text.now }
{
    bytes == text
}

/// The bytes are this text, where capital letters count as small ones.
pub(crate) fn is_without_case(bytes: &[u8], text: &[u8]) -> bool
    ensures { result ≡ bytes_eq (small bytes.now) (small text.now) }
{
    bytes.eq_ignore_ascii_case(text)
}
