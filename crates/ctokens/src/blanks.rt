//! What stands behind the blanks at the front of a text, or behind its first bytes.

ghost use Rattle.std.specs.Prelude.{◌≡◌, drop};
ghost use Rattle.ctokens.specs.Directive.{unblanked, begins_with_blank};

use crate::byte::{Class, is_blank, leading};

/// The text behind its first bytes, so many of them.
pub(crate) fn behind(count: usize, text: &[u8]) -> &[u8]
    ensures { result.now ≡ drop count text.now }
{
    if count > text.len() {
        return &[];
    }
    text.split_at(count).1
}

/// The text behind the blanks at its front.
pub(crate) fn unblanked(text: &[u8]) -> &[u8]
    ensures { result.now ≡ unblanked text.now }
{
    text.split_at(leading(Class::Blank, text)).1
}

/// Whether the first byte of the text is a blank; an empty text has none.
pub(crate) fn begins_with_blank(text: &[u8]) -> bool
    ensures { result ≡ begins_with_blank text.now }
{
    match text {
        [] => false,
        [byte, ..] => is_blank(*byte),
    }
}
