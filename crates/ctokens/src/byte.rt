//! The classes of bytes that a text is made of.

ghost use Rattle.std.specs.Prelude.{◌≡◌, ◌≤◌, length};
ghost use Rattle.std.specs.List.{prefix_len};
ghost use Rattle.cbase.specs.Bytes.{is_digit};
ghost use Rattle.ctokens.specs.Bytes.{is_blank, is_octal_digit, is_hexadecimal_digit, is_nondigit, begins_word, is_word_byte, is_number_byte, is_exponent, is_sign};
ghost use Rattle.ctokens.specs.Directive.{is_flag_byte};
ghost use Rattle.ctokens.specs.Spelled.{continues};
ghost use Rattle.ctokens.specs.Class.{is_of};

/// A class of bytes of which a text has rows.
#[derive(Clone, Copy)]
pub(crate) enum Class {
    /// Blanks, newlines among them.
    Blank,
    /// `0` to `9`.
    Digit,
    /// `0` to `7`.
    Octal,
    /// `0` to `9`, `A` to `F` and `a` to `f`.
    Hexadecimal,
    /// What a word goes on with.
    Word,
    /// Anything but a newline.
    Line,
}

/// How many bytes of the class the text begins with.
pub(crate) fn leading(class: Class, text: &[u8]) -> usize
    ensures count { result ≡ prefix_len (is_of class) text.now }
    ensures inside { result ≤ length text.now }
{
    for (index, byte) in text.iter().enumerate() {
        if !is_of(class, *byte) {
            return index;
        }
    }
    text.len()
}

/// Whether the byte is of the class.
fn is_of(class: Class, byte: u8) -> bool
    ensures { result ≡ is_of class byte }
{
    match class {
        Class::Blank => is_blank(byte),
        Class::Digit => is_digit(byte),
        Class::Octal => is_octal_digit(byte),
        Class::Hexadecimal => is_hexadecimal_digit(byte),
        Class::Word => is_word_byte(byte),
        Class::Line => byte != b'\n',
    }
}

/// A space, tab, newline, vertical tab, form feed or carriage return.
pub(crate) fn is_blank(byte: u8) -> bool
    ensures { result ≡ is_blank byte }
{
    byte == b' ' || b'\t' <= byte && byte <= b'\r'
}

/// `0` to `9`.
pub(crate) fn is_digit(byte: u8) -> bool
    ensures { result ≡ is_digit byte }
{
    b'0' <= byte && byte <= b'9'
}

/// `0` to `7`.
pub(crate) fn is_octal_digit(byte: u8) -> bool
    ensures { result ≡ is_octal_digit byte }
{
    b'0' <= byte && byte <= b'7'
}

/// `0` to `9`, `A` to `F` or `a` to `f`.
fn is_hexadecimal_digit(byte: u8) -> bool
    ensures { result ≡ is_hexadecimal_digit byte }
{
    is_digit(byte) || b'A' <= byte && byte <= b'F' || b'a' <= byte && byte <= b'f'
}

/// A digit or a blank.
pub(crate) fn is_flag_byte(byte: u8) -> bool
    ensures { result ≡ is_flag_byte byte }
{
    is_digit(byte) || is_blank(byte)
}

/// A letter or `_`.
fn is_nondigit(byte: u8) -> bool
    ensures { result ≡ is_nondigit byte }
{
    b'a' <= byte && byte <= b'z' || b'A' <= byte && byte <= b'Z' || byte == b'_'
}

/// A letter, `_` or `$`: what a word begins with.
pub(crate) fn begins_word(byte: u8) -> bool
    ensures { result ≡ begins_word byte }
{
    is_nondigit(byte) || byte == b'$'
}

/// A letter, a digit, `_` or `$`: what a word goes on with.
pub(crate) fn is_word_byte(byte: u8) -> bool
    ensures { result ≡ is_word_byte byte }
{
    begins_word(byte) || is_digit(byte)
}

/// A letter, a digit, `_` or `.`.
fn is_number_byte(byte: u8) -> bool
    ensures { result ≡ is_number_byte byte }
{
    is_nondigit(byte) || is_digit(byte) || byte == b'.'
}

/// `e`, `E`, `p` or `P`.
fn is_exponent(byte: u8) -> bool
    ensures { result ≡ is_exponent byte }
{
    byte == b'e' || byte == b'E' || byte == b'p' || byte == b'P'
}

/// `+` or `-`.
fn is_sign(byte: u8) -> bool
    ensures { result ≡ is_sign byte }
{
    byte == b'+' || byte == b'-'
}

/// Whether a preprocessing number goes on with the byte, behind the byte `before`.
pub(crate) fn continues(before: u8, byte: u8) -> bool
    ensures { result ≡ continues before byte }
{
    is_number_byte(byte) || is_sign(byte) && is_exponent(before)
}
