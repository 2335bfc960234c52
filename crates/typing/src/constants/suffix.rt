ghost use Rattle.std.specs.Prelude.{◌≡◌, map};
ghost use Rattle.std.specs.List.{list_any};
ghost use Rattle.std.specs.Str.{bytes_eq};
ghost use Rattle.typing.specs.constants.Deciding.{suffix_of};

/// The suffix of an integer constant, whatever the case and order of its letters (C11 6.4.4.1).
#[derive(Clone, Copy)]
pub(crate) enum Suffix {
    /// None.
    Empty,
    /// `u`.
    U,
    /// `l`.
    L,
    /// `u` and `l`.
    Ul,
    /// `ll`.
    Ll,
    /// `u` and `ll`.
    Ull,
}

/// The suffix that bytes are, if they are one.
pub(crate) fn suffix_of(bytes: &[u8]) -> Option<Suffix>
    ensures { result ≡ suffix_of bytes.now }
{
    match bytes {
        [] => Some(Suffix::Empty),
        [b'u' | b'U'] => Some(Suffix::U),
        [b'l' | b'L'] => Some(Suffix::L),
        [b'u' | b'U', b'l' | b'L'] | [b'l' | b'L', b'u' | b'U'] => Some(Suffix::Ul),
        b"ll" | b"LL" => Some(Suffix::Ll),
        [b'u' | b'U', b'l', b'l'] | [b'u' | b'U', b'L', b'L'] => Some(Suffix::Ull),
        [b'l', b'l', b'u' | b'U'] | [b'L', b'L', b'u' | b'U'] => Some(Suffix::Ull),
        _ => None,
    }
}
