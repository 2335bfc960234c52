ghost use Rattle.std.specs.Prelude.{◌≡◌};
ghost use Rattle.typing.specs.constants.Integers.{radix};

/// In which base an integer constant is written (C11 6.4.4.1).
#[derive(Clone, Copy)]
pub(crate) enum Base {
    /// Digits that do not begin with `0`.
    Decimal,
    /// Digits that begin with `0`.
    Octal,
    /// Digits behind `0x` or `0X`.
    Hexadecimal,
}

impl Base {
    /// How often the worth of a digit goes into that of the digit before it.
    pub(crate) fn radix(self) -> u64
        ensures { result ≡ radix self }
    {
        match self {
            Base::Decimal => 10,
            Base::Octal => 8,
            Base::Hexadecimal => 16,
        }
    }
}
