/// How many bytes an integer has (C11 6.2.5p4-8).
#[derive(Clone, Copy, Debug, PartialEq, Eq)]
pub enum Size {
    /// One byte, as `char` and `_Bool` have.
    One,
    /// Two bytes, as `short` has.
    Two,
    /// Four bytes, as `int` has.
    Four,
    /// Eight bytes, as `long` and `long long` have.
    Eight,
}

impl Size {
    ghost use Rattle.std.specs.Prelude.{◌≡◌, ◌*◌};
    ghost use Rattle.arithmetic.specs.Size.{bytes, size_of};

    /// The size of so many bytes, if there is one.
    pub fn of_bytes(count: u64) -> Option<Size>
        ensures { result ≡ size_of count }
    {
        match count {
            1 => Some(Size::One),
            2 => Some(Size::Two),
            4 => Some(Size::Four),
            8 => Some(Size::Eight),
            _ => None,
        }
    }

    /// How many bytes an integer of the size has.
    pub fn bytes(self) -> u64
        ensures { result ≡ bytes self }
    {
        match self {
            Size::One => 1,
            Size::Two => 2,
            Size::Four => 4,
            Size::Eight => 8,
        }
    }

    /// How many bits an integer of the size has.
    pub fn bits(self) -> u64
        ensures { result ≡ 8 * bytes self }
    {
        8 * self.bytes()
    }
}
