ghost use Rattle.std.specs.Prelude.{◌≡◌};
ghost use Rattle.cbase.specs.Layout.{no_fields, scalar, repeated, with_field, padded};
ghost use Rattle.cbase.specs.Kept.{capped, IsSmall};

/// The bytes of a type, and the number of which its address is a multiple, as they are kept while others are computed.
#[derive(Clone, Copy, Debug, PartialEq, Eq)]
pub struct Layout {
    /// How many bytes it takes; 65,537 stands for every larger size as well.
    pub size: u32,
    /// 1, 2, 4 or 8.
    pub alignment: u32,
}

/// What every size above 65,536 is kept as.
const TOO_LARGE: u32 = 65_537;

impl Layout {
    /// A struct before its first field.
    pub fn empty() -> Layout
        ensures { result ≡ no_fields }
    {
        Layout {
            size: 0,
            alignment: 1,
        }
    }

    /// A number or a pointer of so many bytes.
    pub fn scalar(bytes: u8) -> Layout
        ensures { result ≡ scalar bytes }
    {
        Layout {
            size: bytes as u32,
            alignment: bytes as u32,
        }
    }

    /// An array of so many items of this layout.
    pub fn repeated(self, count: u32) -> Layout
        ensures { result ≡ capped (repeated count self) }
    {
        Layout {
            size: self.size.saturating_mul(count).min(TOO_LARGE),
            alignment: self.alignment,
        }
    }

    /// A struct of this layout with one more field.
    pub fn with_field(self, field: Layout) -> Layout
        requires before { IsSmall self }
        requires field { IsSmall field }
        ensures { result ≡ capped (with_field self field) }
    {
        let offset = self.size.next_multiple_of(field.alignment);
        Layout {
            size: (offset + field.size).min(TOO_LARGE),
            alignment: self.alignment.max(field.alignment),
        }
    }

    /// A struct whose fields take this layout, rounded up to its alignment.
    pub fn padded(self) -> Layout
        requires { IsSmall self }
        ensures { result ≡ capped (padded self) }
    {
        Layout {
            size: self.size.next_multiple_of(self.alignment).min(TOO_LARGE),
            alignment: self.alignment,
        }
    }
}
