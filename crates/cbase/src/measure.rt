ghost use Rattle.std.specs.Prelude.{◌≡◌};
ghost use Rattle.cbase.specs.Layout.{extent_of};

use crate::layout::Layout;

/// How much room the values of a type take.
#[derive(Clone, Copy, Debug, PartialEq, Eq)]
pub enum Extent {
    /// That many bytes, at most 65,536.
    Bytes(u32),
    /// The type is incomplete: its values have no size.
    Incomplete,
    /// More than 65,536 bytes.
    TooLarge,
}

/// The largest size that is told, in bytes.
const LARGEST: u32 = 65_536;

/// What is told of a layout: of one that is kept, the same as of the whole one.
pub fn told(layout: Option<Layout>) -> Extent
    ensures { result ≡ extent_of layout }
{
    match layout {
        None => Extent::Incomplete,
        Some(layout) => {
            if layout.size <= LARGEST {
                Extent::Bytes(layout.size)
            } else {
                Extent::TooLarge
            }
        }
    }
}
