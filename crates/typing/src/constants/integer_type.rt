ghost use Rattle.std.specs.Prelude.{◌≡◌, pos};
ghost use Rattle.typing.specs.constants.Types.{types, bytes_of, is_signed, has_value};

use crate::constants::base::Base;
use crate::constants::suffix::Suffix;
use cbase::{Abi, Rank, bytes_of_rank};

/// A type that an integer constant may have (C11 6.4.4.1p5).
#[derive(Clone, Copy)]
pub(crate) enum IntegerType {
    /// `int`.
    Int,
    /// `unsigned int`.
    UnsignedInt,
    /// `long`.
    Long,
    /// `unsigned long`.
    UnsignedLong,
    /// `long long`.
    LongLong,
    /// `unsigned long long`.
    UnsignedLongLong,
}

use IntegerType::{Int, Long, LongLong, UnsignedInt, UnsignedLong, UnsignedLongLong};

/// In which types the value of an integer constant is looked for, in this order (C11 6.4.4.1p5).
pub(crate) fn types(base: Base, suffix: Suffix) -> &'static [IntegerType]
    ensures { result.now ≡ types base suffix }
{
    match (base, suffix) {
        (Base::Decimal, Suffix::Empty) => &[Int, Long, LongLong],
        (Base::Decimal, Suffix::L) => &[Long, LongLong],
        (Base::Decimal, Suffix::Ll) => &[LongLong],
        (_, Suffix::Empty) => &[
            Int,
            UnsignedInt,
            Long,
            UnsignedLong,
            LongLong,
            UnsignedLongLong,
        ],
        (_, Suffix::U) => &[UnsignedInt, UnsignedLong, UnsignedLongLong],
        (_, Suffix::L) => &[Long, UnsignedLong, LongLong, UnsignedLongLong],
        (_, Suffix::Ul) => &[UnsignedLong, UnsignedLongLong],
        (_, Suffix::Ll) => &[LongLong, UnsignedLongLong],
        (_, Suffix::Ull) => &[UnsignedLongLong],
    }
}

impl IntegerType {
    /// How many bytes it has.
    pub(crate) fn bytes(self, abi: Abi) -> u8
        ensures { result ≡ bytes_of abi self }
    {
        let rank = match self {
            Int | UnsignedInt => Rank::Int,
            Long | UnsignedLong => Rank::Long,
            LongLong | UnsignedLongLong => Rank::LongLong,
        };
        bytes_of_rank(rank, abi)
    }

    /// Whether it has a sign.
    pub(crate) fn is_signed(self) -> bool
        ensures { result ≡ is_signed self }
    {
        matches!(self, Int | Long | LongLong)
    }

    /// Whether it has a number as a value.
    pub(crate) fn has(self, number: u64, abi: Abi) -> bool
        ensures { result ≡ has_value abi (pos number) self }
    {
        let greatest = match (self.bytes(abi), self.is_signed()) {
            (4, true) => 0x7fff_ffff,
            (4, false) => 0xffff_ffff,
            (_, true) => 0x7fff_ffff_ffff_ffff,
            (_, false) => 0xffff_ffff_ffff_ffff,
        };
        number <= greatest
    }
}
