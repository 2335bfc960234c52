ghost use Rattle.std.specs.Prelude.{◌≡◌};
ghost use Rattle.cbase.specs.IntegerSizes.{bytes_of_rank};

use crate::abi::Abi;
use crate::tree::Rank;

/// How many bytes an integer of that rank has (C11 6.2.5), with a sign or without.
pub fn bytes_of_rank(rank: Rank, abi: Abi) -> u8
    ensures { result ≡ bytes_of_rank abi rank }
{
    match rank {
        Rank::Char => 1,
        Rank::Short => 2,
        Rank::Int => 4,
        Rank::Long => match abi {
            Abi::Lp64 => 8,
            Abi::Llp64 => 4,
        },
        Rank::LongLong => 8,
    }
}
