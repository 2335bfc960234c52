use cbase::{Abi, Rank, bytes_of_rank};
use std::test::Fail;

/// How many bytes each rank has, the lowest first.
fn bytes_of_ranks(abi: Abi) -> [u8; 5] {
    [
        bytes_of_rank(Rank::Char, abi),
        bytes_of_rank(Rank::Short, abi),
        bytes_of_rank(Rank::Int, abi),
        bytes_of_rank(Rank::Long, abi),
        bytes_of_rank(Rank::LongLong, abi),
    ]
}

#[test]
fn long_alone_differs_between_data_layouts(rt: HostRuntime) -> Result<(), Fail> {
    let told = (bytes_of_ranks(Abi::Lp64), bytes_of_ranks(Abi::Llp64));
    assert_eq!(rt; told, ([1, 2, 4, 8, 8], [1, 2, 4, 4, 8]));
    Ok(())
}
