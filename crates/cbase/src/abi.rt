/// A data layout of C: how many bytes `long` has.
///
/// In both a `char` has 1 byte, a `short` 2, an `int` 4, a `long long` and each pointer 8.
#[derive(Clone, Copy, Debug, PartialEq, Eq)]
pub enum Abi {
    /// System V AMD64: a `long` has 8 bytes.
    Lp64,
    /// 64-bit Windows: a `long` has 4 bytes.
    Llp64,
}
