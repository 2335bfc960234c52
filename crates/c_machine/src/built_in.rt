/// A function that is built in, by what it does (C11 7.22, 7.24).
#[derive(Clone, Copy, Debug, PartialEq, Eq)]
pub enum BuiltIn {
    /// `malloc`: a new block with any contents, or null (C11 7.22.3.4).
    Malloc,
    /// `calloc`: a new block of zeros, or null (C11 7.22.3.2).
    Calloc,
    /// `free`: the end of a block (C11 7.22.3.3).
    Free,
    /// `memset`: so many bytes become one number (C11 7.24.6.1).
    Memset,
    /// `memcpy`: a copy between ranges that share no byte (C11 7.24.2.1).
    Memcpy,
    /// `memmove`: a copy (C11 7.24.2.2).
    Memmove,
    /// The run ends, as at `abort` and `exit` (C11 7.22.4).
    EndsRun,
    /// The run ends where the argument is 0.
    Assume,
    /// The first of two arguments.
    Expect,
    /// Any input of the type of the result.
    GivesInput,
}
