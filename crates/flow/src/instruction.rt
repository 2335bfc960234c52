use arithmetic::Op;
use cbase::List;

/// What an edge of the flow graph does. Registers, variables and functions are named by numbers, sizes are bytes.
///
/// Each instruction but `Move` empties the registers that it reads.
#[derive(Drop)]
pub enum Instr {
    /// A constant.
    Number {
        /// The register that gets it.
        into: u32,
        /// Its bits.
        value: u64,
        /// Its size.
        size: u8,
    },
    /// The address of a variable.
    Address {
        /// The register that gets it.
        into: u32,
        /// The variable.
        variable: u32,
    },
    /// The value of a register, which keeps it.
    Move {
        /// The register that gets it.
        into: u32,
        /// The register that has it.
        from: u32,
    },
    /// A load.
    Read {
        /// The register that gets the value.
        into: u32,
        /// The register that holds the address.
        at: u32,
        /// How many bytes are read.
        size: u8,
        /// Whether they are read at a pointer type.
        pointer: bool,
    },
    /// A store.
    Write {
        /// The register that holds the address.
        at: u32,
        /// The register that holds the value.
        from: u32,
        /// How many bytes are written.
        size: u8,
    },
    /// An address moved by a constant.
    Shift {
        /// The register that gets it.
        into: u32,
        /// The register that holds the address.
        at: u32,
        /// By how many bytes.
        by: i64,
    },
    /// An address moved by a register times a constant.
    ShiftBy {
        /// The register that gets it.
        into: u32,
        /// The register that holds the address.
        at: u32,
        /// The register that holds the number of items.
        by: u32,
        /// How many bytes an item has.
        scale: i64,
    },
    /// An operation on two integers.
    Compute {
        /// The register that gets the value.
        into: u32,
        /// The operation.
        op: Op,
        /// The register that holds the left side.
        left: u32,
        /// The register that holds the right side.
        right: u32,
        /// The size of the sides; of a shift that of the left side.
        size: u8,
        /// Whether the sides have a sign.
        signed: bool,
    },
    /// A conversion between integers.
    Convert {
        /// The register that gets the value.
        into: u32,
        /// The register that holds it.
        from: u32,
        /// The size that it is converted to.
        size: u8,
        /// Whether the type that is converted has a sign.
        signed: bool,
    },
    /// Passes only where two registers are equal.
    IfSame {
        /// One register.
        left: u32,
        /// The other one.
        right: u32,
    },
    /// Passes only where two registers differ.
    IfDifferent {
        /// One register.
        left: u32,
        /// The other one.
        right: u32,
    },
    /// An allocation that gives a block.
    Allocate {
        /// The register that gets its address.
        into: u32,
        /// How many bytes the block has.
        bytes: u32,
        /// Whether they are zero.
        zeroed: bool,
    },
    /// An allocation that gives null.
    AllocateNone {
        /// The register that gets the null pointer.
        into: u32,
    },
    /// Frees a block.
    Release {
        /// The register that holds its address.
        at: u32,
    },
    /// Fills bytes, as `memset` does.
    Fill {
        /// The register that holds the address.
        at: u32,
        /// The register that holds the value.
        from: u32,
        /// How many bytes are filled.
        length: u32,
    },
    /// Copies bytes, as `memcpy` and `memmove` do.
    Copy {
        /// The register that holds the address of the target.
        to: u32,
        /// The register that holds the address of the source.
        from: u32,
        /// How many bytes are copied.
        length: u32,
        /// Whether target and source may not share a byte.
        disjoint: bool,
    },
    /// Makes variables, where a scope is entered.
    Enter {
        /// The variables.
        variables: List<u32>,
    },
    /// Ends variables, where a scope is left.
    Leave {
        /// The variables.
        variables: List<u32>,
    },
    /// Ends a full expression.
    Finish {
        /// The registers that are emptied.
        registers: List<u32>,
    },
    /// A value from outside.
    Input {
        /// The register that gets it.
        into: u32,
        /// Its size.
        size: u8,
        /// Whether its type has a sign.
        signed: bool,
        /// Whether it is 0 or 1.
        truth: bool,
    },
    /// Enters a function.
    Call {
        /// The function.
        function: u32,
        /// The registers that hold the arguments.
        arguments: List<u32>,
        /// The register that gets the result.
        into: Option<u32>,
    },
    /// Goes back to the caller.
    Return {
        /// The register that holds the result.
        from: Option<u32>,
    },
    /// Looks for heap blocks that were never freed, where main returns.
    Close,
}
