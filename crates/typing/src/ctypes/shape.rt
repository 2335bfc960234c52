/// A type of C with the numbers of the types that it is built from in place of these.
#[derive(Clone, Copy, PartialEq, Eq, Hash)]
pub enum Shape {
    /// `void`.
    Void,
    /// `_Bool`.
    Bool,
    /// An integer of so many bytes.
    Int {
        /// How many bytes it has.
        bytes: u8,
        /// Whether it has a sign.
        signed: bool,
    },
    /// A pointer to a value of the type of that number.
    Pointer(u32),
    /// The struct of that number.
    Struct(u32),
    /// An array of so many items of the type of that number.
    Array(u32, u64),
}
