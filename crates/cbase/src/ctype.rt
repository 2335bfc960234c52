use crate::boxed::Boxed;

/// A type of C, with its typedefs followed and its enums read as integers.
///
/// It is let go of by a loop, however many types stand one inside the other.
pub enum CType {
    /// `void`.
    Void,
    /// `_Bool`.
    Bool,
    /// An integer of 1, 2, 4 or 8 bytes.
    Int {
        /// How many bytes it has.
        bytes: u8,
        /// Whether it has a sign.
        signed: bool,
    },
    /// A pointer to a value of that type.
    Pointer(Boxed<CType>),
    /// The struct with that number in the list of structs.
    Struct(u32),
    /// An array of that many items of that type.
    Array(Boxed<CType>, u64),
}

impl Drop for CType {
    fn drop(mut self) {
        loop {
            match self {
                CType::Void
                | CType::Bool
                | CType::Int {
                    bytes: _,
                    signed: _,
                }
                | CType::Struct(_) => return,
                CType::Pointer(item) | CType::Array(item, _) => self = item.into_inner(),
            }
        }
    }
}
