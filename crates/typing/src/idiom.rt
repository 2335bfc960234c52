/// How much of the offsetof idiom an expression is, with how many bytes behind the null pointer it lies.
///
/// The idiom is a cast to an integer type of `&` of what is made by `->`, `.` and `[constant]` from one cast of a constant 0 to
/// a pointer type. C11 has no word for it; offsets are words of 64 bits, which wrap.
#[derive(Clone, Copy)]
pub enum Idiom {
    /// No part of it.
    Outside,
    /// The cast of a constant 0.
    NullPointer,
    /// A member or an item, so many bytes behind the null pointer.
    MemberAt(u64),
    /// The address of such a one.
    AddressAt(u64),
}
