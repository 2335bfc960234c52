/// Whether there is room for what is to be done first.
#[derive(Clone, Copy)]
pub enum Room {
    /// It stands in front of all else that is to be done.
    Made,
    /// It speaks of a type that is not kept, as `c_text::type_kind` says, or of an object of more than 65,536 bytes. The state is of no use.
    NotKept,
}
