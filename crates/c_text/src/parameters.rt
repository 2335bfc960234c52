/// The parameters of a function that is called, by where their types stand (C11 6.5.2.2p2).
#[derive(Clone, Copy)]
pub enum Parameters {
    /// Those of a function that is built in, in the signature of that number.
    OfSignature(u32),
    /// Those of a function that has a body, in rows of what typing hands on.
    OfRows {
        /// How many rows stand in front of them.
        start: usize,
        /// How many they are.
        count: usize,
    },
}
