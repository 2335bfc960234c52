/// What is wanted of an expression.
#[derive(Clone, Copy, Debug, PartialEq, Eq)]
pub enum Wanted {
    /// Its value, in the spare register or not.
    AsValue {
        /// Whether it is put into the spare register.
        in_spare: bool,
    },
    /// Its address, in the spare register or not.
    AsPlace {
        /// Whether it is put into the spare register.
        in_spare: bool,
    },
    /// That it is done.
    AsWork,
    /// A test of it.
    AsTest,
}
