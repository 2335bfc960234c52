use typing::environment::Entity;

/// What is handed on of a text, behind what stands before it.
#[derive(Clone, Copy)]
pub enum HandedRow {
    /// An expression, behind those that lie in it.
    Expression {
        /// Its number.
        number: u32,
        /// The number of its own type, before an array becomes a pointer; of a name that is called the type of the call.
        ctype: u32,
        /// What it stands for, where it is a name.
        stands: Option<Entity>,
        /// Its value as the bits of its type, where it is an integer constant expression (C11 6.6p6).
        value: Option<u64>,
    },
    /// A store of an initialiser (C11 6.7.9), behind the expressions of its value.
    Store {
        /// How many tokens stand before the name of the object that is set.
        object: u32,
        /// How many bytes of the object stand before what is set.
        offset: u32,
        /// The number of the type of what is set.
        ctype: u32,
        /// The number of the expression whose value is stored.
        number: u32,
    },
    /// An object that a declaration makes, behind the stores of its initialiser.
    Object {
        /// How many tokens stand before its name.
        token: u32,
        /// The number of its type.
        ctype: u32,
        /// Whether it lives as long as the program runs (C11 6.2.4p3).
        fixed: bool,
        /// Whether its initialiser stands in braces, which set to zero what they do not name (C11 6.7.9p19, p21).
        zeroed: bool,
    },
    /// A declaration outside of functions that gives an object linkage (C11 6.2.2), behind the object that it makes, if any.
    Link {
        /// How many tokens stand before its name there.
        token: u32,
        /// How many stand before the name that declared it first.
        first: u32,
    },
    /// A definition of a function (C11 6.9.1), in front of its parameters and of what is handed on of its body.
    Function {
        /// How many tokens stand before its name.
        token: u32,
        /// The number of the type of its result.
        result: u32,
    },
    /// A parameter of a function that is defined.
    Parameter {
        /// How many tokens stand before its name, where it has one.
        token: Option<u32>,
        /// The number of its type.
        ctype: u32,
    },
}
