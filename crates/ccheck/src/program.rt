use cbase::{Abi, Program};
use expressions::Context;

/// A program whose items are read and pass, with what is found of its parts.
///
/// The context has what is handed on of its expressions, in the order of their numbers, and of its declarations (`expressions::HandedRow`): of each expression its
/// type by number, what its name stands for and its value, where it is an integer constant expression; of each object, parameter and function that it
/// defines its type. It has the types by number, and the structs with their layout. So who runs the program looks up no names.
#[derive(Drop)]
pub struct TypedProgram {
    /// Its items, in order.
    pub program: Program,
    /// What is known behind them.
    pub context: Context,
    /// The data layout that the types were found with.
    pub abi: Abi,
    /// Whether it was asked that no call of `main` stands in it.
    pub strict: bool,
}

/// Lets go of a program with its types.
///
/// A crate that lets go of one itself proves how each of the types of trees that hold one another is let go of. So the crates above hand it back to this
/// call.
pub fn let_go_of_program(program: TypedProgram) {
    drop(program);
}
