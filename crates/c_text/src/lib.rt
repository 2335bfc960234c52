//! What the source machine asks of a program, as code over what typing hands on (C11 6.2, 6.5, 6.6, 6.7.9).
//!
//! A program is known by what typing hands on of it, in which types have numbers (`expressions::Context`). Each answer is one look-up by the
//! number of an expression or by the token of a name, and says what the definitions of `c_machine` say of the program that the context stands for. So it answers of
//! an expression: its type, its value where it is constant, what its name stands for, and where a member lies in it; of a function that is built in, by the
//! number of its signature, the kinds of its parameters and of its result; of a name that declares something, which object that is, and what a value of its
//! initialiser sets; and which objects the parameters of a function are, and those that live as long as the program runs. The functions of a program stand in a
//! table beside it (`Functions`), with the number of each by its name. It knows nothing of states and steps.
//!
//! What stands in a program before its main begins, the initialisers of the objects that live as long as it runs, is found by `statics`.
#![tactic(auto)]

mod expression_row;
mod first_rows;
mod fixed;
mod fixed_object;
mod function_item;
mod function_table;
mod functions;
mod kinds;
mod links;
mod object_row;
mod objects;
mod parameters;
mod pushing;
mod results;
mod rows;
mod standing;
pub mod statics;
mod store;
mod store_row;
mod stores;
mod tables;
mod typed_text;

pub use function_item::FunctionItem;
pub use function_table::Functions;
pub use kinds::type_kind;
pub use parameters::Parameters;
pub use standing::Standing;
pub use store::Store;
pub use typed_text::TypedText;
