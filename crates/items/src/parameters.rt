//! The parameters of functions, and the name of a function in a declaration (C11 6.7.6.3).
//!
//! It takes the words and the sizes of parameters from the walk of `expressions`, and knows how a context declares a parameter and what has linkage. It
//! knows nothing of the body of a function, nor of other names that are declared.

mod joining;
mod linking;
mod naming;
mod parameter;
mod taking;
mod walking;

pub use joining::{first_of_parameters, found_of_parameters, types_of};
pub use linking::{function_linked, is_other};
pub use naming::function_fault;
pub use parameter::Parameter;
pub use taking::found_of_name;
pub use walking::{function_name, parameters};
