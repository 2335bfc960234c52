//! The lowering: the flow graph of a program of C.
//!
//! It says which points and edges each form of expression and of statement gives, in the order of the text: `specs/Table.antt` is the table of forms, and
//! `specs/Placing.antt` numbers points and registers. It knows what the source machine asks of a program, and no token, no scope and no text.
#![tactic(auto)]

pub mod arms;
pub mod asked;
pub mod assignments;
pub mod built_in;
pub mod built_ins;
pub mod called;
pub mod calls;
pub mod clause;
pub mod conditions;
pub mod conversion;
pub mod conversions;
pub mod counts;
pub mod declared;
pub mod examples;
pub mod fills;
pub mod form;
pub mod inner;
pub mod kinds;
pub mod known;
pub mod latest;
pub mod laws;
pub mod left;
pub mod left_calls;
pub mod left_forms;
pub mod left_values;
pub mod line;
pub mod made;
pub mod moves;
pub mod names;
pub mod operations;
pub mod place;
pub mod places;
pub mod sizes;
pub mod source;
pub mod standing;
pub mod statement_lines;
pub mod static_names;
pub mod unary;
pub mod value;
pub mod values;
pub mod wanted;
pub mod words;
pub mod work;

pub use asked::Asked;
pub use clause::{TreeClause, read_clause};
pub use conversion::Conversion;
pub use latest::latest_scalars;
pub use line::{TreeLine, TreeMove};
pub use moves::Move;
pub use names::Named;
pub use operations::{Sides, sides_of};
pub use static_names::Names;
pub use wanted::Wanted;
