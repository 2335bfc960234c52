//! The types that every other crate speaks with: lists, texts and boxes that contracts see as plain data, the
//! errors of a call that takes memory, places of tokens, the types of C with their layout, and the syntax trees of C.
//!
//! It knows no tokens, no memory blocks and no reports.
#![tactic(auto)]

mod abi;
mod boxed;
mod ctype;
mod integer;
mod layout;
mod list;
mod measure;
mod no_memory;
mod place;
mod row;
mod rules;
mod stop;
mod structs;
mod text;
mod tree;

pub use abi::Abi;
pub use boxed::Boxed;
pub use ctype::CType;
pub use integer::bytes_of_rank;
pub use layout::Layout;
pub use list::List;
pub use measure::{Extent, told};
pub use no_memory::NoMemory;
pub use place::Place;
pub use row::{Row, RowPart, integer_part, parts_of, pointer_bytes};
pub use rules::layout_rules;
pub use stop::Stop;
pub use structs::{Field, StructDef};
pub use text::Text;
pub use tree::{
    BasicType, BinaryOp, Decl, Declared, Enumerator, Expr, ExprForm, FieldDecl, FieldName,
    Identifier, Init, InitPart, Item, Param, Part, Program, Rank, Stmt, StmtForm, Storage,
    TypeName, TypeSpec, UnaryOp,
};
