mod decl;
mod expr;
mod identifier;
mod init;
mod item;
mod operators;
mod spec;
mod stmt;

pub use decl::{Decl, Declared, Param, Storage, TypeName};
pub use expr::{Expr, ExprForm, Part};
pub use identifier::Identifier;
pub use init::{Init, InitPart};
pub use item::{Item, Program};
pub use operators::{BinaryOp, UnaryOp};
pub use spec::{BasicType, Enumerator, FieldDecl, FieldName, Rank, TypeSpec};
pub use stmt::{Stmt, StmtForm};
