ghost use Rattle.std.specs.Prelude.{◌≡◌, ◌+◌, ◌<◌, ◌∷◌, true, false, drop, length, option_map, IfOk, OnOk, IfSome, IfNone};
ghost use Rattle.cbase.specs.declared.tree.expr.Expr.{Expr};
ghost use Rattle.expressions.specs.Numbers.{Numbering, entity_at};
ghost use Rattle.c_machine.specs.Program.{Program, type_of, entity_of, constant_of};
ghost use Rattle.c_machine.specs.Trees.{kind_in, offset};
ghost use Rattle.typing.specs.ctypes.Kinds.{kind_of};
ghost use Rattle.typing.specs.Idiom.{member_offset};
ghost use Rattle.typing.specs.Nodes.{pointed_offset};
ghost use Rattle.c_text.specs.Kept.{kept};
ghost use Rattle.c_text.specs.Rows.{row_in, stands_known, is_known, are_known};
ghost use Rattle.c_text.specs.Stands.{StandsFor};
ghost use Rattle.c_text.specs.Tables.{AreEmpty, AreGathered};

mod definitions;
mod objects;
mod parameters;
mod signatures;
mod standing;
mod statics;
mod stores;

use crate::expression_row::ExpressionRow;
use crate::kinds::type_kind;
use crate::rows::{are_known, row_at};
use crate::tables::{Tables, gather};
use c_machine::Kind;
use cbase::NoMemory;
use expressions::{Context, HandedRow};
use std::alloc::Global;
use std::marker::Model;
use typing::environment::Entity;

/// What typing hands on of a program, with the row of each expression by its number, and those of names by their tokens.
///
/// It is seen as the context. The contracts speak of each program that the context stands for.
#[derive(Drop)]
pub struct TypedText {
    context: Context,
    tables: Tables,
}

impl Model for TypedText {
    ghost use Rattle.expressions.specs.Context.{Context as AtPlace};
    ghost use Rattle.cbase.specs.contracts.ctype.CType as e;
    ghost use Rattle.std.specs.Coded.{codes};
    ghost use Rattle.c_text.specs.Tables.{AreTables};

    ghost Value = { AtPlace };

    ghost coded = { Prim.hlevel (codes, e.the_row.coded) };

    ghost view = { λ text. text.context };

    ghost invariant = { λ text. AreTables text.context text.tables };
}

impl TypedText {
    /// The text of a context. It is `None` only where a row names a type or a signature by a number that the context has not.
    ///
    /// It takes time and memory for what was handed on.
    pub fn of(alloc: Global, context: Context) -> Result<Option<TypedText>, NoMemory>
        ensures some { IfOk result (λ found. IfSome found (λ text. text ≡ context)) }
        ensures none { IfOk result (λ found. IfNone found (are_known (length context.types) (length context.environment.signatures) context.handed ≡ false)) }
    {
        let mut tables = Tables::new(alloc);
        match fill(&mut tables, &context) {
            Ok(true) => Ok(Some(TypedText { context, tables })),
            Ok(false) => {
                drop(tables);
                drop(context);
                Ok(None)
            }
            Err(error) => {
                drop(tables);
                drop(context);
                Err(error)
            }
        }
    }

    /// What an access and an operator ask of the own type of an expression, before an array becomes a pointer (C11 6.3.2.1p3).
    ///
    /// It is `None` where the type is not kept, as [`type_kind`] says. It takes one step.
    pub fn kind(&self, number: u32) -> Option<Kind>
        ensures { (n : Numbering) (p : Program) (expr : Expr) → StandsFor n self.now p → expr.number ≡ number → result ≡ kept (kind_in p (type_of p expr)) }
    {
        match self.row(number) {
            None => Some(Kind::Void),
            Some(row) => type_kind(self.context.types(), row.ctype),
        }
    }

    /// The value of an expression as the bits of its type, where it is an integer constant expression (C11 6.6p6). It takes one step.
    pub fn constant(&self, number: u32) -> Option<u64>
        ensures { (n : Numbering) (p : Program) (expr : Expr) → StandsFor n self.now p → expr.number ≡ number → result ≡ constant_of p expr }
    {
        match self.row(number) {
            None => None,
            Some(row) => row.value,
        }
    }

    /// What an expression stands for, where it is a name (C11 6.2.3). It takes one step.
    pub fn entity(&self, number: u32) -> Option<Entity>
        ensures { (n : Numbering) (p : Program) (expr : Expr) → StandsFor n self.now p → expr.number ≡ number → option_map (entity_at n) result ≡ entity_of p expr }
    {
        match self.row(number) {
            None => None,
            Some(row) => row.stands,
        }
    }

    /// How many bytes stand before the member of that name in the struct that an expression is, and 0 where there is none (C11 6.5.2.3p3).
    ///
    /// It takes one look-up in the names of the members.
    pub fn member_offset(&self, number: u32, name: &[u8]) -> u64
        ensures { (n : Numbering) (p : Program) (expr : Expr) → StandsFor n self.now p → expr.number ≡ number
            → result ≡ offset (member_offset p.abi p.structs (type_of p expr) name.now) }
    {
        match self.row(number) {
            None => 0,
            Some(row) => offset_of(self.context.member_offset(row.ctype, name)),
        }
    }

    /// The same of the struct to which an expression leads (C11 6.5.2.3p4).
    pub fn pointed_offset(&self, number: u32, name: &[u8]) -> u64
        ensures { (n : Numbering) (p : Program) (expr : Expr) → StandsFor n self.now p → expr.number ≡ number
            → result ≡ offset (pointed_offset p.abi p.structs (kind_of p.structs (type_of p expr)) name.now) }
    {
        match self.row(number) {
            None => 0,
            Some(row) => offset_of(self.context.pointed_offset(row.ctype, name)),
        }
    }

    /// The row of an expression, if there is one.
    fn row(&self, number: u32) -> Option<ExpressionRow>
        ensures found { result ≡ row_in number self.now.handed }
        ensures typed { IfSome result (λ row. row.ctype < length self.now.types) }
        ensures known { IfSome result (λ row. stands_known (length self.now.environment.signatures) row.stands ≡ true) }
    {
        row_at(&self.tables.rows, number)
    }

    /// What was handed on behind so many rows.
    fn handed_row(&self, at: usize) -> HandedRow
        requires { at < length self.now.handed }
        ensures is { drop at self.now.handed ≡ result ∷ drop (at + 1) self.now.handed }
        ensures known { is_known (length self.now.types) (length self.now.environment.signatures) result ≡ true }
    {
        self.context.handed()[at]
    }
}

/// Puts what was handed on of a context into tables that are empty, and says whether each type and each signature that a row names is one of the context.
fn fill(tables: &mut Tables, context: &Context) -> Result<bool, NoMemory>
    requires { AreEmpty tables.old }
    ensures gathered { OnOk result (AreGathered context.now.handed tables.new) }
    ensures known { IfOk result (λ known. known ≡ are_known (length context.now.types) (length context.now.environment.signatures) context.now.handed) }
{
    gather(tables, context.handed())?;
    Ok(are_known(context, context.handed()))
}

/// A number of bytes that is found, or 0.
fn offset_of(found: Option<u64>) -> u64
    ensures { result ≡ offset found }
{
    match found {
        None => 0,
        Some(bytes) => bytes,
    }
}
