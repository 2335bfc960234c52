ghost use Rattle.std.specs.Prelude.{◌≡◌, IfOk, IfSome, IfNone};
ghost use Rattle.lowering.specs.Reading.{IsKind, IsValueKind, IsConstant, IsNoConstant, IsObjectToken};

use c_machine::Kind;
use c_steps::words::decayed;
use c_text::{Functions, Standing, TypedText};
use cbase::{Expr, NoMemory};
use std::alloc::Global;
use std::marker::Model;

/// What the lowering reads of a program: what typing hands on of it, its functions, and how many levels of moves are enough.
///
/// Where the size of a type is not kept, as `c_text::type_kind` says, memory is wanting.
#[derive(Drop)]
pub struct Source<'t> {
    alloc: Global,
    text: &'t TypedText,
    functions: &'t Functions<'t>,
    levels: u64,
}

impl<'t> Model for Source<'t> {
    ghost use Rattle.cbase.specs.contracts.ctype.CType as e;
    ghost use Rattle.cbase.specs.contracts.tree.stmt.Stmt as s;
    ghost use Rattle.std.specs.Coded.{codes};
    ghost use Rattle.lowering.specs.Source.{Source};

    ghost Value = { Source };

    ghost coded = { Prim.hlevel (codes, e.the_row.coded, s.the_row.coded) };

    ghost view = { λ source. record { context = source.text.now; functions = source.functions.now; levels = source.levels } };
}

impl<'t> Source<'t> {
    /// What is read of a program.
    pub fn of(
        alloc: Global,
        text: &'t TypedText,
        functions: &'t Functions<'t>,
        levels: u64,
    ) -> Source<'t>
        ensures { result ≡ record { context = text.now; functions = functions.now; levels = levels } }
    {
        Source {
            alloc,
            text,
            functions,
            levels,
        }
    }

    /// Where memory is taken.
    pub fn alloc(&self) -> Global {
        self.alloc
    }

    /// What typing hands on.
    pub fn text(&self) -> &'t TypedText
        ensures { result.now ≡ self.now.context }
    {
        self.text
    }

    /// The functions that have a body.
    pub fn functions(&self) -> &'t Functions<'t>
        ensures { result.now ≡ self.now.functions }
    {
        self.functions
    }

    /// How many levels of moves are enough.
    pub fn levels(&self) -> u64
        ensures { result ≡ self.now.levels }
    {
        self.levels
    }
}

/// The kind of an expression's own type.
pub fn kind(source: &Source, expr: &Expr) -> Result<Kind, NoMemory>
    ensures { IfOk result (λ kind. IsKind source.now.context expr.now kind) }
{
    match source.text().kind(expr.number) {
        None => Err(NoMemory),
        Some(kind) => Ok(kind),
    }
}

/// The kind of an expression's value: an array became a pointer (C11 6.3.2.1p3).
pub fn value_kind(source: &Source, expr: &Expr) -> Result<Kind, NoMemory>
    ensures { IfOk result (λ kind. IsValueKind source.now.context expr.now kind) }
{
    match kind(source, expr) {
        Err(error) => Err(error),
        Ok(own) => Ok(decayed(own)),
    }
}

/// The bits of the constant of an enum that an expression names, if it names one.
pub fn constant_bits(source: &Source, expr: &Expr) -> Option<u32>
    ensures some { IfSome result (λ bits. IsConstant source.now.context expr.now bits) }
    ensures none { IfNone result (IsNoConstant source.now.context expr.now) }
{
    match source.text().standing(expr.number) {
        Standing::Constant(bits) => Some(bits),
        _ => None,
    }
}

/// How many tokens stand before the name that declared first the object that an expression names, if it names one.
pub fn object_token(source: &Source, expr: &Expr) -> Option<u32>
    ensures { IsObjectToken source.now.context expr.now result }
{
    match source.text().standing(expr.number) {
        Standing::Object(token) => Some(token),
        _ => None,
    }
}
