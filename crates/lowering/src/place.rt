//! The addresses of lvalues, a line of moves each (C11 6.3.2.1).
ghost use Rattle.std.specs.Prelude.{◌≡◌, OnOk};
ghost use Rattle.c_machine.specs.Text.{Member};
ghost use Rattle.lowering.specs.Reading.{IsPlaceLine, form_in};

use crate::form::TreeForm;
use crate::line::{TreeLine, object_moves, stops};
use crate::places::{followed_line, indexed_line, member_line, pointed_line};
use crate::source::{Source, value_kind};
use cbase::{Expr, NoMemory, UnaryOp};

/// The line of the address of an lvalue, which gets its registers, where `found` is the variable of the object that it names.
pub fn place_line<'a>(
    source: &Source,
    registers: &mut u32,
    line: &mut TreeLine<'a>,
    expr: &'a Expr,
    form: &TreeForm<'a>,
    found: Option<u32>,
    spare: u32,
    into: u32,
) -> Result<(), NoMemory>
    ensures { OnOk result (IsPlaceLine source.now.context found expr.now spare into (form_in form.now) registers.old registers.new line.old line.new) }
{
    match form {
        TreeForm::Name => object_moves(line, found, expr.place, into),
        TreeForm::Unary {
            op: UnaryOp::Follow,
            arg,
        } => {
            let kind = value_kind(source, arg.get())?;
            followed_line(registers, line, arg.get(), kind, spare, into)
        }
        TreeForm::Index { base, index } => {
            let base_kind = value_kind(source, base.get())?;
            let index_kind = value_kind(source, index.get())?;
            indexed_line(
                registers,
                line,
                expr,
                base.get(),
                index.get(),
                &base_kind,
                &index_kind,
                spare,
                into,
            )
        }
        TreeForm::Member {
            base,
            offset,
            through,
        } => member_place(
            source,
            registers,
            line,
            expr,
            base.get(),
            *offset,
            *through,
            found,
            spare,
            into,
        ),
        _ => stops(line),
    }
}

/// The address of a member of a struct, or of the struct to which a pointer leads (C11 6.5.2.3).
fn member_place<'a>(
    source: &Source,
    registers: &mut u32,
    line: &mut TreeLine<'a>,
    expr: &'a Expr,
    base: &'a Expr,
    offset: u64,
    through: bool,
    found: Option<u32>,
    spare: u32,
    into: u32,
) -> Result<(), NoMemory>
    ensures { OnOk result (IsPlaceLine source.now.context found expr.now spare into (Member base.now offset through) registers.old registers.new line.old line.new) }
{
    if !through {
        return member_line(registers, line, expr.place, base, offset, spare, into);
    }
    let kind = value_kind(source, base)?;
    pointed_line(registers, line, expr.place, base, kind, offset, spare, into)
}
