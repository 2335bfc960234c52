//! Expressions whose value is not used, a line of moves each (C11 6.3.2.2, 6.8.3p2).
ghost use Rattle.std.specs.Prelude.{◌≡◌, OnOk};
ghost use Rattle.c_machine.specs.Text.{Assign, Call, Count};
ghost use Rattle.lowering.specs.Reading.{IsWorkLine, IsOtherWorkLine, IsVoidLine, form_in};

use crate::calls::called;
use crate::conversions::dropped_line;
use crate::fills::leaves_nothing;
use crate::form::TreeForm;
use crate::kinds::is_void;
use crate::line::{TreeLine, fails, stops, works};
use crate::source::{Source, value_kind};
use crate::value::{assigned, counted};
use cbase::{BinaryOp, Expr, NoMemory};

/// The line of an expression whose value is not used, which gets its registers: a store keeps none, and any other value is put into the spare register, and 0 over it.
pub fn work_line<'a>(
    source: &Source,
    registers: &mut u32,
    line: &mut TreeLine<'a>,
    expr: &'a Expr,
    form: &TreeForm<'a>,
    spare: u32,
) -> Result<(), NoMemory>
    ensures { OnOk result (IsWorkLine source.now expr.now spare (form_in form.now) registers.old registers.new line.old line.new) }
{
    match form {
        TreeForm::Binary {
            op: BinaryOp::Comma,
            left,
            right,
        } => {
            works(line, right.get(), spare)?;
            works(line, left.get(), spare)
        }
        _ => other_work(source, registers, line, expr, form, spare),
    }
}

/// The same of an expression that is no comma.
fn other_work<'a>(
    source: &Source,
    registers: &mut u32,
    line: &mut TreeLine<'a>,
    expr: &'a Expr,
    form: &TreeForm<'a>,
    spare: u32,
) -> Result<(), NoMemory>
    ensures { OnOk result (IsOtherWorkLine source.now expr.now spare (form_in form.now) registers.old registers.new line.old line.new) }
{
    let kind = value_kind(source, expr)?;
    if is_void(kind) {
        return void_line(source, registers, line, expr, form, spare);
    }
    let nothing = leaves_nothing(source, form)?;
    if nothing {
        return void_line(source, registers, line, expr, form, spare);
    }
    dropped_line(line, expr, spare)
}

/// An expression that leaves no value.
fn void_line<'a>(
    source: &Source,
    registers: &mut u32,
    line: &mut TreeLine<'a>,
    expr: &'a Expr,
    form: &TreeForm<'a>,
    spare: u32,
) -> Result<(), NoMemory>
    ensures { OnOk result (IsVoidLine source.now expr.now spare (form_in form.now) registers.old registers.new line.old line.new) }
{
    match form {
        TreeForm::Assign { op, left, right } => assignment_line(
            source,
            registers,
            line,
            expr,
            *op,
            left.get(),
            right.get(),
            spare,
        ),
        TreeForm::Count { up, after, arg } => counting_line(
            source,
            registers,
            line,
            expr,
            *up,
            *after,
            arg.get(),
            spare,
        ),
        TreeForm::Cast(arg) => works(line, arg.get(), spare),
        TreeForm::Call { callee, args } => calling_line(
            source,
            registers,
            line,
            expr,
            callee.get(),
            args.get().as_slice(),
            spare,
        ),
        TreeForm::AssertFail => stops(line),
        _ => fails(line),
    }
}

/// An assignment whose value is not used.
fn assignment_line<'a>(
    source: &Source,
    registers: &mut u32,
    line: &mut TreeLine<'a>,
    expr: &'a Expr,
    op: Option<BinaryOp>,
    left: &'a Expr,
    right: &'a Expr,
    spare: u32,
) -> Result<(), NoMemory>
    ensures { OnOk result (IsVoidLine source.now expr.now spare (Assign op left.now right.now) registers.old registers.new line.old line.new) }
{
    assigned(source, registers, line, expr, op, left, right, spare, None)
}

/// `++` or `--` whose value is not used.
fn counting_line<'a>(
    source: &Source,
    registers: &mut u32,
    line: &mut TreeLine<'a>,
    expr: &'a Expr,
    up: bool,
    after: bool,
    arg: &'a Expr,
    spare: u32,
) -> Result<(), NoMemory>
    ensures { OnOk result (IsVoidLine source.now expr.now spare (Count up after arg.now) registers.old registers.new line.old line.new) }
{
    counted(source, registers, line, expr, up, after, arg, spare, None)
}

/// A call whose value is not used.
fn calling_line<'a>(
    source: &Source,
    registers: &mut u32,
    line: &mut TreeLine<'a>,
    expr: &'a Expr,
    callee: &'a Expr,
    args: &'a [Expr],
    spare: u32,
) -> Result<(), NoMemory>
    ensures { OnOk result (IsVoidLine source.now expr.now spare (Call callee.now args.now) registers.old registers.new line.old line.new) }
{
    called(source, registers, line, callee, args, spare, None, spare)
}
