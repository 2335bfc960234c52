//! The values of expressions, a line of moves each (C11 6.5).
ghost use Rattle.std.specs.Prelude.{OnOk};
ghost use Rattle.c_machine.specs.Text.{Assign, Binary, Call, Cast, Count, Index, Known, Member, Name, Unary};
ghost use Rattle.lowering.specs.Reading.{IsAssignedLine, IsCountedLine, IsLoadLine, IsValueLine, form_in};

use crate::assignments::{assign_line, update_line};
use crate::calls::called;
use crate::counts::count_line;
use crate::form::TreeForm;
use crate::kinds::width;
use crate::line::{TreeLine, answers, converts, emits, evaluates, fails, locates, stops, works};
use crate::source::{Source, constant_bits, kind, value_kind};
use crate::unary::{operation_line, unary_line};
use crate::values::load_line;
use cbase::{BinaryOp, Expr, NoMemory, UnaryOp};
use flow::Instr;

/// The line of the value of an expression, which gets its registers.
///
/// `?:` and statement expressions have arms and statements, which are placed apart. It takes one step, and at a call time for the arguments and for what its sizes
/// are made of.
pub fn value_line<'a>(
    source: &Source,
    registers: &mut u32,
    line: &mut TreeLine<'a>,
    expr: &'a Expr,
    form: &TreeForm<'a>,
    spare: u32,
    into: u32,
) -> Result<(), NoMemory>
    ensures { OnOk result (IsValueLine source.now expr.now spare into (form_in form.now) registers.old registers.new line.old line.new) }
{
    match form {
        TreeForm::Name => name_value(source, registers, line, expr, spare, into),
        TreeForm::Known(bits) => known_value(source, registers, line, expr, *bits, spare, into),
        TreeForm::Unary { op, arg } => unary_value(
            source,
            registers,
            line,
            expr,
            *op,
            arg.get(),
            spare,
            into,
        ),
        TreeForm::Binary { op, left, right } => binary_value(
            source,
            registers,
            line,
            expr,
            *op,
            left.get(),
            right.get(),
            spare,
            into,
        ),
        TreeForm::Assign { op, left, right } => assigned_value(
            source,
            registers,
            line,
            expr,
            *op,
            left.get(),
            right.get(),
            spare,
            into,
        ),
        TreeForm::Count { up, after, arg } => counted_value(
            source,
            registers,
            line,
            expr,
            *up,
            *after,
            arg.get(),
            spare,
            into,
        ),
        TreeForm::Choose { .. } => fails(line),
        TreeForm::Cast(arg) => cast_value(source, registers, line, expr, arg.get(), spare, into),
        TreeForm::Index { base, index } => index_value(
            source,
            registers,
            line,
            expr,
            base.get(),
            index.get(),
            spare,
            into,
        ),
        TreeForm::Member {
            base,
            offset,
            through,
        } => member_value(
            source,
            registers,
            line,
            expr,
            base.get(),
            *offset,
            *through,
            spare,
            into,
        ),
        TreeForm::Call { callee, args } => called_value(
            source,
            registers,
            line,
            expr,
            callee.get(),
            args.get().as_slice(),
            spare,
            into,
        ),
        TreeForm::Inner { .. } => fails(line),
        TreeForm::AssertFail => stops(line),
    }
}

/// The value of an lvalue (C11 6.3.2.1p2).
pub fn loaded<'a>(
    source: &Source,
    registers: &mut u32,
    line: &mut TreeLine<'a>,
    expr: &'a Expr,
    spare: u32,
    into: u32,
) -> Result<(), NoMemory>
    ensures { OnOk result (IsLoadLine source.now.context expr.now spare into registers.old registers.new line.old line.new) }
{
    let kind = kind(source, expr)?;
    load_line(registers, line, expr, &kind, spare, into)
}

/// The value of a name: a constant of an enum is known, and an object is loaded (C11 6.4.4.3, 6.5.1).
fn name_value<'a>(
    source: &Source,
    registers: &mut u32,
    line: &mut TreeLine<'a>,
    expr: &'a Expr,
    spare: u32,
    into: u32,
) -> Result<(), NoMemory>
    ensures { OnOk result (IsValueLine source.now expr.now spare into Name registers.old registers.new line.old line.new) }
{
    match constant_bits(source, expr) {
        None => loaded(source, registers, line, expr, spare, into),
        Some(bits) => {
            let kind = value_kind(source, expr)?;
            emits(
                line,
                Instr::Number {
                    into,
                    value: u64::from(bits),
                    size: width(kind),
                },
                expr.place,
            )
        }
    }
}

/// The value of a constant, `sizeof` or `__builtin_offsetof` (C11 6.4.4, 6.5.3.4, 7.19).
fn known_value<'a>(
    source: &Source,
    registers: &mut u32,
    line: &mut TreeLine<'a>,
    expr: &'a Expr,
    bits: Option<u64>,
    spare: u32,
    into: u32,
) -> Result<(), NoMemory>
    ensures { OnOk result (IsValueLine source.now expr.now spare into (Known bits) registers.old registers.new line.old line.new) }
{
    match bits {
        None => stops(line),
        Some(value) => {
            let kind = value_kind(source, expr)?;
            emits(
                line,
                Instr::Number {
                    into,
                    value,
                    size: width(kind),
                },
                expr.place,
            )
        }
    }
}

/// The value of a unary operator with its operand (C11 6.5.3.2, 6.5.3.3).
fn unary_value<'a>(
    source: &Source,
    registers: &mut u32,
    line: &mut TreeLine<'a>,
    expr: &'a Expr,
    op: UnaryOp,
    arg: &'a Expr,
    spare: u32,
    into: u32,
) -> Result<(), NoMemory>
    ensures { OnOk result (IsValueLine source.now expr.now spare into (Unary op arg.now) registers.old registers.new line.old line.new) }
{
    match op {
        UnaryOp::Address => locates(line, arg, spare, into),
        UnaryOp::Follow => loaded(source, registers, line, expr, spare, into),
        UnaryOp::Not => answers(line, expr, spare, into, 4),
        _ => {
            let kind = value_kind(source, arg)?;
            unary_line(registers, line, expr, op, arg, kind, spare, into)
        }
    }
}

/// The value of a binary operator or the comma with its operands (C11 6.5.5 to 6.5.14, 6.5.17).
fn binary_value<'a>(
    source: &Source,
    registers: &mut u32,
    line: &mut TreeLine<'a>,
    expr: &'a Expr,
    op: BinaryOp,
    left: &'a Expr,
    right: &'a Expr,
    spare: u32,
    into: u32,
) -> Result<(), NoMemory>
    ensures { OnOk result (IsValueLine source.now expr.now spare into (Binary op left.now right.now) registers.old registers.new line.old line.new) }
{
    match op {
        BinaryOp::Both => answers(line, expr, spare, into, 4),
        BinaryOp::Either => answers(line, expr, spare, into, 4),
        BinaryOp::Equal => answers(line, expr, spare, into, 4),
        BinaryOp::NotEqual => answers(line, expr, spare, into, 4),
        BinaryOp::Comma => {
            evaluates(line, right, spare, into)?;
            works(line, left, spare)
        }
        _ => {
            let left_kind = value_kind(source, left)?;
            let right_kind = value_kind(source, right)?;
            operation_line(
                registers,
                line,
                expr,
                op,
                left,
                right,
                &left_kind,
                &right_kind,
                spare,
                into,
            )
        }
    }
}

/// A cast (C11 6.5.4).
fn cast_value<'a>(
    source: &Source,
    registers: &mut u32,
    line: &mut TreeLine<'a>,
    expr: &'a Expr,
    arg: &'a Expr,
    spare: u32,
    into: u32,
) -> Result<(), NoMemory>
    ensures { OnOk result (IsValueLine source.now expr.now spare into (Cast arg.now) registers.old registers.new line.old line.new) }
{
    let kind = kind(source, expr)?;
    converts(line, arg, kind, spare, into)
}

/// An assignment, where `op` is the operation of `+=` and its like, and `kept` the register of its value, if that is used (C11 6.5.16).
pub fn assigned<'a>(
    source: &Source,
    registers: &mut u32,
    line: &mut TreeLine<'a>,
    expr: &'a Expr,
    op: Option<BinaryOp>,
    left: &'a Expr,
    right: &'a Expr,
    spare: u32,
    kept: Option<u32>,
) -> Result<(), NoMemory>
    ensures { OnOk result (IsAssignedLine source.now.context expr.now op left.now right.now spare kept registers.old registers.new line.old line.new) }
{
    let own = kind(source, left)?;
    match op {
        None => assign_line(registers, line, expr, left, right, spare, kept, &own),
        Some(op) => {
            let other = kind(source, right)?;
            update_line(
                registers, line, op, expr, left, right, spare, kept, &own, &other,
            )
        }
    }
}

/// `++` or `--`, where `kept` is the register of its value, if that is used (C11 6.5.2.4, 6.5.3.1).
pub fn counted<'a>(
    source: &Source,
    registers: &mut u32,
    line: &mut TreeLine<'a>,
    expr: &'a Expr,
    up: bool,
    after: bool,
    arg: &'a Expr,
    spare: u32,
    kept: Option<u32>,
) -> Result<(), NoMemory>
    ensures { OnOk result (IsCountedLine source.now.context expr.now up after arg.now spare kept registers.old registers.new line.old line.new) }
{
    let own = kind(source, arg)?;
    count_line(registers, line, up, after, expr, arg, spare, kept, &own)
}

/// An assignment whose value is used.
fn assigned_value<'a>(
    source: &Source,
    registers: &mut u32,
    line: &mut TreeLine<'a>,
    expr: &'a Expr,
    op: Option<BinaryOp>,
    left: &'a Expr,
    right: &'a Expr,
    spare: u32,
    into: u32,
) -> Result<(), NoMemory>
    ensures { OnOk result (IsValueLine source.now expr.now spare into (Assign op left.now right.now) registers.old registers.new line.old line.new) }
{
    assigned(
        source,
        registers,
        line,
        expr,
        op,
        left,
        right,
        spare,
        Some(into),
    )
}

/// `++` or `--` whose value is used.
fn counted_value<'a>(
    source: &Source,
    registers: &mut u32,
    line: &mut TreeLine<'a>,
    expr: &'a Expr,
    up: bool,
    after: bool,
    arg: &'a Expr,
    spare: u32,
    into: u32,
) -> Result<(), NoMemory>
    ensures { OnOk result (IsValueLine source.now expr.now spare into (Count up after arg.now) registers.old registers.new line.old line.new) }
{
    counted(
        source,
        registers,
        line,
        expr,
        up,
        after,
        arg,
        spare,
        Some(into),
    )
}

/// An item of an array.
fn index_value<'a>(
    source: &Source,
    registers: &mut u32,
    line: &mut TreeLine<'a>,
    expr: &'a Expr,
    base: &'a Expr,
    index: &'a Expr,
    spare: u32,
    into: u32,
) -> Result<(), NoMemory>
    ensures { OnOk result (IsValueLine source.now expr.now spare into (Index base.now index.now) registers.old registers.new line.old line.new) }
{
    loaded(source, registers, line, expr, spare, into)
}

/// A member of a struct.
fn member_value<'a>(
    source: &Source,
    registers: &mut u32,
    line: &mut TreeLine<'a>,
    expr: &'a Expr,
    base: &'a Expr,
    offset: u64,
    through: bool,
    spare: u32,
    into: u32,
) -> Result<(), NoMemory>
    ensures { OnOk result (IsValueLine source.now expr.now spare into (Member base.now offset through) registers.old registers.new line.old line.new) }
{
    loaded(source, registers, line, expr, spare, into)
}

/// A call whose value is used.
fn called_value<'a>(
    source: &Source,
    registers: &mut u32,
    line: &mut TreeLine<'a>,
    expr: &'a Expr,
    callee: &'a Expr,
    args: &'a [Expr],
    spare: u32,
    into: u32,
) -> Result<(), NoMemory>
    ensures { OnOk result (IsValueLine source.now expr.now spare into (Call callee.now args.now) registers.old registers.new line.old line.new) }
{
    called(
        source,
        registers,
        line,
        callee,
        args,
        spare,
        Some(into),
        into,
    )
}
