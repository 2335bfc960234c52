//! Operations on integers, and conversions of them.
ghost use Rattle.std.specs.Prelude.{◌≡◌, ℕ, true};
ghost use Rattle.arithmetic.specs.Computing.{computed};
ghost use Rattle.arithmetic.specs.Conversion.{converted};
ghost use Rattle.graph.specs.declared.value.Value.TheVariants.{Const};
ghost use Rattle.graph.specs.Sizes.{is_scalar_size, is_sized};
ghost use Rattle.register_steps.specs.Lines.{is_test, size_given, of_constants, of_others, computed_line, converted_line};

use crate::line::{Line, exactly, kept, losing, nothing, truth};
use arithmetic::{Op, Size, compute, convert};
use graph::Value;

/// Whether an operation is a test of order.
fn is_test(op: Op) -> bool
    ensures { result ≡ is_test op }
{
    match op {
        Op::Less | Op::LessEqual => true,
        _ => false,
    }
}

/// The size of what an operation gives.
fn size_given(op: Op, size: u8) -> u8
    ensures { result ≡ size_given op size }
{
    if is_test(op) { 4 } else { size }
}

/// The number that an operation gives for two integers, if it gives one.
fn computed(op: Op, size: u8, signed: bool, one: u64, other: u64) -> Option<u64>
    requires size { is_scalar_size size ≡ true }
    ensures { result ≡ computed op size signed one other }
{
    match Size::of_bytes(size as u64) {
        None => unreachable!(),
        Some(size) => compute(op, size, signed, one, other),
    }
}

/// What an operation gives for two constants.
fn of_constants(size: u8, number: Option<u64>) -> Line
    ensures { result ≡ of_constants size number }
{
    match number {
        None => nothing(),
        Some(number) => exactly(Value::Const { number, size }),
    }
}

/// What it gives for others.
fn of_others(op: Op, size: u8) -> Line
    ensures { result ≡ of_others op size }
{
    if is_test(op) {
        truth(Some(2), 4)
    } else {
        losing(1, Value::Number { size })
    }
}

/// What an operation on two integers gives (C11 6.5.5 to 6.5.12).
pub(crate) fn computed_line(op: Op, size: u8, signed: bool, one: Value, other: Value) -> Line
    requires size { is_scalar_size size ≡ true }
    ensures { result ≡ computed_line op size signed one other }
{
    match one {
        Value::Const { number, .. } => of_constant(op, size, signed, number, other),
        Value::Number { .. } => of_others(op, size),
        Value::Any => of_others(op, size),
        Value::Address { .. } => of_others(op, size),
    }
}

/// What it gives where the left one is a constant.
fn of_constant(op: Op, size: u8, signed: bool, one: u64, other: Value) -> Line
    requires size { is_scalar_size size ≡ true }
    ensures { (left : ℕ) → result ≡ computed_line op size signed (Const one left) other }
{
    match other {
        Value::Const { number, .. } => {
            of_constants(
                size_given(op, size),
                computed(op, size, signed, one, number),
            )
        }
        Value::Number { .. } => of_others(op, size),
        Value::Any => of_others(op, size),
        Value::Address { .. } => of_others(op, size),
    }
}

/// The bits of an integer that is converted (C11 6.3.1.3).
fn converted(from: u8, signed: bool, to: u8, number: u64) -> u64
    requires from { is_scalar_size from ≡ true }
    requires to { is_scalar_size to ≡ true }
    ensures { result ≡ converted from signed to number }
{
    match Size::of_bytes(from as u64) {
        None => unreachable!(),
        Some(from) => match Size::of_bytes(to as u64) {
            None => unreachable!(),
            Some(to) => convert(from, signed, to, number),
        },
    }
}

/// What an integer becomes that is converted to a size.
pub(crate) fn converted_line(key: u32, value: Value, size: u8, signed: bool) -> Line
    requires value { is_sized value ≡ true }
    requires size { is_scalar_size size ≡ true }
    ensures { result ≡ converted_line key value size signed }
{
    match value {
        Value::Const { number, size: from } => {
            if from == size {
                kept(key)
            } else {
                exactly(Value::Const {
                    number: converted(from, signed, size, number),
                    size,
                })
            }
        }
        Value::Number { size: from } => {
            if from == size {
                kept(key)
            } else {
                losing(1, Value::Number { size })
            }
        }
        Value::Any => losing(1, Value::Number { size }),
        Value::Address { .. } => losing(1, Value::Number { size }),
    }
}
