//! What a value tells of the bytes that hold it, and of its word.
ghost use Rattle.std.specs.Prelude.{◌≡◌, ◌||◌, true, nat_lt, ◌^◌};
ghost use Rattle.graph.specs.Sizes.{value_size, value_class, is_scalar_size, is_sized, is_zero, is_number, is_constant};
ghost use Rattle.graph.specs.WellFormed.{are_numbers, may_be_unequal};

use crate::value::Value;

/// How many bytes hold a value.
pub(crate) fn size_of(value: Value) -> u8
    ensures { result ≡ value_size value }
{
    match value {
        Value::Const { number: _, size } => size,
        Value::Number { size } => size,
        Value::Any => 8,
        Value::Address {
            object: _,
            offset: _,
            target: _,
        } => 8,
    }
}

/// The class of the bytes that hold a value.
pub(crate) fn class_of(value: Value) -> u8
    ensures { result ≡ value_class value }
{
    match value {
        Value::Const { number: _, size: _ } => 1,
        Value::Number { size: _ } => 1,
        Value::Any => 2,
        Value::Address {
            object: _,
            offset: _,
            target: _,
        } => 2,
    }
}

/// Whether it is the constant 0.
pub(crate) fn is_zero(value: Value) -> bool
    ensures { result ≡ is_zero value }
{
    match value {
        Value::Const { number, size: _ } => number == 0,
        Value::Number { size: _ } => false,
        Value::Any => false,
        Value::Address {
            object: _,
            offset: _,
            target: _,
        } => false,
    }
}

/// Whether it stands for one plain number alone.
fn is_constant(value: Value) -> bool
    ensures { result ≡ is_constant value }
{
    match value {
        Value::Const { number: _, size: _ } => true,
        Value::Number { size: _ } => false,
        Value::Any => false,
        Value::Address {
            object: _,
            offset: _,
            target: _,
        } => false,
    }
}

/// Whether it stands for a plain number of this size.
fn is_number(value: Value, count: u8) -> bool
    ensures { result ≡ is_number value count }
{
    match value {
        Value::Const { number: _, size } => size == count,
        Value::Number { size } => size == count,
        Value::Any => false,
        Value::Address {
            object: _,
            offset: _,
            target: _,
        } => false,
    }
}

/// Whether a scalar may have this size.
fn is_scalar_size(size: u8) -> bool
    ensures { result ≡ is_scalar_size size }
{
    if size == 1 {
        return true;
    }
    if size == 2 {
        return true;
    }
    if size == 4 {
        return true;
    }
    size == 8
}

/// Whether a number fits a scalar of this size.
fn fits(number: u64, size: u8) -> bool
    requires { is_scalar_size size ≡ true }
    ensures { result ≡ nat_lt number (256 ^ size) }
{
    if size == 1 {
        return number < 256;
    }
    if size == 2 {
        return number < 65536;
    }
    if size == 4 {
        return number < 4_294_967_296;
    }
    true
}

/// Whether a value has the size of a scalar, and a constant's number fits it.
pub(crate) fn is_sized(value: Value) -> bool
    ensures { result ≡ is_sized value }
{
    match value {
        Value::Const { number, size } => {
            if !is_scalar_size(size) {
                return false;
            }
            fits(number, size)
        }
        Value::Number { size } => is_scalar_size(size),
        Value::Any => true,
        Value::Address {
            object: _,
            offset: _,
            target: _,
        } => true,
    }
}

/// Whether the words of two values may have to differ.
pub(crate) fn may_be_unequal(one: Value, other: Value) -> bool
    ensures { result ≡ may_be_unequal one other }
{
    if !are_numbers(one, other) {
        return false;
    }
    if !is_constant(one) {
        return true;
    }
    !is_constant(other)
}

/// Whether both are numbers of one size, 4 or 8.
fn are_numbers(one: Value, other: Value) -> bool
    ensures { result ≡ (are_numbers one other 4 || are_numbers one other 8) }
{
    if is_number(one, 4) {
        if is_number(other, 4) {
            return true;
        }
    }
    if is_number(one, 8) {
        return is_number(other, 8);
    }
    false
}
