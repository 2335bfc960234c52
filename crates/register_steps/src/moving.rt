//! Addresses that are moved.
ghost use Rattle.std.specs.Prelude.{◌≡◌, true, ℤ, ◌*ℤ◌};
ghost use Rattle.arithmetic.specs.Value.{value};
ghost use Rattle.bytes_core.specs.Value.{wrapped};
ghost use Rattle.register_steps.specs.Lines.{shifted, shifted_somewhere, shifted_by};

use crate::line::{Line, exactly, losing};
use graph::Value;

/// What a value becomes that is moved by a number of bytes with a sign, which is given modulo 2^64.
#[tactic(auto, using(crate::proofs::Moved::plain_moved, crate::proofs::Moved::offset_moved))]
fn shifted_on(value: Value, bytes: u64) -> Line
    ensures { (by : ℤ) → wrapped by ≡ bytes → result ≡ shifted value by }
{
    match value {
        Value::Const { number, .. } => exactly(Value::Const {
            number: number.wrapping_add(bytes),
            size: 8,
        }),
        Value::Number { .. } => losing(1, Value::Number { size: 8 }),
        Value::Any => losing(1, Value::Any),
        Value::Address {
            object,
            offset,
            target,
        } => exactly(Value::Address {
            object,
            offset: offset.cast_unsigned().wrapping_add(bytes).cast_signed(),
            target,
        }),
    }
}

/// What a value becomes that is moved by so many bytes (C11 6.5.6p8).
pub(crate) fn shifted(value: Value, by: i64) -> Line
    ensures { result ≡ shifted value by }
{
    shifted_on(value, by.cast_unsigned())
}

/// What it becomes where the number of bytes is not known.
fn shifted_somewhere(value: Value) -> Line
    ensures { result ≡ shifted_somewhere value }
{
    match value {
        Value::Const { .. } => losing(1, Value::Number { size: 8 }),
        Value::Number { .. } => losing(1, Value::Number { size: 8 }),
        Value::Any => losing(1, Value::Any),
        Value::Address { .. } => losing(7, Value::Any),
    }
}

/// An integer of eight bytes with a sign, times a number of bytes, modulo 2^64.
#[tactic(auto, using(crate::proofs::Moved::scaled))]
fn scaled(number: u64, scale: i64) -> u64
    ensures { result ≡ wrapped (value 8 true number *ℤ scale) }
{
    number.wrapping_mul(scale.cast_unsigned())
}

/// What a value becomes that is moved by an integer, which is read with a sign, times so many bytes (C11 6.5.6p8).
pub(crate) fn shifted_by(address: Value, by: Value, scale: i64) -> Line
    ensures { result ≡ shifted_by address by scale }
{
    match by {
        Value::Const { number, .. } => shifted_on(address, scaled(number, scale)),
        Value::Number { .. } => shifted_somewhere(address),
        Value::Any => shifted_somewhere(address),
        Value::Address { .. } => shifted_somewhere(address),
    }
}
