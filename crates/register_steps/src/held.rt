//! What a register gets, by what other registers hold.
ghost use Rattle.std.specs.Prelude.{◌≡◌, true, IfSome};
ghost use Rattle.graph.specs.Maps.{storage_of};
ghost use Rattle.graph.specs.Sizes.{is_scalar_size, is_sized};
ghost use Rattle.graph.specs.Whole.{IsGraph};
ghost use Rattle.register_steps.specs.Lines.{address_line, input_line};
ghost use Rattle.register_steps.specs.Steps.{entry_held, line_of_address, line_of_move, line_of_shift, line_of_shift_by, line_of_compute, line_of_convert};

use crate::computing::{computed_line, converted_line};
use crate::line::{Line, exactly, kept, nothing, truth};
use crate::moving::{shifted, shifted_by};
use arithmetic::Op;
use changes::held_by;
use graph::{Graph, KeyedValue, Named, Target, Value};

/// The value that a register holds, with its key.
fn entry_held(graph: &Graph, register: u32) -> Option<KeyedValue>
    ensures entry { result ≡ entry_held graph.now register }
    ensures graph { IsGraph graph.now }
    ensures sized { IfSome result (λ held. is_sized held.value ≡ true) }
{
    match held_by(graph.registers(), register) {
        None => None,
        Some(key) => match graph.value(key) {
            None => None,
            Some(value) => Some(KeyedValue { key, value: *value }),
        },
    }
}

/// The key of the object that is a variable's storage.
fn storage_of(variables: &[Named], variable: u32) -> Option<u32>
    ensures { result ≡ storage_of variables.now variable }
{
    let mut left = variables;
    while let [first, rest @ ..] = left {
        if first.variable == variable {
            return Some(first.object);
        }
        left = rest;
    }
    None
}

/// The address of a variable (C11 6.5.3.2p3).
pub(crate) fn line_of_address(graph: &Graph, variable: u32) -> Line
    ensures line { result ≡ line_of_address graph.now variable }
    ensures graph { IsGraph graph.now }
{
    match storage_of(graph.variables(), variable) {
        None => nothing(),
        Some(object) => exactly(Value::Address {
            object,
            offset: 0,
            target: Target::Region,
        }),
    }
}

/// What another register holds.
pub(crate) fn line_of_move(graph: &Graph, from: u32) -> Line
    ensures line { result ≡ line_of_move graph.now from }
    ensures graph { IsGraph graph.now }
{
    match entry_held(graph, from) {
        None => nothing(),
        Some(held) => kept(held.key),
    }
}

/// An address moved by a constant.
pub(crate) fn line_of_shift(graph: &Graph, at: u32, by: i64) -> Line
    ensures line { result ≡ line_of_shift graph.now at by }
    ensures graph { IsGraph graph.now }
{
    match entry_held(graph, at) {
        None => nothing(),
        Some(address) => shifted(address.value, by),
    }
}

/// An address moved by a register times a constant.
pub(crate) fn line_of_shift_by(graph: &Graph, at: u32, by: u32, scale: i64) -> Line
    ensures line { result ≡ line_of_shift_by graph.now at by scale }
    ensures graph { IsGraph graph.now }
{
    match entry_held(graph, at) {
        None => nothing(),
        Some(address) => match entry_held(graph, by) {
            None => nothing(),
            Some(number) => shifted_by(address.value, number.value, scale),
        },
    }
}

/// What an operation on two registers gives.
pub(crate) fn line_of_compute(
    graph: &Graph,
    op: Op,
    left: u32,
    right: u32,
    size: u8,
    signed: bool,
) -> Line
    requires size { is_scalar_size size ≡ true }
    ensures line { result ≡ line_of_compute graph.now op left right size signed }
    ensures graph { IsGraph graph.now }
{
    match entry_held(graph, left) {
        None => nothing(),
        Some(one) => match entry_held(graph, right) {
            None => nothing(),
            Some(other) => computed_line(op, size, signed, one.value, other.value),
        },
    }
}

/// A register converted to a size.
pub(crate) fn line_of_convert(graph: &Graph, from: u32, size: u8, signed: bool) -> Line
    requires size { is_scalar_size size ≡ true }
    ensures line { result ≡ line_of_convert graph.now from size signed }
    ensures graph { IsGraph graph.now }
{
    match entry_held(graph, from) {
        None => nothing(),
        Some(held) => converted_line(held.key, held.value, size, signed),
    }
}

/// A value from outside.
pub(crate) fn input_line(size: u8, is_truth: bool) -> Line
    ensures { result ≡ input_line size is_truth }
{
    if is_truth {
        truth(None, size)
    } else {
        exactly(Value::Number { size })
    }
}
