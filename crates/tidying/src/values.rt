//! Which values stay.
ghost use Rattle.std.specs.Prelude.{◌≡◌, ◌&&◌, IfOk};
ghost use Rattle.graph.specs.Sizes.{is_constant};
ghost use Rattle.graph.specs.WellFormed.{passes_at};
ghost use Rattle.graph.specs.Whole.{IsGraph};
ghost use Rattle.tidying.specs.Marks.{is_marked, marked_if, pair_marked, pairs_marked, value_marks};

use crate::marks::{held_marks, is_marked, mark};
use cbase::NoMemory;
use graph::{Pair, Parts, Value};
use std::alloc::Global;

/// Whether a value is a constant.
fn is_constant(value: Value) -> bool
    ensures { result ≡ is_constant value }
{
    match value {
        Value::Const { number: _, size: _ } => true,
        Value::Number { size: _ } => false,
        Value::Any => false,
        Value::Address {
            object: _,
            offset: _,
            target: _,
        } => false,
    }
}

/// Whether the value with a key is a constant.
fn is_constant_at(parts: &Parts, key: u32) -> bool
    requires { IsGraph parts.now }
    ensures { result ≡ passes_at parts.now is_constant key }
{
    match parts.values.as_slice().get(key as usize) {
        None => false,
        Some(entry) => is_constant(entry.value),
    }
}

/// Marks one value of a pair, if it is a constant and the other one is held.
fn mark_constant(parts: &Parts, held: &[bool], marks: &mut [bool], key: u32, other: u32)
    requires { IsGraph parts.now }
    ensures { marks.new ≡ marked_if (passes_at parts.now is_constant key && is_marked held.now other) marks.old key }
{
    if !is_constant_at(parts, key) {
        return;
    }
    if is_marked(held, other) {
        mark(marks, key);
    }
}

/// Marks the constant of a pair, if the other value is held.
fn mark_pair(parts: &Parts, held: &[bool], marks: &mut [bool], pair: Pair)
    requires { IsGraph parts.now }
    ensures { marks.new ≡ pair_marked parts.now held.now marks.old pair }
{
    mark_constant(parts, held, marks, pair.left, pair.right);
    mark_constant(parts, held, marks, pair.right, pair.left);
}

/// Marks the constants of pairs whose other value is held.
fn mark_pairs(parts: &Parts, held: &[bool], marks: &mut [bool], pairs: &[Pair])
    requires { IsGraph parts.now }
    ensures { marks.new ≡ pairs_marked parts.now held.now marks.old pairs.now }
{
    let mut left = pairs;
    while let [first, rest @ ..] = left {
        mark_pair(parts, held, marks, *first);
        left = rest;
    }
}

/// Of each value whether it stays.
pub(crate) fn value_marks(alloc: Global, parts: &Parts) -> Result<Vec<bool>, NoMemory>
    requires { IsGraph parts.now }
    ensures { IfOk result (λ marks. marks.items ≡ value_marks parts.now) }
{
    let held = held_marks(alloc, parts)?;
    let mut marks = Vec::from_slice(alloc, held.as_slice())?;
    mark_pairs(
        parts,
        held.as_slice(),
        marks.as_mut_slice(),
        parts.unequal.as_slice(),
    );
    Ok(marks)
}
