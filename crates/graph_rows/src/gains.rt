//! Steps in which a register gets a value: `number INTO:NUMBER:SIZE`, `address INTO:VARIABLE`, `move INTO:FROM`, `shift INTO:AT:BY`, `shiftby INTO:AT:BY:SCALE`,
//! `OPERATOR INTO:LEFT:RIGHT:SIZE:SIGNED`, `convert INTO:FROM:SIZE:SIGNED` and `input INTO:SIZE:TRUTH`. A shift is by `BY` less 100, an item has `SCALE` less 100 bytes.
use crate::steps::{Came, is_size, size_in};
use arithmetic::Op;
use cbase::NoMemory;
use graph::Graph;
use register_steps::{address, compute, convert, input, move_to, number, shift, shift_by};
use std::alloc::Global;

/// The post of such a step, if it is one.
pub fn gaining(alloc: Global, kind: &str, graph: &Graph, fields: &[u32]) -> Result<Came, NoMemory> {
    match fields {
        [into, from] => gaining_one(alloc, kind, graph, *into, *from),
        [into, one, other] => gaining_two(alloc, kind, graph, *into, *one, *other),
        [into, one, other, last] => gaining_three(alloc, kind, graph, *into, *one, *other, *last),
        [into, left, right, size, signed] => {
            computing(
                alloc,
                kind,
                graph,
                *into,
                *left,
                *right,
                size_in(*size),
                *signed == 1,
            )
        }
        _ => Ok(Came::NoRow),
    }
}

fn gaining_one(
    alloc: Global,
    kind: &str,
    graph: &Graph,
    into: u32,
    from: u32,
) -> Result<Came, NoMemory> {
    match kind {
        "address" => Ok(Came::Post(address(alloc, graph, into, from)?)),
        "move" => Ok(Came::Post(move_to(alloc, graph, into, from)?)),
        _ => Ok(Came::NoRow),
    }
}

fn gaining_two(
    alloc: Global,
    kind: &str,
    graph: &Graph,
    into: u32,
    one: u32,
    other: u32,
) -> Result<Came, NoMemory> {
    match kind {
        "number" => {
            if other != 8 {
                return Ok(Came::NoRow);
            }
            Ok(Came::Post(number(alloc, graph, into, one as u64, 8)?))
        }
        "shift" => Ok(Came::Post(shift(alloc, graph, into, one, other as i64 - 100)?)),
        "input" => {
            let size = size_in(one);
            if !is_size(size) {
                return Ok(Came::NoRow);
            }
            Ok(Came::Post(input(alloc, graph, into, size, other == 1)?))
        }
        _ => Ok(Came::NoRow),
    }
}

fn gaining_three(
    alloc: Global,
    kind: &str,
    graph: &Graph,
    into: u32,
    one: u32,
    other: u32,
    last: u32,
) -> Result<Came, NoMemory> {
    match kind {
        "shiftby" => {
            let scale = last as i64 - 100;
            Ok(Came::Post(shift_by(alloc, graph, into, one, other, scale)?))
        }
        "convert" => {
            let size = size_in(other);
            if !is_size(size) {
                return Ok(Came::NoRow);
            }
            Ok(Came::Post(convert(alloc, graph, into, one, size, last == 1)?))
        }
        _ => Ok(Came::NoRow),
    }
}

/// The operators, and the names by which rows have them.
const OPERATORS: [(&'static str, Op); 12] = [
    ("add", Op::Add),
    ("sub", Op::Sub),
    ("mul", Op::Mul),
    ("div", Op::Div),
    ("rem", Op::Rem),
    ("and", Op::And),
    ("or", Op::Or),
    ("xor", Op::Xor),
    ("left", Op::Left),
    ("right", Op::Right),
    ("less", Op::Less),
    ("lessequal", Op::LessEqual),
];

fn operator(kind: &str) -> Option<Op> {
    for (name, op) in OPERATORS {
        if name == kind {
            return Some(op);
        }
    }
    None
}

fn computing(
    alloc: Global,
    kind: &str,
    graph: &Graph,
    into: u32,
    left: u32,
    right: u32,
    size: u8,
    signed: bool,
) -> Result<Came, NoMemory> {
    match operator(kind) {
        Some(op) if is_size(size) => {
            Ok(Came::Post(compute(alloc, graph, into, op, left, right, size, signed)?))
        }
        _ => Ok(Came::NoRow),
    }
}
