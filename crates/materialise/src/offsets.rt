//! Offsets of addresses.
ghost use Rattle.std.specs.Prelude.{◌≡◌, IfOk, OnOk};
ghost use Rattle.graph.specs.Whole.{IsGraph};
ghost use Rattle.materialise.specs.WithOne.{HasOffset, HaveOffsets};

use cbase::NoMemory;
use graph::{Graph, KeyedValue, Parts, Value};
use std::alloc::Global;

/// The offset of an address is a number of 64 bits with a sign. It takes no memory.
fn offset_fits(value: Value)
    ensures { HasOffset value }
{
    match value {
        Value::Address { offset, .. } => {
            let _offset: i64 = offset;
        }
        _ => {}
    }
}

/// So are those of all these values. It takes no memory, and time in proportion to them.
pub fn offsets_fit(values: &[KeyedValue])
    ensures { HaveOffsets values.now }
{
    let mut left = values;
    while let [first, rest @ ..] = left {
        offset_fits(first.value);
        left = rest;
    }
}

/// The contents of a graph, whose addresses have such offsets.
pub(crate) fn parts_of(alloc: Global, graph: &Graph) -> Result<Parts, NoMemory>
    ensures ok { IfOk result (λ parts. parts ≡ graph.now) }
    ensures graph { IsGraph graph.now }
    ensures offsets { OnOk result (HaveOffsets graph.now.values) }
{
    match graph.parts(alloc) {
        Err(error) => Err(error),
        Ok(parts) => {
            offsets_fit(parts.values.as_slice());
            Ok(parts)
        }
    }
}
