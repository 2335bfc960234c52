//! Sizes of variables.
ghost use Rattle.std.specs.Prelude.{◌≡◌, ◌++◌, [], map, IfOk, OnOk};
ghost use Rattle.flow.specs.Machine.{size_in};

use cbase::{List, NoMemory};
use flow::Flow;
use std::alloc::Global;

/// How many bytes a variable has; 0 for a number that is none's.
fn size_in(flow: &Flow, variable: u32) -> u32
    ensures { result ≡ size_in flow.now variable }
{
    match flow.variables.as_slice().get(variable as usize) {
        None => 0,
        Some(found) => found.size,
    }
}

/// Puts the sizes of variables behind others.
fn put_sizes(flow: &Flow, variables: &[u32], sizes: &mut List<u32>) -> Result<(), NoMemory>
    ensures { OnOk result (sizes.new ≡ sizes.old ++ map (size_in flow.now) variables.now) }
{
    let mut left = variables;
    while let [first, rest @ ..] = left {
        sizes.push(size_in(flow, *first))?;
        left = rest;
    }
    Ok(())
}

/// The sizes of variables, in order.
pub(crate) fn sizes_in(alloc: Global, flow: &Flow, variables: &[u32]) -> Result<List<u32>, NoMemory>
    ensures { IfOk result (λ sizes. sizes ≡ map (size_in flow.now) variables.now) }
{
    let mut sizes = List::new(alloc);
    put_sizes(flow, variables, &mut sizes)?;
    Ok(sizes)
}
