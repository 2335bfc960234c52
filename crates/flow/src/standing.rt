ghost use Rattle.std.specs.Prelude.{◌≡◌};
ghost use Rattle.flow.specs.Holding.{size_of};
ghost use Rattle.flow.specs.Runs.{parameters_of};
ghost use Rattle.flow.specs.Standing.{stands_at, result_size};

use crate::flow_graph::{Flow, Width};

/// The variables that stand at a point; none where there is no such point.
pub fn variables_at(flow: &Flow, point: u32) -> &[u32]
    ensures { result.now ≡ (stands_at flow.now point).variables }
{
    match flow.stands.as_slice().get(point as usize) {
        None => &[],
        Some(standing) => standing.variables.as_slice(),
    }
}

/// The registers that stand at a point; none where there is no such point.
pub fn registers_at(flow: &Flow, point: u32) -> &[Width]
    ensures { result.now ≡ (stands_at flow.now point).registers }
{
    match flow.stands.as_slice().get(point as usize) {
        None => &[],
        Some(standing) => standing.registers.as_slice(),
    }
}

/// The variables of a function's parameters; none where there is no such function.
pub fn parameters_of(flow: &Flow, function: u32) -> &[u32]
    ensures { result.now ≡ parameters_of flow.now function }
{
    match flow.functions.as_slice().get(function as usize) {
        None => &[],
        Some(found) => found.parameters.as_slice(),
    }
}

/// The size of a function's result, if it has one: that of the register that stands at its exit.
pub fn result_size(flow: &Flow, function: u32) -> Option<u8>
    ensures { result ≡ result_size flow.now function }
{
    match flow.functions.as_slice().get(function as usize) {
        None => None,
        Some(found) => match registers_at(flow, found.exit).first() {
            None => None,
            Some(width) => Some(width.size),
        },
    }
}

/// The size of what a register holds, if it stands.
pub fn size_of(mut widths: &[Width], register: u32) -> Option<u8>
    ensures { result ≡ size_of widths.entry.now register }
{
    while let Some((first, rest)) = widths.split_first() {
        if first.register == register {
            return Some(first.size);
        }
        widths = rest;
    }
    None
}
