ghost use Rattle.std.specs.Prelude.{◌≡◌, nat_eq, not, ◌&&◌};
ghost use Rattle.std.specs.List.{list_all, list_any};
ghost use Rattle.flow.specs.Standing.{stands_at, result_size};
ghost use Rattle.flow.specs.Valid.{are_distinct, is_local, has_scope, takes_result, calls_rightly};

use crate::flow_graph::Flow;
use crate::instruction::Instr;
use crate::naming::is_local;
use crate::orders::{are_among, are_distinct, is_among};
use crate::standing::{parameters_of, result_size, variables_at};

/// Whether each variable is not static, and does not stand.
fn are_new(flow: &Flow, standing: &[u32], variables: &[u32]) -> bool
    ensures { result ≡ list_all (λ variable. is_local flow.now variable && not (list_any (nat_eq variable) standing.now)) variables.now }
{
    variables.iter().all(|variable| is_local(flow, *variable) && !is_among(*variable, standing))
}

/// Whether the variables that an instruction enters or leaves at a point may be entered, or left.
pub fn has_scope(flow: &Flow, point: u32, instr: &Instr) -> bool
    ensures { result ≡ has_scope flow.now (stands_at flow.now point) instr.now }
{
    match instr {
        Instr::Enter { variables } => {
            are_distinct(variables.as_slice())
                && are_new(flow, variables_at(flow, point), variables.as_slice())
        }
        Instr::Leave { variables } => {
            are_distinct(variables.as_slice())
                && are_among(variables_at(flow, point), variables.as_slice())
        }
        _ => true,
    }
}

/// Whether a call may put the result of a function in such a register: in one only where there is a result.
fn takes_result(flow: &Flow, function: u32, into: Option<u32>) -> bool
    ensures { result ≡ takes_result into (result_size flow.now function) }
{
    into.is_none() || result_size(flow, function).is_some()
}

/// Whether a call has one argument for each parameter, and takes a result only where there is one.
pub fn calls_rightly(flow: &Flow, instr: &Instr) -> bool
    ensures { result ≡ calls_rightly flow.now instr.now }
{
    match instr {
        Instr::Call {
            function,
            arguments,
            into,
        } => {
            arguments.len() == parameters_of(flow, *function).len()
                && takes_result(flow, *function, *into)
        }
        _ => true,
    }
}
