ghost use Rattle.std.specs.Prelude.{◌≡◌, ◌<◌, ◌↔◌, ◌&&◌, nat_lt, IsTrue};
ghost use Rattle.std.specs.List.{list_all};
ghost use Rattle.flow.specs.Deciding.{is_right_standing, is_right_function, has_right_variables, has_right_registers, has_right_parameters, has_right_entry};
ghost use Rattle.flow.specs.Valid.{is_scalar_size, is_local, is_parameter, is_object_size, is_initial};

use crate::flow_graph::{Flow, FlowFunction, Standing, Width};
use crate::initials::is_initial;
use crate::naming::{is_local, is_parameter};
use crate::orders::{are_among, are_distinct, ascend, registers_ascend};
use crate::sizes::{is_object_size, is_scalar_size};
use crate::standing::{registers_at, variables_at};

/// Whether none of these variables is static.
fn are_local(flow: &Flow, variables: &[u32]) -> bool
    ensures { result ≡ list_all (is_local flow.now) variables.now }
{
    variables.iter().all(|variable| is_local(flow, *variable))
}

/// Whether these registers have sizes of scalars.
fn are_scalars(widths: &[Width]) -> bool
    ensures { result ≡ list_all (λ width. is_scalar_size width.size) widths.now }
{
    widths
        .iter()
        .all(|width| is_scalar_size(u32::from(width.size)))
}

/// Whether the variables that stand are not static, and ascend.
fn has_right_variables(flow: &Flow, standing: &Standing) -> bool
    ensures { result ≡ has_right_variables flow.now standing.now }
{
    ascend(standing.variables.as_slice()) && are_local(flow, standing.variables.as_slice())
}

/// Whether the registers that stand have sizes of scalars, and ascend.
fn has_right_registers(standing: &Standing) -> bool
    ensures { result ≡ has_right_registers standing.now }
{
    registers_ascend(standing.registers.as_slice()) && are_scalars(standing.registers.as_slice())
}

/// Whether what stands at a point may stand.
fn is_right_standing(flow: &Flow, standing: &Standing) -> bool
    ensures { result ≡ is_right_standing flow.now standing.now }
{
    has_right_variables(flow, standing) && has_right_registers(standing)
}

/// Whether what stands may stand at each point.
pub fn are_right_standings(flow: &Flow) -> bool
    ensures { result ≡ list_all (is_right_standing flow.now) flow.now.stands }
{
    flow.stands
        .as_slice()
        .iter()
        .all(|standing| is_right_standing(flow, standing))
}

/// Whether these variables may be parameters.
fn may_be_parameters(flow: &Flow, variables: &[u32]) -> bool
    ensures { result ≡ list_all (is_parameter flow.now) variables.now }
{
    variables
        .iter()
        .all(|variable| is_parameter(flow, *variable))
}

/// Whether the parameters of a function are distinct, and may be parameters.
fn has_right_parameters(flow: &Flow, function: &FlowFunction) -> bool
    ensures { result ≡ has_right_parameters flow.now function.now }
{
    are_distinct(function.parameters.as_slice())
        && may_be_parameters(flow, function.parameters.as_slice())
}

/// Whether the parameters of a function stand at its entry, no other variable, and no register.
fn has_right_entry(flow: &Flow, function: &FlowFunction) -> bool
    ensures { result ≡ has_right_entry flow.now function.now }
{
    let variables = variables_at(flow, function.entry);
    let parameters = function.parameters.as_slice();
    are_among(parameters, variables)
        && are_among(variables, parameters)
        && registers_at(flow, function.entry).len() == 0
}

/// Whether both hold of a function.
fn is_right_function(flow: &Flow, function: &FlowFunction) -> bool
    ensures { result ≡ is_right_function flow.now function.now }
{
    has_right_parameters(flow, function) && has_right_entry(flow, function)
}

/// Whether this holds of each function.
pub fn are_right_functions(flow: &Flow) -> bool
    ensures { result ≡ list_all (is_right_function flow.now) flow.now.functions }
{
    flow.functions
        .as_slice()
        .iter()
        .all(|function| is_right_function(flow, function))
}

/// Whether each loop head is a point.
pub fn are_right_heads(flow: &Flow) -> bool
    ensures { result ≡ list_all (λ head. nat_lt head flow.now.points) flow.now.heads }
{
    let points = flow.points;
    flow.heads.as_slice().iter().all(|head| *head < points)
}

/// Whether no variable has too many bytes.
pub fn are_right_variables(flow: &Flow) -> bool
    ensures { result ≡ list_all (λ variable. is_object_size variable.size) flow.now.variables }
{
    flow.variables
        .as_slice()
        .iter()
        .all(|variable| is_object_size(variable.size))
}

/// Whether each scalar of a static variable lies in its bytes, and may hold what it does.
pub fn are_right_initials(flow: &Flow) -> bool
    ensures { result ≡ list_all (is_initial flow.now) flow.now.initial }
{
    flow.initial
        .as_slice()
        .iter()
        .all(|scalar| is_initial(flow, scalar))
}
