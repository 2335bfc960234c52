ghost use Rattle.std.specs.Prelude.{◌≡◌, nat_lt, length};
ghost use Rattle.std.specs.List.{list_all};
ghost use Rattle.flow.specs.Machine.{size_in};
ghost use Rattle.flow.specs.Valid.{is_fixed, is_local, is_parameter, names_what_is_there};

use crate::flow_graph::Flow;
use crate::instruction::Instr;
use crate::sizes::is_scalar_size;

/// Whether a number is that of a static variable.
pub fn is_fixed(flow: &Flow, variable: u32) -> bool
    ensures { result ≡ is_fixed flow.now variable }
{
    match flow.variables.as_slice().get(variable as usize) {
        None => false,
        Some(found) => found.fixed,
    }
}

/// Whether a number is that of a variable that is not static.
pub fn is_local(flow: &Flow, variable: u32) -> bool
    ensures { result ≡ is_local flow.now variable }
{
    match flow.variables.as_slice().get(variable as usize) {
        None => false,
        Some(found) => !found.fixed,
    }
}

/// How many bytes a variable has; 0 where there is none of this number.
pub fn size_in(flow: &Flow, variable: u32) -> u32
    ensures { result ≡ size_in flow.now variable }
{
    match flow.variables.as_slice().get(variable as usize) {
        None => 0,
        Some(found) => found.size,
    }
}

/// Whether a variable may be a parameter: it is not static, and has the size of a scalar.
pub fn is_parameter(flow: &Flow, variable: u32) -> bool
    ensures { result ≡ is_parameter flow.now variable }
{
    is_local(flow, variable) && is_scalar_size(size_in(flow, variable))
}

/// Whether there are variables of these numbers.
fn are_variables(flow: &Flow, variables: &[u32]) -> bool
    ensures { result ≡ list_all (λ variable. nat_lt variable (length flow.now.variables)) variables.now }
{
    let count = flow.variables.len();
    variables
        .iter()
        .all(|variable| (*variable as usize) < count)
}

/// Whether the variables and the function that an instruction names are there.
pub fn names_what_is_there(flow: &Flow, instr: &Instr) -> bool
    ensures { result ≡ names_what_is_there flow.now instr.now }
{
    match instr {
        Instr::Address { variable, .. } => (*variable as usize) < flow.variables.len(),
        Instr::Enter { variables } | Instr::Leave { variables } => {
            are_variables(flow, variables.as_slice())
        }
        Instr::Call { function, .. } => (*function as usize) < flow.functions.len(),
        _ => true,
    }
}
