//! What stands behind an instruction, for whoever makes a graph.
ghost use Rattle.std.specs.Prelude.{◌≡◌, IfOk};
ghost use Rattle.flow.specs.Standing.{registers_after, stands_after, variables_after};

use crate::behind::{registers_after, with_variables, without_variables};
use crate::flow_graph::{Flow, Standing, Width};
use crate::instruction::Instr;
use cbase::{List, NoMemory};
use std::alloc::Global;

/// The registers that stand behind an instruction, where these stand before it.
pub fn registers_behind(
    alloc: Global,
    flow: &Flow,
    instr: &Instr,
    before: &[Width],
) -> Result<List<Width>, NoMemory>
    ensures { IfOk result (λ after. after ≡ registers_after flow.now instr.now before.now) }
{
    let after = registers_after(alloc, flow, instr, before)?;
    Ok(List::from_vec(after))
}

/// The variables that stand behind an instruction, where these stand before it.
pub fn variables_behind(alloc: Global, instr: &Instr, before: &[u32]) -> Result<List<u32>, NoMemory>
    ensures { IfOk result (λ after. after ≡ variables_after instr.now before.now) }
{
    let after = match instr {
        Instr::Enter { variables } => with_variables(alloc, variables.as_slice(), before)?,
        Instr::Leave { variables } => without_variables(alloc, variables.as_slice(), before)?,
        _ => before.to_vec(alloc)?,
    };
    Ok(List::from_vec(after))
}

/// What stands behind an instruction, where this stands before it: what a graph has to tell of the end of an edge with that
/// instruction.
pub fn stands_behind(
    alloc: Global,
    flow: &Flow,
    instr: &Instr,
    before: &Standing,
) -> Result<Standing, NoMemory>
    ensures { IfOk result (λ after. after ≡ stands_after flow.now instr.now before.now) }
{
    let variables = variables_behind(alloc, instr, before.variables.as_slice())?;
    let registers = registers_behind(alloc, flow, instr, before.registers.as_slice())?;
    Ok(Standing {
        variables,
        registers,
    })
}
