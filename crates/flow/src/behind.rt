ghost use Rattle.std.specs.Prelude.{◌≡◌, ◌↔◌, map, IsTrue, IfOk};
ghost use Rattle.flow.specs.Holding.{put_width, emptied_widths, put_variable, left_variables};
ghost use Rattle.flow.specs.Machine.{size_after};
ghost use Rattle.flow.specs.Runs.{parameters_of};
ghost use Rattle.flow.specs.Standing.{any, arguments_asked, stands_at, stands_after, emptied_by, filled_by, with_filled, registers_after, with_variables, variables_after};

use crate::flow_graph::{Flow, FlowEdge, Width};
use crate::instruction::Instr;
use crate::orders::is_among;
use crate::standing::{parameters_of, registers_at, result_size, size_of, variables_at};
use arithmetic::Op;
use cbase::NoMemory;
use std::alloc::Global;

/// The registers that still stand when these are emptied.
fn kept(alloc: Global, gone: &[u32], widths: &[Width]) -> Result<Vec<Width>, NoMemory>
    ensures { IfOk result (λ kept. kept.items ≡ emptied_widths gone.now widths.now) }
{
    let kept = widths
        .iter()
        .copied()
        .filter(|width| !is_among(width.register, gone))
        .collect(alloc)?;
    Ok(kept)
}

/// The registers that stand when one more gets something.
fn with_width(alloc: Global, new: Width, mut widths: &[Width]) -> Result<Vec<Width>, NoMemory>
    ensures { IfOk result (λ all. all.items ≡ put_width new widths.entry.now) }
{
    let mut all = Vec::new(alloc);
    while let Some((first, rest)) = widths.split_first() {
        if new.register <= first.register {
            break;
        }
        all.push(*first)?;
        widths = rest;
    }
    all.push(new)?;
    if let Some((first, rest)) = widths.split_first() {
        if first.register == new.register {
            widths = rest;
        }
    }
    for width in widths {
        all.push(*width)?;
    }
    Ok(all)
}

/// The registers that still stand at the end of a full expression, which empties these.
fn left_by_finish(
    alloc: Global,
    registers: &[u32],
    widths: &[Width],
) -> Result<Vec<Width>, NoMemory>
    ensures { IfOk result (λ left. left.items ≡ emptied_widths (map (λ asked. asked.register) (map any registers.now)) widths.now) }
{
    kept(alloc, registers, widths)
}

/// The registers that still stand behind a call, which empties those of its arguments that have a parameter.
fn left_by_call(
    alloc: Global,
    flow: &Flow,
    function: u32,
    arguments: &[u32],
    widths: &[Width],
) -> Result<Vec<Width>, NoMemory>
    ensures { IfOk result (λ left. left.items
        ≡ emptied_widths (map (λ asked. asked.register) (arguments_asked flow.now arguments.now (parameters_of flow.now function))) widths.now) }
{
    let parameters = parameters_of(flow, function);
    let count = parameters.len().min(arguments.len());
    kept(alloc, &arguments[..count], widths)
}

/// The registers that an instruction does not empty.
fn left_by(
    alloc: Global,
    flow: &Flow,
    instr: &Instr,
    widths: &[Width],
) -> Result<Vec<Width>, NoMemory>
    ensures { IfOk result (λ left. left.items ≡ emptied_widths (emptied_by flow.now instr.now) widths.now) }
{
    match instr {
        Instr::Read { at, .. } | Instr::Shift { at, .. } | Instr::Release { at } => {
            kept(alloc, &[*at], widths)
        }
        Instr::Convert { from, .. } | Instr::Return { from: Some(from) } => {
            kept(alloc, &[*from], widths)
        }
        Instr::Write { at, from, .. } | Instr::Fill { at, from, .. } => {
            kept(alloc, &[*at, *from], widths)
        }
        Instr::ShiftBy { at, by, .. } => kept(alloc, &[*at, *by], widths),
        Instr::Compute { left, right, .. }
        | Instr::IfSame { left, right }
        | Instr::IfDifferent { left, right } => kept(alloc, &[*left, *right], widths),
        Instr::Copy { to, from, .. } => kept(alloc, &[*to, *from], widths),
        Instr::Finish { registers } => left_by_finish(alloc, registers.as_slice(), widths),
        Instr::Call {
            function,
            arguments,
            ..
        } => left_by_call(alloc, flow, *function, arguments.as_slice(), widths),
        _ => kept(alloc, &[], widths),
    }
}

/// The register that an operation fills: a comparison gives 4 bytes.
fn width_of_operation(op: Op, into: u32, size: u8) -> Width
    ensures register { result.register ≡ into }
    ensures size { result.size ≡ size_after op size }
{
    let size = match op {
        Op::Less | Op::LessEqual => 4,
        _ => size,
    };
    Width {
        register: into,
        size,
    }
}

/// The register that an instruction fills, and the size of its value.
fn filled_by(flow: &Flow, instr: &Instr, widths: &[Width]) -> Option<Width>
    ensures { result ≡ filled_by flow.now instr.now widths.now }
{
    let (register, size) = match instr {
        Instr::Number { into, size, .. }
        | Instr::Read { into, size, .. }
        | Instr::Convert { into, size, .. }
        | Instr::Input { into, size, .. } => (*into, *size),
        Instr::Address { into, .. }
        | Instr::Shift { into, .. }
        | Instr::ShiftBy { into, .. }
        | Instr::Allocate { into, .. }
        | Instr::AllocateNone { into } => (*into, 8),
        Instr::Move { into, from } => (*into, size_of(widths, *from)?),
        Instr::Compute { into, op, size, .. } => {
            return Some(width_of_operation(*op, *into, *size));
        }
        Instr::Call {
            function,
            into: Some(into),
            ..
        } => (*into, result_size(flow, *function)?),
        _ => return None,
    };
    Some(Width { register, size })
}

/// The registers that stand behind an instruction, where these stand before it.
pub fn registers_after(
    alloc: Global,
    flow: &Flow,
    instr: &Instr,
    widths: &[Width],
) -> Result<Vec<Width>, NoMemory>
    ensures { IfOk result (λ after. after.items ≡ registers_after flow.now instr.now widths.now) }
{
    let left = left_by(alloc, flow, instr, widths)?;
    match filled_by(flow, instr, widths) {
        None => Ok(left),
        Some(new) => with_width(alloc, new, left.as_slice()),
    }
}

/// The variables that stand when one more is entered.
fn with_variable(alloc: Global, new: u32, mut variables: &[u32]) -> Result<Vec<u32>, NoMemory>
    ensures { IfOk result (λ all. all.items ≡ put_variable new variables.entry.now) }
{
    let mut all = Vec::new(alloc);
    while let Some((first, rest)) = variables.split_first() {
        if new < *first {
            break;
        }
        all.push(*first)?;
        variables = rest;
    }
    all.push(new)?;
    for variable in variables {
        all.push(*variable)?;
    }
    Ok(all)
}

/// The variables that stand when these are entered.
pub fn with_variables(
    alloc: Global,
    mut entered: &[u32],
    variables: &[u32],
) -> Result<Vec<u32>, NoMemory>
    ensures { IfOk result (λ all. all.items ≡ with_variables entered.entry.now variables.now) }
{
    let mut all = variables.to_vec(alloc)?;
    while let Some((first, rest)) = entered.split_first() {
        all = with_variable(alloc, *first, all.as_slice())?;
        entered = rest;
    }
    Ok(all)
}

/// The variables that stand when these are left.
pub fn without_variables(
    alloc: Global,
    gone: &[u32],
    variables: &[u32],
) -> Result<Vec<u32>, NoMemory>
    ensures { IfOk result (λ left. left.items ≡ left_variables gone.now variables.now) }
{
    let left = variables
        .iter()
        .copied()
        .filter(|variable| !is_among(*variable, gone))
        .collect(alloc)?;
    Ok(left)
}

/// Whether these variables stand behind an instruction, where those stand before it.
fn variables_lead(
    alloc: Global,
    instr: &Instr,
    before: &[u32],
    after: &[u32],
) -> Result<bool, NoMemory>
    ensures { IfOk result (λ leads. IsTrue leads ↔ (variables_after instr.now before.now ≡ after.now)) }
{
    match instr {
        Instr::Enter { variables } => {
            let all = with_variables(alloc, variables.as_slice(), before)?;
            Ok(all.as_slice() == after)
        }
        Instr::Leave { variables } => {
            let left = without_variables(alloc, variables.as_slice(), before)?;
            Ok(left.as_slice() == after)
        }
        _ => Ok(before == after),
    }
}

/// Whether these registers stand behind an instruction, where those stand before it.
fn registers_lead(
    alloc: Global,
    flow: &Flow,
    instr: &Instr,
    before: &[Width],
    after: &[Width],
) -> Result<bool, NoMemory>
    ensures { IfOk result (λ leads. IsTrue leads ↔ (registers_after flow.now instr.now before.now ≡ after.now)) }
{
    let all = registers_after(alloc, flow, instr, before)?;
    Ok(all.as_slice() == after)
}

/// Whether what stands behind an edge's instruction is what stands at its end.
pub fn leads(alloc: Global, flow: &Flow, edge: &FlowEdge) -> Result<bool, NoMemory>
    ensures { IfOk result (λ leads. IsTrue leads
        ↔ (stands_after flow.now edge.now.instr (stands_at flow.now edge.now.from) ≡ stands_at flow.now edge.now.to)) }
{
    let variables = variables_lead(
        alloc,
        &edge.instr,
        variables_at(flow, edge.from),
        variables_at(flow, edge.to),
    )?;
    if !variables {
        return Ok(false);
    }
    registers_lead(
        alloc,
        flow,
        &edge.instr,
        registers_at(flow, edge.from),
        registers_at(flow, edge.to),
    )
}
