ghost use Rattle.std.specs.Prelude.{◌≡◌, map, ◌&&◌, if◌then◌else◌};
ghost use Rattle.std.specs.List.{list_all};
ghost use Rattle.flow.specs.Standing.{any, sized, shifts, stands_as_asked, arguments_asked, stands_at};
ghost use Rattle.flow.specs.Holding.{size_of};
ghost use Rattle.flow.specs.Valid.{reads_what_stands, tests_one_size, same_size};

use crate::flow_graph::{Flow, Width};
use crate::instruction::Instr;
use crate::naming::size_in;
use crate::standing::{parameters_of, registers_at, size_of};
use arithmetic::Op;

/// Whether a register stands.
fn stands(widths: &[Width], register: u32) -> bool
    ensures { result ≡ stands_as_asked widths.now (any register) }
{
    size_of(widths, register).is_some()
}

/// Whether a register stands in a size.
fn stands_in(widths: &[Width], size: u32, register: u32) -> bool
    ensures { result ≡ stands_as_asked widths.now (sized size register) }
{
    match size_of(widths, register) {
        None => false,
        Some(found) => size == u32::from(found),
    }
}

/// Whether an address stands in a register.
fn address_stands(widths: &[Width], register: u32) -> bool
    ensures { result ≡ stands_as_asked widths.now (sized 8 register) }
{
    stands_in(widths, 8, register)
}

/// Whether each of these registers stands.
fn each_stands(widths: &[Width], registers: &[u32]) -> bool
    ensures { result ≡ list_all (λ register. stands_as_asked widths.now (any register)) registers.now }
{
    registers.iter().all(|register| stands(widths, *register))
}

/// Whether the registers that the end of a full expression empties stand.
fn all_stand(widths: &[Width], registers: &[u32]) -> bool
    ensures { result ≡ list_all (stands_as_asked widths.now) (map any registers.now) }
{
    each_stands(widths, registers)
}

/// Whether the arguments of a call stand in the sizes of the parameters.
fn arguments_stand(
    flow: &Flow,
    widths: &[Width],
    mut arguments: &[u32],
    mut variables: &[u32],
) -> bool
    ensures { result ≡ list_all (stands_as_asked widths.now) (arguments_asked flow.now arguments.entry.now variables.entry.now) }
{
    while let Some((argument, more_arguments)) = arguments.split_first() {
        let Some((variable, more_variables)) = variables.split_first() else {
            return true;
        };
        if !stands_in(widths, size_in(flow, *variable), *argument) {
            return false;
        }
        arguments = more_arguments;
        variables = more_variables;
    }
    true
}

/// Whether the two sides of an operation stand: of a shift the amount may have another size.
fn sides_stand(widths: &[Width], op: Op, left: u32, right: u32, size: u8) -> bool
    ensures { result ≡ (stands_as_asked widths.now (sized size left)
        && stands_as_asked widths.now (if shifts op then any right else sized size right)) }
{
    let bytes = u32::from(size);
    stands_in(widths, bytes, left)
        && match op {
            Op::Left | Op::Right => stands(widths, right),
            _ => stands_in(widths, bytes, right),
        }
}

/// Whether an instruction reads only registers that stand at a point, in the sizes that it asks for.
pub fn reads_what_stands(flow: &Flow, point: u32, instr: &Instr) -> bool
    ensures { result ≡ reads_what_stands flow.now (stands_at flow.now point) instr.now }
{
    let widths = registers_at(flow, point);
    match instr {
        Instr::Move { from, .. } | Instr::Convert { from, .. } => stands(widths, *from),
        Instr::Read { at, .. } | Instr::Shift { at, .. } | Instr::Release { at } => {
            address_stands(widths, *at)
        }
        Instr::Write { at, from, size } => {
            address_stands(widths, *at) && stands_in(widths, u32::from(*size), *from)
        }
        Instr::ShiftBy { at, by, .. } => address_stands(widths, *at) && address_stands(widths, *by),
        Instr::Compute {
            op,
            left,
            right,
            size,
            ..
        } => sides_stand(widths, *op, *left, *right, *size),
        Instr::IfSame { left, right } | Instr::IfDifferent { left, right } => {
            stands(widths, *left) && stands(widths, *right)
        }
        Instr::Fill { at, from, .. } => address_stands(widths, *at) && stands(widths, *from),
        Instr::Copy { to, from, .. } => address_stands(widths, *to)
            && address_stands(widths, *from),
        Instr::Finish { registers } => all_stand(widths, registers.as_slice()),
        Instr::Call {
            function,
            arguments,
            ..
        } => arguments_stand(
            flow,
            widths,
            arguments.as_slice(),
            parameters_of(flow, *function),
        ),
        Instr::Return { from: Some(from) } => stands(widths, *from),
        _ => true,
    }
}

/// Whether the registers of a test stand at a point and have one size.
pub fn tests_one_size(flow: &Flow, point: u32, instr: &Instr) -> bool
    ensures { result ≡ tests_one_size (stands_at flow.now point) instr.now }
{
    match instr {
        Instr::IfSame { left, right } | Instr::IfDifferent { left, right } => {
            have_one_size(registers_at(flow, point), *left, *right)
        }
        _ => true,
    }
}

/// Whether two registers stand and have one size.
fn have_one_size(widths: &[Width], one: u32, other: u32) -> bool
    ensures { result ≡ same_size (size_of widths.now one) (size_of widths.now other) }
{
    match (size_of(widths, one), size_of(widths, other)) {
        (Some(first), Some(second)) => first == second,
        _ => false,
    }
}
