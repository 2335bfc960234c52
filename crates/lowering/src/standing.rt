//! What stands behind a move: registers more, and fewer.
ghost use Rattle.std.specs.Prelude.{◌≡◌, ◌+◌, ◌∷◌, [], IfOk, OnOk};
ghost use Rattle.flow.specs.Holding.{emptied_widths, put_width};
ghost use Rattle.lowering.specs.Placing.{with_spares, with_value, with_width, without_register};

use crate::kinds::width;
use c_machine::Kind;
use cbase::{List, NoMemory};
use flow::{Standing, Width};
use std::alloc::Global;

/// The registers that stand when one more gets something.
fn put_width(alloc: Global, new: Width, mut widths: &[Width]) -> Result<Vec<Width>, NoMemory>
    ensures { IfOk result (λ all. all.items ≡ put_width new widths.entry.now) }
{
    let mut all = Vec::new(alloc);
    while let Some((first, rest)) = widths.split_first() {
        if new.register <= first.register {
            break;
        }
        all.push(*first)?;
        widths = rest;
    }
    all.push(new)?;
    if let Some((first, rest)) = widths.split_first() {
        if first.register == new.register {
            widths = rest;
        }
    }
    for width in widths {
        all.push(*width)?;
    }
    Ok(all)
}

/// A register of so many bytes stands, too. It takes a step for each that stands.
pub fn with_width(
    alloc: Global,
    standing: &mut Standing,
    register: u32,
    size: u8,
) -> Result<(), NoMemory>
    ensures { OnOk result (standing.new ≡ with_width register size standing.old) }
{
    match put_width(
        alloc,
        Width { register, size },
        standing.registers.as_slice(),
    ) {
        Ok(registers) => {
            standing.registers = List::from_vec(registers);
            Ok(())
        }
        Err(error) => Err(error),
    }
}

/// So many registers of 8 bytes from one on stand, too. Where they are more than can be numbered, memory is wanting.
pub fn with_spares(
    alloc: Global,
    standing: &mut Standing,
    first: u32,
    count: u32,
) -> Result<(), NoMemory>
    ensures { OnOk result (standing.new ≡ with_spares first count standing.old) }
{
    let mut spare = first;
    let mut left = count;
    while left > 0 {
        with_width(alloc, standing, spare, 8)?;
        spare = next_register(spare)?;
        left -= 1;
    }
    Ok(())
}

/// The register behind one. Where there is none, memory is wanting.
pub fn next_register(register: u32) -> Result<u32, NoMemory>
    ensures { IfOk result (λ next. next ≡ register + 1) }
{
    match register.checked_add(1) {
        None => Err(NoMemory),
        Some(next) => Ok(next),
    }
}

/// The register of a value of a kind stands, too, if there is a value.
pub fn with_value(
    alloc: Global,
    standing: &mut Standing,
    register: u32,
    kind: Kind,
) -> Result<(), NoMemory>
    ensures { OnOk result (standing.new ≡ with_value register kind standing.old) }
{
    match kind {
        Kind::Void => Ok(()),
        _ => with_width(alloc, standing, register, width(kind)),
    }
}

/// A register stands no more.
pub fn without_register(
    alloc: Global,
    standing: &mut Standing,
    register: u32,
) -> Result<(), NoMemory>
    ensures { OnOk result (standing.new ≡ without_register register standing.old) }
{
    match kept(alloc, register, standing.registers.as_slice()) {
        Ok(registers) => {
            standing.registers = List::from_vec(registers);
            Ok(())
        }
        Err(error) => Err(error),
    }
}

/// All registers but one.
fn kept(alloc: Global, gone: u32, widths: &[Width]) -> Result<Vec<Width>, NoMemory>
    ensures { IfOk result (λ kept. kept.items ≡ emptied_widths (gone ∷ []) widths.now) }
{
    let kept = widths
        .iter()
        .copied()
        .filter(|width| width.register != gone)
        .collect(alloc)?;
    Ok(kept)
}
