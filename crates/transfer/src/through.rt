//! The registers through which an instruction goes.
ghost use Rattle.std.specs.Prelude.{◌≡◌, ◌++◌, ◌∷◌, [], OnOk};
ghost use Rattle.transfer.specs.Through.{goes_through};

use cbase::{List, NoMemory};
use flow::Instr;

/// Puts a register behind others.
fn put_one(one: u32, registers: &mut List<u32>) -> Result<(), NoMemory>
    ensures { OnOk result (registers.new ≡ registers.old ++ one ∷ []) }
{
    registers.push(one)?;
    Ok(())
}

/// Puts two registers behind others.
fn put_two(one: u32, other: u32, registers: &mut List<u32>) -> Result<(), NoMemory>
    ensures { OnOk result (registers.new ≡ registers.old ++ one ∷ other ∷ []) }
{
    registers.push(one)?;
    put_one(other, registers)
}

/// Puts the registers through which an instruction goes behind others.
pub(crate) fn put_through(instr: &Instr, registers: &mut List<u32>) -> Result<(), NoMemory>
    ensures { OnOk result (registers.new ≡ registers.old ++ goes_through instr.now) }
{
    match instr {
        Instr::Read { at, .. } => put_one(*at, registers),
        Instr::Write { at, .. } => put_one(*at, registers),
        Instr::IfSame { left, right } => put_two(*left, *right, registers),
        Instr::IfDifferent { left, right } => put_two(*left, *right, registers),
        Instr::Release { at } => put_one(*at, registers),
        Instr::Fill { at, .. } => put_one(*at, registers),
        Instr::Copy { to, from, .. } => put_two(*to, *from, registers),
        _ => Ok(()),
    }
}
