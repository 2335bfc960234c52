//! What statements and initialisers give, as lines of moves (C11 6.7.9, 6.8).
ghost use Rattle.std.specs.Prelude.{◌≡◌, ◌+◌, ◌<◌, ◌^◌, [], ◌∷◌, ◌++◌, map, IfOk, OnOk, if◌then◌else◌};
ghost use Rattle.c_machine.specs.Words.{scalar_bytes};
ghost use Rattle.c_machine.specs.declared.kind.Kind.TheVariants.{Void};
ghost use Rattle.flow.specs.declared.instruction.Instr.TheVariants.{Fill, Finish, Number};
ghost use Rattle.flow.specs.Valid.{is_object_size};
ghost use Rattle.lowering.specs.Kinds.{conversion, width};
ghost use Rattle.lowering.specs.Moves.{Emits, Fails, run_of, taking};
ghost use Rattle.lowering.specs.Placing.{clear_moves, finishes, full_moves, registers_of, set_by, set_moves, writes};
ghost use Rattle.lowering.specs.Returns.{given_moves};
ghost use Rattle.lowering.specs.Told.{IsLine, trees};

use crate::kinds::{conversion, width};
use crate::line::{
    TreeLine, adapts, converts, copies, emits, evaluates, fails, locates, object_moves, shifted_in,
    shifts, stands_in, taken, works,
};
use c_machine::Kind;
use c_steps::words::scalar_bytes;
use cbase::{Expr, List, NoMemory, Place};
use flow::{Instr, Standing, Width};
use std::alloc::Global;

/// The registers from one on, so many of them. Where one of them has no number, memory is wanting.
pub fn run_of(alloc: Global, first: u32, count: u32) -> Result<List<u32>, NoMemory>
    ensures { IfOk result (λ registers. registers ≡ run_of first count) }
{
    let mut registers = List::new(alloc);
    match push_run(&mut registers, first, count) {
        Ok(()) => Ok(registers),
        Err(error) => Err(error),
    }
}

/// Puts the registers from one on behind others, so many of them.
fn push_run(registers: &mut List<u32>, first: u32, count: u32) -> Result<(), NoMemory>
    ensures { OnOk result (registers.new ≡ registers.old ++ run_of first count) }
{
    let mut register = first;
    let mut left = count;
    while left > 0 {
        registers.push(register)?;
        register = more_than(register, 1)?;
        left -= 1;
    }
    Ok(())
}

/// So many registers more than others. Where that many have no number, memory is wanting.
pub fn more_than(count: u32, more: u32) -> Result<u32, NoMemory>
    ensures { IfOk result (λ all. all ≡ count + more) }
{
    match count.checked_add(more) {
        None => Err(NoMemory),
        Some(all) => Ok(all),
    }
}

/// A full expression whose value is not used: it lets go of `count` values, from the register `spare` on, and ends at the token of that place (C11 6.8p4).
pub fn full_moves<'a>(
    alloc: Global,
    line: &mut TreeLine<'a>,
    expr: &'a Expr,
    spare: u32,
    count: u32,
    end: Place,
) -> Result<(), NoMemory>
    ensures { OnOk result (line.new ≡ full_moves (trees Void) expr.now spare count end ++ line.old) }
{
    let registers = run_of(alloc, spare, count)?;
    emits(line, Instr::Finish { registers }, end)?;
    works(line, expr, spare)
}

/// Registers of unfinished expressions that are left at a word, if there are any.
pub fn finishes(line: &mut TreeLine, registers: List<u32>, word: Place) -> Result<(), NoMemory>
    ensures { OnOk result (line.new ≡ finishes registers word ++ line.old) }
{
    if registers.len() == 0 {
        return Ok(());
    }
    emits(line, Instr::Finish { registers }, word)
}

/// The object of a name, of so many bytes, becomes 0 (C11 6.7.9p19, p21).
pub fn clear_line(
    registers: &mut u32,
    line: &mut TreeLine,
    found: Option<u32>,
    place: Place,
    bytes: u64,
) -> Result<(), NoMemory>
    ensures { OnOk result (IsLine (taking 2 (clear_moves found place bytes registers.old)) registers.old registers.new line.old line.new) }
{
    let at = taken(registers, 2)?;
    zeroes(line, at, at + 1, place, bytes)?;
    object_moves(line, found, place, at)
}

/// So many bytes become 0, if they are as many as an object may have.
fn zeroes(line: &mut TreeLine, at: u32, from: u32, place: Place, bytes: u64) -> Result<(), NoMemory>
    ensures { OnOk result (line.new ≡ (if is_object_size bytes then Emits (Number from 0 1) place ∷ Emits (Fill at from bytes) place ∷ [] else Fails ∷ []) ++ line.old) }
{
    match u32::try_from(bytes) {
        Ok(length) if length <= 65536 => {
            emits(line, Instr::Fill { at, from, length }, place)?;
            emits(
                line,
                Instr::Number {
                    into: from,
                    value: 0,
                    size: 1,
                },
                place,
            )
        }
        _ => fails(line),
    }
}

/// A value of an initialiser of a kind is written to where a register leads, in its place in the object (C11 6.7.9p11, p13).
fn set_by<'a>(
    line: &mut TreeLine<'a>,
    value: &'a Expr,
    spare: u32,
    at: u32,
    from: u32,
    place: Place,
    kind: &Kind,
) -> Result<(), NoMemory>
    ensures { OnOk result (line.new ≡ set_by (trees Void) value.now spare at from place kind.now ++ line.old) }
{
    match kind {
        Kind::Struct(bytes) => {
            copies(line, at, from, *bytes, false, place)?;
            locates(line, value, spare, from)
        }
        _ => writes(line, value, kind, spare, at, from, place),
    }
}

/// A scalar of an initialiser is written.
fn writes<'a>(
    line: &mut TreeLine<'a>,
    value: &'a Expr,
    kind: &Kind,
    spare: u32,
    at: u32,
    from: u32,
    place: Place,
) -> Result<(), NoMemory>
    ensures { OnOk result (line.new ≡ writes (trees Void) value.now kind.now spare at from place (scalar_bytes kind.now) ++ line.old) }
{
    match scalar_bytes(*kind) {
        None => fails(line),
        Some(size) => {
            emits(line, Instr::Write { at, from, size }, place)?;
            converts(line, value, *kind, spare, from)
        }
    }
}

/// A value of an initialiser is a full expression, which lets go of `count` values and ends at the token of the place `end`: it is written behind so many bytes of the
/// object of a name, as one of a kind, at that name (C11 6.7.9p11, p13).
pub fn set_line<'a>(
    alloc: Global,
    registers: &mut u32,
    line: &mut TreeLine<'a>,
    found: Option<u32>,
    place: Place,
    value: &'a Expr,
    end: Place,
    offset: u64,
    kind: &Kind,
    count: u32,
) -> Result<(), NoMemory>
    ensures { OnOk result (IsLine (taking (count + 3) (set_moves (trees Void) found place value.now end (record { offset = offset; kind = kind.now }) registers.old count))
        registers.old registers.new line.old line.new) }
{
    let spare = taken(registers, more_than(count, 3)?)?;
    let at = spare + count;
    let finished = run_of(alloc, spare, count)?;
    emits(
        line,
        Instr::Finish {
            registers: finished,
        },
        end,
    )?;
    set_by(line, value, spare, at + 1, at + 2, place, kind)?;
    shifts(line, at, at + 1, offset, place)?;
    object_moves(line, found, place, shifted_in(offset, at, at + 1))
}

/// The value of a `return`, which lets go of `count` values: it is converted and moved into the register of the result, and all registers that stand are
/// finished (C11 6.8.6.4p3).
pub fn return_line<'a>(
    alloc: Global,
    registers: &mut u32,
    line: &mut TreeLine<'a>,
    expr: &'a Expr,
    own: Kind,
    kind: Kind,
    result_register: u32,
    count: u32,
    standing: &Standing,
    word: Place,
) -> Result<(), NoMemory>
    ensures { OnOk result (IsLine (taking (count + 2) (given_moves (trees Void) expr.now registers.old count (registers.old + count) (width own) (conversion own kind)
        result_register standing.now word)) registers.old registers.new line.old line.new) }
{
    let spare = taken(registers, more_than(count, 2)?)?;
    let at = spare + count;
    let change = conversion(own, kind);
    let held = stands_in(change, at, at + 1);
    finish_all(alloc, line, standing, spare, count, held, word)?;
    emits(
        line,
        Instr::Move {
            into: result_register,
            from: held,
        },
        word,
    )?;
    adapts(line, change, at, width(own), at + 1, word)?;
    evaluates(line, expr, spare, at)
}

/// The registers that stand, those of what was let go of, and one more are finished.
fn finish_all(
    alloc: Global,
    line: &mut TreeLine,
    standing: &Standing,
    spare: u32,
    count: u32,
    held: u32,
    word: Place,
) -> Result<(), NoMemory>
    ensures { OnOk result (line.new ≡ Emits (Finish (registers_of standing.now ++ (run_of spare count ++ held ∷ []))) word ∷ line.old) }
{
    let mut registers = List::new(alloc);
    push_registers(&mut registers, standing.registers.as_slice())?;
    push_run(&mut registers, spare, count)?;
    registers.push(held)?;
    emits(line, Instr::Finish { registers }, word)
}

/// Puts the registers that stand behind others.
pub fn push_registers(registers: &mut List<u32>, widths: &[Width]) -> Result<(), NoMemory>
    ensures { OnOk result (registers.new ≡ registers.old ++ map (λ one. one.register) widths.now) }
{
    for one in widths {
        registers.push(one.register)?;
    }
    Ok(())
}
