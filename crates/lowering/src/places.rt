//! The addresses of lvalues, a line of moves each (C11 6.3.2.1, 6.5.2.1, 6.5.2.3, 6.5.3.2).
ghost use Rattle.std.specs.Prelude.{◌≡◌, ◌+◌, [], ◌∷◌, ◌++◌, OnOk};
ghost use Rattle.cbase.specs.declared.tree.operators.BinaryOp.TheVariants.{Add};
ghost use Rattle.lowering.specs.Kinds.{made_by};
ghost use Rattle.lowering.specs.Moves.{Evaluates, Locates, operates, taking};
ghost use Rattle.lowering.specs.Table.{addressed, shifted_in, shifts};
ghost use Rattle.lowering.specs.Told.{IsLine};

use crate::kinds::{is_address, made_by};
use crate::line::{TreeLine, evaluates, fails, locates, shifted_in, shifts, taken};
use crate::unary::operation_line;
use c_machine::Kind;
use cbase::{BinaryOp, Expr, NoMemory, Place};

/// What a pointer of a kind leads to: the address is its value.
pub fn followed_line<'a>(
    registers: &mut u32,
    line: &mut TreeLine<'a>,
    arg: &'a Expr,
    kind: Kind,
    spare: u32,
    into: u32,
) -> Result<(), NoMemory>
    ensures { OnOk result (IsLine (addressed kind 0 (Evaluates arg.now spare into ∷ [])) registers.old registers.new line.old line.new) }
{
    if !is_address(kind) {
        return fails(line);
    }
    evaluates(line, arg, spare, into)
}

/// An item of an array: `a[i]` is at `a + i`.
pub fn indexed_line<'a>(
    registers: &mut u32,
    line: &mut TreeLine<'a>,
    expr: &'a Expr,
    base: &'a Expr,
    index: &'a Expr,
    base_kind: &Kind,
    index_kind: &Kind,
    spare: u32,
    into: u32,
) -> Result<(), NoMemory>
    ensures { OnOk result (IsLine (addressed (made_by Add base_kind.now index_kind.now) 4 (Evaluates base.now spare registers.old ∷ Evaluates index.now spare (registers.old + 1)
        ∷ operates Add base_kind.now index_kind.now registers.old (registers.old + 1) (registers.old + 2) (registers.old + 3) into expr.now.place))
        registers.old registers.new line.old line.new) }
{
    if !is_address(made_by(BinaryOp::Add, *base_kind, *index_kind)) {
        return fails(line);
    }
    operation_line(
        registers,
        line,
        expr,
        BinaryOp::Add,
        base,
        index,
        base_kind,
        index_kind,
        spare,
        into,
    )
}

/// A member of a struct, behind so many bytes.
pub fn member_line<'a>(
    registers: &mut u32,
    line: &mut TreeLine<'a>,
    place: Place,
    base: &'a Expr,
    bytes: u64,
    spare: u32,
    into: u32,
) -> Result<(), NoMemory>
    ensures { OnOk result (IsLine (taking 1 (Locates base.now spare (shifted_in bytes registers.old into) ∷ shifts registers.old into bytes place))
        registers.old registers.new line.old line.new) }
{
    let first = taken(registers, 1)?;
    shifts(line, first, into, bytes, place)?;
    locates(line, base, spare, shifted_in(bytes, first, into))
}

/// A member of the struct to which a pointer of a kind leads, behind so many bytes.
pub fn pointed_line<'a>(
    registers: &mut u32,
    line: &mut TreeLine<'a>,
    place: Place,
    base: &'a Expr,
    kind: Kind,
    bytes: u64,
    spare: u32,
    into: u32,
) -> Result<(), NoMemory>
    ensures { OnOk result (IsLine (addressed kind 1 (Evaluates base.now spare (shifted_in bytes registers.old into) ∷ shifts registers.old into bytes place))
        registers.old registers.new line.old line.new) }
{
    if !is_address(kind) {
        return fails(line);
    }
    let first = taken(registers, 1)?;
    shifts(line, first, into, bytes, place)?;
    evaluates(line, base, spare, shifted_in(bytes, first, into))
}
