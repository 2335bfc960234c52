//! The values of lvalues and constants, a line of moves each (C11 6.4.4, 6.3.2.1).
ghost use Rattle.std.specs.Prelude.{◌≡◌, OnOk};
ghost use Rattle.c_machine.specs.Words.{scalar_bytes};
ghost use Rattle.lowering.specs.Table.{load_line};
ghost use Rattle.lowering.specs.Told.{IsLine, trees};

use crate::line::{TreeLine, emits, locates, taken};
use c_machine::Kind;
use c_steps::words::{is_pointer, scalar_bytes};
use cbase::{Expr, NoMemory};
use flow::Instr;

/// The value of an lvalue of a type: one load at its place; an array and a struct have none (C11 6.3.2.1p2, p3).
pub fn load_line<'a>(
    registers: &mut u32,
    line: &mut TreeLine<'a>,
    expr: &'a Expr,
    kind: &Kind,
    spare: u32,
    into: u32,
) -> Result<(), NoMemory>
    ensures { OnOk result (IsLine (load_line (trees kind.now) expr.now spare into registers.old (scalar_bytes kind.now)) registers.old registers.new line.old line.new) }
{
    match scalar_bytes(*kind) {
        None => locates(line, expr, spare, into),
        Some(size) => {
            let at = taken(registers, 1)?;
            let pointer = is_pointer(*kind);
            emits(
                line,
                Instr::Read {
                    into,
                    at,
                    size,
                    pointer,
                },
                expr.place,
            )?;
            locates(line, expr, spare, at)
        }
    }
}
