//! Values that become one of a kind, or that are let go of, as lines of moves (C11 6.3).
ghost use Rattle.std.specs.Prelude.{◌≡◌, ◌++◌, OnOk};
ghost use Rattle.c_machine.specs.declared.kind.Kind.TheVariants.{Void};
ghost use Rattle.lowering.specs.Table.{converted_line, dropped_line};
ghost use Rattle.lowering.specs.Told.{IsLine, trees};

use crate::conversion::Conversion;
use crate::line::{TreeLine, answers, emits, evaluates, fails, taken, works};
use cbase::{Expr, NoMemory};
use flow::Instr;

/// A value behind a conversion: one that becomes a `_Bool` is a condition.
pub fn converted_line<'a>(
    registers: &mut u32,
    line: &mut TreeLine<'a>,
    expr: &'a Expr,
    change: Conversion,
    spare: u32,
    into: u32,
) -> Result<(), NoMemory>
    ensures { OnOk result (IsLine (converted_line (trees Void) expr.now spare into registers.old change) registers.old registers.new line.old line.new) }
{
    match change {
        Conversion::Nothing => evaluates(line, expr, spare, into),
        Conversion::Resized { bytes, signed } => {
            let from = taken(registers, 1)?;
            emits(
                line,
                Instr::Convert {
                    into,
                    from,
                    size: bytes,
                    signed,
                },
                expr.place,
            )?;
            evaluates(line, expr, spare, from)
        }
        Conversion::Tested => answers(line, expr, spare, into, 1),
        Conversion::Dropped => works(line, expr, spare),
        Conversion::Unknown => fails(line),
    }
}

/// A value that is not used: it is put into the spare register, and 0 over it.
pub fn dropped_line<'a>(line: &mut TreeLine<'a>, expr: &'a Expr, spare: u32) -> Result<(), NoMemory>
    ensures { OnOk result (line.new ≡ (dropped_line (trees Void) expr.now spare).moves ++ line.old) }
{
    emits(
        line,
        Instr::Number {
            into: spare,
            value: 0,
            size: 8,
        },
        expr.place,
    )?;
    evaluates(line, expr, spare, spare)
}
