//! Moves in front of others, and registers of a form's own.
ghost use Rattle.std.specs.Prelude.{◌≡◌, ◌+◌, ◌<◌, ◌^◌, ◌∷◌, ◌++◌, IfOk, OnOk};
ghost use Rattle.lowering.specs.Moves.{Emits, Pairs, Parts, Evaluates, Converts, Answers, Tells, Locates, Works, Stops, Fails, resizes, adapts, stands_in, zeros, pads};
ghost use Rattle.lowering.specs.Table.{keeps, keeps_zero, shifts, shifted_in, copies, object_moves};

use crate::conversion::Conversion;
use crate::moves::Move;
use c_machine::Kind;
use c_steps::{Stack, Tree};
use cbase::{Expr, Init, NoMemory, Place, Stmt};
use flow::Instr;

/// A move whose trees are those of the program.
pub type TreeMove<'a> = Move<Tree<'a, Expr>, Tree<'a, Stmt>, Tree<'a, Init>>;

/// Moves that are still to be placed, the next one first.
pub type TreeLine<'a> = Stack<TreeMove<'a>>;

/// Takes so many registers more. It answers the number of the first one; where there are more than can be numbered, memory is wanting.
pub fn taken(registers: &mut u32, count: u32) -> Result<u32, NoMemory>
    ensures first { IfOk result (λ first. first ≡ registers.old) }
    ensures taken { OnOk result (registers.new ≡ registers.old + count) }
    ensures fits { IfOk result (λ first. first + count < 2 ^ 32) }
{
    let first = *registers;
    match first.checked_add(count) {
        None => Err(NoMemory),
        Some(next) => {
            *registers = next;
            Ok(first)
        }
    }
}

/// An edge.
pub fn emits<'a>(line: &mut TreeLine<'a>, instr: Instr, place: Place) -> Result<(), NoMemory>
    ensures { OnOk result (line.new ≡ Emits instr place ∷ line.old) }
{
    line.push(Move::Emits { instr, place })
}

/// The value of an expression.
pub fn evaluates<'a>(
    line: &mut TreeLine<'a>,
    expr: &'a Expr,
    spare: u32,
    into: u32,
) -> Result<(), NoMemory>
    ensures { OnOk result (line.new ≡ Evaluates expr.now spare into ∷ line.old) }
{
    line.push(Move::Evaluates {
        expr: Tree::of(expr),
        spare,
        into,
    })
}

/// The value of an expression as one of a kind.
pub fn converts<'a>(
    line: &mut TreeLine<'a>,
    expr: &'a Expr,
    kind: Kind,
    spare: u32,
    into: u32,
) -> Result<(), NoMemory>
    ensures { OnOk result (line.new ≡ Converts expr.now kind spare into ∷ line.old) }
{
    line.push(Move::Converts {
        expr: Tree::of(expr),
        kind,
        spare,
        into,
    })
}

/// Whether a condition holds.
pub fn answers<'a>(
    line: &mut TreeLine<'a>,
    expr: &'a Expr,
    spare: u32,
    into: u32,
    size: u8,
) -> Result<(), NoMemory>
    ensures { OnOk result (line.new ≡ Answers expr.now spare into size ∷ line.old) }
{
    line.push(Move::Answers {
        expr: Tree::of(expr),
        spare,
        into,
        size,
    })
}

/// The address of an lvalue.
pub fn locates<'a>(
    line: &mut TreeLine<'a>,
    expr: &'a Expr,
    spare: u32,
    into: u32,
) -> Result<(), NoMemory>
    ensures { OnOk result (line.new ≡ Locates expr.now spare into ∷ line.old) }
{
    line.push(Move::Locates {
        expr: Tree::of(expr),
        spare,
        into,
    })
}

/// An expression whose value is not used.
pub fn works<'a>(line: &mut TreeLine<'a>, expr: &'a Expr, spare: u32) -> Result<(), NoMemory>
    ensures { OnOk result (line.new ≡ Works expr.now spare ∷ line.old) }
{
    line.push(Move::Works {
        expr: Tree::of(expr),
        spare,
    })
}

/// The run ends.
pub fn stops(line: &mut TreeLine) -> Result<(), NoMemory>
    ensures { OnOk result (line.new ≡ Stops ∷ line.old) }
{
    line.push(Move::Stops)
}

/// There is no graph.
pub fn fails(line: &mut TreeLine) -> Result<(), NoMemory>
    ensures { OnOk result (line.new ≡ Fails ∷ line.old) }
{
    line.push(Move::Fails)
}

/// A conversion of what a register holds, if it is an edge.
pub fn resizes(
    line: &mut TreeLine,
    change: Conversion,
    from: u32,
    into: u32,
    place: Place,
) -> Result<(), NoMemory>
    ensures { OnOk result (line.new ≡ resizes change from into place ++ line.old) }
{
    match change {
        Conversion::Nothing => Ok(()),
        Conversion::Resized { bytes, signed } => emits(
            line,
            Instr::Convert {
                into,
                from,
                size: bytes,
                signed,
            },
            place,
        ),
        Conversion::Tested | Conversion::Dropped | Conversion::Unknown => fails(line),
    }
}

/// The same where the value may become a `_Bool`.
pub fn adapts(
    line: &mut TreeLine,
    change: Conversion,
    from: u32,
    size: u8,
    into: u32,
    place: Place,
) -> Result<(), NoMemory>
    ensures { OnOk result (line.new ≡ adapts change from size into place ++ line.old) }
{
    match change {
        Conversion::Tested => line.push(Move::Tells {
            register: from,
            size,
            into,
            place,
        }),
        _ => resizes(line, change, from, into, place),
    }
}

/// Where the value stands behind a conversion.
pub fn stands_in(change: Conversion, from: u32, into: u32) -> u32
    ensures { result ≡ stands_in change from into }
{
    match change {
        Conversion::Nothing => from,
        _ => into,
    }
}

/// A value that is used, too, is moved to a register that keeps it.
pub fn keeps(
    line: &mut TreeLine,
    kept: Option<u32>,
    from: u32,
    place: Place,
) -> Result<(), NoMemory>
    ensures { OnOk result (line.new ≡ keeps kept from place ++ line.old) }
{
    match kept {
        None => Ok(()),
        Some(into) => emits(line, Instr::Move { into, from }, place),
    }
}

/// An address moved by a constant, if it is.
pub fn shifts(
    line: &mut TreeLine,
    from: u32,
    into: u32,
    bytes: u64,
    place: Place,
) -> Result<(), NoMemory>
    ensures { OnOk result (line.new ≡ shifts from into bytes place ++ line.old) }
{
    if bytes == 0 {
        return Ok(());
    }
    match i64::try_from(bytes) {
        Ok(by) => emits(line, Instr::Shift { into, at: from, by }, place),
        Err(_) => Err(NoMemory),
    }
}

/// Where an address stands that may be moved.
pub fn shifted_in(bytes: u64, from: u32, into: u32) -> u32
    ensures { result ≡ shifted_in bytes from into }
{
    if bytes == 0 { into } else { from }
}

/// The address of an object, if it has a variable.
pub fn object_moves(
    line: &mut TreeLine,
    found: Option<u32>,
    place: Place,
    into: u32,
) -> Result<(), NoMemory>
    ensures { OnOk result (line.new ≡ object_moves found place into ++ line.old) }
{
    match found {
        None => fails(line),
        Some(variable) => emits(line, Instr::Address { into, variable }, place),
    }
}

/// A copy of so many bytes, if they are no more than an object may have.
pub fn copies(
    line: &mut TreeLine,
    to: u32,
    from: u32,
    bytes: u64,
    disjoint: bool,
    place: Place,
) -> Result<(), NoMemory>
    ensures { OnOk result (line.new ≡ copies to from bytes disjoint place ++ line.old) }
{
    match u32::try_from(bytes) {
        Ok(length) if length <= 65536 => emits(
            line,
            Instr::Copy {
                to,
                from,
                length,
                disjoint,
            },
            place,
        ),
        _ => fails(line),
    }
}

/// The 0 that stands behind the assignment of a struct, where its value is used.
pub fn keeps_zero(line: &mut TreeLine, kept: Option<u32>, place: Place) -> Result<(), NoMemory>
    ensures { OnOk result (line.new ≡ keeps_zero kept place ++ line.old) }
{
    match kept {
        None => Ok(()),
        Some(into) => emits(
            line,
            Instr::Number {
                into,
                value: 0,
                size: 8,
            },
            place,
        ),
    }
}
