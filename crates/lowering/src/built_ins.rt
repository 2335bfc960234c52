//! Calls of functions that are built in, as lines of moves (C11 7.22.3, 7.24). Sizes and lengths are constants of their instructions.
ghost use Rattle.std.specs.Prelude.{◌≡◌, ◌+◌, [], ◌∷◌, ◌++◌, IfOk, OnOk, Some};
ghost use Rattle.c_machine.specs.declared.built_in.BuiltIn.TheVariants.{Memset};
ghost use Rattle.c_machine.specs.declared.kind.Kind.TheVariants.{Void};
ghost use Rattle.flow.specs.declared.instruction.Instr.TheVariants.{IfDifferent, Number, Release};
ghost use Rattle.lowering.specs.Kinds.{width};
ghost use Rattle.lowering.specs.Moves.{Converts, Emits, taking};
ghost use Rattle.lowering.specs.Table.{allocates, beside, copy_moves, expect_moves, fill_moves, gives, have_values, receives, result_into};
ghost use Rattle.lowering.specs.Told.{IsLine, trees};

use crate::kinds::{fits, is_address, is_void, width};
use crate::line::{TreeLine, converts, emits, fails, keeps, taken};
use crate::moves::Move;
use c_machine::{BuiltIn, Kind};
use cbase::{Expr, NoMemory, Place};
use flow::Instr;

/// An allocation of so many bytes, if they are known, whose address is wanted: it may fail (C11 7.22.3p1).
pub fn allocates(
    line: &mut TreeLine,
    kept: Option<u32>,
    bytes: Option<u32>,
    zeroed: bool,
    place: Place,
) -> Result<(), NoMemory>
    ensures { OnOk result (line.new ≡ allocates kept bytes zeroed place ++ line.old) }
{
    match (kept, bytes) {
        (Some(into), Some(bytes)) => line.push(Move::Pairs {
            one: Instr::Allocate {
                into,
                bytes,
                zeroed,
            },
            other: Instr::AllocateNone { into },
            place,
        }),
        _ => fails(line),
    }
}

/// `free` (C11 7.22.3.3).
pub fn release_line<'a>(
    registers: &mut u32,
    line: &mut TreeLine<'a>,
    at: &'a Expr,
    kind: Kind,
    spare: u32,
    place: Place,
) -> Result<(), NoMemory>
    ensures { OnOk result (IsLine (taking 1 (Converts at.now kind spare registers.old ∷ Emits (Release registers.old) place ∷ [])) registers.old registers.new line.old line.new) }
{
    let first = taken(registers, 1)?;
    emits(line, Instr::Release { at: first }, place)?;
    converts(line, at, kind, spare, first)
}

/// `memset` of so many bytes, if they are known (C11 7.24.6.1).
pub fn fill_line<'a>(
    registers: &mut u32,
    line: &mut TreeLine<'a>,
    at: &'a Expr,
    kind: Kind,
    byte: &'a Expr,
    byte_kind: Kind,
    spare: u32,
    kept: Option<u32>,
    place: Place,
    count: Option<u32>,
) -> Result<(), NoMemory>
    ensures { OnOk result (IsLine (taking 2 (fill_moves (trees Void) at.now kind byte.now byte_kind spare kept registers.old place count)) registers.old registers.new line.old line.new) }
{
    let first = taken(registers, 2)?;
    match count {
        None => fails(line),
        Some(length) => {
            emits(
                line,
                Instr::Fill {
                    at: first,
                    from: first + 1,
                    length,
                },
                place,
            )?;
            keeps(line, kept, first, place)?;
            converts(line, byte, byte_kind, spare, first + 1)?;
            converts(line, at, kind, spare, first)
        }
    }
}

/// `memcpy` and `memmove` of so many bytes, if they are known (C11 7.24.2.1, 7.24.2.2).
pub fn copy_line<'a>(
    registers: &mut u32,
    line: &mut TreeLine<'a>,
    to: &'a Expr,
    kind: Kind,
    from: &'a Expr,
    from_kind: Kind,
    spare: u32,
    kept: Option<u32>,
    disjoint: bool,
    place: Place,
    count: Option<u32>,
) -> Result<(), NoMemory>
    ensures { OnOk result (IsLine (taking 2 (copy_moves (trees Void) to.now kind from.now from_kind spare kept registers.old disjoint place count)) registers.old registers.new line.old line.new) }
{
    let first = taken(registers, 2)?;
    match count {
        None => fails(line),
        Some(length) => {
            emits(
                line,
                Instr::Copy {
                    to: first,
                    from: first + 1,
                    length,
                    disjoint,
                },
                place,
            )?;
            keeps(line, kept, first, place)?;
            converts(line, from, from_kind, spare, first + 1)?;
            converts(line, to, kind, spare, first)
        }
    }
}

/// `__VERIFIER_assume`: the run goes on only where its argument is not 0.
pub fn assume_line<'a>(
    registers: &mut u32,
    line: &mut TreeLine<'a>,
    arg: &'a Expr,
    kind: &Kind,
    spare: u32,
    place: Place,
) -> Result<(), NoMemory>
    ensures { OnOk result (IsLine (taking 2 (Converts arg.now kind.now spare registers.old ∷ Emits (Number (registers.old + 1) 0 (width kind.now)) place
        ∷ Emits (IfDifferent registers.old (registers.old + 1)) place ∷ [])) registers.old registers.new line.old line.new) }
{
    let first = taken(registers, 2)?;
    emits(
        line,
        Instr::IfDifferent {
            left: first,
            right: first + 1,
        },
        place,
    )?;
    emits(
        line,
        Instr::Number {
            into: first + 1,
            value: 0,
            size: width(*kind),
        },
        place,
    )?;
    converts(line, arg, *kind, spare, first)
}

/// The register of the second argument of `__builtin_expect`, which is let go of: the spare one, or the one behind it where the first argument is there.
fn beside(into: u32, spare: u32) -> Result<u32, NoMemory>
    ensures { IfOk result (λ other. other ≡ beside into spare) }
{
    if into != spare {
        return Ok(spare);
    }
    match spare.checked_add(1) {
        None => Err(NoMemory),
        Some(next) => Ok(next),
    }
}

/// `__builtin_expect`.
pub fn expect_moves<'a>(
    line: &mut TreeLine<'a>,
    arg: &'a Expr,
    kind: Kind,
    expected: &'a Expr,
    expected_kind: Kind,
    spare: u32,
    into: u32,
    place: Place,
) -> Result<(), NoMemory>
    ensures { OnOk result (line.new ≡ expect_moves (trees Void) arg.now kind expected.now expected_kind spare into (beside into spare) place ++ line.old) }
{
    let other = beside(into, spare)?;
    emits(
        line,
        Instr::Number {
            into: other,
            value: 0,
            size: 8,
        },
        place,
    )?;
    converts(line, expected, expected_kind, other, other)?;
    converts(line, arg, kind, spare, into)
}

/// A value from outside, of a kind, that is wanted.
pub fn receives(
    line: &mut TreeLine,
    kept: Option<u32>,
    kind: Kind,
    place: Place,
) -> Result<(), NoMemory>
    ensures { OnOk result (line.new ≡ receives kept kind place ++ line.old) }
{
    match kept {
        None => fails(line),
        Some(into) => received_into(line, into, kind, place),
    }
}

/// A value from outside, of a kind, into a register.
fn received_into(line: &mut TreeLine, into: u32, kind: Kind, place: Place) -> Result<(), NoMemory>
    ensures { OnOk result (line.new ≡ receives (Some into) kind place ++ line.old) }
{
    match kind {
        Kind::Integer(of) => {
            let of = of.get();
            emits(
                line,
                Instr::Input {
                    into,
                    size: of.bytes,
                    signed: of.signed,
                    truth: of.truth,
                },
                place,
            )
        }
        Kind::Pointer(_) => emits(
            line,
            Instr::Input {
                into,
                size: 8,
                signed: false,
                truth: false,
            },
            place,
        ),
        _ => fails(line),
    }
}

/// The register of a result of a kind: there is one exactly where there is a result.
pub fn result_into(kind: Kind, into: u32) -> Option<u32>
    ensures { result ≡ result_into kind into }
{
    match kind {
        Kind::Void => None,
        _ => Some(into),
    }
}

/// Whether each of these parameters has a value.
fn have_values(params: &[Kind]) -> bool
    ensures { result ≡ have_values params.now }
{
    params.iter().all(|param| !is_void(*param))
}

/// Whether the result of a built-in function is of the kind of what it makes, and its parameters have values.
pub fn gives(what: BuiltIn, params: &[Kind], result_kind: Kind) -> bool
    ensures { result ≡ gives what params.now result_kind }
{
    match what {
        BuiltIn::Malloc | BuiltIn::Calloc => is_address(result_kind),
        BuiltIn::Free | BuiltIn::Assume => {
            if have_values(params) {
                is_void(result_kind)
            } else {
                false
            }
        }
        BuiltIn::Memset | BuiltIn::Memcpy | BuiltIn::Memmove => gives_address(params, result_kind),
        BuiltIn::EndsRun | BuiltIn::GivesInput => true,
        BuiltIn::Expect => match params {
            [] => false,
            [param, ..] => fits(*param, result_kind),
        },
    }
}

/// Whether a function that is to answer its first argument does.
fn gives_address(params: &[Kind], result_kind: Kind) -> bool
    ensures { result ≡ gives Memset params.now result_kind }
{
    match params {
        [] => false,
        [param, ..] => {
            if !is_address(*param) {
                return false;
            }
            if have_values(params) {
                is_address(result_kind)
            } else {
                false
            }
        }
    }
}
