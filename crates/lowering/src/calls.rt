//! Calls as lines of moves (C11 6.5.2.2, 7.22.3, 7.24).
ghost use Rattle.std.specs.Prelude.{◌≡◌, ◌+◌, ◌<◌, ◌^◌, [], ◌∷◌, ◌++◌, length, IfOk, OnOk, if◌then◌else◌};
ghost use Rattle.c_machine.specs.declared.built_in.BuiltIn.TheVariants.{Malloc, Calloc, Free, Memset, Memcpy, Memmove, Assume, Expect, GivesInput};
ghost use Rattle.c_machine.specs.declared.kind.Kind.TheVariants.{Void};
ghost use Rattle.flow.specs.declared.instruction.Instr.TheVariants.{Call};
ghost use Rattle.lowering.specs.Calls.{IsBuiltInLine, IsLineOfCalled};
ghost use Rattle.lowering.specs.Moves.{Emits, Fails, Stops, taking};
ghost use Rattle.lowering.specs.Reading.{IsCalledLine};
ghost use Rattle.lowering.specs.Table.{argument_moves, registers_from, result_into};
ghost use Rattle.lowering.specs.Told.{IsLine, trees};

use crate::built_ins::{
    allocates, assume_line, copy_line, expect_moves, fill_line, gives, receives, release_line,
    result_into,
};
use crate::called::{Called, called_by};
use crate::line::{TreeLine, converts, emits, fails, stops, taken};
use crate::sizes::{product_as, size_as};
use crate::source::Source;
use crate::statement_lines::run_of;
use c_machine::{BuiltIn, Kind};
use cbase::{Expr, NoMemory, Place};
use flow::Instr;
use std::alloc::Global;

/// The line of a call, where `kept` is the register of its value, if that is used.
///
/// It takes one look-up by hash, and time for the arguments and for what its sizes are made of.
pub fn called<'a>(
    source: &Source,
    registers: &mut u32,
    line: &mut TreeLine<'a>,
    callee: &'a Expr,
    args: &'a [Expr],
    spare: u32,
    kept: Option<u32>,
    into: u32,
) -> Result<(), NoMemory>
    ensures { OnOk result (IsCalledLine source.now callee.now args.now spare kept into registers.old registers.new line.old line.new) }
{
    let called = called_by(source, callee)?;
    called_line(
        source,
        registers,
        line,
        &called,
        args,
        spare,
        kept,
        into,
        callee.place,
    )
}

/// The line of a call of what is called.
fn called_line<'a>(
    source: &Source,
    registers: &mut u32,
    line: &mut TreeLine<'a>,
    called: &Called,
    args: &'a [Expr],
    spare: u32,
    kept: Option<u32>,
    into: u32,
    place: Place,
) -> Result<(), NoMemory>
    ensures { OnOk result (IsLineOfCalled source.now called.now args.now spare kept into place registers.old registers.new line.old line.new) }
{
    match called {
        Called::BuiltIn { what, params, made } => {
            if !gives(*what, params.as_slice(), *made) {
                return fails(line);
            }
            built_in_line(
                source,
                registers,
                line,
                *what,
                args,
                params.as_slice(),
                *made,
                spare,
                kept,
                place,
            )
        }
        Called::Body {
            number,
            params,
            sized,
            made,
        } => {
            if !*sized {
                return fails(line);
            }
            body_line(
                source.alloc(),
                registers,
                line,
                *number,
                args,
                params.as_slice(),
                *made,
                spare,
                into,
                place,
            )
        }
        Called::Nothing => fails(line),
    }
}

/// Arguments, from left to right, each in a register of its own from the first one on (C11 6.5.2.2p4, p7).
fn argument_moves<'a>(
    line: &mut TreeLine<'a>,
    args: &'a [Expr],
    params: &[Kind],
    spare: u32,
    first: u32,
) -> Result<(), NoMemory>
    requires { first + length args.now < 2 ^ 32 }
    ensures { OnOk result (line.new ≡ argument_moves (trees Void) args.now params.now spare first ++ line.old) }
{
    unless_as_many(line, args, params)?;
    let mut left = args.len().min(params.len());
    while left > 0 {
        left -= 1;
        let register = first + left as u32;
        converts(line, &args[left], params[left], spare, register)?;
    }
    Ok(())
}

/// There is no graph where there are more or fewer arguments than parameters.
fn unless_as_many(line: &mut TreeLine, args: &[Expr], params: &[Kind]) -> Result<(), NoMemory>
    ensures alike { length args.now ≡ length params.now → OnOk result (line.new ≡ line.old) }
    ensures apart { (length args.now ≡ length params.now → ⊥) → OnOk result (line.new ≡ Fails ∷ line.old) }
{
    if args.len() == params.len() {
        return Ok(());
    }
    fails(line)
}

/// The registers of arguments.
fn argument_registers(registers: &mut u32, args: &[Expr]) -> Result<u32, NoMemory>
    ensures first { IfOk result (λ first. first ≡ registers.old) }
    ensures taken { OnOk result (registers.new ≡ registers.old + length args.now) }
    ensures fits { IfOk result (λ first. first + length args.now < 2 ^ 32) }
{
    match u32::try_from(args.len()) {
        Ok(count) => taken(registers, count),
        Err(_) => Err(NoMemory),
    }
}

/// A call of the function of that number that the program defines.
fn body_line<'a>(
    alloc: Global,
    registers: &mut u32,
    line: &mut TreeLine<'a>,
    number: u32,
    args: &'a [Expr],
    params: &[Kind],
    made: Kind,
    spare: u32,
    into: u32,
    place: Place,
) -> Result<(), NoMemory>
    ensures { OnOk result (IsLine (taking (length args.now) (argument_moves (trees Void) args.now params.now spare registers.old
        ++ Emits (Call number (registers_from registers.old args.now) (result_into made into)) place ∷ [])) registers.old registers.new line.old line.new) }
{
    let first = argument_registers(registers, args)?;
    let arguments = run_of(alloc, first, args.len() as u32)?;
    emits(
        line,
        Instr::Call {
            function: number,
            arguments,
            into: result_into(made, into),
        },
        place,
    )?;
    argument_moves(line, args, params, spare, first)
}

/// A call that ends the run behind its arguments.
fn ending_line<'a>(
    registers: &mut u32,
    line: &mut TreeLine<'a>,
    args: &'a [Expr],
    params: &[Kind],
    spare: u32,
) -> Result<(), NoMemory>
    ensures { OnOk result (IsLine (taking (length args.now) (argument_moves (trees Void) args.now params.now spare registers.old ++ Stops ∷ []))
        registers.old registers.new line.old line.new) }
{
    let first = argument_registers(registers, args)?;
    stops(line)?;
    argument_moves(line, args, params, spare, first)
}

/// A call of a function that is built in (C11 7.22.3, 7.24).
fn built_in_line<'a>(
    source: &Source,
    registers: &mut u32,
    line: &mut TreeLine<'a>,
    what: BuiltIn,
    args: &'a [Expr],
    params: &[Kind],
    made: Kind,
    spare: u32,
    kept: Option<u32>,
    place: Place,
) -> Result<(), NoMemory>
    ensures { OnOk result (IsBuiltInLine source.now what args.now params.now made spare kept place registers.old registers.new line.old line.new) }
{
    match what {
        BuiltIn::Malloc => malloc_line(
            source, registers, line, args, params, made, spare, kept, place,
        ),
        BuiltIn::Calloc => calloc_line(
            source, registers, line, args, params, made, spare, kept, place,
        ),
        BuiltIn::Free => free_line(
            source, registers, line, args, params, made, spare, kept, place,
        ),
        BuiltIn::Memset => memset_line(
            source, registers, line, args, params, made, spare, kept, place,
        ),
        BuiltIn::Memcpy => moved_line(
            source, registers, line, true, args, params, made, spare, kept, place,
        ),
        BuiltIn::Memmove => moved_line(
            source, registers, line, false, args, params, made, spare, kept, place,
        ),
        BuiltIn::EndsRun => ending_line(registers, line, args, params, spare),
        BuiltIn::Assume => assumed_line(
            source, registers, line, args, params, made, spare, kept, place,
        ),
        BuiltIn::Expect => expect_line(
            source, registers, line, args, params, made, spare, kept, place,
        ),
        BuiltIn::GivesInput => input_line(
            source, registers, line, args, params, made, spare, kept, place,
        ),
    }
}

/// `malloc` (C11 7.22.3.4).
fn malloc_line<'a>(
    source: &Source,
    registers: &mut u32,
    line: &mut TreeLine<'a>,
    args: &'a [Expr],
    params: &[Kind],
    made: Kind,
    spare: u32,
    kept: Option<u32>,
    place: Place,
) -> Result<(), NoMemory>
    ensures { OnOk result (IsBuiltInLine source.now Malloc args.now params.now made spare kept place registers.old registers.new line.old line.new) }
{
    match args {
        [size] => match params {
            [param] => {
                let bytes = size_as(source, size, *param)?;
                allocates(line, kept, bytes, false, place)
            }
            _ => fails(line),
        },
        _ => fails(line),
    }
}

/// `calloc` (C11 7.22.3.2).
fn calloc_line<'a>(
    source: &Source,
    registers: &mut u32,
    line: &mut TreeLine<'a>,
    args: &'a [Expr],
    params: &[Kind],
    made: Kind,
    spare: u32,
    kept: Option<u32>,
    place: Place,
) -> Result<(), NoMemory>
    ensures { OnOk result (IsBuiltInLine source.now Calloc args.now params.now made spare kept place registers.old registers.new line.old line.new) }
{
    match args {
        [count, size] => match params {
            [param, param_behind] => {
                let bytes = product_as(source, count, *param, size, *param_behind)?;
                allocates(line, kept, bytes, true, place)
            }
            _ => fails(line),
        },
        _ => fails(line),
    }
}

/// `free` (C11 7.22.3.3).
fn free_line<'a>(
    source: &Source,
    registers: &mut u32,
    line: &mut TreeLine<'a>,
    args: &'a [Expr],
    params: &[Kind],
    made: Kind,
    spare: u32,
    kept: Option<u32>,
    place: Place,
) -> Result<(), NoMemory>
    ensures { OnOk result (IsBuiltInLine source.now Free args.now params.now made spare kept place registers.old registers.new line.old line.new) }
{
    match args {
        [at] => match params {
            [param] => release_line(registers, line, at, *param, spare, place),
            _ => fails(line),
        },
        _ => fails(line),
    }
}

/// `memset` (C11 7.24.6.1).
fn memset_line<'a>(
    source: &Source,
    registers: &mut u32,
    line: &mut TreeLine<'a>,
    args: &'a [Expr],
    params: &[Kind],
    made: Kind,
    spare: u32,
    kept: Option<u32>,
    place: Place,
) -> Result<(), NoMemory>
    ensures { OnOk result (IsBuiltInLine source.now Memset args.now params.now made spare kept place registers.old registers.new line.old line.new) }
{
    match args {
        [at, byte, count] => match params {
            [param, byte_param, count_param] => {
                let length = size_as(source, count, *count_param)?;
                fill_line(
                    registers,
                    line,
                    at,
                    *param,
                    byte,
                    *byte_param,
                    spare,
                    kept,
                    place,
                    length,
                )
            }
            _ => fails(line),
        },
        _ => fails(line),
    }
}

/// `memcpy` or `memmove` (C11 7.24.2.1, 7.24.2.2).
fn moved_line<'a>(
    source: &Source,
    registers: &mut u32,
    line: &mut TreeLine<'a>,
    disjoint: bool,
    args: &'a [Expr],
    params: &[Kind],
    made: Kind,
    spare: u32,
    kept: Option<u32>,
    place: Place,
) -> Result<(), NoMemory>
    ensures { OnOk result (IsBuiltInLine source.now (if disjoint then Memcpy else Memmove) args.now params.now made spare kept place registers.old registers.new line.old line.new) }
{
    match args {
        [to, from, count] => moved_by_params(
            source, registers, line, disjoint, to, from, count, params, made, spare, kept, place,
        ),
        _ => fails(line),
    }
}

/// The same, with its three arguments.
fn moved_by_params<'a>(
    source: &Source,
    registers: &mut u32,
    line: &mut TreeLine<'a>,
    disjoint: bool,
    to: &'a Expr,
    from: &'a Expr,
    count: &'a Expr,
    params: &[Kind],
    made: Kind,
    spare: u32,
    kept: Option<u32>,
    place: Place,
) -> Result<(), NoMemory>
    ensures { OnOk result (IsBuiltInLine source.now (if disjoint then Memcpy else Memmove) (to.now ∷ from.now ∷ count.now ∷ []) params.now made spare kept place
        registers.old registers.new line.old line.new) }
{
    match params {
        [param, from_param, count_param] => {
            let length = size_as(source, count, *count_param)?;
            copy_line(
                registers,
                line,
                to,
                *param,
                from,
                *from_param,
                spare,
                kept,
                disjoint,
                place,
                length,
            )
        }
        _ => fails(line),
    }
}

/// `__VERIFIER_assume`.
fn assumed_line<'a>(
    source: &Source,
    registers: &mut u32,
    line: &mut TreeLine<'a>,
    args: &'a [Expr],
    params: &[Kind],
    made: Kind,
    spare: u32,
    kept: Option<u32>,
    place: Place,
) -> Result<(), NoMemory>
    ensures { OnOk result (IsBuiltInLine source.now Assume args.now params.now made spare kept place registers.old registers.new line.old line.new) }
{
    match args {
        [arg] => match params {
            [param] => assume_line(registers, line, arg, param, spare, place),
            _ => fails(line),
        },
        _ => fails(line),
    }
}

/// `__builtin_expect`.
fn expect_line<'a>(
    source: &Source,
    registers: &mut u32,
    line: &mut TreeLine<'a>,
    args: &'a [Expr],
    params: &[Kind],
    made: Kind,
    spare: u32,
    kept: Option<u32>,
    place: Place,
) -> Result<(), NoMemory>
    ensures { OnOk result (IsBuiltInLine source.now Expect args.now params.now made spare kept place registers.old registers.new line.old line.new) }
{
    match args {
        [arg, expected] => match params {
            [param, expected_param] => match kept {
                None => fails(line),
                Some(into) => expect_moves(
                    line,
                    arg,
                    *param,
                    expected,
                    *expected_param,
                    spare,
                    into,
                    place,
                ),
            },
            _ => fails(line),
        },
        _ => fails(line),
    }
}

/// A function that gives a value from outside.
fn input_line<'a>(
    source: &Source,
    registers: &mut u32,
    line: &mut TreeLine<'a>,
    args: &'a [Expr],
    params: &[Kind],
    made: Kind,
    spare: u32,
    kept: Option<u32>,
    place: Place,
) -> Result<(), NoMemory>
    ensures { OnOk result (IsBuiltInLine source.now GivesInput args.now params.now made spare kept place registers.old registers.new line.old line.new) }
{
    match args {
        [] => match params {
            [] => receives(line, kept, made, place),
            _ => fails(line),
        },
        _ => fails(line),
    }
}
