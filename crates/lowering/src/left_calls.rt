//! What stands directly in a call: how many registers it leaves that hold what it let go of.
ghost use Rattle.std.specs.Prelude.{◌≡◌, [], ◌∷◌, false, IfSome, OnOk};
ghost use Rattle.c_machine.specs.declared.built_in.BuiltIn.TheVariants.{Expect, Memset};
ghost use Rattle.lowering.specs.LetGo.{behind_spare};
ghost use Rattle.lowering.specs.Lefts.{IsAdded, Arguments, OfBuiltIn, OfCall, OfCalled};

use crate::called::{Called, called_by};
use crate::left::{Search, add_as, add_nothing};
use crate::source::Source;
use c_machine::{BuiltIn, Kind};
use cbase::{Expr, NoMemory};

/// Adds a call.
pub fn add_call<'a>(
    source: &Source,
    search: &mut Search<'a>,
    levels: u64,
    ahead: u32,
    callee: &'a Expr,
    args: &'a [Expr],
    in_spare: bool,
) -> Result<(), NoMemory>
    ensures { OnOk result (IsAdded source.now levels ahead (OfCall callee.now args.now in_spare) search.old search.new) }
{
    let called = called_by(source, callee)?;
    add_called(source, search, levels, ahead, &called, args, in_spare)
}

/// Adds a call of what is called.
pub fn add_called<'a>(
    source: &Source,
    search: &mut Search<'a>,
    levels: u64,
    ahead: u32,
    called: &Called,
    args: &'a [Expr],
    in_spare: bool,
) -> Result<(), NoMemory>
    ensures { OnOk result (IsAdded source.now levels ahead (OfCalled called.now args.now in_spare) search.old search.new) }
{
    match called {
        Called::BuiltIn { what, params, .. } => add_built_in(
            source,
            search,
            levels,
            ahead,
            *what,
            args,
            params.as_slice(),
            in_spare,
        ),
        Called::Body { params, .. } => add_arguments(
            source,
            search,
            levels,
            ahead,
            args,
            params.as_slice(),
        ),
        Called::Nothing => {
            add_nothing(search, ahead);
            Ok(())
        }
    }
}

/// Adds a call of a function that is built in.
pub fn add_built_in<'a>(
    source: &Source,
    search: &mut Search<'a>,
    levels: u64,
    ahead: u32,
    what: BuiltIn,
    args: &'a [Expr],
    params: &[Kind],
    in_spare: bool,
) -> Result<(), NoMemory>
    ensures { OnOk result (IsAdded source.now levels ahead (OfBuiltIn what args.now params.now in_spare) search.old search.new) }
{
    match what {
        BuiltIn::Malloc => {
            add_nothing(search, ahead);
            Ok(())
        }
        BuiltIn::Calloc => {
            add_nothing(search, ahead);
            Ok(())
        }
        BuiltIn::Expect => match args {
            [arg, expected] => match params {
                [param, param_behind] => add_expected(
                    source,
                    search,
                    levels,
                    ahead,
                    arg,
                    param,
                    expected,
                    param_behind,
                    in_spare,
                ),
                _ => add_arguments(source, search, levels, ahead, args, params),
            },
            _ => add_arguments(source, search, levels, ahead, args, params),
        },
        BuiltIn::Memset => add_two_arguments(source, search, levels, ahead, args, params),
        BuiltIn::Memcpy => add_two_arguments(source, search, levels, ahead, args, params),
        BuiltIn::Memmove => add_two_arguments(source, search, levels, ahead, args, params),
        _ => add_arguments(source, search, levels, ahead, args, params),
    }
}

/// Adds the first two of the arguments of a store.
pub fn add_two_arguments<'a>(
    source: &Source,
    search: &mut Search<'a>,
    levels: u64,
    ahead: u32,
    args: &'a [Expr],
    params: &[Kind],
) -> Result<(), NoMemory>
    ensures { OnOk result (IsAdded source.now levels ahead (OfBuiltIn Memset args.now params.now false) search.old search.new) }
{
    match args {
        [one, other, ..] => match params {
            [param, param_behind, ..] => {
                add_as(source, search, levels, ahead, one, false, param)?;
                add_as(source, search, levels, ahead, other, false, param_behind)
            }
            _ => add_arguments(source, search, levels, ahead, args, params),
        },
        _ => add_arguments(source, search, levels, ahead, args, params),
    }
}

/// Adds a call of `__builtin_expect`: its second argument is let go of, behind the spare register where the first one is there.
pub fn add_expected<'a>(
    source: &Source,
    search: &mut Search<'a>,
    levels: u64,
    ahead: u32,
    arg: &'a Expr,
    param: &Kind,
    expected: &'a Expr,
    param_behind: &Kind,
    in_spare: bool,
) -> Result<(), NoMemory>
    ensures { OnOk result (IsAdded source.now levels ahead (OfBuiltIn Expect (arg.now ∷ expected.now ∷ []) (param.now ∷ param_behind.now ∷ []) in_spare) search.old search.new) }
{
    let behind = match behind_spare(in_spare, ahead) {
        None => return Err(NoMemory),
        Some(behind) => behind,
    };
    let least = match behind.checked_add(1) {
        None => return Err(NoMemory),
        Some(least) => least,
    };
    add_nothing(search, least);
    add_as(source, search, levels, ahead, arg, in_spare, param)?;
    add_as(source, search, levels, behind, expected, true, param_behind)
}

/// So many registers, and one more where a value stands in the spare one.
fn behind_spare(in_spare: bool, count: u32) -> Option<u32>
    ensures { IfSome result (λ behind. behind ≡ behind_spare in_spare count) }
{
    if in_spare {
        count.checked_add(1)
    } else {
        Some(count)
    }
}

/// Adds arguments of parameters of these kinds.
pub fn add_arguments<'a>(
    source: &Source,
    search: &mut Search<'a>,
    levels: u64,
    ahead: u32,
    args: &'a [Expr],
    params: &[Kind],
) -> Result<(), NoMemory>
    ensures { OnOk result (IsAdded source.now levels ahead (Arguments args.now params.now) search.old search.new) }
{
    add_nothing(search, ahead);
    let mut left = args.len().min(params.len());
    while left > 0 {
        left -= 1;
        add_as(
            source,
            search,
            levels,
            ahead,
            &args[left],
            false,
            &params[left],
        )?;
    }
    Ok(())
}
