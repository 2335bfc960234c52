//! What stands directly in an expression whose value is wanted: how many registers it leaves that hold what it let go of.
ghost use Rattle.std.specs.Prelude.{◌≡◌, OnOk};
ghost use Rattle.cbase.specs.declared.tree.operators.UnaryOp.TheVariants.{Plus};
ghost use Rattle.c_machine.specs.Text.{Assign, Cast, Choose, Unary};
ghost use Rattle.lowering.specs.LetGo.{in_spare_still};
ghost use Rattle.lowering.specs.Lefts.{IsAdded, Loaded, OfValue, Stored, TwoSides};
ghost use Rattle.lowering.specs.Reading.{form_in};

use crate::conversion::Conversion;
use crate::form::TreeForm;
use crate::kinds::as_operand;
use crate::left::{
    Search, add_as, add_nothing, add_place_apart, add_sides, add_value_apart, add_whole,
};
use crate::left_calls::add_call;
use crate::source::{Source, kind, value_kind};
use crate::wanted::Wanted;
use c_machine::Kind;
use c_steps::words::scalar_bytes;
use cbase::{BinaryOp, Expr, NoMemory, UnaryOp};

/// Adds what stands directly in an expression whose value is wanted.
pub fn add_value<'a>(
    source: &Source,
    search: &mut Search<'a>,
    levels: u64,
    ahead: u32,
    expr: &'a Expr,
    in_spare: bool,
    form: &TreeForm<'a>,
) -> Result<(), NoMemory>
    ensures { OnOk result (IsAdded source.now levels ahead (OfValue expr.now in_spare (form_in form.now)) search.old search.new) }
{
    match form {
        TreeForm::Name => {
            add_nothing(search, ahead);
            Ok(())
        }
        TreeForm::Known(_) => {
            add_nothing(search, ahead);
            Ok(())
        }
        TreeForm::Unary { op, arg } => add_unary(
            source,
            search,
            levels,
            ahead,
            expr,
            *op,
            arg.get(),
            in_spare,
        ),
        TreeForm::Binary { op, left, right } => add_binary(
            source,
            search,
            levels,
            ahead,
            expr,
            *op,
            left.get(),
            right.get(),
            in_spare,
        ),
        TreeForm::Assign { op, left, right } => add_assigned(
            source,
            search,
            levels,
            ahead,
            expr,
            *op,
            left.get(),
            right.get(),
            in_spare,
        ),
        TreeForm::Count { arg, .. } => add_place_apart(source, search, levels, ahead, arg.get()),
        TreeForm::Choose { test, one, other } => add_choice(
            source,
            search,
            levels,
            ahead,
            expr,
            test.get(),
            one.get(),
            other.get(),
            in_spare,
        ),
        TreeForm::Cast(arg) => add_cast(source, search, levels, ahead, expr, arg.get(), in_spare),
        TreeForm::Index { .. } => add_loaded(source, search, levels, ahead, expr, in_spare),
        TreeForm::Member { .. } => add_loaded(source, search, levels, ahead, expr, in_spare),
        TreeForm::Call { callee, args } => add_call(
            source,
            search,
            levels,
            ahead,
            callee.get(),
            args.get().as_slice(),
            in_spare,
        ),
        TreeForm::Inner { .. } => {
            add_nothing(search, ahead);
            Ok(())
        }
        TreeForm::AssertFail => {
            add_nothing(search, ahead);
            Ok(())
        }
    }
}

/// Adds an lvalue that is loaded, whose address has a register of its own, or of which only the address is wanted.
pub fn add_loaded<'a>(
    source: &Source,
    search: &mut Search<'a>,
    levels: u64,
    ahead: u32,
    expr: &'a Expr,
    in_spare: bool,
) -> Result<(), NoMemory>
    ensures { OnOk result (IsAdded source.now levels ahead (Loaded expr.now in_spare) search.old search.new) }
{
    let own = kind(source, expr)?;
    match scalar_bytes(own) {
        None => add_whole(
            source,
            search,
            levels,
            ahead,
            Wanted::AsPlace { in_spare },
            expr,
        ),
        Some(_) => add_place_apart(source, search, levels, ahead, expr),
    }
}

/// Adds the value of a unary operator.
pub fn add_unary<'a>(
    source: &Source,
    search: &mut Search<'a>,
    levels: u64,
    ahead: u32,
    expr: &'a Expr,
    op: UnaryOp,
    arg: &'a Expr,
    in_spare: bool,
) -> Result<(), NoMemory>
    ensures { OnOk result (IsAdded source.now levels ahead (OfValue expr.now in_spare (Unary op arg.now)) search.old search.new) }
{
    match op {
        UnaryOp::Address => add_whole(
            source,
            search,
            levels,
            ahead,
            Wanted::AsPlace { in_spare },
            arg,
        ),
        UnaryOp::Follow => add_loaded(source, search, levels, ahead, expr, in_spare),
        UnaryOp::Not => add_whole(source, search, levels, ahead, Wanted::AsTest, expr),
        UnaryOp::Plus => {
            let own = value_kind(source, arg)?;
            let in_spare = in_spare_still(own, in_spare);
            add_whole(
                source,
                search,
                levels,
                ahead,
                Wanted::AsValue { in_spare },
                arg,
            )
        }
        _ => add_value_apart(source, search, levels, ahead, arg),
    }
}

/// Whether `+` on a value of a kind hands its register on: it does where the value is not converted.
fn in_spare_still(kind: Kind, in_spare: bool) -> bool
    ensures { result ≡ in_spare_still Plus kind in_spare }
{
    match kind {
        Kind::Integer(of) => match as_operand(of, of.promoted()) {
            Conversion::Nothing => in_spare,
            _ => false,
        },
        _ => false,
    }
}

/// Adds the value of a binary operator or the comma.
pub fn add_binary<'a>(
    source: &Source,
    search: &mut Search<'a>,
    levels: u64,
    ahead: u32,
    expr: &'a Expr,
    op: BinaryOp,
    one: &'a Expr,
    other: &'a Expr,
    in_spare: bool,
) -> Result<(), NoMemory>
    ensures { OnOk result (IsAdded source.now levels ahead (TwoSides expr.now op one.now other.now in_spare) search.old search.new) }
{
    match op {
        BinaryOp::Both => add_whole(source, search, levels, ahead, Wanted::AsTest, expr),
        BinaryOp::Either => add_whole(source, search, levels, ahead, Wanted::AsTest, expr),
        BinaryOp::Equal => add_whole(source, search, levels, ahead, Wanted::AsTest, expr),
        BinaryOp::NotEqual => add_whole(source, search, levels, ahead, Wanted::AsTest, expr),
        BinaryOp::Comma => {
            add_whole(source, search, levels, ahead, Wanted::AsWork, one)?;
            add_whole(
                source,
                search,
                levels,
                ahead,
                Wanted::AsValue { in_spare },
                other,
            )
        }
        _ => add_sides(source, search, levels, ahead, one, other),
    }
}

/// Adds an assignment.
pub fn add_assigned<'a>(
    source: &Source,
    search: &mut Search<'a>,
    levels: u64,
    ahead: u32,
    expr: &'a Expr,
    op: Option<BinaryOp>,
    one: &'a Expr,
    other: &'a Expr,
    in_spare: bool,
) -> Result<(), NoMemory>
    ensures { OnOk result (IsAdded source.now levels ahead (OfValue expr.now in_spare (Assign op one.now other.now)) search.old search.new) }
{
    match op {
        None => {
            let own = kind(source, one)?;
            add_stored(source, search, levels, ahead, one, other, &own)
        }
        Some(_) => {
            add_place_apart(source, search, levels, ahead, one)?;
            add_value_apart(source, search, levels, ahead, other)
        }
    }
}

/// Adds what is stored in an lvalue of a kind.
pub fn add_stored<'a>(
    source: &Source,
    search: &mut Search<'a>,
    levels: u64,
    ahead: u32,
    one: &'a Expr,
    other: &'a Expr,
    kind: &Kind,
) -> Result<(), NoMemory>
    ensures { OnOk result (IsAdded source.now levels ahead (Stored one.now other.now kind.now) search.old search.new) }
{
    add_place_apart(source, search, levels, ahead, one)?;
    match kind {
        Kind::Struct(_) => add_place_apart(source, search, levels, ahead, other),
        _ => add_as(source, search, levels, ahead, other, false, kind),
    }
}

/// Adds `?:`.
pub fn add_choice<'a>(
    source: &Source,
    search: &mut Search<'a>,
    levels: u64,
    ahead: u32,
    expr: &'a Expr,
    test: &'a Expr,
    one: &'a Expr,
    other: &'a Expr,
    in_spare: bool,
) -> Result<(), NoMemory>
    ensures { OnOk result (IsAdded source.now levels ahead (OfValue expr.now in_spare (Choose test.now one.now other.now)) search.old search.new) }
{
    let own = value_kind(source, expr)?;
    add_whole(source, search, levels, ahead, Wanted::AsTest, test)?;
    add_as(source, search, levels, ahead, one, in_spare, &own)?;
    add_as(source, search, levels, ahead, other, in_spare, &own)
}

/// Adds a cast.
pub fn add_cast<'a>(
    source: &Source,
    search: &mut Search<'a>,
    levels: u64,
    ahead: u32,
    expr: &'a Expr,
    arg: &'a Expr,
    in_spare: bool,
) -> Result<(), NoMemory>
    ensures { OnOk result (IsAdded source.now levels ahead (OfValue expr.now in_spare (Cast arg.now)) search.old search.new) }
{
    let own = kind(source, expr)?;
    add_as(source, search, levels, ahead, arg, in_spare, &own)
}
