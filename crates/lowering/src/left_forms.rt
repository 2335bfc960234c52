//! What stands directly in an expression whose address is wanted, that is done, or that is tested: how many registers it leaves that hold what it let go of.
ghost use Rattle.std.specs.Prelude.{◌≡◌, ◌&&◌, nat_eq, OnOk};
ghost use Rattle.c_machine.specs.Text.{Binary, Member};
ghost use Rattle.lowering.specs.Lefts.{IsAdded, OfOtherWork, OfPlace, OfTest, OfWork, TwoTests};
ghost use Rattle.lowering.specs.Reading.{form_in};

use crate::fills::leaves_nothing;
use crate::form::TreeForm;
use crate::kinds::is_void;
use crate::left::{Search, add_nothing, add_sides, add_value_apart, add_whole};
use crate::left_values::add_value;
use crate::source::{Source, value_kind};
use crate::statement_lines::more_than;
use crate::wanted::Wanted;
use cbase::{BinaryOp, Expr, NoMemory, UnaryOp};

/// Adds what stands directly in an expression whose address is wanted.
pub fn add_place<'a>(
    source: &Source,
    search: &mut Search<'a>,
    levels: u64,
    ahead: u32,
    in_spare: bool,
    form: &TreeForm<'a>,
) -> Result<(), NoMemory>
    ensures { OnOk result (IsAdded source.now levels ahead (OfPlace in_spare (form_in form.now)) search.old search.new) }
{
    match form {
        TreeForm::Unary {
            op: UnaryOp::Follow,
            arg,
        } => add_whole(
            source,
            search,
            levels,
            ahead,
            Wanted::AsValue { in_spare },
            arg.get(),
        ),
        TreeForm::Index { base, index } => add_sides(
            source,
            search,
            levels,
            ahead,
            base.get(),
            index.get(),
        ),
        TreeForm::Member {
            base,
            offset,
            through,
        } => add_member(
            source,
            search,
            levels,
            ahead,
            in_spare,
            base.get(),
            *offset,
            *through,
        ),
        _ => {
            add_nothing(search, ahead);
            Ok(())
        }
    }
}

/// Adds what stands directly in a member whose address is wanted.
pub fn add_member<'a>(
    source: &Source,
    search: &mut Search<'a>,
    levels: u64,
    ahead: u32,
    in_spare: bool,
    base: &'a Expr,
    offset: u64,
    through: bool,
) -> Result<(), NoMemory>
    ensures { OnOk result (IsAdded source.now levels ahead (OfPlace in_spare (Member base.now offset through)) search.old search.new) }
{
    let still = still_in_spare(in_spare, offset);
    if through {
        add_whole(
            source,
            search,
            levels,
            ahead,
            Wanted::AsValue { in_spare: still },
            base,
        )
    } else {
        add_whole(
            source,
            search,
            levels,
            ahead,
            Wanted::AsPlace { in_spare: still },
            base,
        )
    }
}

/// Whether an address is put into the spare register that is moved by so many bytes: it is where it is not moved.
fn still_in_spare(in_spare: bool, offset: u64) -> bool
    ensures { result ≡ (in_spare && nat_eq offset 0) }
{
    in_spare && offset == 0
}

/// Adds what stands directly in an expression whose value is not used.
pub fn add_work<'a>(
    source: &Source,
    search: &mut Search<'a>,
    levels: u64,
    ahead: u32,
    expr: &'a Expr,
    form: &TreeForm<'a>,
) -> Result<(), NoMemory>
    ensures { OnOk result (IsAdded source.now levels ahead (OfWork expr.now (form_in form.now)) search.old search.new) }
{
    match form {
        TreeForm::Binary {
            op: BinaryOp::Comma,
            left,
            right,
        } => {
            add_whole(source, search, levels, ahead, Wanted::AsWork, left.get())?;
            add_whole(source, search, levels, ahead, Wanted::AsWork, right.get())
        }
        _ => add_other_work(source, search, levels, ahead, expr, form),
    }
}

/// The same of an expression that is no comma.
pub fn add_other_work<'a>(
    source: &Source,
    search: &mut Search<'a>,
    levels: u64,
    ahead: u32,
    expr: &'a Expr,
    form: &TreeForm<'a>,
) -> Result<(), NoMemory>
    ensures { OnOk result (IsAdded source.now levels ahead (OfOtherWork expr.now (form_in form.now)) search.old search.new) }
{
    let own = value_kind(source, expr)?;
    if is_void(own) {
        return add_value(source, search, levels, ahead, expr, false, form);
    }
    let nothing = leaves_nothing(source, form)?;
    if nothing {
        return add_value(source, search, levels, ahead, expr, false, form);
    }
    let least = more_than(ahead, 1)?;
    add_nothing(search, least);
    add_whole(
        source,
        search,
        levels,
        ahead,
        Wanted::AsValue { in_spare: true },
        expr,
    )
}

/// Adds what stands directly in a condition.
pub fn add_test<'a>(
    source: &Source,
    search: &mut Search<'a>,
    levels: u64,
    ahead: u32,
    expr: &'a Expr,
    form: &TreeForm<'a>,
) -> Result<(), NoMemory>
    ensures { OnOk result (IsAdded source.now levels ahead (OfTest expr.now (form_in form.now)) search.old search.new) }
{
    match form {
        TreeForm::Unary {
            op: UnaryOp::Not,
            arg,
        } => add_whole(source, search, levels, ahead, Wanted::AsTest, arg.get()),
        TreeForm::Binary { op, left, right } => add_tests(
            source,
            search,
            levels,
            ahead,
            expr,
            *op,
            left.get(),
            right.get(),
        ),
        _ => add_value_apart(source, search, levels, ahead, expr),
    }
}

/// Adds what stands directly in a condition that is a binary operator.
pub fn add_tests<'a>(
    source: &Source,
    search: &mut Search<'a>,
    levels: u64,
    ahead: u32,
    expr: &'a Expr,
    op: BinaryOp,
    one: &'a Expr,
    other: &'a Expr,
) -> Result<(), NoMemory>
    ensures { OnOk result (IsAdded source.now levels ahead (OfTest expr.now (Binary op one.now other.now)) search.old search.new) }
{
    match op {
        BinaryOp::Both => add_two_tests(source, search, levels, ahead, one, other),
        BinaryOp::Either => add_two_tests(source, search, levels, ahead, one, other),
        BinaryOp::Equal => add_sides(source, search, levels, ahead, one, other),
        BinaryOp::NotEqual => add_sides(source, search, levels, ahead, one, other),
        _ => add_value_apart(source, search, levels, ahead, expr),
    }
}

/// Adds two conditions.
pub fn add_two_tests<'a>(
    source: &Source,
    search: &mut Search<'a>,
    levels: u64,
    ahead: u32,
    one: &'a Expr,
    other: &'a Expr,
) -> Result<(), NoMemory>
    ensures { OnOk result (IsAdded source.now levels ahead (TwoTests one.now other.now) search.old search.new) }
{
    add_whole(source, search, levels, ahead, Wanted::AsTest, one)?;
    add_whole(source, search, levels, ahead, Wanted::AsTest, other)
}
