//! How many registers an expression leaves that hold values which it let go of.
ghost use Rattle.std.specs.Prelude.{◌≡◌, ◌+◌, max, false, IfOk, OnOk};
ghost use Rattle.lowering.specs.LetGo.{AsPlace, AsValue};
ghost use Rattle.lowering.specs.Lefts.{IsAdded, IsLeft, IsLeftAs, ComesTo, As, Converted, TwoValues, Whole};

use crate::conversion::Conversion;
use crate::form::read_form;
use crate::kinds::conversion;
use crate::left_forms::{add_place, add_test, add_work};
use crate::left_values::add_value;
use crate::source::{Source, value_kind};
use crate::wanted::Wanted;
use c_machine::Kind;
use c_steps::{Stack, Tree};
use cbase::{Expr, NoMemory};

/// A part that is still to be looked at.
#[derive(Drop)]
pub struct Pending<'a> {
    /// What is wanted of it.
    pub wanted: Wanted,
    /// The expression.
    pub expr: Tree<'a, Expr>,
    /// How many levels are left.
    pub levels: u64,
    /// How many registers stand ahead of those that it leaves.
    pub ahead: u32,
}

/// The most registers so far, and the parts that are still to be looked at.
#[derive(Drop)]
pub struct Search<'a> {
    /// The most so far.
    pub most: u32,
    /// The parts that are still to be looked at.
    pub pending: Stack<Pending<'a>>,
}

/// How many registers an expression leaves of which that is wanted.
///
/// It takes time for the expressions in it.
pub fn left_of(source: &Source, wanted: Wanted, expr: &Expr) -> Result<u32, NoMemory>
    ensures { IfOk result (λ count. IsLeft source.now wanted expr.now count) }
{
    let mut search = Search {
        most: 0,
        pending: Stack::new(source.alloc()),
    };
    add_whole(source, &mut search, source.levels(), 0, wanted, expr)?;
    look_at_all(source, &mut search)
}

/// How many registers an expression leaves whose value becomes one of a kind.
pub fn left_as(source: &Source, expr: &Expr, in_spare: bool, kind: Kind) -> Result<u32, NoMemory>
    ensures { IfOk result (λ count. IsLeftAs source.now expr.now in_spare kind count) }
{
    let mut search = Search {
        most: 0,
        pending: Stack::new(source.alloc()),
    };
    add_as(
        source,
        &mut search,
        source.levels(),
        0,
        expr,
        in_spare,
        &kind,
    )?;
    look_at_all(source, &mut search)
}

/// Looks at all that is still to be looked at.
fn look_at_all(source: &Source, search: &mut Search) -> Result<u32, NoMemory>
    ensures { IfOk result (λ count. ComesTo source.now search.old count) }
{
    let mut turns = u64::MAX;
    while turns > 0 {
        turns -= 1;
        match search.pending.pop() {
            None => return Ok(search.most),
            Some(next) => look_at(source, search, next)?,
        }
    }
    Err(NoMemory)
}

/// Looks at a part.
fn look_at<'a>(source: &Source, search: &mut Search<'a>, next: Pending<'a>) -> Result<(), NoMemory>
    ensures { OnOk result (IsAdded source.now next.entry.levels next.entry.ahead (Whole next.entry.wanted next.entry.expr) search.old search.new) }
{
    if next.levels == 0 {
        add_nothing(search, next.ahead);
        return Ok(());
    }
    add_layer(
        source,
        search,
        next.levels - 1,
        next.ahead,
        next.wanted,
        next.expr.get(),
    )
}

/// Adds what stands directly in an expression.
pub fn add_layer<'a>(
    source: &Source,
    search: &mut Search<'a>,
    levels: u64,
    ahead: u32,
    wanted: Wanted,
    expr: &'a Expr,
) -> Result<(), NoMemory>
    ensures { OnOk result (IsAdded source.now (levels + 1) ahead (Whole wanted expr.now) search.old search.new) }
{
    let form = read_form(source, expr);
    match wanted {
        Wanted::AsValue { in_spare } => add_value(
            source, search, levels, ahead, expr, in_spare, &form,
        ),
        Wanted::AsPlace { in_spare } => add_place(source, search, levels, ahead, in_spare, &form),
        Wanted::AsWork => add_work(source, search, levels, ahead, expr, &form),
        Wanted::AsTest => add_test(source, search, levels, ahead, expr, &form),
    }
}

/// Adds nothing but the registers that stand ahead.
pub fn add_nothing(search: &mut Search, ahead: u32)
    ensures { search.new ≡ record search.old { most = max search.old.most ahead } }
{
    search.most = search.most.max(ahead);
}

/// Adds an expression of which that is wanted.
pub fn add_whole<'a>(
    source: &Source,
    search: &mut Search<'a>,
    levels: u64,
    ahead: u32,
    wanted: Wanted,
    expr: &'a Expr,
) -> Result<(), NoMemory>
    ensures { OnOk result (IsAdded source.now levels ahead (Whole wanted expr.now) search.old search.new) }
{
    search.pending.push(Pending {
        wanted,
        expr: Tree::of(expr),
        levels,
        ahead,
    })
}

/// Adds an expression behind a conversion.
pub fn add_converted<'a>(
    source: &Source,
    search: &mut Search<'a>,
    levels: u64,
    ahead: u32,
    expr: &'a Expr,
    in_spare: bool,
    change: Conversion,
) -> Result<(), NoMemory>
    ensures { OnOk result (IsAdded source.now levels ahead (Converted expr.now in_spare change) search.old search.new) }
{
    match change {
        Conversion::Nothing => add_whole(
            source,
            search,
            levels,
            ahead,
            Wanted::AsValue { in_spare },
            expr,
        ),
        Conversion::Resized { .. } => add_value_apart(source, search, levels, ahead, expr),
        Conversion::Tested => add_whole(source, search, levels, ahead, Wanted::AsTest, expr),
        Conversion::Dropped => add_whole(source, search, levels, ahead, Wanted::AsWork, expr),
        Conversion::Unknown => {
            add_nothing(search, ahead);
            Ok(())
        }
    }
}

/// Adds the value of an expression, which is not put into the spare register.
pub fn add_value_apart<'a>(
    source: &Source,
    search: &mut Search<'a>,
    levels: u64,
    ahead: u32,
    expr: &'a Expr,
) -> Result<(), NoMemory>
    ensures { OnOk result (IsAdded source.now levels ahead (Whole (AsValue false) expr.now) search.old search.new) }
{
    add_whole(
        source,
        search,
        levels,
        ahead,
        Wanted::AsValue { in_spare: false },
        expr,
    )
}

/// Adds the address of an expression, which is not put into the spare register.
pub fn add_place_apart<'a>(
    source: &Source,
    search: &mut Search<'a>,
    levels: u64,
    ahead: u32,
    expr: &'a Expr,
) -> Result<(), NoMemory>
    ensures { OnOk result (IsAdded source.now levels ahead (Whole (AsPlace false) expr.now) search.old search.new) }
{
    add_whole(
        source,
        search,
        levels,
        ahead,
        Wanted::AsPlace { in_spare: false },
        expr,
    )
}

/// Adds an expression whose value becomes one of a kind.
pub fn add_as<'a>(
    source: &Source,
    search: &mut Search<'a>,
    levels: u64,
    ahead: u32,
    expr: &'a Expr,
    in_spare: bool,
    kind: &Kind,
) -> Result<(), NoMemory>
    ensures { OnOk result (IsAdded source.now levels ahead (As expr.now in_spare kind.now) search.old search.new) }
{
    let own = value_kind(source, expr)?;
    add_converted(
        source,
        search,
        levels,
        ahead,
        expr,
        in_spare,
        conversion(own, *kind),
    )
}

/// Adds two values, neither of which is put into the spare register.
pub fn add_sides<'a>(
    source: &Source,
    search: &mut Search<'a>,
    levels: u64,
    ahead: u32,
    one: &'a Expr,
    other: &'a Expr,
) -> Result<(), NoMemory>
    ensures { OnOk result (IsAdded source.now levels ahead (TwoValues one.now other.now) search.old search.new) }
{
    add_value_apart(source, search, levels, ahead, one)?;
    add_value_apart(source, search, levels, ahead, other)
}
