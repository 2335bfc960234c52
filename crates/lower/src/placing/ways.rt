//! Ways of statements: which have an edge.
ghost use Rattle.lower.specs.Around.{around_of};
ghost use Rattle.lowering.specs.Placing.{Loop, break_way, continue_way, idle_where, is_none, jumps, leaves_none, registers_left};
ghost use Rattle.lower.specs.Ways.{way_in};
ghost use Rattle.std.specs.List.{list_any};
ghost use Rattle.std.specs.Prelude.{◌≡◌, nat_eq};

use crate::around::Surroundings;
use flow::{Standing, Width};

/// What a move has: no edge, and what follows begins where it begins; no edge, and it leads to a point that is there; or edges.
#[derive(Clone, Copy, PartialEq, Eq)]
pub(crate) enum Way {
    /// No edge, and what follows begins there.
    Idle,
    /// No edge, and it leads to that point.
    Leads(u32),
    /// Edges.
    Goes,
}

/// No edge where that holds.
pub(crate) fn idle_where(holds: bool) -> Way
    ensures { way_in result ≡ idle_where holds }
{
    if holds { Way::Idle } else { Way::Goes }
}

/// No edge to a point where that holds.
fn jumps(holds: bool, to: u32) -> Way
    ensures { way_in result ≡ jumps holds to }
{
    if holds { Way::Leads(to) } else { Way::Goes }
}

/// A `break` has no edge where it leaves no block and no register (C11 6.8.6.3).
pub(crate) fn break_way(around: &Surroundings, standing: &Standing) -> Way
    ensures { way_in result ≡ break_way (around_of around.now) standing.now around.now.current }
{
    match &around.current {
        None => Way::Goes,
        Some(one) => jumps(
            leaves_none(around, standing, one.outer, one.registers.as_slice()),
            one.behind,
        ),
    }
}

/// A `continue` likewise (C11 6.8.6.2).
pub(crate) fn continue_way(around: &Surroundings, standing: &Standing) -> Way
    ensures { way_in result ≡ continue_way (around_of around.now) standing.now around.now.current }
{
    match &around.current {
        None => Way::Goes,
        Some(one) => jumps(
            leaves_none(around, standing, one.inner, one.registers.as_slice()),
            one.again,
        ),
    }
}

/// Whether no block is left where so many are kept, and no register but these.
fn leaves_none(around: &Surroundings, standing: &Standing, kept: usize, registers: &[Width]) -> bool
    ensures { (within : Loop) → within.registers ≡ registers.now → result ≡ leaves_none (around_of around.now) standing.now kept within }
{
    around.scopes.len() <= kept && leaves_no_register(standing.registers.as_slice(), registers)
}

/// Whether all registers that stand are among these.
fn leaves_no_register(stands: &[Width], kept: &[Width]) -> bool
    ensures { result ≡ is_none (registers_left stands.now kept.now) }
{
    for one in stands {
        if !is_kept(kept, one.register) {
            return false;
        }
    }
    true
}

/// Whether a register is one of these.
pub(crate) fn is_kept(kept: &[Width], register: u32) -> bool
    ensures { result ≡ list_any (λ other. nat_eq other.register register) kept.now }
{
    kept.iter().any(|other| other.register == register)
}
