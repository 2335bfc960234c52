//! What variables, registers and ports force to be paired.
ghost use Rattle.std.specs.Prelude.{◌≡◌, true, Some, IfOk};
ghost use Rattle.graph.specs.Meaning.{maps_of};
ghost use Rattle.cover.specs.Covers.{Objects, Values, IsReached, AreVariablesPaired, AreRegistersPaired, ArePortsPaired};
ghost use Rattle.cover.specs.Found.{IsSound, Goes, Settles};

use crate::edges::content_of;
use crate::found::{Found, pair_reached, pair_value};
use cbase::NoMemory;
use graph::Graph;

/// Pairs the objects of variables. False only where nothing covers.
pub(crate) fn pair_variables(
    found: &mut Found,
    wide: &Graph,
    narrow: &Graph,
) -> Result<bool, NoMemory>
    requires sound { IsSound (maps_of wide.now) (maps_of narrow.now) found.old }
    ensures { IfOk result (λ fine. Settles (maps_of wide.now) (maps_of narrow.now) (AreVariablesPaired (maps_of wide.now) (maps_of narrow.now)) found.old found.new fine) }
{
    let ones = wide.variables();
    let others = narrow.variables();
    if ones.len() != others.len() {
        return Ok(false);
    }
    let mut at = 0;
    while at < ones.len() {
        let one = ones[at];
        let other = others[at];
        if one.variable != other.variable {
            return Ok(false);
        }
        if !pair_reached(found, wide, narrow, one.object, other.object)? {
            return Ok(false);
        }
        at += 1;
    }
    Ok(true)
}

/// Pairs the values of registers. False only where nothing covers.
pub(crate) fn pair_registers(
    found: &mut Found,
    wide: &Graph,
    narrow: &Graph,
) -> Result<bool, NoMemory>
    requires sound { IsSound (maps_of wide.now) (maps_of narrow.now) found.old }
    ensures { IfOk result (λ fine. Settles (maps_of wide.now) (maps_of narrow.now) (AreRegistersPaired (maps_of wide.now) (maps_of narrow.now)) found.old found.new fine) }
{
    let ones = wide.registers();
    let others = narrow.registers();
    if ones.len() != others.len() {
        return Ok(false);
    }
    let mut at = 0;
    while at < ones.len() {
        let one = ones[at];
        let other = others[at];
        if one.register != other.register {
            return Ok(false);
        }
        let content = content_of(narrow, other.value);
        if !pair_value(found, wide, narrow, one.value, content)? {
            return Ok(false);
        }
        at += 1;
    }
    Ok(true)
}

/// Pairs the values of ports, in their order. False only where nothing covers.
pub(crate) fn pair_ports(found: &mut Found, wide: &Graph, narrow: &Graph) -> Result<bool, NoMemory>
    requires sound { IsSound (maps_of wide.now) (maps_of narrow.now) found.old }
    ensures { IfOk result (λ fine. Settles (maps_of wide.now) (maps_of narrow.now) (ArePortsPaired (maps_of wide.now) (maps_of narrow.now)) found.old found.new fine) }
{
    let ones = wide.ports();
    let others = narrow.ports();
    if ones.len() != others.len() {
        return Ok(false);
    }
    let mut at = 0;
    while at < ones.len() {
        let one = ones[at];
        let content = content_of(narrow, others[at]);
        if !pair_value(found, wide, narrow, one, content)? {
            return Ok(false);
        }
        at += 1;
    }
    Ok(true)
}
