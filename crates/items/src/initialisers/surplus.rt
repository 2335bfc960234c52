ghost use Rattle.std.specs.Prelude.{◌≡◌, ◌≤◌, map, IfSome, IfNone};
ghost use Rattle.ctrees.specs.Levels.{depth, expr_levels, init_part_levels};
ghost use Rattle.ctrees.specs.Weight.{joined};
ghost use Rattle.items.specs.initialisers.Surplus.{HasNone, Leads};

use cbase::{Expr, Init, InitPart};

/// The first value in parts for which there is no place: that of the first of them, which may stand in braces of its own. What stands behind that one is not looked
/// at.
pub(crate) fn first_value(parts: &[InitPart]) -> Option<&Expr>
    ensures leads { IfSome result (λ expr. Leads parts.now expr.now) }
    ensures none { IfNone result (HasNone parts.now) }
    ensures within { IfSome result (λ expr. expr_levels expr.now ≤ joined depth (map init_part_levels parts.now)) }
{
    if parts.is_empty() {
        return None;
    }
    match &parts[0].init {
        Init::Value { value, .. } => Some(value),
        Init::Braces(inner) => first_value(inner.as_slice()),
    }
}
