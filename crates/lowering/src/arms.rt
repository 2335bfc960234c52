//! The arms of `?:`, which lead to one point with the same registers (C11 6.5.15).
ghost use Rattle.std.specs.Prelude.{◌≡◌, ◌++◌, OnOk};
ghost use Rattle.c_machine.specs.declared.kind.Kind.TheVariants.{Void};
ghost use Rattle.lowering.specs.Placing.{arm_moves, in_front};
ghost use Rattle.lowering.specs.Told.{trees};

use crate::conditions::pads;
use crate::kinds::is_void;
use crate::line::{TreeLine, converts};
use c_machine::Kind;
use cbase::{Expr, NoMemory, Place};

/// An arm as a value of a kind: behind it, registers with 0 are filled, so that `want` of those stand that hold what was let go of, where `have` of them stand.
pub fn arm_moves<'a>(
    line: &mut TreeLine<'a>,
    kind: Kind,
    spare: u32,
    into: u32,
    have: u32,
    want: u32,
    place: Place,
    arm: &'a Expr,
) -> Result<(), NoMemory>
    ensures { OnOk result (line.new ≡ arm_moves (trees Void) kind spare into have want place arm.now ++ line.old) }
{
    if spare.checked_add(want).is_none() {
        return Err(NoMemory);
    }
    pads(
        line,
        spare,
        in_front(into == spare && !is_void(kind), have),
        want,
        place,
    )?;
    converts(line, arm, kind, spare, into)
}

/// How many registers stand, where the first one may be that of the value.
fn in_front(value: bool, count: u32) -> u32
    ensures { result ≡ in_front value count }
{
    if value { count.max(1) } else { count }
}
