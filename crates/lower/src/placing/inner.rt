//! Statement expressions: a block whose last expression statement is a value.
ghost use Rattle.std.specs.Prelude.{OnOk};
ghost use Rattle.c_machine.specs.Program.{Program};
ghost use Rattle.c_machine.specs.Trees.{text_of};
ghost use Rattle.lower.specs.Pieces.{PlacesAll, Inside};
ghost use Rattle.lower.specs.Built.{made_of};
ghost use Rattle.lower.specs.Jobs.{LeadsTo};
ghost use Rattle.lowering.specs.Placing.{Around, go, place_inner};
ghost use Rattle.lowering.specs.Source.{IsSource};

use crate::builder::Builder;
use crate::jobs::Jobs;
use crate::placing::blocks::{enters, in_scope, leaves};
use crate::placing::objects::named_in;
use c_steps::Stack;
use cbase::{Expr, NoMemory, Place, Stmt};
use lowering::inner::{left_at_end, valued_moves};
use lowering::source::Source;
use std::alloc::Global;

/// A statement expression.
pub(crate) fn place_inner<'a>(
    alloc: Global,
    source: &Source,
    builder: &mut Builder,
    jobs: &mut Jobs<'a>,
    levels: u64,
    from: u32,
    expr: &'a Expr,
    body: &'a [Stmt],
    close: Place,
    into: u32,
    to: u32,
) -> Result<(), NoMemory>
    ensures { OnOk result (PlacesAll source.now levels (Inside from expr.now body.now close into to) jobs.old jobs.new (made_of builder.old) (made_of builder.new)) }
{
    let count = left_at_end(source, body)?;
    let spare = builder.registers(count)?;
    let names = named_in(alloc, source, builder, body)?;
    let mut moves = Stack::new(alloc);
    leaves(alloc, &mut moves, names.as_slice(), close)?;
    valued_moves(source, &mut moves, spare, count, into, body)?;
    enters(alloc, &mut moves, names.as_slice(), expr.place)?;
    in_scope(jobs, levels, from, names, moves, to)
}
