//! Addresses of lvalues, and values as ones of a kind (C11 6.3, 6.3.2.1).
ghost use Rattle.std.specs.Prelude.{◌≡◌, ◌∷◌, OnOk, IfOk};
ghost use Rattle.c_machine.specs.Expressions.{value_kind};
ghost use Rattle.c_machine.specs.Program.{Program};
ghost use Rattle.c_machine.specs.Trees.{text_of};
ghost use Rattle.lower.specs.Around.{around_of};
ghost use Rattle.lower.specs.Pieces.{Places, PlacesAll, Through};
ghost use Rattle.lowering.specs.declared.moves.Move.TheVariants.{Converts, Locates};
ghost use Rattle.lower.specs.Built.{made_of};
ghost use Rattle.lower.specs.Jobs.{LeadsTo};
ghost use Rattle.lowering.specs.Kinds.{conversion};
ghost use Rattle.lowering.specs.Placing.{Around, along_line, go, variable_of};
ghost use Rattle.lowering.specs.Source.{IsSource};
ghost use Rattle.lowering.specs.Table.{converted_line, place_line};
ghost use Rattle.lower.specs.Variables.{IsNamedVariable};

use crate::around::{Surroundings, variable_of};
use crate::builder::Builder;
use crate::jobs::{Job, Jobs};
use c_machine::Kind;
use c_steps::Stack;
use cbase::{Expr, NoMemory};
use lowering::conversions::converted_line;
use lowering::form::read_form;
use lowering::kinds::conversion;
use lowering::place::place_line;
use lowering::source::{Source, object_token, value_kind};
use std::alloc::Global;

/// The address of an lvalue.
pub(crate) fn place_address<'a>(
    alloc: Global,
    source: &Source,
    builder: &mut Builder,
    jobs: &mut Jobs<'a>,
    around: &Surroundings,
    levels: u64,
    from: u32,
    expr: &'a Expr,
    spare: u32,
    into: u32,
    to: u32,
) -> Result<(), NoMemory>
    ensures { OnOk result (Places source.now (around_of around.now) levels (Through from (Locates expr.now spare into) to) jobs.old jobs.new (made_of builder.old) (made_of builder.new)) }
{
    let found = named_variable(source, around, expr);
    let mut moves = Stack::new(alloc);
    place_line(
        source,
        &mut builder.registers,
        &mut moves,
        expr,
        &read_form(source, expr),
        found,
        spare,
        into,
    )?;
    jobs.push(Job::Follow {
        levels,
        from,
        moves,
        to,
    })
}

/// The variable of the object that an expression names, if it names one.
fn named_variable(source: &Source, around: &Surroundings, expr: &Expr) -> Option<u32>
    ensures { IsNamedVariable source.now (around_of around.now) expr.now result }
{
    match object_token(source, expr) {
        None => None,
        Some(token) => variable_of(&around.scopes, around.statics, token),
    }
}

/// The value of an expression as one of a kind.
pub(crate) fn place_conversion<'a>(
    alloc: Global,
    source: &Source,
    builder: &mut Builder,
    jobs: &mut Jobs<'a>,
    levels: u64,
    from: u32,
    expr: &'a Expr,
    kind: Kind,
    spare: u32,
    into: u32,
    to: u32,
) -> Result<(), NoMemory>
    ensures { OnOk result (PlacesAll source.now levels (Through from (Converts expr.now kind spare into) to) jobs.old jobs.new (made_of builder.old) (made_of builder.new)) }
{
    let own = value_kind(source, expr)?;
    let mut moves = Stack::new(alloc);
    converted_line(
        &mut builder.registers,
        &mut moves,
        expr,
        conversion(own, kind),
        spare,
        into,
    )?;
    jobs.push(Job::Follow {
        levels,
        from,
        moves,
        to,
    })
}
