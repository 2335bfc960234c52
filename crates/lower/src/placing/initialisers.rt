//! Declarations and initialisers of automatic objects (C11 6.7.9).
ghost use Rattle.std.specs.Prelude.{◌≡◌, ◌+◌, ◌++◌, ◌∷◌, map, Some, OnOk};
ghost use Rattle.std.specs.List.{flat_map};
ghost use Rattle.cbase.specs.declared.tree.decl.Declared.{Declared};
ghost use Rattle.cbase.specs.declared.tree.expr.ExprForm.TheViews.{out-Init, out-InitPart};
ghost use Rattle.cbase.specs.declared.tree.init.InitPart.{InitPart};
ghost use Rattle.c_machine.specs.Program.{Program};
ghost use Rattle.c_machine.specs.Trees.{initialiser_of, name_of, text_of};
ghost use Rattle.lower.specs.Around.{around_of};
ghost use Rattle.lower.specs.Pieces.{Places, PlacesAll, Initialised, Through};
ghost use Rattle.lowering.specs.declared.moves.Move.TheVariants.{Clears};
ghost use Rattle.c_machine.specs.Text.{Value};
ghost use Rattle.lower.specs.Built.{made_of};
ghost use Rattle.lower.specs.Variables.{IsVariable};
ghost use Rattle.c_machine.specs.Text.{Braces};
ghost use Rattle.lower.specs.Jobs.{LeadsTo};
ghost use Rattle.lowering.specs.declared.moves.Move.TheVariants.{Initialises};
ghost use Rattle.lowering.specs.Placing.{Around, Made, along, clear_moves, declared_moves, go, place_initialiser, place_set, set_moves, variable_of, with_registers};
ghost use Rattle.lowering.specs.Source.{IsSource};

use crate::around::{Surroundings, variable_of};
use crate::builder::Builder;
use crate::jobs::{Job, Jobs};
use crate::placing::begins::are_empty_within;
use c_machine::{Kind, Object};
use c_steps::{Stack, Tree};
use cbase::{Declared, Expr, Init, InitPart, NoMemory, Place};
use lowering::declared::{declared_line, left_by_set};
use lowering::line::TreeLine;
use lowering::moves::Move;
use lowering::source::Source;
use lowering::statement_lines::{clear_line, set_line};
use std::alloc::Global;

/// The names of a declaration are to be placed next, in order (C11 6.7).
pub(crate) fn place_declared<'a>(
    alloc: Global,
    source: &Source,
    jobs: &mut Jobs<'a>,
    levels: u64,
    from: u32,
    names: &'a [Declared],
    to: u32,
) -> Result<(), NoMemory>
    ensures { OnOk result ((p : Program) (around : Around) (made : Made) → IsSource source.now p → LeadsTo p around jobs.old
        (along (text_of p) around (go levels (text_of p) around) made from (flat_map (declared_moves (text_of p)) (map name_of names.now)) to) jobs.new made) }
{
    let mut moves = Stack::new(alloc);
    declared_line(source, &mut moves, names)?;
    jobs.push(Job::Follow {
        levels,
        from,
        moves,
        to,
    })
}

/// The variable of the object of a name.
fn variable(source: &Source, around: &Surroundings, place: Place) -> Option<u32>
    ensures { IsVariable source.now (around_of around.now) place result }
{
    let token = source.text().first_token(place.at);
    variable_of(&around.scopes, around.statics, token)
}

/// The object of a name becomes 0 in front of braces.
pub(crate) fn place_clear<'a>(
    alloc: Global,
    source: &Source,
    builder: &mut Builder,
    jobs: &mut Jobs<'a>,
    around: &Surroundings,
    levels: u64,
    from: u32,
    place: Place,
    object: Object,
    to: u32,
) -> Result<(), NoMemory>
    ensures { OnOk result (Places source.now (around_of around.now) levels (Through from (Clears place object) to) jobs.old jobs.new (made_of builder.old) (made_of builder.new)) }
{
    let found = variable(source, around, place);
    clear_of(
        alloc,
        builder,
        jobs,
        levels,
        from,
        place,
        found,
        object.bytes,
        to,
    )
}

/// The object of a variable, of so many bytes, becomes 0.
fn clear_of<'a>(
    alloc: Global,
    builder: &mut Builder,
    jobs: &mut Jobs<'a>,
    levels: u64,
    from: u32,
    place: Place,
    found: Option<u32>,
    bytes: u64,
    to: u32,
) -> Result<(), NoMemory>
    ensures { OnOk result ((p : Program) (around : Around) → LeadsTo p around jobs.old
        (along (text_of p) around (go levels (text_of p) around) (with_registers 2 (made_of builder.old)) from (clear_moves found place bytes builder.old.registers) to)
        jobs.new (made_of builder.new)) }
{
    let mut moves = Stack::new(alloc);
    clear_line(&mut builder.registers, &mut moves, found, place, bytes)?;
    jobs.push(Job::Follow {
        levels,
        from,
        moves,
        to,
    })
}

/// An initialiser of the object of a name (C11 6.7.9).
pub(crate) fn place_initialiser<'a>(
    alloc: Global,
    source: &Source,
    builder: &mut Builder,
    jobs: &mut Jobs<'a>,
    around: &Surroundings,
    levels: u64,
    from: u32,
    place: Place,
    init: &'a Init,
    to: u32,
) -> Result<(), NoMemory>
    ensures { OnOk result (Places source.now (around_of around.now) levels (Through from (Initialises place init.now) to) jobs.old jobs.new (made_of builder.old) (made_of builder.new)) }
{
    match init {
        Init::Value { value, after } => place_set(
            alloc, source, builder, jobs, around, levels, from, place, value, *after, to,
        ),
        Init::Braces(parts) => place_parts(
            alloc,
            source,
            builder,
            jobs,
            levels,
            from,
            place,
            parts.as_slice(),
            to,
        ),
    }
}

/// The parts of an initialiser in braces, in order. Where none of them has a value, there is no graph: braces without a value have no edge.
fn place_parts<'a>(
    alloc: Global,
    source: &Source,
    builder: &mut Builder,
    jobs: &mut Jobs<'a>,
    levels: u64,
    from: u32,
    place: Place,
    parts: &'a [InitPart],
    to: u32,
) -> Result<(), NoMemory>
    ensures { OnOk result (PlacesAll source.now levels (Initialised from place to (Braces (map (λ (part : InitPart). (out-InitPart part).init) parts.now))) jobs.old jobs.new (made_of builder.old) (made_of builder.new)) }
{
    if are_empty_within(source.levels(), parts) {
        builder.fail();
        return Ok(());
    }
    let mut moves = Stack::new(alloc);
    initialises_each(&mut moves, place, parts)?;
    jobs.push(Job::Follow {
        levels,
        from,
        moves,
        to,
    })
}

/// The parts of an initialiser stand next, in order.
fn initialises_each<'a>(
    line: &mut TreeLine<'a>,
    place: Place,
    parts: &'a [InitPart],
) -> Result<(), NoMemory>
    ensures { OnOk result (line.new ≡ map (λ (part : InitPart). Initialises place (out-InitPart part).init) parts.now ++ line.old) }
{
    let mut left = parts.len();
    while left > 0 {
        left -= 1;
        initialises_part(line, place, &parts[left])?;
    }
    Ok(())
}

/// A part of an initialiser stands next.
fn initialises_part<'a>(
    line: &mut TreeLine<'a>,
    place: Place,
    part: &'a InitPart,
) -> Result<(), NoMemory>
    ensures { OnOk result (line.new ≡ Initialises place (out-InitPart part.now).init ∷ line.old) }
{
    line.push(Move::Initialises {
        place,
        init: Tree::of(&part.init),
    })
}

/// A value of the initialiser of the object of a name, whose full expression ends at that place.
fn place_set<'a>(
    alloc: Global,
    source: &Source,
    builder: &mut Builder,
    jobs: &mut Jobs<'a>,
    around: &Surroundings,
    levels: u64,
    from: u32,
    place: Place,
    value: &'a Expr,
    end: Place,
    to: u32,
) -> Result<(), NoMemory>
    ensures { OnOk result (Places source.now (around_of around.now) levels (Initialised from place to (Value value.now end)) jobs.old jobs.new (made_of builder.old) (made_of builder.new)) }
{
    match source.text().store(place.at, value.number) {
        None => Err(NoMemory),
        Some(None) => {
            builder.fail();
            Ok(())
        }
        Some(Some(stored)) => place_stored(
            alloc,
            source,
            builder,
            jobs,
            around,
            levels,
            from,
            place,
            value,
            end,
            stored.offset,
            &stored.kind,
            to,
        ),
    }
}

/// The same of a value that becomes one of a kind, behind so many bytes of the object.
fn place_stored<'a>(
    alloc: Global,
    source: &Source,
    builder: &mut Builder,
    jobs: &mut Jobs<'a>,
    around: &Surroundings,
    levels: u64,
    from: u32,
    place: Place,
    value: &'a Expr,
    end: Place,
    bytes: u64,
    kind: &Kind,
    to: u32,
) -> Result<(), NoMemory>
    ensures { OnOk result ((p : Program) → IsSource source.now p → LeadsTo p (around_of around.now) jobs.old
        (place_set (text_of p) (go levels (text_of p)) (around_of around.now) (made_of builder.old) from place value.now end to (Some (record { offset = bytes; kind = kind.now })))
        jobs.new (made_of builder.new)) }
{
    let count = left_by_set(source, value, *kind)?;
    let found = variable(source, around, place);
    stored_with(
        alloc, builder, jobs, levels, from, place, value, end, bytes, kind, found, count, to,
    )
}

/// The same of a value that lets go of so many values, and of the object of a variable.
fn stored_with<'a>(
    alloc: Global,
    builder: &mut Builder,
    jobs: &mut Jobs<'a>,
    levels: u64,
    from: u32,
    place: Place,
    value: &'a Expr,
    end: Place,
    bytes: u64,
    kind: &Kind,
    found: Option<u32>,
    count: u32,
    to: u32,
) -> Result<(), NoMemory>
    ensures { OnOk result ((p : Program) (around : Around) → LeadsTo p around jobs.old
        (along (text_of p) around (go levels (text_of p) around) (with_registers (count + 3) (made_of builder.old)) from
        (set_moves (text_of p) found place value.now end (record { offset = bytes; kind = kind.now }) builder.old.registers count) to) jobs.new (made_of builder.new)) }
{
    let mut moves = Stack::new(alloc);
    set_line(
        alloc,
        &mut builder.registers,
        &mut moves,
        found,
        place,
        value,
        end,
        bytes,
        kind,
        count,
    )?;
    jobs.push(Job::Follow {
        levels,
        from,
        moves,
        to,
    })
}
