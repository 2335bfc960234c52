//! Functions: a body is one block with its parameters (C11 5.1.2.2.3, 6.9.1).
ghost use Rattle.std.specs.Prelude.{◌≡◌, ◌+◌, ◌<◌, ◌^◌, ◌++◌, ◌∷◌, map, IfOk, OnOk};
ghost use Rattle.flow.specs.declared.instruction.Instr.TheVariants as i;
ghost use Rattle.lower.specs.Bodies.{AreMovesPlaced, IsBodyPlaced, IsFunctionPlaced, IsNamedPlaced, end_line};
ghost use Rattle.lower.specs.Built.{made_of};
ghost use Rattle.lowering.specs.Lowering.{answers, at_entry, at_exit, nothing};
ghost use Rattle.lowering.specs.declared.moves.Move.TheVariants.{Does, Emits};
ghost use Rattle.lowering.specs.Placing.{with_point, with_registers};

use crate::around::{Frame, Surroundings};
use crate::builder::Builder;
use crate::jobs::Job;
use crate::placing::blocks::leaves;
use crate::placing::jumps::closings;
use crate::placing::objects::named_in;
use crate::running::place_all;
use c_machine::{Kind, Object};
use c_steps::Stack;
use c_text::FunctionItem;
use cbase::{List, NoMemory, Place, Stmt};
use flow::{FlowFunction, Instr, Standing, Width};
use lowering::built_ins::{receives, result_into};
use lowering::inner::does_all;
use lowering::kinds::{is_void, width};
use lowering::line::{TreeLine, emits};
use lowering::names::{Named, variables_of};
use lowering::source::Source;
use lowering::static_names::Names;
use std::alloc::Global;

/// The answer at the `}` of a body: main answers 0, and another function any input of its result (C11 5.1.2.2.3, 6.9.1p12).
fn answers(
    line: &mut TreeLine,
    is_main: bool,
    kind: Kind,
    register: u32,
    close: Place,
) -> Result<(), NoMemory>
    ensures { OnOk result (line.new ≡ answers is_main kind register close ++ line.old) }
{
    if is_main {
        emits(
            line,
            Instr::Number {
                into: register,
                value: 0,
                size: width(kind),
            },
            close,
        )
    } else {
        receives(line, Some(register), kind, close)
    }
}

/// What stands at the exit of a function: its result, if it has one.
fn at_exit(alloc: Global, kind: &Kind, register: u32) -> Result<Standing, NoMemory>
    ensures { IfOk result (λ standing. standing ≡ at_exit kind.now register) }
{
    let mut registers = List::new(alloc);
    if !is_void(*kind) {
        registers.push(Width {
            register,
            size: width(*kind),
        })?;
    }
    Ok(Standing {
        variables: List::new(alloc),
        registers,
    })
}

/// What stands at the entry of a function: its parameters.
fn at_entry(alloc: Global, params: &[Named]) -> Result<Standing, NoMemory>
    ensures { IfOk result (λ standing. standing ≡ at_entry params.now) }
{
    match variables_of(alloc, params) {
        Ok(variables) => Ok(Standing {
            variables,
            registers: List::new(alloc),
        }),
        Err(error) => Err(error),
    }
}

/// Nothing stands. It takes no memory.
fn nothing(alloc: Global) -> Standing
    ensures { result ≡ nothing }
{
    Standing {
        variables: List::new(alloc),
        registers: List::new(alloc),
    }
}

/// The end of a body stands next: its answer, if it has one, and then all blocks are left, and it is looked for blocks that were never freed, where that is asked
/// for.
fn end_moves(
    alloc: Global,
    line: &mut TreeLine,
    frame: &Frame,
    is_main: bool,
    all: &[Named],
    close: Place,
) -> Result<(), NoMemory>
    ensures { OnOk result (line.new ≡ end_line is_main frame.now.kind frame.now.result frame.now.closes all.now close ++ line.old) }
{
    closings(line, frame.closes, close)?;
    leaves(alloc, line, all, close)?;
    if is_void(frame.kind) {
        return Ok(());
    }
    answers(line, is_main, frame.kind, frame.result, close)
}

/// What a body gives, one move behind the other: these variables are entered, and all those of its block are left.
fn body_line<'a>(
    alloc: Global,
    frame: &Frame,
    is_main: bool,
    variables: List<u32>,
    all: &[Named],
    body: &'a [Stmt],
    close: Place,
) -> Result<TreeLine<'a>, NoMemory>
    ensures { IfOk result (λ line. line ≡ Emits (i.Enter variables) close ∷ (map Does body.now ++ end_line is_main frame.now.kind frame.now.result frame.now.closes all.now close)) }
{
    let mut line = Stack::new(alloc);
    end_moves(alloc, &mut line, frame, is_main, all, close)?;
    does_all(&mut line, body)?;
    emits(&mut line, Instr::Enter { variables }, close)?;
    Ok(line)
}

/// The points of a function: its entry, its exit and the one behind that, and the register for its result.
fn function_points(
    alloc: Global,
    builder: &mut Builder,
    params: &[Named],
    kind: &Kind,
) -> Result<(), NoMemory>
    ensures is { OnOk result (made_of builder.new ≡ with_registers 1 (with_point nothing (with_point (at_exit kind.now builder.old.registers) (with_point (at_entry params.now) (made_of builder.old))))) }
    ensures fits { OnOk result (builder.old.points + 2 < 2 ^ 32) }
{
    let register = builder.registers;
    let entry = at_entry(alloc, params)?;
    let exit = at_exit(alloc, kind, register)?;
    let _entry = builder.point(entry)?;
    let _exit = builder.point(exit)?;
    let _behind = builder.point(nothing(alloc))?;
    match builder.registers(1) {
        Ok(_) => Ok(()),
        Err(error) => Err(error),
    }
}

/// A function: its parameters and the objects of its block get variables, and it points, a register for its result, and the edges of its body.
pub(crate) fn place_function(
    alloc: Global,
    source: &Source,
    statics: &Names,
    builder: &mut Builder,
    closes: bool,
    function: &FunctionItem,
) -> Result<FlowFunction, NoMemory>
    ensures { IfOk result (λ placed. IsFunctionPlaced source.now statics.now closes function.now placed (made_of builder.old) (made_of builder.new)) }
{
    let text = source.text();
    match text.parameter_objects(alloc, function.token())? {
        None => Err(NoMemory),
        Some(objects) => match text.defined_result(function.token()) {
            None => Err(NoMemory),
            Some(kind) => place_named(
                alloc,
                source,
                statics,
                builder,
                closes,
                function,
                &kind,
                objects.as_slice(),
            ),
        },
    }
}

/// A function, where these are the objects of its parameters, and that is the kind of its result.
fn place_named(
    alloc: Global,
    source: &Source,
    statics: &Names,
    builder: &mut Builder,
    closes: bool,
    function: &FunctionItem,
    kind: &Kind,
    objects: &[Object],
) -> Result<FlowFunction, NoMemory>
    ensures { IfOk result (λ placed. IsNamedPlaced source.now statics.now closes function.now kind.now objects.now placed (made_of builder.old) (made_of builder.new)) }
{
    let params = builder.named(alloc, objects)?;
    let names = named_in(alloc, source, builder, function.body())?;
    let entry = builder.points;
    let result = builder.registers;
    function_points(alloc, builder, params.as_slice(), kind)?;
    let parameters = variables_of(alloc, params.as_slice())?;
    let exit = entry + 1;
    let frame = Frame {
        exit,
        kind: *kind,
        result,
        closes,
    };
    place_body(
        alloc, source, statics, builder, &frame, function, entry, params, names,
    )?;
    Ok(FlowFunction {
        entry,
        exit,
        parameters,
    })
}

/// These objects and those behind them.
fn joined(params: List<Named>, names: List<Named>) -> Result<List<Named>, NoMemory>
    ensures { IfOk result (λ all. all ≡ params ++ names) }
{
    let mut all = params.into_vec();
    all.append(&mut names.into_vec())?;
    Ok(List::from_vec(all))
}

/// The edges of a body between the entry and the exit of its function, in whose block these parameters and objects are, and the return behind them.
fn place_body(
    alloc: Global,
    source: &Source,
    statics: &Names,
    builder: &mut Builder,
    frame: &Frame,
    function: &FunctionItem,
    entry: u32,
    params: List<Named>,
    names: List<Named>,
) -> Result<(), NoMemory>
    requires { frame.now.exit + 1 < 2 ^ 32 }
    ensures { OnOk result (IsBodyPlaced source.now statics.now frame.now.exit frame.now.kind frame.now.result frame.now.closes function.now entry params names (made_of builder.old) (made_of builder.new)) }
{
    let variables = variables_of(alloc, names.as_slice())?;
    let all = joined(params, names)?;
    let moves = body_line(
        alloc,
        frame,
        function.is_main(),
        variables,
        all.as_slice(),
        function.body(),
        function.close(),
    )?;
    place_moves(alloc, source, statics, builder, frame, entry, all, moves)?;
    let exit = frame.exit;
    let from = result_into(frame.kind, frame.result);
    builder.emit(exit, Instr::Return { from }, exit + 1, function.close())
}

/// All moves of a body, in whose block these objects are, between the entry and the exit of its function.
fn place_moves<'a>(
    alloc: Global,
    source: &Source,
    statics: &Names,
    builder: &mut Builder,
    frame: &Frame,
    entry: u32,
    all: List<Named>,
    moves: TreeLine<'a>,
) -> Result<(), NoMemory>
    ensures { OnOk result (AreMovesPlaced source.now statics.now frame.now.exit frame.now.kind frame.now.result frame.now.closes entry all moves.entry (made_of builder.old) (made_of builder.new)) }
{
    let mut scopes = Stack::new(alloc);
    scopes.push(all)?;
    let mut around = Surroundings {
        scopes,
        current: None,
        frame: *frame,
        statics,
    };
    let levels = source.levels();
    let to = frame.exit;
    let mut jobs = Stack::new(alloc);
    jobs.push(Job::Follow {
        levels,
        from: entry,
        moves,
        to,
    })?;
    place_all(alloc, source, builder, &mut around, &mut jobs)
}
