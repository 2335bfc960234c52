//! What is made of a program: its functions, its static objects and what these hold, as a graph.
ghost use Rattle.std.specs.Prelude.{◌≡◌, ◌+◌, ◌*◌, ◌++◌, [], map, None, Some, option_map, IfOk, OnOk, if◌then◌else◌};
ghost use Rattle.expressions.specs.Numbers.{Numbering};
ghost use Rattle.c_machine.specs.Program.{Program, functions_in, main_in};
ghost use Rattle.c_machine.specs.Trees.{function_as, nodes_in, text_of};
ghost use Rattle.c_text.specs.Stands.{StandsFor};
ghost use Rattle.lower.specs.Built.{made_of};
ghost use Rattle.lowering.specs.Lowering.{Functions as Placed, first_number, flow_of, graph_where, main_number, place_all, place_functions, with_main};
ghost use Rattle.lowering.specs.Placing.{named_from};
ghost use Rattle.lowering.specs.Source.{IsSource};

use crate::builder::Builder;
use crate::functions::place_function;
use crate::initials::push_initials;
use c_machine::Object;
use c_text::statics::{StaticSets, static_sets};
use c_text::{Functions, TypedText};
use cbase::{Abi, Item, List, NoMemory};
use flow::{Flow, FlowFunction, Initial};
use lowering::latest::latest_scalars;
use lowering::source::Source;
use lowering::static_names::Names;
use std::alloc::Global;

/// The graph of the program of these items, if it has one.
pub(crate) fn graph_of<'t>(
    alloc: Global,
    items: &'t [Item],
    text: &'t TypedText,
    abi: Abi,
    strict: bool,
) -> Result<Option<Flow>, NoMemory>
    ensures { IfOk result (λ found. (n : Numbering) (p : Program) → StandsFor n text.now p → p.items ≡ items.now → p.abi ≡ abi → p.strict ≡ strict
        → found ≡ flow_of p) }
{
    let functions = Functions::of(alloc, items)?;
    let found = static_sets(alloc, text, items)?;
    match text.static_objects(alloc)? {
        None => Err(NoMemory),
        Some(objects) => graph_over(
            alloc,
            text,
            &functions,
            &found,
            objects.as_slice(),
            abi,
            strict,
        ),
    }
}

/// The graph of a program of these functions and static objects, with these initialisers, if it has one.
fn graph_over(
    alloc: Global,
    text: &TypedText,
    functions: &Functions,
    found: &StaticSets,
    objects: &[Object],
    abi: Abi,
    strict: bool,
) -> Result<Option<Flow>, NoMemory>
    ensures { IfOk result (λ flow. (n : Numbering) (p : Program) → StandsFor n text.now p → functions.now ≡ functions_in p.items → found.now.sets ≡ (text_of p).sets
        → found.now.nodes ≡ nodes_in p.items → (text_of p).statics ≡ objects.now → p.abi ≡ abi → p.strict ≡ strict → flow ≡ flow_of p) }
{
    let levels = enough(objects.len(), found.nodes)?;
    let source = Source::of(alloc, text, functions, levels);
    graph_from(alloc, &source, found, objects, abi, strict)
}

/// How many levels are enough where there are so many static objects and so many parts. Where that would not fit, memory is wanting.
fn enough(count: usize, nodes: u64) -> Result<u64, NoMemory>
    ensures { IfOk result (λ levels. levels ≡ count + 8 * nodes) }
{
    let Some(parts) = nodes.checked_mul(8) else {
        return Err(NoMemory);
    };
    match (count as u64).checked_add(parts) {
        None => Err(NoMemory),
        Some(levels) => Ok(levels),
    }
}

/// The graph of a program of these static objects, with these initialisers, if it has one.
fn graph_from(
    alloc: Global,
    source: &Source,
    found: &StaticSets,
    objects: &[Object],
    abi: Abi,
    strict: bool,
) -> Result<Option<Flow>, NoMemory>
    ensures { IfOk result (λ flow. (p : Program) → IsSource source.now p → (text_of p).statics ≡ objects.now → (text_of p).sets ≡ found.now.sets → p.abi ≡ abi
        → p.strict ≡ strict → flow ≡ flow_of p) }
{
    let statics = Names::of(alloc, 0, objects)?;
    let mut builder = Builder::new(alloc);
    builder.objects(true, objects)?;
    let mut placed = List::new(alloc);
    let main = place_all(alloc, source, &statics, &mut builder, strict, &mut placed)?;
    let mut initials = List::new(alloc);
    let whole = push_initials(
        source,
        &statics,
        objects,
        &mut initials,
        found.sets.as_slice(),
    )?;
    graph_where(alloc, builder, placed, whole, &initials, main, abi, strict)
}

/// All functions, and where main may not return while an allocated block lives main once more. It answers the number of the function with which the program begins.
fn place_all(
    alloc: Global,
    source: &Source,
    statics: &Names,
    builder: &mut Builder,
    strict: bool,
    placed: &mut List<FlowFunction>,
) -> Result<Option<u32>, NoMemory>
    requires { placed.old ≡ [] }
    ensures { IfOk result (λ main. (p : Program) → IsSource source.now p → p.strict ≡ strict
        → (record { made = made_of builder.new; functions = placed.new } ≡ place_all (text_of p) statics.now (made_of builder.old))
        × (main ≡ first_number (text_of p) (main_number (text_of p).functions))) }
{
    let functions = source.functions();
    place_functions(alloc, source, statics, builder, placed, functions)?;
    let number = main_number(functions)?;
    if !strict {
        return Ok(number);
    }
    let Ok(count) = u32::try_from(placed.len()) else {
        return Err(NoMemory);
    };
    place_main(alloc, source, statics, builder, placed, functions)?;
    Ok(instead(number, count))
}

/// This number in place of another one, if there is one.
fn instead(number: Option<u32>, count: u32) -> Option<u32>
    ensures { result ≡ option_map (λ main. count) number }
{
    match number {
        None => None,
        Some(_) => Some(count),
    }
}

/// The functions, one behind the other.
fn place_functions(
    alloc: Global,
    source: &Source,
    statics: &Names,
    builder: &mut Builder,
    placed: &mut List<FlowFunction>,
    functions: &Functions,
) -> Result<(), NoMemory>
    ensures { OnOk result ((p : Program) → IsSource source.now p
        → record { made = made_of builder.new; functions = placed.new }
        ≡ place_functions (text_of p) statics.now (map (function_as p) functions.now) (made_of builder.old) placed.old) }
{
    let mut number: u32 = 0;
    while let Some(function) = functions.get(number) {
        let one = place_function(alloc, source, statics, builder, false, function)?;
        placed.push(one)?;
        match number.checked_add(1) {
            None => return Err(NoMemory),
            Some(next) => number = next,
        }
    }
    Ok(())
}

/// Main once more, which looks at its end for blocks that were never freed, if there is a main.
fn place_main(
    alloc: Global,
    source: &Source,
    statics: &Names,
    builder: &mut Builder,
    placed: &mut List<FlowFunction>,
    functions: &Functions,
) -> Result<(), NoMemory>
    ensures { OnOk result ((p : Program) → IsSource source.now p
        → record { made = made_of builder.new; functions = placed.new }
        ≡ with_main (text_of p) statics.now (option_map (function_as p) (main_in functions.now)) (record { made = made_of builder.old; functions = placed.old })) }
{
    match functions.main() {
        None => Ok(()),
        Some(main) => {
            let one = place_function(alloc, source, statics, builder, true, main)?;
            placed.push(one)
        }
    }
}

/// The number of the first function that is main, if one is.
fn main_number(functions: &Functions) -> Result<Option<u32>, NoMemory>
    ensures { IfOk result (λ number. (p : Program) → number ≡ main_number (map (function_as p) functions.now)) }
{
    let mut number: u32 = 0;
    while let Some(function) = functions.get(number) {
        if function.is_main() {
            return Ok(Some(number));
        }
        match number.checked_add(1) {
            None => return Err(NoMemory),
            Some(next) => number = next,
        }
    }
    Ok(None)
}

/// The graph of what is made, where all static values are known, there is a main, and each part has a graph.
fn graph_where(
    alloc: Global,
    builder: Builder,
    placed: List<FlowFunction>,
    whole: bool,
    initials: &List<Initial>,
    main: Option<u32>,
    abi: Abi,
    strict: bool,
) -> Result<Option<Flow>, NoMemory>
    ensures { IfOk result (λ flow. (p : Program) → p.strict ≡ strict
        → flow ≡ graph_where abi (text_of p) (record { made = made_of builder; functions = placed }) (if whole then Some initials.now else None) main) }
{
    match main {
        None => Ok(None),
        Some(main) => {
            if !whole || !builder.is_graph {
                return Ok(None);
            }
            let initial = latest_scalars(alloc, initials.as_slice())?;
            Ok(Some(Flow {
                points: builder.points,
                edges: builder.edges,
                functions: placed,
                variables: builder.variables,
                initial,
                heads: builder.heads,
                main,
                stands: builder.stands,
                abi,
                strict,
            }))
        }
    }
}
