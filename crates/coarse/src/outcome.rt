//! A graph in which constants beyond a limit are forgotten.
ghost use Rattle.std.specs.Prelude.{◌≡◌, true, [], IfOk, OnOk};
ghost use Rattle.graph.specs.Meaning.{StandsFor};
ghost use Rattle.graph.specs.State.{State};
ghost use Rattle.graph.specs.Whole.{IsGraph};
ghost use Rattle.tidying.specs.Fits.{FitsAs};
ghost use Rattle.coarse.specs.Coarsened.{coarsened, is_coarse};

use crate::marks::spared_marks;
use crate::values::{coarsen_values, goes_any};
use cbase::{List, NoMemory, Stop};
use graph::{Graph, KeyedValue, Parts, built};
use std::alloc::Global;

/// Puts what is left of the values of parts into an empty list.
fn coarse_values(
    alloc: Global,
    parts: &Parts,
    limit: u32,
    values: &mut List<KeyedValue>,
) -> Result<(), NoMemory>
    requires graph { IsGraph parts.now }
    requires empty { values.old ≡ [] }
    ensures { OnOk result (values.new ≡ (coarsened limit parts.now).values) }
{
    let marks = spared_marks(alloc, parts)?;
    coarsen_values(limit, marks.as_slice(), parts.values.as_slice(), values)?;
    Ok(())
}

/// What is left of parts.
fn coarse_parts(alloc: Global, parts: Parts, limit: u32) -> Result<Parts, NoMemory>
    requires { IsGraph parts }
    ensures { IfOk result (λ after. after ≡ coarsened limit parts) }
{
    let mut left = List::new(alloc);
    match coarse_values(alloc, &parts, limit, &mut left) {
        Err(error) => {
            drop(parts);
            Err(error)
        }
        Ok(()) => {
            let Parts {
                objects,
                values: _,
                variables,
                registers,
                ports,
                unequal,
            } = parts;
            Ok(Parts {
                objects,
                values: left,
                variables,
                registers,
                ports,
                unequal,
            })
        }
    }
}

/// The graph of what is left of parts.
fn coarse_graph(alloc: Global, parts: Parts, limit: u32) -> Result<Graph, NoMemory>
    requires { IsGraph parts }
    ensures { IfOk result (λ after. after ≡ coarsened limit parts) }
{
    match coarse_parts(alloc, parts, limit) {
        Err(error) => Err(error),
        Ok(left) => match built(alloc, left) {
            Ok(after) => Ok(after),
            Err(Stop::NoMemory) => Err(NoMemory),
            Err(Stop::Large) => unreachable!(),
        },
    }
}

/// A graph in which constants beyond plus or minus `limit` are forgotten: each becomes some number of its size. A constant counts with a sign. Those beyond
/// an end of a segment stay, and those of ports. Keys are as they were. It takes time in proportion to the graph, and to the logarithm of its size for each key.
pub fn coarse(alloc: Global, graph: &Graph, limit: u32) -> Result<Graph, NoMemory>
    ensures ok { IfOk result (λ after. after ≡ coarsened limit graph.now) }
    ensures means { IfOk result (λ after. (state : State) → StandsFor graph.now state → StandsFor after state) }
    ensures holds { IfOk result (λ after. FitsAs graph.now after) }
    ensures settled { IfOk result (λ after. is_coarse limit after ≡ true) }
{
    match graph.parts(alloc) {
        Err(error) => Err(error),
        Ok(parts) => coarse_graph(alloc, parts, limit),
    }
}

/// Whether parts have no constant that is to be forgotten.
fn are_coarse(alloc: Global, parts: &Parts, limit: u32) -> Result<bool, NoMemory>
    requires { IsGraph parts.now }
    ensures { IfOk result (λ coarse. coarse ≡ is_coarse limit parts.now) }
{
    match spared_marks(alloc, parts) {
        Err(error) => Err(error),
        Ok(marks) => Ok(!goes_any(limit, marks.as_slice(), parts.values.as_slice())),
    }
}

/// Whether a graph has no constant beyond plus or minus `limit`, with its sign, but those beyond an end of a segment and those of ports. It takes time in
/// proportion to the graph.
pub fn is_coarse(alloc: Global, graph: &Graph, limit: u32) -> Result<bool, NoMemory>
    ensures { IfOk result (λ coarse. coarse ≡ is_coarse limit graph.now) }
{
    match graph.parts(alloc) {
        Err(error) => Err(error),
        Ok(parts) => {
            let answer = are_coarse(alloc, &parts, limit);
            drop(parts);
            answer
        }
    }
}
