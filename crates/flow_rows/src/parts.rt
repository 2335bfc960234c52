//! The parts that a text spells, one behind the other.
use crate::instr::instr_named;
use crate::numbers::{Numbers, numbers_of};
use cbase::{Abi, List, NoMemory, Place};
use flow::{Flow, FlowEdge, FlowFunction, Initial, InitialWord, Instr, Standing, Variable, Width};
use std::alloc::Global;

/// The data without points, in which main is function 0.
pub fn blank(alloc: Global) -> Flow {
    Flow {
        points: 0,
        edges: List::new(alloc),
        functions: List::new(alloc),
        variables: List::new(alloc),
        initial: List::new(alloc),
        heads: List::new(alloc),
        main: 0,
        stands: List::new(alloc),
        abi: Abi::Lp64,
        strict: false,
    }
}

/// Puts the parts of a text to the data; whether each was read.
pub fn read(alloc: Global, flow: &mut Flow, text: &str) -> Result<bool, NoMemory> {
    for part in text.split(';') {
        if !read_part(alloc, flow, part.trim())? {
            return Ok(false);
        }
    }
    Ok(true)
}

/// Puts a part to the data; whether it was read. No word is no part.
fn read_part(alloc: Global, flow: &mut Flow, part: &str) -> Result<bool, NoMemory> {
    if part.is_empty() {
        return Ok(true);
    }
    let (name, text) = part.split_once(' ').unwrap_or((part, ""));
    let mut numbers = numbers_of(alloc, text)?;
    put(alloc, flow, name, &mut numbers)?;
    Ok(!numbers.wrong && numbers.next == numbers.items.len())
}

/// Puts a part of this name to the data:
///
/// - `points COUNT`, `main FUNCTION`, `strict 0` or `strict 1`, `loop POINT` for a loop head;
/// - `local SIZE` or `static SIZE` for a variable, `function ENTRY EXIT PARAMETER ..`;
/// - `holds VARIABLE AT SIZE NUMBER` or `leads VARIABLE AT SIZE TARGET OFFSET`: a scalar of a static variable at the start;
/// - `stand COUNT VARIABLE .. REGISTER SIZE ..`: what stands at the next point, with the count of the variables, and `stands COUNT` for so
///   many points at which nothing does;
/// - `forks POINT COUNT SIDES`: so many forks in a row from a point on, each of so many edges without registers to the next point;
/// - any other name is that of an instruction, and its first two numbers are the points of its edge.
fn put(alloc: Global, flow: &mut Flow, name: &str, numbers: &mut Numbers) -> Result<(), NoMemory> {
    match name {
        "loop" => flow.heads.push(numbers.short()),
        "local" => flow.variables.push(variable(numbers, false)),
        "static" => flow.variables.push(variable(numbers, true)),
        "function" => put_function(alloc, &mut flow.functions, numbers),
        "holds" => flow.initial.push(holding(numbers)),
        "leads" => flow.initial.push(leading(numbers)),
        "stand" => put_standing(alloc, &mut flow.stands, numbers),
        "stands" => put_stands(alloc, &mut flow.stands, numbers.short()),
        "forks" => put_forks(alloc, &mut flow.edges, numbers),
        "points" | "main" | "strict" => {
            set(flow, name, numbers);
            Ok(())
        }
        _ => put_edge(alloc, &mut flow.edges, name, numbers),
    }
}

/// Sets a number of the data.
fn set(flow: &mut Flow, name: &str, numbers: &mut Numbers) {
    match name {
        "points" => flow.points = numbers.short(),
        "main" => flow.main = numbers.short(),
        _ => flow.strict = numbers.flag(),
    }
}

fn variable(numbers: &mut Numbers, fixed: bool) -> Variable {
    Variable {
        size: numbers.short(),
        fixed,
    }
}

fn put_function(
    alloc: Global,
    functions: &mut List<FlowFunction>,
    numbers: &mut Numbers,
) -> Result<(), NoMemory> {
    let entry = numbers.short();
    let exit = numbers.short();
    functions.push(FlowFunction {
        entry,
        exit,
        parameters: numbers.rest(alloc)?,
    })
}

fn holding(numbers: &mut Numbers) -> Initial {
    Initial {
        variable: numbers.short(),
        at: numbers.short(),
        size: numbers.byte(),
        word: InitialWord::Number(numbers.long()),
    }
}

fn leading(numbers: &mut Numbers) -> Initial {
    Initial {
        variable: numbers.short(),
        at: numbers.short(),
        size: numbers.byte(),
        word: InitialWord::Address {
            variable: numbers.short(),
            offset: numbers.signed(),
        },
    }
}

fn put_standing(
    alloc: Global,
    stands: &mut List<Standing>,
    numbers: &mut Numbers,
) -> Result<(), NoMemory> {
    let count = numbers.short();
    let variables = numbers.some(alloc, count as usize)?;
    let registers = widths(alloc, numbers)?;
    stands.push(Standing {
        variables,
        registers,
    })
}

/// The registers and sizes that the numbers left tell.
fn widths(alloc: Global, numbers: &mut Numbers) -> Result<List<Width>, NoMemory> {
    let mut widths: List<Width> = List::new(alloc);
    let left = numbers.items.len().saturating_sub(numbers.next);
    for _ in 0..left.div_ceil(2) {
        widths.push(Width {
            register: numbers.short(),
            size: numbers.byte(),
        })?;
    }
    Ok(widths)
}

fn put_stands(alloc: Global, stands: &mut List<Standing>, count: u32) -> Result<(), NoMemory> {
    for _ in 0..count {
        stands.push(Standing {
            variables: List::new(alloc),
            registers: List::new(alloc),
        })?;
    }
    Ok(())
}

fn put_edge(
    alloc: Global,
    edges: &mut List<FlowEdge>,
    name: &str,
    numbers: &mut Numbers,
) -> Result<(), NoMemory> {
    let from = numbers.short();
    let to = numbers.short();
    edges.push(FlowEdge {
        from,
        to,
        instr: instr_named(alloc, name, numbers)?,
        place: Place::NONE,
    })
}

/// An edge that does nothing.
fn plain(alloc: Global, from: u32, to: u32) -> FlowEdge {
    FlowEdge {
        from,
        to,
        instr: Instr::Finish {
            registers: List::new(alloc),
        },
        place: Place::NONE,
    }
}

fn put_forks(
    alloc: Global,
    edges: &mut List<FlowEdge>,
    numbers: &mut Numbers,
) -> Result<(), NoMemory> {
    let mut point = numbers.short();
    let forks = numbers.short();
    let sides = numbers.short();
    for _ in 0..forks {
        let next = point.saturating_add(1);
        for _ in 0..sides {
            edges.push(plain(alloc, point, next))?;
        }
        point = next;
    }
    Ok(())
}
