//! The instructions by their names, each with the numbers that it has, in their order.
use crate::numbers::Numbers;
use arithmetic::Op;
use cbase::NoMemory;
use flow::Instr;
use std::alloc::Global;

/// The instruction of a name, with these numbers. `call FUNCTION ARGUMENT ..` wants no result, and
/// `call_into REGISTER FUNCTION ARGUMENT ..` one; so `return` and `return_of REGISTER`. `compute` has its operator's number
/// from 0 on behind the first register.
pub fn instr_named(alloc: Global, name: &str, numbers: &mut Numbers) -> Result<Instr, NoMemory> {
    match name {
        "enter" => Ok(Instr::Enter {
            variables: numbers.rest(alloc)?,
        }),
        "leave" => Ok(Instr::Leave {
            variables: numbers.rest(alloc)?,
        }),
        "finish" => Ok(Instr::Finish {
            registers: numbers.rest(alloc)?,
        }),
        "call" => Ok(Instr::Call {
            function: numbers.short(),
            arguments: numbers.rest(alloc)?,
            into: None,
        }),
        "call_into" => call_into(alloc, numbers),
        _ => Ok(flat_instr(name, numbers)),
    }
}

fn call_into(alloc: Global, numbers: &mut Numbers) -> Result<Instr, NoMemory> {
    let into = numbers.short();
    let function = numbers.short();
    Ok(Instr::Call {
        function,
        arguments: numbers.rest(alloc)?,
        into: Some(into),
    })
}

/// The instruction of a name that has no list.
fn flat_instr(name: &str, numbers: &mut Numbers) -> Instr {
    match name {
        "number" => Instr::Number {
            into: numbers.short(),
            value: numbers.long(),
            size: numbers.byte(),
        },
        "address" => Instr::Address {
            into: numbers.short(),
            variable: numbers.short(),
        },
        "move" => Instr::Move {
            into: numbers.short(),
            from: numbers.short(),
        },
        "if_same" => Instr::IfSame {
            left: numbers.short(),
            right: numbers.short(),
        },
        "if_different" => Instr::IfDifferent {
            left: numbers.short(),
            right: numbers.short(),
        },
        "input" => Instr::Input {
            into: numbers.short(),
            size: numbers.byte(),
            signed: numbers.flag(),
            truth: numbers.flag(),
        },
        "return" => Instr::Return { from: None },
        "return_of" => Instr::Return {
            from: Some(numbers.short()),
        },
        "close" => Instr::Close,
        _ => memory_instr(name, numbers),
    }
}

/// The instruction of a name that accesses, allocates or frees memory.
fn memory_instr(name: &str, numbers: &mut Numbers) -> Instr {
    match name {
        "read" => Instr::Read {
            into: numbers.short(),
            at: numbers.short(),
            size: numbers.byte(),
            pointer: numbers.flag(),
        },
        "write" => Instr::Write {
            at: numbers.short(),
            from: numbers.short(),
            size: numbers.byte(),
        },
        "allocate" => Instr::Allocate {
            into: numbers.short(),
            bytes: numbers.short(),
            zeroed: numbers.flag(),
        },
        "allocate_none" => Instr::AllocateNone {
            into: numbers.short(),
        },
        "release" => Instr::Release {
            at: numbers.short(),
        },
        "fill" => Instr::Fill {
            at: numbers.short(),
            from: numbers.short(),
            length: numbers.short(),
        },
        "copy" => Instr::Copy {
            to: numbers.short(),
            from: numbers.short(),
            length: numbers.short(),
            disjoint: numbers.flag(),
        },
        _ => computing_instr(name, numbers),
    }
}

/// The instruction of a name that computes; where the name is none the numbers are wrong.
fn computing_instr(name: &str, numbers: &mut Numbers) -> Instr {
    match name {
        "shift" => Instr::Shift {
            into: numbers.short(),
            at: numbers.short(),
            by: numbers.signed(),
        },
        "shift_by" => Instr::ShiftBy {
            into: numbers.short(),
            at: numbers.short(),
            by: numbers.short(),
            scale: numbers.signed(),
        },
        "compute" => Instr::Compute {
            into: numbers.short(),
            op: op(numbers.up_to(11)),
            left: numbers.short(),
            right: numbers.short(),
            size: numbers.byte(),
            signed: numbers.flag(),
        },
        "convert" => Instr::Convert {
            into: numbers.short(),
            from: numbers.short(),
            size: numbers.byte(),
            signed: numbers.flag(),
        },
        _ => {
            numbers.wrong = true;
            Instr::Close
        }
    }
}

/// The operator of a number.
fn op(number: u64) -> Op {
    match number {
        0 => Op::Add,
        1 => Op::Sub,
        2 => Op::Mul,
        3 => Op::Div,
        4 => Op::Rem,
        5 => Op::And,
        6 => Op::Or,
        7 => Op::Xor,
        8 => Op::Left,
        9 => Op::Right,
        10 => Op::Less,
        _ => Op::LessEqual,
    }
}
