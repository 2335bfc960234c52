use crate::instruction::Instr;
use cbase::{Abi, List, Place};

/// A flow graph. Points, functions, variables and edges are numbered from 0.
#[derive(Drop)]
pub struct Flow {
    /// How many points there are.
    pub points: u32,
    /// The edges.
    pub edges: List<FlowEdge>,
    /// The functions.
    pub functions: List<FlowFunction>,
    /// The variables, those of all functions and the static ones.
    pub variables: List<Variable>,
    /// What static variables hold at the start; all other bytes of theirs are zero.
    pub initial: List<Initial>,
    /// The loop heads: the points to which the end of a loop's body leads back.
    pub heads: List<u32>,
    /// The number of the function main.
    pub main: u32,
    /// For each point what every state there has.
    pub stands: List<Standing>,
    /// The data layout of the program.
    pub abi: Abi,
    /// Whether a heap block that lives when main returns is a fault.
    pub strict: bool,
}

/// An edge: what is done between two points.
#[derive(Drop)]
pub struct FlowEdge {
    /// The point where it begins.
    pub from: u32,
    /// The point where it ends; for a call the point where the caller goes on.
    pub to: u32,
    /// What is done.
    pub instr: Instr,
    /// The place that a fault is told at.
    pub place: Place,
}

/// A function.
#[derive(Drop)]
pub struct FlowFunction {
    /// The point where a call of it begins.
    pub entry: u32,
    /// The point where all its returns meet.
    pub exit: u32,
    /// The variables of its parameters, in order.
    pub parameters: List<u32>,
}

/// A variable.
#[derive(Clone, Copy, Debug, PartialEq, Eq)]
pub struct Variable {
    /// How many bytes it has.
    pub size: u32,
    /// Whether it is a static object, which lives for the whole run.
    pub fixed: bool,
}

/// A scalar of a static object that has an initialiser.
#[derive(Clone, Copy, Debug, PartialEq, Eq)]
pub struct Initial {
    /// The variable.
    pub variable: u32,
    /// Where in it the scalar stands, in bytes.
    pub at: u32,
    /// How many bytes the scalar has.
    pub size: u8,
    /// What it holds.
    pub word: InitialWord,
}

/// What a scalar holds at the start.
#[derive(Clone, Copy, Debug, PartialEq, Eq)]
pub enum InitialWord {
    /// A number, as bits.
    Number(u64),
    /// An address in a static variable.
    Address {
        /// The variable.
        variable: u32,
        /// Where it leads, in bytes from the variable's first one.
        offset: i64,
    },
}

/// What every state at a point has.
#[derive(Drop)]
pub struct Standing {
    /// The variables of the frame, static ones aside, ascending.
    pub variables: List<u32>,
    /// The registers that hold something, with their sizes, ascending.
    pub registers: List<Width>,
}

/// A register and the size of what it holds.
#[derive(Clone, Copy, Debug, PartialEq, Eq)]
pub struct Width {
    /// The register.
    pub register: u32,
    /// The size in bytes.
    pub size: u8,
}
