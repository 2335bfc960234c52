//! The instructions that touch registers alone.
ghost use Rattle.std.specs.Prelude.{◌≡◌, ◌∷◌, [], true, IfOk};
ghost use Rattle.graph.specs.declared.value.Value.TheVariants.{Const};
ghost use Rattle.graph.specs.Sizes.{is_scalar_size, is_sized};
ghost use Rattle.changes.specs.Following.{StepMeans};
ghost use Rattle.changes.specs.Posted.{IsPost};
ghost use Rattle.register_steps.specs.Gaining.{GainTail, size_held};
ghost use Rattle.register_steps.specs.Lines.{size_given};
ghost use Rattle.register_steps.specs.States.{NoFault, Numbers, Addresses, Moves, Shifts, ShiftsBy, Computes, Converts, Inputs};
ghost use Rattle.register_steps.specs.Steps.{number_post, address_post, move_post, shift_post, shift_by_post, compute_post, convert_post, input_post};

use crate::gaining::line_post;
use crate::held::{
    input_line, line_of_address, line_of_compute, line_of_convert, line_of_move, line_of_shift,
    line_of_shift_by,
};
use crate::line::exactly;
use arithmetic::Op;
use cbase::NoMemory;
use graph::{Graph, Post, Value};
use std::alloc::Global;

/// A register gets a constant of so many bytes.
///
/// The one graph stands for exactly the states that follow.
pub fn number(
    alloc: Global,
    graph: &Graph,
    into: u32,
    number: u64,
    size: u8,
) -> Result<Post, NoMemory>
    requires sized { is_sized (Const number size) ≡ true }
    ensures post { IfOk result (λ post. IsPost (number_post graph.now into number size) post) }
    ensures means { IfOk result (λ post. StepMeans graph.now (Numbers into number) NoFault (GainTail graph.now [] into size) post) }
{
    line_post(
        alloc,
        graph,
        &[],
        into,
        exactly(Value::Const { number, size }),
    )
}

/// A register gets the address of a variable (C11 6.5.3.2p3).
///
/// The one graph stands for exactly the states that follow. Where the variable does not stand there is none.
pub fn address(alloc: Global, graph: &Graph, into: u32, variable: u32) -> Result<Post, NoMemory>
    ensures post { IfOk result (λ post. IsPost (address_post graph.now into variable) post) }
    ensures means { IfOk result (λ post. StepMeans graph.now (Addresses into variable) NoFault (GainTail graph.now [] into 8) post) }
{
    line_post(alloc, graph, &[], into, line_of_address(graph, variable))
}

/// A register gets what another one holds, which keeps it.
///
/// The one graph stands for exactly the states that follow, and so it does in the steps below where no loss is named. Where a register that is
/// read holds nothing there is no graph.
pub fn move_to(alloc: Global, graph: &Graph, into: u32, from: u32) -> Result<Post, NoMemory>
    ensures post { IfOk result (λ post. IsPost (move_post graph.now into from) post) }
    ensures means { IfOk result (λ post. StepMeans graph.now (Moves into from) NoFault (GainTail graph.now [] into (size_held graph.now from)) post) }
{
    line_post(alloc, graph, &[], into, line_of_move(graph, from))
}

/// A register gets an address moved by so many bytes (C11 6.5.6p8). The register `at` is empty then.
///
/// An offset wraps as a 64-bit number with a sign, a constant modulo 2^64. Of a node of a segment, too, the offset alone changes. Loss 1 is
/// named where a plain number that is no constant, or any word, is moved.
pub fn shift(alloc: Global, graph: &Graph, into: u32, at: u32, by: i64) -> Result<Post, NoMemory>
    ensures post { IfOk result (λ post. IsPost (shift_post graph.now into at by) post) }
    ensures means { IfOk result (λ post. StepMeans graph.now (Shifts into at by) NoFault (GainTail graph.now (at ∷ []) into 8) post) }
{
    line_post(alloc, graph, &[at], into, line_of_shift(graph, at, by))
}

/// A register gets an address moved by what the register `by` holds, read with a sign, times so many bytes (C11 6.5.6p8). Both are empty then.
///
/// By a constant it is moved as by `shift`. Loss 7 is named where an address is moved by anything else, which gives any word; and loss 1 where a
/// number or any word is.
pub fn shift_by(
    alloc: Global,
    graph: &Graph,
    into: u32,
    at: u32,
    by: u32,
    scale: i64,
) -> Result<Post, NoMemory>
    ensures post { IfOk result (λ post. IsPost (shift_by_post graph.now into at by scale) post) }
    ensures means { IfOk result (λ post. StepMeans graph.now (ShiftsBy into at by scale) NoFault (GainTail graph.now (at ∷ by ∷ []) into 8) post) }
{
    line_post(
        alloc,
        graph,
        &[at, by],
        into,
        line_of_shift_by(graph, at, by, scale),
    )
}

/// A register gets what an operator gives for two integers of so many bytes, with a sign or without (C11 6.5.5 to 6.5.12). Both are empty then.
///
/// Two constants give a constant, and no graph where the operation has no value: for a division by zero, and for a shift by as many bits as there
/// are. Of others loss 2 is named for a test of order, which gives a graph with 0 and one with 1, and else loss 1 for some number of the size.
pub fn compute(
    alloc: Global,
    graph: &Graph,
    into: u32,
    op: Op,
    left: u32,
    right: u32,
    size: u8,
    signed: bool,
) -> Result<Post, NoMemory>
    requires size { is_scalar_size size ≡ true }
    ensures post { IfOk result (λ post. IsPost (compute_post graph.now into op left right size signed) post) }
    ensures means { IfOk result (λ post. StepMeans graph.now (Computes into op left right size signed) NoFault (GainTail graph.now (left ∷ right ∷ []) into (size_given op size)) post) }
{
    line_post(
        alloc,
        graph,
        &[left, right],
        into,
        line_of_compute(graph, op, left, right, size, signed),
    )
}

/// A register gets what another one holds, converted to a size by the sign of the type that is converted (C11 6.3.1.3). That one is empty then.
///
/// To the size that it has a number stays, and a constant gives a constant. Loss 1 is named for other numbers, and for an address or any word.
pub fn convert(
    alloc: Global,
    graph: &Graph,
    into: u32,
    from: u32,
    size: u8,
    signed: bool,
) -> Result<Post, NoMemory>
    requires size { is_scalar_size size ≡ true }
    ensures post { IfOk result (λ post. IsPost (convert_post graph.now into from size signed) post) }
    ensures means { IfOk result (λ post. StepMeans graph.now (Converts into from (size_held graph.now from) size signed) NoFault (GainTail graph.now (from ∷ []) into size) post) }
{
    line_post(
        alloc,
        graph,
        &[from],
        into,
        line_of_convert(graph, from, size, signed),
    )
}

/// A register gets a value from outside: any number of so many bytes, or a truth value, for which there are two graphs.
///
/// Together the graphs stand for exactly the states that follow.
pub fn input(
    alloc: Global,
    graph: &Graph,
    into: u32,
    size: u8,
    truth: bool,
) -> Result<Post, NoMemory>
    requires size { is_scalar_size size ≡ true }
    ensures post { IfOk result (λ post. IsPost (input_post graph.now into size truth) post) }
    ensures means { IfOk result (λ post. StepMeans graph.now (Inputs into size truth) NoFault (GainTail graph.now [] into size) post) }
{
    line_post(alloc, graph, &[], into, input_line(size, truth))
}
