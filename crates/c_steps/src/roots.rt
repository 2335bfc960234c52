ghost use Rattle.std.specs.Prelude.{◌≡◌, [], ◌∷◌, ◌++◌, OnOk};
ghost use Rattle.std.specs.List.{flat_map};
ghost use Rattle.c_machine.specs.State.{objects_of, blocks_of, led_to};

use crate::frames::Frame;
use crate::stack::Stack;
use bytes_core::Word;
use c_machine::Variable;
use cbase::NoMemory;

/// The blocks of objects.
fn add_scope(roots: &mut Vec<u32>, scope: &[Variable]) -> Result<(), NoMemory>
    ensures { OnOk result (roots.new.items ≡ roots.old.items ++ blocks_of scope.now) }
{
    for variable in scope {
        roots.push(variable.block)?;
    }
    Ok(())
}

/// The blocks of the objects of a function.
fn add_frame(roots: &mut Vec<u32>, frame: &Frame) -> Result<(), NoMemory>
    ensures { OnOk result (roots.new.items ≡ roots.old.items ++ blocks_of (objects_of frame.now)) }
{
    for at in 0..frame.len() {
        add_scope(roots, frame.item(at).as_slice())?;
    }
    Ok(())
}

/// The blocks of the objects of the callers.
fn add_callers(roots: &mut Vec<u32>, callers: &Stack<Frame>) -> Result<(), NoMemory>
    ensures { OnOk result (roots.new.items ≡ roots.old.items ++ blocks_of (flat_map objects_of callers.now)) }
{
    for at in 0..callers.len() {
        add_frame(roots, callers.item(at))?;
    }
    Ok(())
}

/// The block to which an operand leads.
fn add_operand(roots: &mut Vec<u32>, operand: Word) -> Result<(), NoMemory>
    ensures { OnOk result (roots.new.items ≡ roots.old.items ++ led_to (operand ∷ [])) }
{
    if let Word::To { block, .. } = operand {
        roots.push(block)?;
    }
    Ok(())
}

/// The blocks to which operands lead.
fn add_operands(roots: &mut Vec<u32>, operands: &Stack<Word>) -> Result<(), NoMemory>
    ensures { OnOk result (roots.new.items ≡ roots.old.items ++ led_to operands.now) }
{
    for at in 0..operands.len() {
        add_operand(roots, *operands.item(at))?;
    }
    Ok(())
}

/// Where chains of stored pointers start: at the objects of all functions that run, at those that live as long as the program runs, and at what
/// unfinished expressions hold.
pub(crate) fn add_roots(
    roots: &mut Vec<u32>,
    frame: &Frame,
    callers: &Stack<Frame>,
    statics: &[Variable],
    operands: &Stack<Word>,
) -> Result<(), NoMemory>
    requires { roots.old.items ≡ [] }
    ensures { OnOk result (roots.new.items ≡ blocks_of (objects_of frame.now)
        ++ (blocks_of (flat_map objects_of callers.now) ++ (blocks_of statics.now ++ led_to operands.now))) }
{
    add_frame(roots, frame)?;
    add_callers(roots, callers)?;
    add_scope(roots, statics)?;
    add_operands(roots, operands)
}
