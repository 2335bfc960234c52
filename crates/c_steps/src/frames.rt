ghost use Rattle.std.specs.Prelude.{◌≡◌, ◌<◌, ℕ, [], ◌∷◌, ◌++◌, OnOk};
ghost use Rattle.c_machine.specs.declared.variable.Variable.{Variable};
ghost use Rattle.c_machine.specs.Choosing.{in_innermost};
ghost use Rattle.c_machine.specs.State.{is_named, block_in, objects_of, blocks_of};
ghost use Rattle.c_machine.specs.Step.{without_objects};
ghost use Rattle.c_steps.specs.Named.{IsFrameBelow};

use crate::stack::Stack;
use bytes_core::Memory;
use c_machine::Variable;
use cbase::{List, NoMemory};
use std::alloc::Global;

/// The objects of a function, those of the innermost block first.
pub(crate) type Frame = Stack<List<Variable>>;

/// Whether that is the token of a name.
fn is_named(name: Option<u32>, token: u32) -> bool
    ensures { result ≡ is_named name token }
{
    match name {
        None => false,
        Some(name) => name == token,
    }
}

/// The block of the first of these objects whose name that is.
fn block_in_scope(scope: &[Variable], token: u32) -> Option<u32>
    ensures { result ≡ block_in scope.now token }
{
    for variable in scope {
        if is_named(variable.token, token) {
            return Some(variable.block);
        }
    }
    None
}

/// The block of the object of a function that the name behind so many tokens declared first, in the innermost block that has it.
#[tactic(auto, using(crate::proofs::Lookups::found_in_front, crate::proofs::Lookups::found_behind_scope, crate::proofs::Behind::none_left))]
pub(crate) fn block_in_frame(frame: &Frame, token: u32) -> Option<u32>
    ensures { result ≡ block_in (objects_of frame.now) token }
{
    for at in 0..frame.len() {
        if let Some(block) = block_in_scope(frame.item(at).as_slice(), token) {
            return Some(block);
        }
    }
    None
}

/// Takes the objects of the innermost block, or none where there is no block.
fn take_innermost(alloc: Global, frame: &mut Frame) -> List<Variable>
    ensures more { (variable : Variable) → in_innermost variable frame.old ≡ (result ++ variable ∷ []) ∷ frame.new }
    ensures named { (count : ℕ) → IsFrameBelow count frame.old → IsFrameBelow count (result ∷ frame.new) }
{
    match frame.pop() {
        None => List::new(alloc),
        Some(scope) => scope,
    }
}

/// An object of the innermost block (C11 6.2.4p6).
#[tactic(auto, using(crate::proofs::Names::below_outer, crate::proofs::Names::below_more))]
pub(crate) fn declare(alloc: Global, frame: &mut Frame, variable: Variable) -> Result<(), NoMemory>
    ensures ok { OnOk result (frame.new ≡ in_innermost variable frame.old) }
    ensures named { (count : ℕ) → IsFrameBelow count frame.old → variable.block < count → IsFrameBelow count frame.new }
{
    let mut scope = take_innermost(alloc, frame);
    scope.push(variable)?;
    frame.push(scope)
}

/// The objects of a block die (C11 6.2.4p6).
pub(crate) fn end_scope(memory: &mut Memory, scope: &[Variable])
    ensures { memory.new ≡ without_objects (blocks_of scope.now) memory.old }
{
    for variable in scope {
        memory.end(variable.block);
    }
}

/// All objects of a function die.
#[tactic(auto, using(crate::proofs::Names::ended_apart))]
pub(crate) fn end_frame(memory: &mut Memory, frame: &mut Frame)
    ensures memory { memory.new ≡ without_objects (blocks_of (objects_of frame.old)) memory.old }
    ensures frame { frame.new ≡ [] }
{
    while let Some(scope) = frame.pop() {
        end_scope(memory, scope.as_slice());
    }
}
