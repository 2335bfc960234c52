//! What stands around a form.
ghost use Rattle.std.specs.Prelude.{◌≡◌, ◌++◌};
ghost use Rattle.simulation.specs.Names.{names_of, variable_in};

use crate::jobs::LoopAround;
use c_machine::Kind;
use c_steps::Stack;
use cbase::List;
use lowering::names::{Named, variable_in};
use lowering::static_names::Names;

/// The objects of the blocks that stand, the innermost block first.
pub type Scopes = Stack<List<Named>>;

/// Of the function around: its exit, the kind of its result and the register for that, and whether blocks are looked for that were never freed.
#[derive(Clone, Copy)]
pub struct Frame {
    /// The point of its exit.
    pub exit: u32,
    /// The kind of its result.
    pub kind: Kind,
    /// The register for its result.
    pub result: u32,
    /// Whether blocks are looked for that were never freed.
    pub closes: bool,
}

/// What stands around a form: the blocks, the loop, the function and the static objects.
#[derive(Drop)]
pub struct Surroundings<'a> {
    /// The blocks.
    pub scopes: Scopes,
    /// The loop, if there is one.
    pub current: Option<LoopAround>,
    /// The function.
    pub frame: Frame,
    /// The static objects.
    pub statics: &'a Names,
}

/// The variable of an object by its name: of a block, the innermost first, or of a static one.
#[tactic(auto, using(lowering::proofs::ScopesLeft::in_all, lowering::proofs::ScopesLeft::in_statics))]
pub(crate) fn variable_of(scopes: &Scopes, statics: &Names, token: u32) -> Option<u32>
    ensures { result ≡ variable_in (names_of scopes.now ++ statics.now) token }
{
    match variable_in_scopes(scopes, token) {
        None => statics.variable(token),
        Some(variable) => Some(variable),
    }
}

/// The variable of an object of a block by its name. It takes a step for each object in front of it.
#[tactic(auto, using(lowering::proofs::ScopesLeft::here, lowering::proofs::ScopesLeft::behind))]
fn variable_in_scopes(scopes: &Scopes, token: u32) -> Option<u32>
    ensures { result ≡ variable_in (names_of scopes.now) token }
{
    let mut at = 0;
    while at < scopes.len() {
        match variable_in(scopes.item(at).as_slice(), token) {
            None => at += 1,
            Some(variable) => return Some(variable),
        }
    }
    None
}
