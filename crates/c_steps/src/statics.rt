ghost use Rattle.std.specs.Prelude.{◌≡◌, ℕ, [], ◌∷◌, ◌++◌, None, Some, nat_eq, if◌then◌else◌, OnOk, OnErr};
ghost use Rattle.std.specs.BTreeMap.{get, IsUnchanged};
ghost use Rattle.std.specs.Ordering.{nat_cmp};
ghost use Rattle.c_machine.specs.State.{block_in};
ghost use Rattle.c_steps.specs.Statics.{or_else};

use c_machine::Variable;
use cbase::NoMemory;
use std::alloc::Global;
use std::collections::BTreeMap;
use std::marker::Model;

/// The objects that live as long as the program runs, in the order in which they were made (C11 6.2.4p3).
#[derive(Drop)]
pub struct Statics {
    variables: Vec<Variable>,
    blocks: BTreeMap<u32, u32>,
}

impl Model for Statics {
    ghost use Rattle.c_machine.specs.State.{Scope};
    ghost use Rattle.c_steps.specs.Statics.{FindsBlocks};

    ghost Value = { Scope };

    ghost view = { λ s. s.variables.items };

    ghost invariant = { λ s. FindsBlocks s.variables.items s.blocks };
}

/// Notes the block of a name, unless the name has one.
fn note(blocks: &mut BTreeMap<u32, u32>, token: u32, block: u32) -> Result<(), NoMemory>
    ensures ok { OnOk result ((name : ℕ) →
        get nat_cmp blocks.new name ≡ or_else (get nat_cmp blocks.old name) (if nat_eq token name then Some block else None)) }
    ensures err { OnErr result (IsUnchanged blocks.old blocks.new) }
{
    if blocks.contains_key(&token) {
        return Ok(());
    }
    blocks.insert(token, block)?;
    Ok(())
}

impl Statics {
    /// No object. It takes no memory.
    pub fn new(alloc: Global) -> Statics
        ensures { result ≡ [] }
    {
        Statics {
            variables: Vec::new(alloc),
            blocks: BTreeMap::new(alloc),
        }
    }

    /// The objects.
    pub fn as_slice(&self) -> &[Variable]
        ensures { result.now ≡ self.now }
    {
        self.variables.as_slice()
    }

    /// The block of the object that the name behind so many tokens declared first.
    pub fn block_in(&self, token: u32) -> Option<u32>
        ensures { result ≡ block_in self.now token }
    {
        self.blocks.get(&token).copied()
    }

    /// One more object. Where memory is wanting all stays as it was.
    #[tactic(auto, using(crate::proofs::Lookups::finds_nameless, crate::proofs::Lookups::finds_named))]
    pub fn push(&mut self, variable: Variable) -> Result<(), NoMemory>
        ensures ok { OnOk result (self.new ≡ self.old ++ variable ∷ []) }
        ensures err { OnErr result (self.new ≡ self.old) }
    {
        self.variables.push(variable)?;
        let Some(token) = variable.token else {
            return Ok(());
        };
        match note(&mut self.blocks, token, variable.block) {
            Ok(()) => Ok(()),
            Err(error) => {
                let _ = self.variables.pop();
                Err(error)
            }
        }
    }
}
