ghost use Rattle.std.specs.Prelude.{◌≡◌, ℕ, ◌++◌, ◌∷◌, [], Some, nat_eq, List as Items, OnOk, IfOk, if◌then◌else◌};
ghost use Rattle.std.specs.Map.{lookup};
ghost use Rattle.simulation.specs.Names.{Name, variable_in};
ghost use Rattle.lowering.specs.ByToken.{AreByToken};
ghost use Rattle.lowering.specs.Placing.{named_from};

use crate::names::{Named, push_named};
use c_machine::Object;
use cbase::{List, NoMemory};
use indexmap::IndexMap;
use std::alloc::Global;
use std::marker::Model;

/// Static objects, and the variable of each by its name.
///
/// Contracts see them as the list of these objects.
#[derive(Drop)]
pub struct Names {
    list: List<Named>,
    variables: IndexMap<u32, u32>,
}

impl Model for Names {
    ghost use Rattle.std.specs.Prelude.{List as Items};
    ghost use Rattle.simulation.specs.Names.{Name};
    ghost use Rattle.lowering.specs.ByToken.{AreByToken};

    ghost Value = { Items Name };

    ghost view = { λ n. n.list };

    ghost invariant = { λ n. AreByToken n.list n.variables.entries };
}

impl Names {
    /// Objects with variables from a number on. It takes time and memory for each.
    pub fn of(alloc: Global, first: u32, objects: &[Object]) -> Result<Names, NoMemory>
        ensures { IfOk result (λ names. names ≡ named_from first objects.now) }
    {
        let mut list = List::new(alloc);
        let mut variables = IndexMap::new(alloc);
        match fill(&mut list, &mut variables, first, objects) {
            Ok(()) => Ok(Names { list, variables }),
            Err(error) => Err(error),
        }
    }

    /// No objects.
    pub fn none(alloc: Global) -> Names
        ensures { result ≡ [] }
    {
        Names {
            list: List::new(alloc),
            variables: IndexMap::new(alloc),
        }
    }

    /// The variable of the first object of a name. It takes one look-up by hash.
    pub fn variable(&self, token: u32) -> Option<u32>
        ensures { result ≡ variable_in self.now token }
    {
        found(&self.variables, token)
    }
}

/// Puts objects with variables from a number on into a list and a map that are empty.
fn fill(
    list: &mut List<Named>,
    variables: &mut IndexMap<u32, u32>,
    first: u32,
    objects: &[Object],
) -> Result<(), NoMemory>
    requires list { list.old ≡ [] }
    requires variables { variables.old.entries ≡ [] }
    ensures list { OnOk result (list.new ≡ named_from first objects.now) }
    ensures variables { OnOk result (AreByToken list.new variables.new.entries) }
{
    push_named(list, first, objects)?;
    put_all(variables, list.as_slice())
}

/// Puts objects into a map that is empty.
fn put_all(variables: &mut IndexMap<u32, u32>, names: &[Named]) -> Result<(), NoMemory>
    requires { variables.old.entries ≡ [] }
    ensures { OnOk result (AreByToken names.now variables.new.entries) }
{
    for name in names {
        put(variables, name)?;
    }
    Ok(())
}

/// Puts an object into a map, unless one of its name is there.
#[tactic(auto, using(crate::proofs::FoundByToken::nameless, crate::proofs::FoundByToken::stays, crate::proofs::FoundByToken::comes))]
fn put(variables: &mut IndexMap<u32, u32>, name: &Named) -> Result<(), NoMemory>
    ensures { OnOk result ((front : Items Name) → AreByToken front variables.old.entries → AreByToken (front ++ name.now ∷ []) variables.new.entries) }
{
    match name.token() {
        None => Ok(()),
        Some(token) => match found(variables, token) {
            Some(_) => Ok(()),
            None => put_new(variables, token, name.variable()),
        },
    }
}

/// What stands there for a name.
fn found(variables: &IndexMap<u32, u32>, token: u32) -> Option<u32>
    ensures { result ≡ lookup (nat_eq token) variables.now.entries }
{
    variables.get(&token).copied()
}

/// Puts a variable for a name that has none.
fn put_new(variables: &mut IndexMap<u32, u32>, own: u32, variable: u32) -> Result<(), NoMemory>
    ensures { OnOk result ((token : ℕ) → lookup (nat_eq token) variables.new.entries
        ≡ (if nat_eq own token then Some variable else lookup (nat_eq token) variables.old.entries)) }
{
    variables.insert(own, variable)?;
    Ok(())
}
