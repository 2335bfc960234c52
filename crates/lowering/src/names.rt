//! Objects by their names, and the variables that stand for them in the graph.
ghost use Rattle.std.specs.Prelude.{◌≡◌, ◌+◌, ◌++◌, OnOk, IfOk};
ghost use Rattle.c_machine.specs.State.{is_named};
ghost use Rattle.simulation.specs.Names.{variable_in, variables_of};
ghost use Rattle.lowering.specs.Placing.{named_from};

use c_machine::Object;
use cbase::{List, NoMemory};
use std::alloc::Global;
use std::marker::Model;

/// An object of a block, or a static one, with the number of its variable.
#[derive(Drop)]
pub struct Named {
    token: Option<u32>,
    variable: u32,
}

impl Model for Named {
    ghost use Rattle.simulation.specs.Names.{Name};

    ghost Value = { Name };

    ghost view = { λ n. record { token = n.token; variable = n.variable } };
}

impl Named {
    /// The object behind whose name's so many tokens it stands, if it has a name, with the number of its variable.
    pub fn of(token: Option<u32>, variable: u32) -> Named
        ensures { result ≡ record { token = token; variable = variable } }
    {
        Named { token, variable }
    }

    /// The number of its variable.
    pub fn variable(&self) -> u32
        ensures { result ≡ self.now.variable }
    {
        self.variable
    }

    /// How many tokens stand before its name, if it has one.
    pub fn token(&self) -> Option<u32>
        ensures { result ≡ self.now.token }
    {
        self.token
    }

    /// Whether its name is the one behind so many tokens.
    pub fn is_named(&self, token: u32) -> bool
        ensures { result ≡ is_named self.now.token token }
    {
        match self.token {
            None => false,
            Some(name) => name == token,
        }
    }
}

/// The variable of the first object of a name. It takes a step for each object in front of that.
pub fn variable_in(names: &[Named], token: u32) -> Option<u32>
    ensures { result ≡ variable_in names.now token }
{
    for name in names {
        if name.is_named(token) {
            return Some(name.variable());
        }
    }
    None
}

/// The variables of objects, in order.
pub fn variables_of(alloc: Global, names: &[Named]) -> Result<List<u32>, NoMemory>
    ensures { IfOk result (λ variables. variables ≡ variables_of names.now) }
{
    let mut variables = List::new(alloc);
    push_variables(&mut variables, names)?;
    Ok(variables)
}

/// Puts the variables of objects behind others.
pub fn push_variables(variables: &mut List<u32>, names: &[Named]) -> Result<(), NoMemory>
    ensures { OnOk result (variables.new ≡ variables.old ++ variables_of names.now) }
{
    for name in names {
        variables.push(name.variable())?;
    }
    Ok(())
}

/// Puts objects behind others, with variables from a number on. Where these are more than can be numbered, memory is wanting.
pub fn push_named(names: &mut List<Named>, first: u32, objects: &[Object]) -> Result<(), NoMemory>
    ensures { OnOk result (names.new ≡ names.old ++ named_from first objects.now) }
{
    let mut variable = first;
    for object in objects {
        names.push(Named::of(object.token, variable))?;
        variable = next_number(variable)?;
    }
    Ok(())
}

/// The number behind one. Where there is none, memory is wanting.
fn next_number(number: u32) -> Result<u32, NoMemory>
    ensures { IfOk result (λ next. next ≡ number + 1) }
{
    match number.checked_add(1) {
        None => Err(NoMemory),
        Some(next) => Ok(next),
    }
}
