ghost use Rattle.std.specs.Prelude.{◌≡◌, ◌++◌, ◌∷◌, [], OnOk, OnErr};
ghost use Rattle.typing.specs.environment.Environment.{nothing_declared, scope_entered, scope_left};

mod casts;
mod declaring;
mod interning;
mod linking;
mod looking;
mod measures;
mod members;
mod opening;
mod operating;
mod standing;

use crate::handed_row::HandedRow;
use cbase::{List, NoMemory};
use std::alloc::Global;
use std::marker::Model;
use typing::ctypes::Types;
use typing::environment::Environment;

/// What is known at a place of a text: types and structs by their numbers, what names and tags are declared as, and what was handed on of the
/// expressions before it.
///
/// Every number of a type that a name stands for, and every number of a signature, is one of the context. It is seen as its fields, less the allocator.
#[derive(Drop)]
pub struct Context {
    /// Where the memory for what it keeps comes from. It is not seen.
    pub alloc: Global,
    types: Types,
    environment: Environment,
    handed: List<HandedRow>,
}

impl Model for Context {
    ghost use Rattle.std.specs.Prelude.{length};
    ghost use Rattle.typing.specs.environment.Bounds.{AreBelow};
    ghost use Rattle.expressions.specs.Context.{Context as AtPlace};
    ghost use Rattle.cbase.specs.contracts.ctype.CType as e;
    ghost use Rattle.std.specs.Coded.{codes};

    ghost Value = { AtPlace };

    ghost coded = { Prim.hlevel (codes, e.the_row.coded) };

    ghost view = { λ context. record { types = context.types.types; structs = context.types.structs; environment = context.environment; handed = context.handed } };

    ghost invariant = { λ context. AreBelow (length context.types.types) context.environment };
}

impl Context {
    /// No types, structs and scopes, and nothing that is declared or handed on. It takes no memory.
    pub fn new(alloc: Global) -> Context
        ensures { result ≡ record { types = []; structs = []; environment = nothing_declared; handed = [] } }
    {
        Context {
            alloc,
            types: Types::new(alloc),
            environment: Environment::new(alloc),
            handed: List::new(alloc),
        }
    }

    /// What was handed on, in order.
    pub fn handed(&self) -> &[HandedRow]
        ensures { result.now ≡ self.now.handed }
    {
        self.handed.as_slice()
    }

    /// Hands on what is found of an expression, behind what was handed on before.
    pub fn hand_on(&mut self, row: HandedRow) -> Result<(), NoMemory>
        ensures { OnOk result (self.new ≡ record self.old { handed = self.old.handed ++ row ∷ [] }) }
    {
        self.handed.push(row)
    }

    /// Enters a scope in which nothing is declared (C11 6.2.1p4).
    pub fn enter(&mut self, alloc: Global) -> Result<(), NoMemory>
        ensures ok { OnOk result (self.new ≡ record self.old { environment = scope_entered self.old.environment }) }
        ensures err { OnErr result (self.new ≡ self.old) }
    {
        self.environment.open(alloc)
    }

    /// Leaves the innermost scope. Where there is no scope it changes nothing. It takes no memory.
    pub fn leave(&mut self)
        ensures { self.new ≡ record self.old { environment = scope_left self.old.environment } }
    {
        self.environment.close();
    }
}
