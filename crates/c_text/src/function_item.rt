ghost use Rattle.std.specs.Prelude.{◌≡◌};
ghost use Rattle.typing.specs.Heads.{is_main};

use cbase::{Place, Stmt};
use std::marker::Model;

/// The definition of a function (C11 6.9.1).
#[derive(Drop)]
pub struct FunctionItem<'a> {
    /// Its name.
    pub(crate) name: &'a [u8],
    /// How many tokens stand before its name.
    pub(crate) token: u32,
    /// The statements of its body.
    pub(crate) body: &'a [Stmt],
    /// The place of the `}` behind them.
    pub(crate) close: Place,
}

impl<'a> Model for FunctionItem<'a> {
    ghost use Rattle.cbase.specs.contracts.tree.stmt.Stmt as s;
    ghost use Rattle.std.specs.Coded.{codes};
    ghost use Rattle.c_machine.specs.Program.{FunctionItem};

    ghost Value = { FunctionItem };

    ghost coded = { Prim.hlevel (codes, s.the_row.coded) };

    ghost view = { λ f. record { name = f.name.now; token = f.token; body = f.body.now; close = f.close } };
}

impl<'a> FunctionItem<'a> {
    /// How many tokens stand before its name.
    pub fn token(&self) -> u32
        ensures { result ≡ self.now.token }
    {
        self.token
    }

    /// The statements of its body.
    pub fn body(&self) -> &'a [Stmt]
        ensures { result.now ≡ self.now.body }
    {
        self.body
    }

    /// The place of the `}` behind them.
    pub fn close(&self) -> Place
        ensures { result ≡ self.now.close }
    {
        self.close
    }

    /// Whether it is the function with which a program begins (C11 5.1.2.2.1p1).
    pub fn is_main(&self) -> bool
        ensures { result ≡ is_main self.now.name }
    {
        self.name == b"main".as_slice()
    }
}
