ghost use Rattle.std.specs.Prelude.{◌≡◌};

use cbase::{Init, Place};
use std::marker::Model;

/// An initialiser with the place of the name that it belongs to (C11 6.7.9).
#[derive(Drop)]
pub struct StaticSet<'a> {
    place: Place,
    init: &'a Init,
}

impl<'a> Model for StaticSet<'a> {
    ghost use Rattle.cbase.specs.declared.tree.init.Init.{Init};
    ghost use Rattle.c_machine.specs.Text.{Set};
    ghost use Rattle.cbase.specs.contracts.tree.init.Init as i;
    ghost use Rattle.std.specs.Coded.{codes};

    ghost Value = { Set Init };

    ghost coded = { Prim.hlevel (codes, i.the_row.coded) };

    ghost view = { λ s. record { place = s.place; init = s.init.now } };
}

impl<'a> StaticSet<'a> {
    /// The initialiser of the name that stands there.
    pub fn of(place: Place, init: &'a Init) -> StaticSet<'a>
        ensures { result ≡ record { place = place; init = init.now } }
    {
        StaticSet { place, init }
    }

    /// The place of the name.
    pub fn place(&self) -> Place
        ensures { result ≡ self.now.place }
    {
        self.place
    }

    /// The initialiser.
    pub fn init(&self) -> &'a Init
        ensures { result.now ≡ self.now.init }
    {
        self.init
    }
}
