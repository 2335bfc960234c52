ghost use Rattle.std.specs.Prelude.{◌≡◌};
ghost use Rattle.graph.specs.Whole.{no_contents};

use crate::keyed::Keyed;
use crate::object::Object;
use crate::parts::{Held, Named, Pair};
use crate::value::Value;
use cbase::List;
use std::alloc::Global;

/// The objects of a graph.
pub type Objects = Keyed<Object>;

/// The values of a graph.
pub type Values = Keyed<Value>;

/// What a graph holds: the keys of its objects and values are their places.
#[derive(Drop)]
pub(crate) struct Contents {
    pub(crate) objects: Objects,
    pub(crate) values: Values,
    pub(crate) variables: List<Named>,
    pub(crate) registers: List<Held>,
    pub(crate) ports: List<u32>,
    pub(crate) unequal: List<Pair>,
}

impl Contents {
    /// Nothing. It takes no memory.
    pub(crate) fn new(alloc: Global) -> Contents
        ensures { result ≡ no_contents }
    {
        Contents {
            objects: Keyed::new(alloc),
            values: Keyed::new(alloc),
            variables: List::new(alloc),
            registers: List::new(alloc),
            ports: List::new(alloc),
            unequal: List::new(alloc),
        }
    }
}
