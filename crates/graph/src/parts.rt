ghost use Rattle.std.specs.Prelude.{◌≡◌};
ghost use Rattle.graph.specs.Whole.{no_parts};

use crate::object::Object;
use crate::value::Value;
use cbase::List;
use std::alloc::Global;

/// An object and its key.
#[derive(Drop)]
pub struct KeyedObject {
    pub key: u32,
    pub object: Object,
}

/// A value and its key.
#[derive(Clone, Copy, PartialEq, Eq)]
pub struct KeyedValue {
    pub key: u32,
    pub value: Value,
}

/// A variable of the program, and the object that is its storage.
#[derive(Clone, Copy, PartialEq, Eq)]
pub struct Named {
    pub variable: u32,
    /// The key of the object.
    pub object: u32,
}

/// A register of the flow machine, and the value that it holds.
#[derive(Clone, Copy, PartialEq, Eq)]
pub struct Held {
    pub register: u32,
    /// The key of the value.
    pub value: u32,
}

/// Two keys.
#[derive(Clone, Copy, PartialEq, Eq)]
pub struct Pair {
    pub left: u32,
    pub right: u32,
}

/// A graph as plain data, without an invariant.
#[derive(Drop)]
pub struct Parts {
    pub objects: List<KeyedObject>,
    pub values: List<KeyedValue>,
    /// The variables that the graph names, each with its object.
    pub variables: List<Named>,
    /// The registers that hold something, each with its value.
    pub registers: List<Held>,
    /// The keys of the values that the graph shares with its surroundings, in their order.
    pub ports: List<u32>,
    /// The keys of values whose words differ.
    pub unequal: List<Pair>,
}

/// Parts of which there is none. It takes no memory.
pub(crate) fn no_parts(alloc: Global) -> Parts
    ensures { result ≡ no_parts }
{
    Parts {
        objects: List::new(alloc),
        values: List::new(alloc),
        variables: List::new(alloc),
        registers: List::new(alloc),
        ports: List::new(alloc),
        unequal: List::new(alloc),
    }
}
