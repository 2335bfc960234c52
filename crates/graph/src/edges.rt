ghost use Rattle.std.specs.Prelude.{◌≡◌, ◌<◌, length, map, IfOk};
ghost use Rattle.std.specs.List.{AllPairs};
ghost use Rattle.graph.specs.Renaming.{place_among, renamed_edge};

use crate::places::place_edges;
use cbase::NoMemory;
use smallvec::SmallVec;
use std::alloc::Global;
use std::marker::Model;

/// A range of an object's bytes holds a value.
#[derive(Clone, Copy, Default, PartialEq, Eq)]
pub struct HasValue {
    /// The first byte of the range, from 0.
    pub at: u32,
    /// How many bytes the range has: 1, 2, 4 or 8.
    pub size: u8,
    /// The key of the value.
    pub value: u32,
}

/// The edges of an object, in order.
#[derive(Drop)]
pub struct Edges {
    items: SmallVec<HasValue, 4>,
}

impl Model for Edges {
    ghost use Rattle.std.specs.Prelude.{List};
    ghost use Rattle.graph.specs.declared.edges.HasValue.{HasValue};

    ghost Value = { List HasValue };

    ghost view = { λ e. e.items.items };
}

impl Edges {
    /// The edges with these items, in order.
    pub fn of(alloc: Global, items: &[HasValue]) -> Result<Edges, NoMemory>
        ensures { IfOk result (λ edges. edges ≡ items.now) }
    {
        Ok(Edges {
            items: SmallVec::from_slice(alloc, items)?,
        })
    }

    /// The items, in order. It takes no memory.
    pub fn as_slice(&self) -> &[HasValue]
        ensures { result.now ≡ self.now }
    {
        self.items.as_slice()
    }

    /// The same edges, which hold their values by the places among these keys. It takes no memory.
    pub(crate) fn placed(self, keys: &[u32]) -> Edges
        requires few { length keys.now < 4294967296 }
        requires ascending { AllPairs (λ one other. one < other) keys.now }
        ensures { result ≡ map (renamed_edge (place_among keys.now)) self }
    {
        let Edges { mut items } = self;
        place_edges(keys, items.as_mut_slice());
        Edges { items }
    }
}
