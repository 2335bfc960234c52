ghost use Rattle.std.specs.Prelude.{◌≡◌, length, true, IfOk, IfErr};
ghost use Rattle.std.specs.Option.{option_copied};
ghost use Rattle.graph.specs.Large.{is_large};
ghost use Rattle.graph.specs.Maps.{object_at, value_at};
ghost use Rattle.graph.specs.Renaming.{numbered};
ghost use Rattle.graph.specs.WellFormed.{HasAscendingKeys, IsWellFormed, is_within_limits};
ghost use Rattle.graph.specs.Whole.{IsGraph};

use crate::contents::Contents;
use crate::copies::{copy_contents, key_contents};
use crate::large::is_large;
use crate::moves::keyed_contents;
use crate::object::Object;
use crate::parts::{Held, Named, Pair, Parts, no_parts};
use crate::places::place_parts;
use crate::value::Value;
use cbase::{NoMemory, Stop};
use std::alloc::Global;
use std::marker::Model;

/// A graph: objects and values that stand for the blocks and words of many memories.
///
/// Contracts see its parts. They are well formed and within the limits, and the keys of its objects and of its
/// values are 0, 1 and so on.
#[derive(Drop)]
pub struct Graph {
    contents: Contents,
}

impl Model for Graph {
    ghost use Rattle.graph.specs.declared.parts.Parts.{Parts};
    ghost use Rattle.graph.specs.Whole.{parts_of, IsGraph};

    ghost Value = { Parts };

    ghost view = { parts_of };

    ghost invariant = { λ g. IsGraph (parts_of g) };
}

impl Graph {
    /// The object with a key. None exactly where no object has it. It takes no memory.
    #[tactic(auto, using(crate::proofs::AtPlaces::object_at_place))]
    pub fn object(&self, key: u32) -> Option<&Object>
        ensures { option_copied result ≡ object_at self.now.objects key }
    {
        self.contents.objects.get(key)
    }

    /// The value with a key. None exactly where no value has it. It takes no memory.
    #[tactic(auto, using(crate::proofs::AtPlaces::value_at_place))]
    pub fn value(&self, key: u32) -> Option<&Value>
        ensures { option_copied result ≡ value_at self.now.values key }
    {
        self.contents.values.get(key)
    }

    /// The variables that the graph names, in ascending order, each with the key of its object. It takes no memory.
    pub fn variables(&self) -> &[Named]
        ensures variables { result.now ≡ self.now.variables }
        ensures graph { IsGraph self.now }
    {
        self.contents.variables.as_slice()
    }

    /// The registers that hold something, in ascending order, each with the key of its value. It takes no memory.
    pub fn registers(&self) -> &[Held]
        ensures registers { result.now ≡ self.now.registers }
        ensures graph { IsGraph self.now }
    {
        self.contents.registers.as_slice()
    }

    /// The keys of the values of the ports, in their order. It takes no memory.
    pub fn ports(&self) -> &[u32]
        ensures ports { result.now ≡ self.now.ports }
        ensures graph { IsGraph self.now }
    {
        self.contents.ports.as_slice()
    }

    /// The keys of values whose words differ. It takes no memory.
    pub fn unequal(&self) -> &[Pair]
        ensures unequal { result.now ≡ self.now.unequal }
        ensures graph { IsGraph self.now }
    {
        self.contents.unequal.as_slice()
    }

    /// How many objects there are. Their keys are the numbers below this.
    #[tactic(auto, using(crate::proofs::AtPlaces::length_objects))]
    pub fn object_count(&self) -> u32
        ensures count { result ≡ length self.now.objects }
        ensures graph { IsGraph self.now }
    {
        self.contents.objects.len()
    }

    /// How many values there are. Their keys are the numbers below this.
    #[tactic(auto, using(crate::proofs::AtPlaces::length_values))]
    pub fn value_count(&self) -> u32
        ensures count { result ≡ length self.now.values }
        ensures graph { IsGraph self.now }
    {
        self.contents.values.len()
    }

    /// The contents of the graph, with its own keys, which ascend in both lists.
    pub fn parts(&self, alloc: Global) -> Result<Parts, NoMemory>
        ensures ok { IfOk result (λ parts. parts ≡ self.now) }
        ensures graph { IsGraph self.now }
    {
        let _ = &self.contents;
        self.entries(alloc)
    }

    /// The contents of the graph.
    fn entries(&self, alloc: Global) -> Result<Parts, NoMemory>
        ensures { IfOk result (λ parts. parts ≡ self.now) }
    {
        let mut parts = no_parts(alloc);
        match key_contents(alloc, &self.contents, &mut parts) {
            Ok(()) => Ok(parts),
            Err(error) => {
                drop(parts);
                Err(error)
            }
        }
    }

    /// The contents of the graph, with its own keys, which ascend in both lists. Objects and lists are moved, and not copied. Where memory
    /// is wanting the graph is given up.
    pub fn into_parts(self, alloc: Global) -> Result<Parts, NoMemory>
        ensures ok { IfOk result (λ parts. parts ≡ self) }
        ensures graph { IsGraph self }
    {
        let Graph { contents } = self;
        keyed_contents(alloc, contents)
    }

    /// Whether there are so many live nodes, where a segment counts for its least number and at least for one, or so many dead objects
    /// whose address an edge, an outward link, a register or a port holds, or so many unequal pairs. A call that is lent a graph may
    /// give up from `LARGE` on. It takes time in proportion to the graph, and memory only where there are so many dead objects.
    pub fn is_large(&self, alloc: Global, bound: u32) -> Result<bool, NoMemory>
        ensures { IfOk result (λ large. large ≡ is_large bound self.now) }
    {
        is_large(alloc, &self.contents, bound)
    }

    /// An equal graph with the same keys. It is never too large.
    pub fn copied(&self, alloc: Global) -> Result<Graph, Stop>
        ensures ok { IfOk result (λ copy. copy ≡ self.now) }
        ensures small { IfErr result (λ stop. stop ≡ Stop.NoMemory) }
    {
        match self.duplicate(alloc) {
            Ok(copy) => Ok(copy),
            Err(NoMemory) => Err(Stop::NoMemory),
        }
    }

    /// The graph of some parts, with places in place of keys.
    pub(crate) fn numbered(alloc: Global, parts: Parts) -> Result<Graph, NoMemory>
        requires ascending { HasAscendingKeys parts }
        requires well_formed { IsWellFormed parts }
        requires within_limits { is_within_limits parts ≡ true }
        ensures { IfOk result (λ graph. graph ≡ numbered parts) }
    {
        let mut contents = Contents::new(alloc);
        match place_parts(alloc, parts, &mut contents) {
            Ok(()) => Ok(Graph { contents }),
            Err(error) => {
                drop(contents);
                Err(error)
            }
        }
    }

    /// An equal graph.
    fn duplicate(&self, alloc: Global) -> Result<Graph, NoMemory>
        ensures { IfOk result (λ copy. copy ≡ self.now) }
    {
        let mut contents = Contents::new(alloc);
        match copy_contents(alloc, &self.contents, &mut contents) {
            Ok(()) => Ok(Graph { contents }),
            Err(error) => {
                drop(contents);
                Err(error)
            }
        }
    }
}
