ghost use Rattle.std.specs.Prelude.{◌≡◌, ◌↔◌, ℕ, Bool, List, [], map, IsTrue, IfOk, OnOk, OnErr};
ghost use Rattle.cgrammar.specs.NameTables.{value_in, with_value};

use cbase::NoMemory;
use indexmap::IndexMap;
use std::alloc::Global;
use std::marker::Model;

/// The names of one scope, each with whether it is a typedef's.
#[derive(Drop)]
pub struct Names {
    table: IndexMap<Vec<u8>, bool>,
}

impl Model for Names {
    ghost use Rattle.std.specs.Prelude.{List, ℕ, Bool, map};

    ghost Value = { List (List ℕ × Bool) };

    ghost view = { λ names. map (λ entry. (entry.0.items, entry.1)) names.table.entries };
}

impl Names {
    /// No names. It takes no memory.
    pub fn new(alloc: Global) -> Names
        ensures { result ≡ [] }
    {
        Names {
            table: IndexMap::new(alloc),
        }
    }

    /// Whether there is no name.
    pub fn is_empty(&self) -> bool
        ensures { IsTrue result ↔ (self.now ≡ []) }
    {
        self.table.is_empty()
    }

    /// What the scope says of a name: whether it is a typedef's, or nothing.
    pub fn found(&self, name: &[u8]) -> Option<bool>
        ensures { result ≡ value_in name.now self.now }
    {
        found_in(&self.table, name)
    }

    /// Declares a name. Where memory is wanting the scope stays as it was.
    pub fn declare(&mut self, alloc: Global, name: &[u8], typedef: bool) -> Result<(), NoMemory>
        ensures ok { OnOk result (self.new ≡ with_value name.now typedef self.old) }
        ensures err { OnErr result (self.new ≡ self.old) }
    {
        declare_in(alloc, &mut self.table, name, typedef)
    }

    /// A copy of them.
    pub fn copied(&self) -> Result<Names, NoMemory>
        ensures { IfOk result (λ copy. copy ≡ self.now) }
    {
        Ok(Names {
            table: copied(&self.table)?,
        })
    }
}

/// What a map says of a name.
fn found_in(table: &IndexMap<Vec<u8>, bool>, name: &[u8]) -> Option<bool>
    ensures { result ≡ value_in name.now (map (λ entry. (entry.0.items, entry.1)) table.now.entries) }
{
    table.get(name).copied()
}

/// Puts a name into a map.
fn declare_in(
    alloc: Global,
    table: &mut IndexMap<Vec<u8>, bool>,
    name: &[u8],
    typedef: bool,
) -> Result<(), NoMemory>
    ensures ok { OnOk result (map (λ entry. (entry.0.items, entry.1)) table.new.entries ≡ with_value name.now typedef (map (λ entry. (entry.0.items, entry.1)) table.old.entries)) }
    ensures err { OnErr result (table.new.entries ≡ table.old.entries) }
{
    let copy = Vec::from_slice(alloc, name)?;
    table.insert(copy, typedef)?;
    Ok(())
}

/// A copy of a map.
fn copied(table: &IndexMap<Vec<u8>, bool>) -> Result<IndexMap<Vec<u8>, bool>, NoMemory>
    ensures { IfOk result (λ copy. map {B = List ℕ × Bool} (λ entry. (entry.0.items, entry.1)) copy.entries ≡ map (λ entry. (entry.0.items, entry.1)) table.now.entries) }
{
    Ok(table.clone()?)
}
