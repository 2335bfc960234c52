ghost use Rattle.std.specs.Prelude.{◌≡◌, ℕ, List, [], ◌∷◌, map, IfOk, OnOk, OnErr};
ghost use Rattle.cgrammar.specs.Bounds.{bound_in, IsRestored};
ghost use Rattle.cgrammar.specs.NameTables.{value_in, with_value};

use cbase::NoMemory;
use indexmap::IndexMap;
use std::alloc::Global;
use std::marker::Model;

/// A number for each of some names.
#[derive(Drop)]
pub struct Numbers {
    table: IndexMap<Vec<u8>, usize>,
}

impl Model for Numbers {
    ghost use Rattle.std.specs.Prelude.{List, ℕ, map};

    ghost Value = { List (List ℕ × ℕ) };

    ghost view = { λ numbers. map (λ entry. (entry.0.items, entry.1)) numbers.table.entries };
}

impl Numbers {
    /// No names. It takes no memory.
    pub fn new(alloc: Global) -> Numbers
        ensures { result ≡ [] }
    {
        Numbers {
            table: IndexMap::new(alloc),
        }
    }

    /// The number of a name.
    pub fn get(&self, name: &[u8]) -> Option<usize>
        ensures { result ≡ value_in name.now self.now }
    {
        number_in(&self.table, name)
    }

    /// The number of a name, and 1 for a name that has none.
    pub fn bound(&self, name: &[u8]) -> usize
        ensures { result ≡ bound_in name.now self.now }
    {
        self.get(name).unwrap_or(1)
    }

    /// Gives a name a number. Where memory is wanting all stays as it was.
    pub fn put(&mut self, alloc: Global, name: &[u8], number: usize) -> Result<(), NoMemory>
        ensures ok { OnOk result (self.new ≡ with_value name.now number self.old) }
        ensures err { OnErr result (self.new ≡ self.old) }
    {
        put_in(alloc, &mut self.table, name, number)
    }

    /// Gives each name that has a number here the one that `others` gives it, where it gives one. Each other name keeps what
    /// it has.
    pub fn restore(&mut self, others: &Numbers)
        ensures { IsRestored others.now self.old self.new }
    {
        restore(&mut self.table, &others.table);
    }

    /// A copy of them.
    pub fn copied(&self) -> Result<Numbers, NoMemory>
        ensures { IfOk result (λ copy. copy ≡ self.now) }
    {
        Ok(Numbers {
            table: copied(&self.table)?,
        })
    }
}

/// The number that a map has for a name.
fn number_in(table: &IndexMap<Vec<u8>, usize>, name: &[u8]) -> Option<usize>
    ensures { result ≡ value_in name.now (map (λ entry. (entry.0.items, entry.1)) table.now.entries) }
{
    table.get(name).copied()
}

/// Puts a number into a map.
fn put_in(
    alloc: Global,
    table: &mut IndexMap<Vec<u8>, usize>,
    name: &[u8],
    number: usize,
) -> Result<(), NoMemory>
    ensures ok { OnOk result (map (λ entry. (entry.0.items, entry.1)) table.new.entries ≡ with_value name.now number (map (λ entry. (entry.0.items, entry.1)) table.old.entries)) }
    ensures err { OnErr result (table.new.entries ≡ table.old.entries) }
{
    let copy = Vec::from_slice(alloc, name)?;
    table.insert(copy, number)?;
    Ok(())
}

/// Changes the number of a name, where it has one.
fn change(table: &mut IndexMap<Vec<u8>, usize>, name: &[u8], number: usize)
    ensures { IsRestored ((name.now, number) ∷ []) (map (λ entry. (entry.0.items, entry.1)) table.old.entries) (map (λ entry. (entry.0.items, entry.1)) table.new.entries) }
{
    if let Some(place) = table.get_mut(name) {
        *place = number;
    }
}

/// Changes the number of each name that has one in both maps, to the number of the others.
fn restore(table: &mut IndexMap<Vec<u8>, usize>, others: &IndexMap<Vec<u8>, usize>)
    ensures { IsRestored (map (λ entry. (entry.0.items, entry.1)) others.now.entries) (map (λ entry. (entry.0.items, entry.1)) table.old.entries) (map (λ entry. (entry.0.items, entry.1)) table.new.entries) }
{
    let mut left = others.len();
    while left > 0 {
        left -= 1;
        if let Some((name, number)) = others.get_index(left) {
            change(table, name.as_slice(), *number);
        }
    }
}

/// A copy of a map.
fn copied(table: &IndexMap<Vec<u8>, usize>) -> Result<IndexMap<Vec<u8>, usize>, NoMemory>
    ensures { IfOk result (λ copy. map {B = List ℕ × ℕ} (λ entry. (entry.0.items, entry.1)) copy.entries ≡ map (λ entry. (entry.0.items, entry.1)) table.now.entries) }
{
    Ok(table.clone()?)
}
