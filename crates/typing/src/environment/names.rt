ghost use Rattle.std.specs.Prelude.{◌≡◌, [], map, OnOk, OnErr};
ghost use Rattle.typing.specs.environment.Names.{value_in, with_value, changed};
ghost use Rattle.typing.specs.environment.Kept.{uncovered};

use crate::environment::kept::Kept;
use cbase::NoMemory;
use indexmap::IndexMap;
use std::alloc::Global;
use std::marker::Model;

/// A value for each of some names, in the order in which they came.
///
/// Contracts see it as the list of the names with their values.
#[derive(Drop)]
pub struct Names<A> {
    table: IndexMap<Vec<u8>, A>,
}

impl<A> Model for Names<A> {
    ghost use Rattle.std.specs.Prelude.{List, ℕ, map};
    ghost use Rattle.std.specs.Coded.{coded_list, coded×, coded_ℕ};

    ghost Value = { List (List ℕ × A) };

    ghost coded = { coded_list (coded× (coded_list coded_ℕ) A.code) };

    ghost view = { λ names. map (λ entry. (entry.0.items, entry.1)) names.table.entries };
}

impl<A> Names<A> {
    /// No names. It takes no memory.
    pub fn new(alloc: Global) -> Names<A>
        ensures { result ≡ [] }
    {
        Names {
            table: IndexMap::new(alloc),
        }
    }
}

impl<A: Copy> Names<A> {
    /// The value of a name. It takes no memory, and one look-up by hash.
    pub fn get(&self, name: &[u8]) -> Option<A>
        ensures { result ≡ value_in name.now self.now }
    {
        self.table.get(name).copied()
    }

    /// Gives a name a value. Where memory is wanting all stays as it was.
    pub fn put(&mut self, alloc: Global, name: &[u8], value: A) -> Result<(), NoMemory>
        ensures ok { OnOk result (self.new ≡ with_value name.now value self.old) }
        ensures err { OnErr result (self.new ≡ self.old) }
    {
        let copy = Vec::from_slice(alloc, name)?;
        self.table.insert(copy, value)?;
        Ok(())
    }

    /// Gives a name that has a value another one. It takes no memory.
    pub(crate) fn change(&mut self, name: &[u8], value: A)
        ensures { self.new ≡ changed name.now value self.old }
    {
        if let Some(place) = self.table.get_mut(name) {
            *place = value;
        }
    }
}

/// Gives each name of a scope what it was visible as around that scope, from the last one on. It takes no memory, and a step for each name.
pub(crate) fn uncover<A: Copy>(visible: &mut Names<Option<A>>, level: &Names<Kept<A>>)
    ensures { visible.new ≡ uncovered level.now visible.old }
{
    let mut left = level.table.len();
    while left > 0 {
        left -= 1;
        if let Some((name, kept)) = level.table.get_index(left) {
            visible.change(name.as_slice(), kept.hidden);
        }
    }
}
