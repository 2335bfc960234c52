ghost use Rattle.std.specs.Prelude.{◌≡◌, ◌≤◌, not, [], length, map, IfOk, OnOk};
ghost use Rattle.ctokens.specs.Gathered.{number_of, is_among, with_name};

use cbase::NoMemory;
use indexmap::IndexSet;
use std::alloc::Global;
use std::marker::Model;

/// Names of files in the order in which they came, each once, to be found by their bytes.
#[derive(Drop)]
pub(crate) struct KnownNames {
    set: IndexSet<Vec<u8>>,
}

impl Model for KnownNames {
    ghost use Rattle.std.specs.Prelude.{List, ℕ, map};

    ghost Value = { List (List ℕ) };

    ghost view = { λ names. map (λ name. name.items) names.set.keys };
}

/// The number of a name.
#[derive(Clone, Copy)]
pub(crate) struct Numbered {
    /// How many names stand before it.
    pub(crate) file: usize,
    /// Whether it came for the first time.
    pub(crate) is_new: bool,
}

impl KnownNames {
    /// No names. It takes no memory.
    pub(crate) fn new(alloc: Global) -> KnownNames
        ensures { result ≡ [] }
    {
        KnownNames {
            set: IndexSet::new(alloc),
        }
    }

    /// The number of a name, which is put behind the others where it is new.
    pub(crate) fn numbered(&mut self, alloc: Global, name: &[u8]) -> Result<Numbered, NoMemory>
        ensures file { IfOk result (λ numbered. numbered.file ≡ number_of name.now self.old) }
        ensures inside { IfOk result (λ numbered. numbered.file ≤ length self.old) }
        ensures is_new { IfOk result (λ numbered. numbered.is_new ≡ not (is_among name.now self.old)) }
        ensures names { OnOk result (self.new ≡ with_name name.now self.old) }
    {
        number_in(alloc, &mut self.set, name)
    }
}

/// The number of a name in a set, into which it is put.
fn number_in(alloc: Global, set: &mut IndexSet<Vec<u8>>, name: &[u8]) -> Result<Numbered, NoMemory>
    ensures file { IfOk result (λ numbered. numbered.file ≡ number_of name.now (map (λ name. name.items) set.old.keys)) }
    ensures inside { IfOk result (λ numbered. numbered.file ≤ length (map (λ name. name.items) set.old.keys)) }
    ensures is_new { IfOk result (λ numbered. numbered.is_new ≡ not (is_among name.now (map (λ name. name.items) set.old.keys))) }
    ensures names { OnOk result (map (λ name. name.items) set.new.keys ≡ with_name name.now (map (λ name. name.items) set.old.keys)) }
{
    let copy = Vec::from_slice(alloc, name)?;
    let (file, is_new) = set.insert_full(copy)?;
    Ok(Numbered { file, is_new })
}
