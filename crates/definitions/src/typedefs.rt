//! The names that the items of a text make a typedef's.

ghost use Rattle.std.specs.Prelude.{◌≡◌, [], length, map, IfOk, OnOk};
ghost use Rattle.std.specs.List.{All};
ghost use Rattle.ctokens.specs.Gathered.{is_among, with_name};
ghost use Rattle.definitions.specs.Defined.{each_once};
ghost use Rattle.definitions.specs.Rows.{HasSignBytes, sign_word};

use crate::sign::Sign;
use crate::tables::sign_word;
use cbase::NoMemory;
use indexmap::IndexSet;
use std::alloc::Global;
use std::marker::Model;

/// Names of typedefs, each once, to be found by their bytes.
#[derive(Drop)]
pub(crate) struct Typedefs {
    set: IndexSet<Vec<u8>>,
}

impl Model for Typedefs {
    ghost use Rattle.std.specs.Prelude.{List, ℕ, map};

    ghost Value = { List (List ℕ) };

    ghost view = { λ names. map (λ name. name.items) names.set.keys };
}

impl Typedefs {
    /// No names. It takes no memory.
    pub(crate) fn new(alloc: Global) -> Typedefs
        ensures { result ≡ [] }
    {
        Typedefs {
            set: IndexSet::new(alloc),
        }
    }

    /// Whether the name is among them. It takes one look-up by hash.
    pub(crate) fn has(&self, name: &[u8]) -> bool
        ensures { result ≡ is_among name.now self.now }
    {
        is_in(&self.set, name)
    }

    /// Puts a name behind the others, where it is new.
    fn put(&mut self, alloc: Global, name: &[u8]) -> Result<(), NoMemory>
        ensures { OnOk result (self.new ≡ with_name name.now self.old) }
    {
        put_in(alloc, &mut self.set, name)
    }

    /// Puts the words of these tokens behind the others, each where it is new.
    pub(crate) fn put_words(
        &mut self,
        alloc: Global,
        text: &[u8],
        signs: &[Sign],
    ) -> Result<(), NoMemory>
        requires { All (HasSignBytes text.now) signs.now }
        ensures { OnOk result (self.new ≡ each_once self.old (map (sign_word text.now) signs.now)) }
    {
        for sign in signs {
            self.put(alloc, sign_word(text, *sign))?;
        }
        Ok(())
    }
}

/// Whether the name is in a set.
fn is_in(set: &IndexSet<Vec<u8>>, name: &[u8]) -> bool
    ensures { result ≡ is_among name.now (map (λ name. name.items) set.now.keys) }
{
    set.contains(name)
}

/// Puts a name into a set.
fn put_in(alloc: Global, set: &mut IndexSet<Vec<u8>>, name: &[u8]) -> Result<(), NoMemory>
    ensures { OnOk result (map (λ name. name.items) set.new.keys ≡ with_name name.now (map (λ name. name.items) set.old.keys)) }
{
    let copy = Vec::from_slice(alloc, name)?;
    set.insert_full(copy)?;
    Ok(())
}
