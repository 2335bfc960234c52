ghost use Rattle.std.specs.Prelude.{◌≡◌, [], OnOk, OnErr};
ghost use Rattle.typing.specs.environment.Scopes.{found, found_here, declared, declared_around, entered, left};

use crate::environment::around::declare_around_in;
use crate::environment::keeping::{
    declare_in, kept_around, kept_here, leave_in, meaning_of, shown,
};
use crate::environment::kept::Kept;
use crate::environment::names::Names;
use cbase::NoMemory;
use std::alloc::Global;
use std::marker::Model;

/// Names of one name space by scope, each with what it stands for (C11 6.2.1, 6.2.3).
///
/// Contracts see it as the list of the scopes that a place lies in, the innermost first, each as the list of the names that it
/// declares, in order, with what they stand for.
#[derive(Drop)]
pub struct Scopes<A> {
    // What each name is visible as. A name that no scope declares any more keeps its place, with nothing.
    visible: Names<Option<A>>,

    // What each scope declares, the innermost last.
    levels: Vec<Names<Kept<A>>>,
}

impl<A> Model for Scopes<A> {
    ghost use Rattle.std.specs.Prelude.{List, ℕ, reverse};
    ghost use Rattle.std.specs.Coded.{coded_list, coded×, coded_ℕ};

    ghost Value = { List (List (List ℕ × A)) };

    ghost coded = { coded_list (coded_list (coded× (coded_list coded_ℕ) A.code)) };

    ghost use Rattle.typing.specs.environment.Kept.{scopes_of, AreVisible};

    ghost view = { λ scopes. scopes_of (reverse scopes.levels.items) };

    ghost invariant = { λ scopes. AreVisible scopes.visible (reverse scopes.levels.items) };
}

impl<A: Copy> Scopes<A> {
    /// No scope. It takes no memory.
    pub fn new(alloc: Global) -> Scopes<A>
        ensures { result ≡ [] }
    {
        Scopes {
            visible: Names::new(alloc),
            levels: Vec::new(alloc),
        }
    }

    /// Enters a scope in which nothing is declared. Where memory is wanting all stays as it was.
    pub fn open(&mut self, alloc: Global) -> Result<(), NoMemory>
        ensures ok { OnOk result (self.new ≡ entered self.old) }
        ensures err { OnErr result (self.new ≡ self.old) }
    {
        self.levels.push(Names::new(alloc))?;
        Ok(())
    }

    /// Leaves the innermost scope, whose names end there. Where there is no scope it changes nothing.
    ///
    /// It takes no memory, and a step for each name that the scope declares.
    pub fn close(&mut self)
        ensures { self.new ≡ left self.old }
    {
        leave_in(&mut self.visible, &mut self.levels);
    }

    /// What a name stands for: what the innermost scope that declares it says (C11 6.2.1p4).
    ///
    /// It takes no memory, and one look-up by hash, however many scopes there are.
    pub fn look_up(&self, name: &[u8]) -> Option<A>
        ensures { result ≡ found name.now self.now }
    {
        shown(&self.visible, name)
    }

    /// What the innermost scope alone says of a name. It takes no memory, and one look-up by hash.
    pub fn look_up_here(&self, name: &[u8]) -> Option<A>
        ensures { result ≡ found_here name.now self.now }
    {
        meaning_of(kept_here(&self.levels, name))
    }

    /// What the scope around the innermost one alone says of a name. It takes no memory, and one look-up by hash.
    pub fn look_up_around(&self, name: &[u8]) -> Option<A>
        ensures { result ≡ found_here name.now (left self.now) }
    {
        meaning_of(kept_around(&self.levels, name))
    }

    /// Declares a name in the innermost scope; where it declares the name already, the name stands for this from here on.
    ///
    /// Where there is no scope it changes nothing, and where memory is wanting all stays as it was.
    pub fn declare(&mut self, alloc: Global, name: &[u8], meaning: A) -> Result<(), NoMemory>
        ensures ok { OnOk result (self.new ≡ declared name.now meaning self.old) }
        ensures err { OnErr result (self.new ≡ self.old) }
    {
        declare_in(alloc, &mut self.visible, &mut self.levels, name, meaning)
    }

    /// Declares a name in the scope around the innermost one; where that declares the name already, the name stands for this from here on.
    ///
    /// Where there are not two scopes it changes nothing, and where memory is wanting all stays as it was.
    pub fn declare_around(&mut self, alloc: Global, name: &[u8], meaning: A) -> Result<(), NoMemory>
        ensures ok { OnOk result (self.new ≡ declared_around name.now meaning self.old) }
        ensures err { OnErr result (self.new ≡ self.old) }
    {
        declare_around_in(alloc, &mut self.visible, &mut self.levels, name, meaning)
    }
}
