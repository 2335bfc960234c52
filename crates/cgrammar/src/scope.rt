ghost use Rattle.std.specs.Prelude.{◌≡◌, List, length, ◌≤◌, IfOk, OnOk, OnErr};
ghost use Rattle.cgrammar.specs.Scope.{found, is_typedef_name, declared, declared_around, file_scope, entered, left};

use crate::bounds::Bounds;
use crate::names::Names;
use crate::typedefs::Typedefs;
use cbase::NoMemory;
use std::alloc::Global;
use std::marker::Model;

/// Which names are in scope at a place of a text, and which of them are typedefs (C11 6.2.1, 6.7.8).
///
/// It is seen as the scopes that the place lies in, the innermost last, each as the names that it has declared, with
/// whether the name is a typedef's.
#[derive(Drop)]
pub struct Scope {
    sets: Vec<Names>,

    // Where a look-up begins, so that it does not go through each scope.
    bounds: Bounds,

    // The names that may be typedefs', so that no other is looked up in the scopes.
    typedefs: Typedefs,
}

impl Model for Scope {
    ghost use Rattle.std.specs.Prelude.{List, ℕ, Bool};

    ghost Value = { List (List (List ℕ × Bool)) };

    ghost use Rattle.cgrammar.specs.Bounds.{AreBounds};
    ghost use Rattle.cgrammar.specs.Typedefs.{HasTypedefs};

    ghost view = { λ scope. scope.sets.items };

    ghost invariant = { λ scope. AreBounds scope.sets.items scope.bounds.levels.items × HasTypedefs scope.sets.items scope.typedefs.names };
}

impl Scope {
    /// The scope of a file before its first declaration.
    pub fn new(alloc: Global) -> Result<Scope, NoMemory>
        ensures { IfOk result (λ scope. scope ≡ file_scope) }
    {
        let mut sets = Vec::new(alloc);
        sets.push(Names::new(alloc))?;
        Ok(Scope {
            sets,
            bounds: Bounds::new(alloc)?,
            typedefs: Typedefs::new(alloc),
        })
    }

    /// Enters a scope in which nothing is declared. Where memory is wanting all stays as it was.
    pub fn enter(&mut self, alloc: Global) -> Result<(), NoMemory>
        ensures ok { OnOk result (self.new ≡ entered self.old) }
        ensures err { OnErr result (self.new ≡ self.old) }
    {
        self.sets.push(Names::new(alloc))?;
        if self.bounds.enter(alloc).is_err() {
            let _entered = self.sets.pop();
            return Err(NoMemory);
        }
        Ok(())
    }

    /// Leaves the innermost scope, with all names that it declares. Where there is no scope it changes nothing.
    #[tactic(auto, using(crate::proofs::Scopes::left_take, crate::proofs::TypedefNames::known_left))]
    pub fn leave(&mut self)
        ensures { self.new ≡ left self.old }
    {
        let _names = self.sets.pop();
        self.bounds.leave();
    }

    /// Declares a name in the innermost scope, as a typedef or as anything else. Where memory is wanting all stays as it
    /// was.
    pub fn declare(&mut self, alloc: Global, name: &[u8], typedef: bool) -> Result<(), NoMemory>
        ensures ok { OnOk result (self.new ≡ declared name.now typedef self.old) }
        ensures err { OnErr result (self.new ≡ self.old) }
    {
        self.typedefs.declare(alloc, name, typedef)?;
        self.bounds.declare(alloc, name)?;
        declare_last(alloc, &mut self.sets, name, typedef)
    }

    /// Declares a name in the scope around the innermost one, where there is one. Where memory is wanting all stays as it
    /// was.
    pub fn declare_around(
        &mut self,
        alloc: Global,
        name: &[u8],
        typedef: bool,
    ) -> Result<(), NoMemory>
        ensures ok { OnOk result (self.new ≡ declared_around name.now typedef self.old) }
        ensures err { OnErr result (self.new ≡ self.old) }
    {
        self.typedefs.declare(alloc, name, typedef)?;
        self.bounds.declare_around(alloc, name)?;
        declare_around_last(alloc, &mut self.sets, name, typedef)
    }

    /// A copy, with the same names.
    pub fn copied(&self, alloc: Global) -> Result<Scope, NoMemory>
        ensures { IfOk result (λ copy. copy ≡ self.now) }
    {
        Ok(Scope {
            sets: copied(alloc, self.sets.as_slice())?,
            bounds: self.bounds.copied(alloc)?,
            typedefs: self.typedefs.copied()?,
        })
    }

    /// Whether the innermost scope that has the name declares it as a typedef. Most names are no typedef's in any scope.
    pub fn is_typedef(&self, name: &[u8]) -> bool
        ensures { result ≡ is_typedef_name self.now name.now }
    {
        if !self.typedefs.may_have(name) {
            return false;
        }
        let bound = self.bounds.bound(name).min(self.sets.len());
        found(&self.sets.as_slice()[..bound], name).unwrap_or(false)
    }
}

/// What the last of the scopes that have a name says of it.
fn found(sets: &[Names], name: &[u8]) -> Option<bool>
    ensures { result ≡ found name.now sets.now }
{
    let mut left = sets.len();
    while left > 0 {
        left -= 1;
        let answer = sets[left].found(name);
        if answer.is_some() {
            return answer;
        }
    }
    None
}

/// Declares a name in the last scope, where there is one.
fn declare_last(
    alloc: Global,
    sets: &mut Vec<Names>,
    name: &[u8],
    typedef: bool,
) -> Result<(), NoMemory>
    ensures ok { OnOk result (sets.new.items ≡ declared name.now typedef sets.old.items) }
    ensures err { OnErr result (sets.new.items ≡ sets.old.items) }
{
    let count = sets.len();
    if count == 0 {
        return Ok(());
    }
    sets[count - 1].declare(alloc, name, typedef)
}

/// Declares a name in the scope before the last, where there is one.
fn declare_around_last(
    alloc: Global,
    sets: &mut Vec<Names>,
    name: &[u8],
    typedef: bool,
) -> Result<(), NoMemory>
    ensures ok { OnOk result (sets.new.items ≡ declared_around name.now typedef sets.old.items) }
    ensures err { OnErr result (sets.new.items ≡ sets.old.items) }
{
    let count = sets.len();
    if count < 2 {
        return Ok(());
    }
    sets[count - 2].declare(alloc, name, typedef)
}

/// Copies of the names of each scope.
fn copied(alloc: Global, sets: &[Names]) -> Result<Vec<Names>, NoMemory>
    ensures { IfOk result (λ copy. copy.items ≡ sets.now) }
{
    let mut copy = Vec::with_capacity(alloc, sets.len())?;
    for names in sets {
        copy.push(names.copied()?)?;
    }
    Ok(copy)
}
