ghost use Rattle.std.specs.Prelude.{◌≡◌, ◌++◌, ◌∷◌, ◌≤◌, ◌<◌, ℕ, Bool, List, [], Some, length, slice_index_or, IfOk, OnOk, OnErr};
ghost use Rattle.cgrammar.specs.Scope.{Names, declared, declared_around, file_scope, left};
ghost use Rattle.cgrammar.specs.NameTables.{value_in};
ghost use Rattle.cgrammar.specs.Bounds.{bound_in, AreBounds, AreEarlierAgain, IsRestored, SameButFirst, Rises, Remembers, Grow};

use crate::numbers::Numbers;
use cbase::NoMemory;
use std::alloc::Global;

/// For each name a bound above the number of each open scope that declares it, where the outermost scope has the number
/// 0: a look-up begins at the scope below the bound. A bound may be too high. The names that only the outermost scope
/// declares take no memory.
#[derive(Drop)]
pub struct Bounds {
    // First the bounds. Then of each open scope but the outermost the bounds that names had before it declared them, with
    // which it is left: nothing is looked up outside the outermost scope, so that its place is free.
    levels: Vec<Numbers>,
}

impl Bounds {
    /// The bounds in the scope of a file before its first declaration.
    pub fn new(alloc: Global) -> Result<Bounds, NoMemory>
        ensures { IfOk result (λ bounds. AreBounds file_scope bounds.levels.items) }
    {
        let mut levels = Vec::new(alloc);
        levels.push(Numbers::new(alloc))?;
        Ok(Bounds { levels })
    }

    /// The bound of a name.
    pub fn bound(&self, name: &[u8]) -> usize
        ensures { result ≡ bound_in name.now (slice_index_or self.now.levels.items 0 []) }
    {
        if self.levels.len() == 0 {
            return 1;
        }
        self.levels[0].bound(name)
    }

    /// Enters a scope. Where memory is wanting all stays as it was.
    pub fn enter(&mut self, alloc: Global) -> Result<(), NoMemory>
        ensures ok { OnOk result (self.new.levels.items ≡ self.old.levels.items ++ [] ∷ []) }
        ensures err { OnErr result (self.new.levels.items ≡ self.old.levels.items) }
    {
        self.levels.push(Numbers::new(alloc))?;
        Ok(())
    }

    /// Leaves the innermost scope: the names that it declared have their earlier bounds again.
    pub fn leave(&mut self)
        ensures bounds { (scopes : List Names) → AreBounds scopes self.old.levels.items → AreBounds (left scopes) self.new.levels.items }
        ensures earlier { AreEarlierAgain self.old.levels.items self.new.levels.items }
    {
        let last = self.levels.pop();
        if let Some(earlier) = last {
            restore(&mut self.levels, &earlier);
        }
    }

    /// Raises the bound of a name above the innermost scope, which then may declare it. Where memory is wanting the bounds
    /// stay right for the scopes as they are.
    pub fn declare(&mut self, alloc: Global, name: &[u8]) -> Result<(), NoMemory>
        ensures kept { (scopes : List Names) → AreBounds scopes self.old.levels.items → AreBounds scopes self.new.levels.items }
        ensures ok { OnOk result ((scopes : List Names) (typedef : Bool) → AreBounds scopes self.old.levels.items → AreBounds (declared name.now typedef scopes) self.new.levels.items) }
    {
        let count = self.levels.len();
        if count == 0 {
            return Ok(());
        }
        let bound = self.bound(name);
        remember(alloc, &mut self.levels, count - 1, name, bound)?;
        raise(alloc, &mut self.levels, name, count)
    }

    /// Raises the bound of a name above the scope around the innermost one, which then may declare it. Where memory is
    /// wanting the bounds stay right for the scopes as they are.
    pub fn declare_around(&mut self, alloc: Global, name: &[u8]) -> Result<(), NoMemory>
        ensures kept { (scopes : List Names) → AreBounds scopes self.old.levels.items → AreBounds scopes self.new.levels.items }
        ensures ok { OnOk result ((scopes : List Names) (typedef : Bool) → AreBounds scopes self.old.levels.items → AreBounds (declared_around name.now typedef scopes) self.new.levels.items) }
    {
        let count = self.levels.len();
        if count < 2 {
            return Ok(());
        }
        let bound = self.bound(name);
        let around = self.levels[count - 1].get(name).unwrap_or(bound);
        remember(alloc, &mut self.levels, count - 2, name, around)?;
        raise_earlier(alloc, &mut self.levels, count - 1, name, count - 1)?;
        raise(alloc, &mut self.levels, name, count - 1)
    }

    /// A copy, with the same bounds.
    pub fn copied(&self, alloc: Global) -> Result<Bounds, NoMemory>
        ensures { IfOk result (λ copy. copy.levels.items ≡ self.now.levels.items) }
    {
        Ok(Bounds {
            levels: copied(alloc, self.levels.as_slice())?,
        })
    }
}

/// Gives names their earlier bounds, where there are bounds.
fn restore(levels: &mut Vec<Numbers>, earlier: &Numbers)
    ensures count { length levels.new.items ≡ length levels.old.items }
    ensures first { IsRestored earlier.now (slice_index_or levels.old.items 0 []) (slice_index_or levels.new.items 0 []) }
    ensures others { SameButFirst levels.old.items levels.new.items }
{
    if levels.len() == 0 {
        return;
    }
    levels[0].restore(earlier);
}

/// Notes the bound that a name had before a scope declared it, where none is noted yet. Of the outermost scope none is
/// noted: outside it no scope is looked at.
fn remember(
    alloc: Global,
    earlier: &mut Vec<Numbers>,
    at: usize,
    name: &[u8],
    bound: usize,
) -> Result<(), NoMemory>
    requires { at < length earlier.old.items }
    ensures count { length earlier.new.items ≡ length earlier.old.items }
    ensures first { slice_index_or earlier.new.items 0 [] ≡ slice_index_or earlier.old.items 0 [] }
    ensures noted { Remembers earlier.old.items at name.now bound earlier.new.items }
{
    if at == 0 {
        return Ok(());
    }
    if earlier[at].get(name).is_some() {
        return Ok(());
    }
    earlier[at].put(alloc, name, bound)
}

/// Makes the bound that a name had before a scope declared it, where one is noted, at least `least`.
fn raise_earlier(
    alloc: Global,
    earlier: &mut Vec<Numbers>,
    at: usize,
    name: &[u8],
    least: usize,
) -> Result<(), NoMemory>
    requires within { at < length earlier.old.items }
    requires inner { 0 < at }
    ensures count { length earlier.new.items ≡ length earlier.old.items }
    ensures first { slice_index_or earlier.new.items 0 [] ≡ slice_index_or earlier.old.items 0 [] }
    ensures kept { Grow earlier.old.items earlier.new.items }
    ensures ok { OnOk result ((number : ℕ) → value_in name.now (slice_index_or earlier.new.items at []) ≡ Some number → least ≤ number) }
{
    let known = earlier[at].get(name);
    let Some(bound) = known else {
        return Ok(());
    };
    if bound >= least {
        return Ok(());
    }
    earlier[at].put(alloc, name, least)
}

/// Makes the bound of a name at least `least`.
fn raise(
    alloc: Global,
    levels: &mut Vec<Numbers>,
    name: &[u8],
    least: usize,
) -> Result<(), NoMemory>
    requires { 0 < length levels.old.items }
    ensures count { length levels.new.items ≡ length levels.old.items }
    ensures kept { Rises (slice_index_or levels.old.items 0 []) (slice_index_or levels.new.items 0 []) }
    ensures others { SameButFirst levels.old.items levels.new.items }
    ensures ok { OnOk result (least ≤ bound_in name.now (slice_index_or levels.new.items 0 [])) }
{
    if levels[0].bound(name) >= least {
        return Ok(());
    }
    levels[0].put(alloc, name, least)
}

/// Copies of the bounds, and of those of each scope.
fn copied(alloc: Global, levels: &[Numbers]) -> Result<Vec<Numbers>, NoMemory>
    ensures { IfOk result (λ copy. copy.items ≡ levels.now) }
{
    let mut copy = Vec::with_capacity(alloc, levels.len())?;
    for numbers in levels {
        copy.push(numbers.copied()?)?;
    }
    Ok(copy)
}
