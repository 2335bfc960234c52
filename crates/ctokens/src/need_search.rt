//! The least set of items that main needs, found from one item to the next.

ghost use Rattle.std.specs.Prelude.{◌≡◌, ◌+◌, ◌<◌, ◌≤◌, [], false, length, slice_set, IfOk, OnOk};
ghost use Rattle.ctokens.specs.InText.{most_bytes};
ghost use Rattle.ctokens.specs.NeedSearch.{entry_at, found, follow, follow_all, mark, mark_all, mark_mains, places, put, put_all, put_entries, started, waiting_at, waiting_for, walk};

use crate::entry::Entry;
use cbase::{List, NoMemory};
use std::alloc::Global;
use std::marker::Model;

/// What has been found so far.
#[derive(Drop)]
pub(crate) struct Search {
    /// The items in the order in which they were found.
    order: Vec<u32>,
    /// For each item, whether it has been found.
    marked: Vec<bool>,
    /// For each name, the items that wait for it.
    waiting: Vec<List<u32>>,
}

impl Model for Search {
    ghost use Rattle.ctokens.specs.NeedSearch.{State};

    ghost Value = { State };

    ghost view = { λ f. record { order = f.order.items; marked = f.marked.items; waiting = f.waiting.items } };
}

/// Puts an item on those that wait for a name.
fn put(waiting: &mut Vec<List<u32>>, item: u32, name: u32) -> Result<(), NoMemory>
    ensures { OnOk result (waiting.new.items ≡ put item waiting.old.items name) }
{
    if (name as usize) < waiting.len() {
        waiting[name as usize].push(item)?;
    }
    Ok(())
}

/// Puts an item on those that wait for each of the names.
fn put_all(waiting: &mut Vec<List<u32>>, item: u32, names: &[u32]) -> Result<(), NoMemory>
    ensures { OnOk result (waiting.new.items ≡ put_all item waiting.old.items names.now) }
{
    for name in names {
        put(waiting, item, *name)?;
    }
    Ok(())
}

/// For each of `count` names, the items that are needed by it.
#[tactic(auto, unfolding(crate::specs::NeedSearch::waiting_for))]
fn waiting_for(alloc: Global, entries: &[Entry], count: u32) -> Result<Vec<List<u32>>, NoMemory>
    requires { length entries.now ≤ most_bytes }
    ensures { IfOk result (λ waiting. waiting.items ≡ waiting_for entries.now count) }
{
    let mut waiting = Vec::with_capacity(alloc, count as usize)?;
    for _ in 0..count {
        waiting.push(List::new(alloc))?;
    }
    for (item, entry) in entries.iter().enumerate() {
        put_all(&mut waiting, item as u32, entry.offers.as_slice())?;
    }
    Ok(waiting)
}

impl Search {
    /// Finds an item, unless it has been found.
    #[tactic(auto, unfolding(crate::specs::NeedSearch::mark))]
    fn mark(&mut self, item: u32) -> Result<(), NoMemory>
        ensures { OnOk result (self.new ≡ mark item self.old) }
    {
        let at = item as usize;
        if at >= self.marked.len() {
            return Ok(());
        }
        if self.marked[at] {
            return Ok(());
        }
        self.order.push(item)?;
        self.marked[at] = true;
        Ok(())
    }

    /// Finds each of the items, unless it has been found.
    fn mark_all(&mut self, items: &[u32]) -> Result<(), NoMemory>
        ensures { OnOk result (self.new ≡ mark_all items.now self.old) }
    {
        for item in items {
            self.mark(*item)?;
        }
        Ok(())
    }

    /// Finds the items that define main.
    fn mark_mains(&mut self, entries: &[Entry]) -> Result<(), NoMemory>
        requires { length entries.now ≤ most_bytes }
        ensures { OnOk result (self.new ≡ mark_mains 0 entries.now self.old) }
    {
        for (item, entry) in entries.iter().enumerate() {
            if entry.main {
                self.mark(item as u32)?;
            }
        }
        Ok(())
    }

    /// Takes the items that wait for a name.
    fn take_waiting(&mut self, alloc: Global, name: u32) -> List<u32>
        ensures taken { result ≡ waiting_at self.old.waiting name }
        ensures left { self.new ≡ record self.old { waiting = slice_set self.old.waiting name [] } }
    {
        let at = name as usize;
        if at >= self.waiting.len() {
            return List::new(alloc);
        }
        std::mem::replace(&mut self.waiting[at], List::new(alloc))
    }

    /// Finds the items that wait for a name.
    #[tactic(auto, unfolding(crate::specs::NeedSearch::follow))]
    fn follow(&mut self, alloc: Global, name: u32) -> Result<(), NoMemory>
        ensures { OnOk result (self.new ≡ follow name self.old) }
    {
        let items = self.take_waiting(alloc, name);
        self.mark_all(items.as_slice())
    }

    /// Finds the items that wait for each of the names.
    fn follow_all(&mut self, alloc: Global, names: &[u32]) -> Result<(), NoMemory>
        ensures { OnOk result (self.new ≡ follow_all names.now self.old) }
    {
        for name in names {
            self.follow(alloc, *name)?;
        }
        Ok(())
    }
}

/// The names that an item contains, and none where there is no such item.
fn contained_in(entries: &[Entry], item: u32) -> &[u32]
    ensures { result.now ≡ (entry_at entries.now item).contains }
{
    let at = item as usize;
    if at >= entries.len() {
        return &[];
    }
    entries[at].contains.as_slice()
}

impl Search {
    /// Looks at the found items in turn, each once, until all are found.
    #[tactic(auto, using(crate::proofs::WalkSteps::walk_more, crate::proofs::WalkSteps::walk_end))]
    fn walk(&mut self, alloc: Global, entries: &[Entry]) -> Result<(), NoMemory>
        ensures { OnOk result (self.new ≡ walk entries.now (length entries.now) 0 self.old) }
    {
        for at in 0..entries.len() {
            if at >= self.order.len() {
                return Ok(());
            }
            let item = self.order[at];
            self.follow_all(alloc, contained_in(entries, item))?;
        }
        Ok(())
    }

    /// The numbers of the items that have been found, ascending.
    fn numbers(&self, alloc: Global) -> Result<List<u32>, NoMemory>
        requires { length self.now.marked ≤ most_bytes }
        ensures { IfOk result (λ numbers. numbers ≡ places 0 self.now.marked) }
    {
        places(alloc, self.marked.as_slice())
    }
}

/// What is found at the start: the items that define main.
#[tactic(auto, unfolding(crate::specs::NeedSearch::started))]
fn started(alloc: Global, entries: &[Entry], count: u32) -> Result<Search, NoMemory>
    requires { length entries.now ≤ most_bytes }
    ensures { IfOk result (λ found. found ≡ started entries.now count) }
{
    let waiting = waiting_for(alloc, entries, count)?;
    let mut marked = Vec::with_capacity(alloc, entries.len())?;
    for _ in 0..entries.len() {
        marked.push(false)?;
    }
    let mut found = Search {
        order: Vec::new(alloc),
        marked,
        waiting,
    };
    found.mark_mains(entries)?;
    Ok(found)
}

/// The places at which a list is true, ascending.
fn places(alloc: Global, marked: &[bool]) -> Result<List<u32>, NoMemory>
    requires { length marked.now ≤ most_bytes }
    ensures { IfOk result (λ places_. places_ ≡ places 0 marked.now) }
{
    let mut places = Vec::new(alloc);
    for (place, is_marked) in marked.iter().enumerate() {
        if *is_marked {
            places.push(place as u32)?;
        }
    }
    Ok(List::from_vec(places))
}

/// The numbers of the items that are found, ascending. Names are below `count`.
///
/// Each item is looked at once, and each name brings in the items that wait for it once.
#[tactic(auto, unfolding(crate::specs::NeedSearch::found))]
pub(crate) fn found(alloc: Global, entries: &[Entry], count: u32) -> Result<List<u32>, NoMemory>
    requires { length entries.now ≤ most_bytes }
    ensures { IfOk result (λ numbers. numbers ≡ found entries.now count) }
{
    let mut found = started(alloc, entries, count)?;
    found.walk(alloc, entries)?;
    found.numbers(alloc)
}
