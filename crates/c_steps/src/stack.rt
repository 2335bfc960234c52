ghost use Rattle.std.specs.Prelude.{◌≡◌, ◌+◌, ◌-◌, ◌<◌, ◌++◌, [], ◌∷◌, drop, length, reverse, take, IfErr, IfSome, IfNone, OnOk, OnErr};

use cbase::NoMemory;
use std::alloc::Global;
use std::marker::Model;

/// A stack, which contracts see as the list of its items, the one that was pushed last first.
#[derive(Drop)]
pub struct Stack<T> {
    items: Vec<T>,
}

impl<T> Model for Stack<T> {
    ghost use Rattle.std.specs.Prelude.{List, reverse};
    ghost use Rattle.std.specs.Coded.{coded_list};

    ghost Value = { List T };

    ghost coded = { coded_list T.code };

    ghost view = { λ s. reverse s.items.items };
}

impl<T> Stack<T> {
    /// The empty stack. It takes no memory.
    pub fn new(alloc: Global) -> Stack<T>
        ensures { result ≡ [] }
    {
        Stack {
            items: Vec::new(alloc),
        }
    }

    /// How many items there are.
    #[tactic(auto, using(crate::proofs::Stacks::length_reverse))]
    pub fn len(&self) -> usize
        ensures { result ≡ length self.now }
    {
        self.items.len()
    }

    /// Takes the item that was pushed last, if there is one. It takes no memory.
    pub fn pop(&mut self) -> Option<T>
        ensures some { IfSome result (λ item. self.old ≡ item ∷ self.new) }
        ensures none { IfNone result (self.old ≡ []) }
        ensures empty { IfNone result (self.new ≡ []) }
    {
        self.items.pop()
    }

    /// The item behind so many that were pushed later.
    #[tactic(auto, using(crate::proofs::Stacks::found_behind))]
    pub fn item(&self, at: usize) -> &T
        requires { at < length self.now }
        ensures { drop at self.now ≡ result.now ∷ drop (at + 1) self.now }
    {
        &self.items[self.items.len() - 1 - at]
    }
}

impl<T: Drop> Stack<T> {
    /// Pushes an item. Where memory is wanting the stack stays as it was.
    pub fn push(&mut self, item: T) -> Result<(), NoMemory>
        ensures ok { OnOk result (self.new ≡ item ∷ self.old) }
        ensures err { OnErr result (self.new ≡ self.old) }
    {
        self.items.push(item)?;
        Ok(())
    }

    /// Pushes an item. Where memory is wanting the item is given back, and the stack stays as it was.
    pub fn push_or_return(&mut self, item: T) -> Result<(), T>
        ensures ok { OnOk result (self.new ≡ item ∷ self.old) }
        ensures err { OnErr result (self.new ≡ self.old) }
        ensures back { IfErr result (λ back. back ≡ item) }
    {
        match self.items.push(item) {
            Ok(()) => Ok(()),
            Err(refused) => Err(refused.value),
        }
    }

    /// Turns so many items round that were pushed last. It takes no memory.
    #[tactic(auto, using(crate::proofs::Stacks::turned_round))]
    pub fn turn(&mut self, count: usize)
        ensures { self.new ≡ reverse (take count self.old) ++ drop count self.old }
    {
        let from = self.items.len().saturating_sub(count);
        self.items.as_mut_slice()[from..].reverse();
    }

    /// Keeps so many items, those that were pushed first. It takes no memory.
    #[tactic(auto, using(crate::proofs::Stacks::first_pushed))]
    pub fn keep(&mut self, count: usize)
        ensures { self.new ≡ drop (length self.old - count) self.old }
    {
        self.items.truncate(count);
    }
}
