ghost use Rattle.std.specs.Prelude.{◌≡◌, [], ◌∷◌, drop, length, IfSome, IfNone};

use choices::Choice;
use std::marker::Model;

/// The choices of a run that are not taken yet, in their order.
#[derive(Drop)]
pub struct Choices<'a> {
    all: &'a [Choice],
    taken: usize,
}

impl<'a> Model for Choices<'a> {
    ghost use Rattle.std.specs.Prelude.{List, ◌≤◌, drop, length};
    ghost use Rattle.choices.specs.declared.choice.Choice.{Choice};

    ghost Value = { List Choice };

    ghost view = { λ c. drop c.taken c.all.now };

    ghost invariant = { λ c. c.taken ≤ length c.all.now };
}

impl<'a> Choices<'a> {
    /// All of these choices, of which none is taken.
    pub fn of(all: &'a [Choice]) -> Choices<'a>
        ensures { result ≡ all.now }
    {
        Choices { all, taken: 0 }
    }

    /// How many are left.
    pub fn len(&self) -> usize
        ensures { result ≡ length self.now }
    {
        self.all.len() - self.taken
    }

    /// The first one, if there is one. It is not taken.
    #[tactic(auto, using(crate::proofs::Behind::first_left, crate::proofs::Behind::none_left))]
    pub fn first(&self) -> Option<&'a Choice>
        ensures some { IfSome result (λ first. self.now ≡ first.now ∷ drop 1 self.now) }
        ensures none { IfNone result (self.now ≡ []) }
    {
        if self.taken >= self.all.len() {
            return None;
        }
        Some(&self.all[self.taken])
    }

    /// Takes the first one, if there is one.
    #[tactic(auto, using(crate::proofs::Behind::taken_once, crate::proofs::Behind::taken_none))]
    pub fn take(&mut self)
        ensures { self.new ≡ drop 1 self.old }
    {
        if self.taken < self.all.len() {
            self.taken += 1;
        }
    }
}
