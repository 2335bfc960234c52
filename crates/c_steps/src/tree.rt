ghost use Rattle.std.specs.Prelude.{◌≡◌};

use std::marker::Model;

/// A tree of the program, which contracts see as the tree itself.
#[derive(Drop)]
pub struct Tree<'a, T> {
    tree: &'a T,
}

impl<'a, T> Model for Tree<'a, T> {
    ghost Value = { T };

    ghost coded = { T.code };

    ghost view = { λ t. t.tree.now };
}

impl<'a, T> Tree<'a, T> {
    /// The tree that a reference leads to.
    pub fn of(tree: &'a T) -> Tree<'a, T>
        ensures { result ≡ tree.now }
    {
        Tree { tree }
    }

    /// The reference.
    pub fn get(&self) -> &'a T
        ensures { result.now ≡ self.now }
    {
        self.tree
    }
}
