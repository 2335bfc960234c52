ghost use Rattle.std.specs.Prelude.{⊤, ◌≡◌};

use cbase::Abi;
use std::alloc::AllocError;

/// The data layout, and how many levels a part of a tree may have.
#[derive(Clone, Copy)]
pub struct Within {
    /// The data layout.
    pub abi: Abi,
    /// How many levels: expressions, statements, words of types and initialisers that lie one inside the other.
    pub depth: u32,
}

/// The rules take the walk over what lies in a tree as a parameter, so that each is proved by itself.
pub struct Checker<F> {
    /// The data layout.
    pub abi: Abi,
    /// How many levels a part that lies in a tree may have.
    pub depth: u32,
    /// The walk over such parts.
    pub inner: F,
}

impl<F: Copy> Clone for Checker<F> {
    ghost is_clone = { λ checker copy. copy ≡ checker };

    ghost is_infallible = { λ _. ⊤ };

    /// The same, which takes no memory.
    fn clone(&self) -> Result<Checker<F>, AllocError> {
        Ok(*self)
    }
}

impl<F: Copy> Copy for Checker<F> {}
