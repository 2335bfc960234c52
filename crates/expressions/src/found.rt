ghost use Rattle.std.specs.Prelude.{⊤, ◌≡◌};

use std::alloc::AllocError;
use typing::Fault;

/// What is found of a part of a tree.
pub enum Found<A> {
    /// It passes, and that is told of it.
    Passes(A),
    /// That is refused in it, and nothing before it.
    Refused(Fault),
}

impl<A: Copy> Clone for Found<A> {
    ghost is_clone = { λ found copy. copy ≡ found };

    ghost is_infallible = { λ _. ⊤ };

    /// The same, which takes no memory.
    fn clone(&self) -> Result<Found<A>, AllocError> {
        Ok(*self)
    }
}

impl<A: Copy> Copy for Found<A> {}
