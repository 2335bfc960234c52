ghost use Rattle.std.specs.Prelude.{⊤, ◌≡◌};

use std::alloc::AllocError;

/// What a name stands for in a scope that declares it, with what it is visible as around that scope.
pub(crate) struct Kept<A> {
    /// What it stands for there.
    pub(crate) meaning: A,
    /// What it is visible as around the scope, and so again once the scope is left.
    pub(crate) hidden: Option<A>,
}

impl<A: Copy> Clone for Kept<A> {
    ghost is_clone = { λ kept copy. copy ≡ kept };

    ghost is_infallible = { λ _. ⊤ };

    fn clone(&self) -> Result<Kept<A>, AllocError> {
        Ok(*self)
    }
}

impl<A: Copy> Copy for Kept<A> {}
