//! Laws of types and of their table. Each is the contract of a call that does nothing.
ghost use Rattle.std.specs.Prelude.{◌≡◌, ◌↔◌, ℕ, IsTrue, Some, slice_get};
ghost use Rattle.cbase.specs.declared.ctype.CType.{CType};
ghost use Rattle.typing.specs.ctypes.Same.{same_type};
ghost use Rattle.typing.specs.ctypes.Table.{AreApart};

use crate::ctypes::types::Types;

impl Types {
    /// Equal types have one number: types of different numbers differ.
    pub fn are_apart(&self)
        ensures { AreApart self.now.types }
    {
        let _ = &self.shapes;
    }

    /// There is a way back from types to numbers: it takes each type of the table to its number.
    #[tactic(auto, using(crate::proofs::ctypes::Numbers::way_back))]
    pub fn each_type_has_one_number(&self)
        ensures { (number_of : CType → ℕ) × ((number : ℕ) (t : CType) → slice_get self.now.types number ≡ Some t → number_of t ≡ number) }
    {
        self.are_apart();
    }
}

/// Two types are told to be the same exactly where they are equal.
#[tactic(auto, using(crate::proofs::ctypes::Numbers::same_type_decides))]
pub fn same_types_are_equal()
    ensures { (s t : CType) → IsTrue (same_type s t) ↔ (s ≡ t) }
{}
