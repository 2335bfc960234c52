//! Rows of operations with their types, worked out by hand from the standard. Each table is the contract of a function that
//! does nothing.
ghost use Rattle.typing.specs.ctypes.BinaryRows.{AreArithmetic, AreSums, AreCompared, AreTested};
ghost use Rattle.typing.specs.ctypes.ChoosingRows.{AreChosen};
ghost use Rattle.typing.specs.ctypes.ConvertingRows.{AreCast, AreConverted, AreAssigned, AreUpdated};
ghost use Rattle.typing.specs.ctypes.IntegerRows.{ArePromoted, AreCommon};
ghost use Rattle.typing.specs.ctypes.UnaryRows.{AreUnary, AreCounted, AreIndexed};

/// Promotions and usual arithmetic conversions (C11 6.3.1).
#[tactic(auto, using(crate::proofs::ctypes::Worked::are_promoted, crate::proofs::ctypes::Worked::are_common))]
pub fn rows_of_integers()
    ensures promoted { ArePromoted }
    ensures common { AreCommon }
{}

/// Binary operators (C11 6.5.5 to 6.5.14, 6.5.17).
#[tactic(auto, using(crate::proofs::ctypes::Worked::are_arithmetic, crate::proofs::ctypes::Worked::are_sums, crate::proofs::ctypes::Worked::are_compared, crate::proofs::ctypes::Worked::are_tested))]
pub fn rows_of_binary_operators()
    ensures arithmetic { AreArithmetic }
    ensures sums { AreSums }
    ensures compared { AreCompared }
    ensures tested { AreTested }
{}

/// Unary operators, indices and members (C11 6.5.2, 6.5.3).
#[tactic(auto, using(crate::proofs::ctypes::Worked::are_unary, crate::proofs::ctypes::Worked::are_counted, crate::proofs::ctypes::Worked::are_indexed))]
pub fn rows_of_unary_operators()
    ensures unary { AreUnary }
    ensures counted { AreCounted }
    ensures indexed { AreIndexed }
{}

/// Casts, conversions without a cast, and assignments (C11 6.5.4, 6.5.16).
#[tactic(auto, using(crate::proofs::ctypes::Worked::are_cast, crate::proofs::ctypes::Worked::are_converted, crate::proofs::ctypes::Worked::are_assigned, crate::proofs::ctypes::Worked::are_updated))]
pub fn rows_of_conversions()
    ensures cast { AreCast }
    ensures converted { AreConverted }
    ensures assigned { AreAssigned }
    ensures updated { AreUpdated }
{}

/// `?:` with every pair of arms (C11 6.5.15).
#[tactic(auto, using(crate::proofs::ctypes::Worked::are_chosen))]
pub fn rows_of_choices()
    ensures { AreChosen }
{}
