//! Laws of constants. Each is the contract of a function that does nothing.
ghost use Rattle.std.specs.Prelude.{◌≡◌, ℕ, ◌+◌, ◌*◌, List, [], ◌∷◌, ◌++◌};
ghost use Rattle.std.specs.Char.{digit_value};
ghost use Rattle.std.specs.Str.Parse.{digits_value};
ghost use Rattle.typing.specs.declared.constants.base.Base.{Base};
ghost use Rattle.typing.specs.constants.Integers.{radix};
ghost use Rattle.typing.specs.constants.Meanings.{Reading, Reads};
ghost use Rattle.typing.specs.constants.Rows.{AreConstants};

/// The last digit counts once, and those before it as often as the base says (C11 6.4.4.1p4).
#[tactic(auto, using(crate::proofs::constants::Numbers::value_push))]
pub fn last_digit_counts_once()
    ensures { (base : Base) (digits : List ℕ) (last : ℕ) →
        digits_value (radix base) (digits ++ last ∷ []) ≡ radix base * digits_value (radix base) digits + digit_value last }
{}

/// Bytes are read in one way at most: as one integer constant, or as one character.
#[tactic(auto, using(crate::proofs::constants::Exact::one_reading))]
pub fn one_reading()
    ensures { (spelling : List ℕ) (reading other : Reading) →
        Reads spelling reading → Reads spelling other → reading ≡ other }
{}

/// The rows of `specs/constants/Rows.antt` hold: constants of each base and suffix, at the greatest values of each type, and
/// characters of each kind, in both data layouts.
#[tactic(auto, using(crate::proofs::constants::Worked::constant_rows))]
pub fn rows_hold()
    ensures { AreConstants }
{}
