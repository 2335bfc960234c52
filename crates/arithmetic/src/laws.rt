//! Laws of integers. Each is the contract of a function that does nothing.
//!
//! They say in other words what the definitions of `specs/` compute.
ghost use Rattle.std.specs.Prelude.{◌≡◌, ℕ, ◌+◌, ◌-◌, ◌*◌, ◌/◌, ◌%◌, ◌^◌, ◌<◌, ◌≤◌, Bool, true, false, Option, None, Some, ℤ, pos, neg_ℤ, ◌+ℤ◌, ◌-ℤ◌, ◌*ℤ◌, ◌<ℤ◌, ◌≤ℤ◌, ◌↔◌, ◌⊎◌, IsTrue, IfSome, unsigned_abs, bit_and, not};
ghost use Rattle.arithmetic.specs.declared.op.Op.{Op};
ghost use Rattle.arithmetic.specs.declared.op.Op.TheVariants.{Add, Sub, Mul, Div, Rem, And, Or, Xor, Left, Right, Less, LessEqual};
ghost use Rattle.arithmetic.specs.declared.size.Size.{Size};
ghost use Rattle.arithmetic.specs.Size.{bytes};
ghost use Rattle.arithmetic.specs.Value.{modulus, bits, value, least, is_in_range};
ghost use Rattle.arithmetic.specs.Conversion.{converted, truth};
ghost use Rattle.arithmetic.specs.Comparing.{is_less, is_less_equal, is_equal};
ghost use Rattle.arithmetic.specs.Computing.{computed, negated, complemented};
ghost use Rattle.arithmetic.specs.Laws.{MakeDividend};
ghost use Rattle.arithmetic.specs.Examples.{AreValues, AreConverted, AreComputed};

/// The bits of a whole number are below 2^n.
#[tactic(auto, using(crate::proofs::Inverse::bits_small))]
pub fn bits_fit()
    ensures { (size : Size) (number : ℤ) → bits (bytes size) number < modulus (bytes size) }
{}

/// The value of an integer is in the range of its type (C11 6.2.6.2).
#[tactic(auto, using(crate::proofs::Inverse::value_between))]
pub fn value_is_in_range()
    ensures { (size : Size) (signed : Bool) (number : ℕ) →
        IsTrue (is_in_range (bytes size) signed (value (bytes size) signed number)) }
{}

/// The bits of an integer's value are the integer.
#[tactic(auto, using(crate::proofs::Inverse::bits_value))]
pub fn bits_of_value_are_the_integer()
    ensures { (size : Size) (signed : Bool) (number : ℕ) →
        bits (bytes size) (value (bytes size) signed number) ≡ number % modulus (bytes size) }
{}

/// A whole number in the range of a type is the value of its bits (C11 6.3.1.3p1).
pub fn value_of_bits_is_the_number()
    ensures { (size : Size) (signed : Bool) (number : ℤ) →
        IsTrue (is_in_range (bytes size) signed number) →
        value (bytes size) signed (bits (bytes size) number) ≡ number }
{}

/// A value that the new type has is kept by a conversion (C11 6.3.1.3p1).
pub fn conversion_keeps_what_fits()
    ensures { (from to : Size) (signed signed' : Bool) (number : ℕ) →
        IsTrue (is_in_range (bytes to) signed' (value (bytes from) signed number)) →
        value (bytes to) signed' (converted (bytes from) signed (bytes to) number)
        ≡ value (bytes from) signed number }
{}

/// A conversion to a type that is no smaller, of the same sign, keeps each value (C11 6.3.1.1p3).
pub fn conversion_to_wider_keeps_values()
    ensures { (from to : Size) (signed : Bool) (number : ℕ) →
        bytes from ≤ bytes to →
        value (bytes to) signed (converted (bytes from) signed (bytes to) number)
        ≡ value (bytes from) signed number }
{}

/// A conversion changes a value by a multiple of 2^n (C11 6.3.1.3p2).
#[tactic(auto, using(crate::proofs::Inverse::converted_modulo))]
pub fn conversion_is_modulo()
    ensures { (from to : Size) (signed signed' : Bool) (number : ℕ) →
        (j : ℕ) × (k : ℕ)
        × (value (bytes to) signed' (converted (bytes from) signed (bytes to) number) +ℤ pos (j * modulus (bytes to))
        ≡ value (bytes from) signed number +ℤ pos (k * modulus (bytes to))) }
{}

/// A conversion to `_Bool` gives 0 exactly for 0, and else 1 (C11 6.3.1.2p1).
pub fn truth_is_of_values()
    ensures zero { (size : Size) (signed : Bool) (number : ℕ) →
        (truth (bytes size) number ≡ 0) ↔ (value (bytes size) signed number ≡ pos 0) }
    ensures one { (size : Size) (number : ℕ) → (truth (bytes size) number ≡ 0) ⊎ (truth (bytes size) number ≡ 1) }
{}

/// Sums, products and bits do not ask which operand is the left one.
pub fn sums_and_products_commute()
    ensures sum { (size : Size) (signed : Bool) (left right : ℕ) →
        computed Add (bytes size) signed left right ≡ computed Add (bytes size) signed right left }
    ensures product { (size : Size) (signed : Bool) (left right : ℕ) →
        computed Mul (bytes size) signed left right ≡ computed Mul (bytes size) signed right left }
{}

/// A sum, a difference or a product that the type has is the result (C11 6.5.5p4, 6.5.6p5-6).
pub fn what_fits_is_exact()
    ensures sum { (size : Size) (signed : Bool) (left right : ℕ) →
        IsTrue (is_in_range (bytes size) signed (value (bytes size) signed left +ℤ value (bytes size) signed right)) →
        IfSome (computed Add (bytes size) signed left right)
        (λ result. value (bytes size) signed result ≡ value (bytes size) signed left +ℤ value (bytes size) signed right) }
    ensures difference { (size : Size) (signed : Bool) (left right : ℕ) →
        IsTrue (is_in_range (bytes size) signed (value (bytes size) signed left -ℤ value (bytes size) signed right)) →
        IfSome (computed Sub (bytes size) signed left right)
        (λ result. value (bytes size) signed result ≡ value (bytes size) signed left -ℤ value (bytes size) signed right) }
    ensures product { (size : Size) (signed : Bool) (left right : ℕ) →
        IsTrue (is_in_range (bytes size) signed (value (bytes size) signed left *ℤ value (bytes size) signed right)) →
        IfSome (computed Mul (bytes size) signed left right)
        (λ result. value (bytes size) signed result ≡ value (bytes size) signed left *ℤ value (bytes size) signed right) }
{}

/// The least number of a type with a sign divided by -1 is itself, and leaves 0.
pub fn least_by_minus_one_is_least()
    ensures quotient { (size : Size) →
        computed Div (bytes size) true (modulus (bytes size) / 2) (modulus (bytes size) - 1) ≡ Some (modulus (bytes size) / 2) }
    ensures remainder { (size : Size) →
        computed Rem (bytes size) true (modulus (bytes size) / 2) (modulus (bytes size) - 1) ≡ Some 0 }
{}

/// A division has a value exactly where the divisor is not 0 (C11 6.5.5p5).
pub fn division_needs_a_divisor()
    ensures quotient { (size : Size) (signed : Bool) (left right : ℕ) →
        (computed Div (bytes size) signed left right ≡ None) ↔ (value (bytes size) signed right ≡ pos 0) }
    ensures remainder { (size : Size) (signed : Bool) (left right : ℕ) →
        (computed Rem (bytes size) signed left right ≡ None) ↔ (value (bytes size) signed right ≡ pos 0) }
{}

/// A shift has a value exactly where the amount is below the number of bits (C11 6.5.7p3).
pub fn shift_needs_an_amount_below_the_width()
    ensures left { (size : Size) (signed : Bool) (number amount : ℕ) →
        (computed Left (bytes size) signed number amount ≡ None) ↔ (8 * bytes size ≤ amount) }
    ensures right { (size : Size) (signed : Bool) (number amount : ℕ) →
        (computed Right (bytes size) signed number amount ≡ None) ↔ (8 * bytes size ≤ amount) }
{}

/// Shifts by 0 change nothing.
pub fn shifts_by_zero_change_nothing()
    ensures left { (size : Size) (signed : Bool) (number : ℕ) →
        computed Left (bytes size) signed number 0 ≡ Some (number % modulus (bytes size)) }
    ensures right { (size : Size) (signed : Bool) (number : ℕ) →
        computed Right (bytes size) signed number 0 ≡ Some (number % modulus (bytes size)) }
{}

/// Of two integers exactly one is less, unless they are equal: `<` goes by the values.
pub fn less_is_an_order()
    ensures values { (size : Size) (signed : Bool) (left right : ℕ) →
        IsTrue (is_less (bytes size) signed left right) ↔ (value (bytes size) signed left <ℤ value (bytes size) signed right) }
    ensures itself { (size : Size) (signed : Bool) (number : ℕ) → is_less (bytes size) signed number number ≡ false }
    ensures through { (size : Size) (signed : Bool) (left middle right : ℕ) →
        IsTrue (is_less (bytes size) signed left middle) → IsTrue (is_less (bytes size) signed middle right) →
        IsTrue (is_less (bytes size) signed left right) }
    ensures equal { (size : Size) (signed : Bool) (left right : ℕ) →
        IsTrue (is_less_equal (bytes size) signed left right) ↔
        (IsTrue (is_less (bytes size) signed left right) ⊎ IsTrue (is_equal (bytes size) signed left right)) }
    ensures other { (size : Size) (signed : Bool) (left right : ℕ) →
        is_less_equal (bytes size) signed left right ≡ not (is_less (bytes size) signed right left) }
{}

/// Two integers are equal exactly where their bits are, whatever the sign.
pub fn equal_integers_have_equal_bits()
    ensures { (size : Size) (signed : Bool) (left right : ℕ) →
        IsTrue (is_equal (bytes size) signed left right) ↔ (left % modulus (bytes size) ≡ right % modulus (bytes size)) }
{}

/// `~` is -1 less the value, and undoes itself (C11 6.5.3.3p4).
pub fn complement_is_minus_one_less_the_value()
    ensures value { (size : Size) (number : ℕ) →
        value (bytes size) true (complemented (bytes size) number) ≡ pos 0 -ℤ pos 1 -ℤ value (bytes size) true number }
    ensures twice { (size : Size) (number : ℕ) →
        complemented (bytes size) (complemented (bytes size) number) ≡ number % modulus (bytes size) }
{}

/// An integer and its opposite add up to 0 (C11 6.5.3.3p3).
pub fn opposites_add_up_to_zero()
    ensures { (size : Size) (signed : Bool) (number : ℕ) →
        computed Add (bytes size) signed number (negated (bytes size) signed number) ≡ Some 0 }
{}

/// What an operator gives is the bits of an integer of the size.
#[tactic(auto, using(crate::proofs::Quotients::computed_small))]
pub fn results_fit()
    ensures { (op : Op) (size : Size) (signed : Bool) (left right : ℕ) →
        IfSome (computed op (bytes size) signed left right) (λ result. result < modulus (bytes size)) }
{}

/// The quotient times the divisor, and the remainder, are the dividend: modulo 2^n, and as whole numbers where the
/// type has the quotient. The remainder is smaller than the divisor and has the sign of the dividend (C11 6.5.5p6).
pub fn quotient_and_remainder_make_the_dividend()
    ensures { (size : Size) (signed : Bool) (left right quotient remainder : ℕ) →
        computed Div (bytes size) signed left right ≡ Some quotient →
        computed Rem (bytes size) signed left right ≡ Some remainder →
        MakeDividend (bytes size) signed left right quotient remainder }
{}

/// A shift to the right gives the quotient by two to the power of the amount, rounded down, whatever the sign.
pub fn shift_right_rounds_down()
    ensures { (size : Size) (signed : Bool) (number amount result : ℕ) →
        computed Right (bytes size) signed number amount ≡ Some result →
        ((value (bytes size) signed result *ℤ pos (2 ^ amount)) ≤ℤ value (bytes size) signed number)
        × (value (bytes size) signed number
        <ℤ (value (bytes size) signed result *ℤ pos (2 ^ amount) +ℤ pos (2 ^ amount))) }
{}

/// The worked examples hold: values and ranges at their edges, conversions, and operations.
#[tactic(auto, using(crate::proofs::Examples::values, crate::proofs::Examples::conversions, crate::proofs::Examples::computations))]
pub fn worked_examples()
    ensures values { AreValues }
    ensures conversions { AreConverted }
    ensures computations { AreComputed }
{}
