//! Laws of planes. Each is the contract of a function that does nothing.
//!
//! They say byte by byte what the definitions of `specs/` say of whole lists.
ghost use Rattle.std.specs.Prelude.{◌≡◌, ℕ, ◌+◌, ◌<◌, ◌≤◌, max, List, length, slice_get, slice_index, Some};
ghost use Rattle.std.specs.List.{AllZip};
ghost use Rattle.planes.specs.Classes.{filled, highest};

/// A fill gives each byte of its range the class, and keeps each other byte's and how many there are.
pub fn fill_gives_its_class()
    ensures size { (classes : List ℕ) (from count class : ℕ) → from + count ≤ length classes →
        length (filled classes from count class) ≡ length classes }
    ensures inside { (classes : List ℕ) (from count class at : ℕ) → from + count ≤ length classes →
        from ≤ at → at < from + count → slice_get (filled classes from count class) at ≡ Some class }
    ensures before { (classes : List ℕ) (from count class at : ℕ) → from + count ≤ length classes →
        at < from → slice_get (filled classes from count class) at ≡ slice_get classes at }
    ensures behind { (classes : List ℕ) (from count class at : ℕ) → from + count ≤ length classes →
        from + count ≤ at → slice_get (filled classes from count class) at ≡ slice_get classes at }
{}

/// The greater class at each byte is above neither plane's, and below every plane that is above both.
#[tactic(auto, using(crate::proofs::Pairs::left_at_most, crate::proofs::Pairs::right_at_most, crate::proofs::Pairs::highest_at_most))]
pub fn highest_is_the_least_above_both()
    ensures left { (classes others : List ℕ) → length classes ≡ length others →
        AllZip (λ class greater. class ≤ greater) classes (highest classes others) }
    ensures right { (classes others : List ℕ) → length classes ≡ length others →
        AllZip (λ class greater. class ≤ greater) others (highest classes others) }
    ensures least { (classes others bounds : List ℕ) →
        AllZip (λ class greater. class ≤ greater) classes bounds →
        AllZip (λ class greater. class ≤ greater) others bounds →
        AllZip (λ class greater. class ≤ greater) (highest classes others) bounds }
{}
