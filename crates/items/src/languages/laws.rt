//! Laws of languages. Each is the contract of a function that does nothing.
ghost use Rattle.items.specs.languages.Laws.{FindsWhatIsCarried, CarriesItself};

/// What is found in a part of a text, or in an item, is found in it from where a map leads that carries the language over (C11 6.3, 6.5 to 6.9).
///
/// It is stated of the language of the examples and maps of its environments. The proof is of every two languages.
pub fn what_is_found_carries_over()
    ensures { FindsWhatIsCarried }
{}

/// A language carries over to itself, by the map that changes nothing: so there are maps of which the other law speaks.
///
/// It is stated of the language of the examples. The proof is of every one.
pub fn each_language_carries_itself()
    ensures { CarriesItself }
{}
