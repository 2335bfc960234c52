//! Laws of texts of choices. Each is the contract of a function that does nothing.
ghost use Rattle.std.specs.Prelude.{◌≡◌, ◌↔◌, ℕ, ◌^◌, ◌<◌, true, List, ◌∷◌, ◌++◌, length, codes};
ghost use Rattle.std.specs.List.{All, flat_map};
ghost use Rattle.std.specs.Fmt.{decimal};
ghost use Rattle.choices.specs.declared.choice.Choice.{Choice};
ghost use Rattle.choices.specs.declared.refusal.Refusal.TheVariants.{TooLong};
ghost use Rattle.choices.specs.declared.refusal.ReadChoices.{ReadChoices};
ghost use Rattle.choices.specs.declared.refusal.ReadChoices.TheVariants.{Choices, Refused};
ghost use Rattle.choices.specs.Format.{SpellsNumber, SpellsChoices, two_digits};
ghost use Rattle.choices.specs.Written.{HasLine, written};
ghost use Rattle.choices.specs.Answers.{IsAnswer, is_hexadecimal};
ghost use Rattle.choices.specs.Examples.{AreTexts, AreCutShort, AreNoWords, AreNoNumbers, AreNoContents};

/// What is written of a list is read as that list, and as nothing else.
#[tactic(auto, using(crate::proofs::Whole::written_is_read))]
pub fn written_is_read()
    ensures { (choices : List Choice) (answer : ReadChoices) → All HasLine choices →
        IsAnswer (written choices) answer ↔ (answer ≡ Choices choices) }
{}

/// A list has exactly one text where its numbers have 64 bits and its contents at most 65,536 bytes, and else none.
#[tactic(auto, using(crate::proofs::Whole::text_of_a_list))]
pub fn list_has_one_text()
    ensures { (text : List ℕ) (choices : List Choice) →
        SpellsChoices text choices ↔ ((text ≡ written choices) × All HasLine choices) }
{}

/// A text spells at most one list.
#[tactic(auto, using(crate::proofs::OneAnswer::one_list))]
pub fn text_has_one_list()
    ensures { (text : List ℕ) (a b : List Choice) → SpellsChoices text a → SpellsChoices text b → a ≡ b }
{}

/// Of each text exactly one answer is true.
#[tactic(auto, using(crate::proofs::OneAnswer::one_answer, crate::proofs::OneAnswer::some_answer))]
pub fn text_has_one_answer()
    ensures one { (text : List ℕ) (a b : ReadChoices) → IsAnswer text a → IsAnswer text b → a ≡ b }
    ensures some { (text : List ℕ) → (answer : ReadChoices) × IsAnswer text answer }
{}

/// Two texts one behind the other spell both lists one behind the other.
#[tactic(auto, using(crate::proofs::Whole::joined))]
pub fn texts_are_joined()
    ensures { (text more : List ℕ) (a b : List Choice) →
        SpellsChoices text a → SpellsChoices more b → SpellsChoices (text ++ more) (a ++ b) }
{}

/// A number has one word, which is what `{}` of Rust writes of it.
pub fn number_has_one_word()
    ensures { (word : List ℕ) (number : ℕ) →
        SpellsNumber word number ↔ ((word ≡ decimal number) × (number < 2 ^ 64)) }
{}

/// The worked examples of texts, and of texts that are refused, are read so.
#[tactic(auto, using(crate::proofs::Worked::examples_of_texts, crate::proofs::Worked::examples_of_cut, crate::proofs::Worked::examples_of_words, crate::proofs::Worked::examples_of_numbers, crate::proofs::Worked::examples_of_contents))]
pub fn worked_examples()
    ensures texts { AreTexts }
    ensures cut_short { AreCutShort }
    ensures words { AreNoWords }
    ensures numbers { AreNoNumbers }
    ensures contents { AreNoContents }
{}

/// Contents of 65,536 bytes take no digit more; that they are read with a newline behind them is [`written_is_read`].
pub fn contents_are_at_most_65536_bytes()
    ensures { (bytes rest : List ℕ) (byte : ℕ) → length bytes ≡ 65536 → All (λ byte. byte < 256) bytes →
        is_hexadecimal byte ≡ true →
        IsAnswer ((codes "block 16 " ++ flat_map two_digits bytes) ++ byte ∷ rest)
        (Refused (TooLong 131081)) }
{}
