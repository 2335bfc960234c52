//! Laws of what is answered of items. Each is the contract of a function that does nothing.
ghost use Rattle.cbase.specs.declared.abi.Abi.{Abi};
ghost use Rattle.items.specs.languages.CLanguage.{c_language, c_file};
ghost use Rattle.ccheck.specs.Walk.{HaveOneAnswer};

/// Of items one answer is true at most: each is read and passes, with one program and one list of what is handed on, or one refusal is the first.
#[tactic(auto, using(crate::proofs::OneAnswer::one_answer))]
pub fn items_have_one_answer()
    ensures { (abi : Abi) → HaveOneAnswer (c_language abi) (c_file abi) }
{}
