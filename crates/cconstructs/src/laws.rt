ghost use Rattle.std.specs.Prelude.{◌≡◌, ℕ, List};
ghost use Rattle.ctokens.specs.Symbol.{is_attribute as begins_attribute, is_closing, is_opening};
ghost use Rattle.ctokens.specs.TokenSymbols.{token_symbol};
ghost use Rattle.ctokens.specs.declared.token.Token.{Token};
ghost use Rattle.cgrammar.specs.Terminals.{terminal_of};
ghost use Rattle.cconstructs.specs.Layout.{is_attribute};
ghost use Rattle.cconstructs.specs.OpenBrackets.{closes, opens};

/// The brackets of an attribute's part, and the words that an attribute follows, are those by which tokens are passed
/// over.
#[tactic(auto, using(crate::proofs::PassedBrackets::opens_exact, crate::proofs::PassedBrackets::closes_exact, crate::proofs::PassedBrackets::attribute_exact))]
pub fn attributes_are_those_passed_over()
    ensures opening { (text : List ℕ) (token : Token) → opens (terminal_of text token) ≡ is_opening (token_symbol text token) }
    ensures closing { (text : List ℕ) (token : Token) → closes (terminal_of text token) ≡ is_closing (token_symbol text token) }
    ensures word { (text : List ℕ) (token : Token) → is_attribute (terminal_of text token) ≡ begins_attribute (token_symbol text token) }
{}
