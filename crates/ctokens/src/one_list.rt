ghost use Rattle.std.specs.Prelude.{◌≡◌, ℕ, List, Result};
ghost use Rattle.ctokens.specs.Items.{IsItems};
ghost use Rattle.ctokens.specs.TokenList.{AreTokens, IsLexical};
ghost use Rattle.ctokens.specs.declared.item_span.ItemSpan.{ItemSpan};
ghost use Rattle.ctokens.specs.declared.item_span.Deep.{Deep};
ghost use Rattle.ctokens.specs.declared.token.Tokens.{Tokens};
ghost use Rattle.ctokens.specs.declared.token.Lexical.{Lexical};

/// The law that a text has one list of tokens or one first place where it has none, and never both.
///
/// It does nothing: who wants the law calls it.
pub fn one_token_list()
    ensures list { (file text : List ℕ) (tokens others : Tokens) → AreTokens file text tokens → AreTokens file text others → tokens ≡ others }
    ensures place { (file text : List ℕ) (lexical other : Lexical) → IsLexical file text lexical → IsLexical file text other → lexical ≡ other }
    ensures never_both { (file text : List ℕ) (tokens : Tokens) (lexical : Lexical) → AreTokens file text tokens → IsLexical file text lexical → ⊥ }
{}

/// The law that a text has one list of items or one first bracket that opens too deep, and never both.
///
/// It does nothing: who wants the law calls it.
#[tactic(auto, using(crate::proofs::ItemsExact::answers_unique))]
pub fn one_item_list()
    ensures { (t : Tokens) (answer other : Result (List ItemSpan) Deep) → IsItems t answer → IsItems t other → answer ≡ other }
{}
