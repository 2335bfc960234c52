//! Laws that hold of every text, at every token, with any names in scope.

ghost use Rattle.cread_expr.specs.Exactly.{BlocksAreExact, ExpressionsAreExact};

/// Where the reader of expressions finds one at a token, what it writes makes the longest expression of so many levels that
/// begins there, and it stands behind the last token of that expression; where it finds none, none begins there (C11 6.5).
#[tactic(auto, using(crate::proofs::Agreement::expressions_are_exact))]
pub fn expressions_are_written_exactly()
    ensures { ExpressionsAreExact }
{}

/// Where the reader of blocks finds one at a token, what it writes makes the block of so many levels that begins there, and it
/// stands behind the last token of that block; where it finds none, none begins there (C11 6.8.2).
#[tactic(auto, using(crate::proofs::Agreement::blocks_are_exact))]
pub fn blocks_are_written_exactly()
    ensures { BlocksAreExact }
{}
