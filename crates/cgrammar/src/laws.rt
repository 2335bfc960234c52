//! Laws of the grammar. Each is the contract of a function that does nothing.
ghost use Rattle.cgrammar.specs.OneTree.{EachHasOneTree};
ghost use Rattle.std.specs.Prelude.{◌≡◌, ◌<◌, ℕ, Bool, false, List, Some, length};
ghost use Rattle.std.specs.Str.{bytes_eq};
ghost use Rattle.cgrammar.specs.Scope.{Names, found, declared, entered, left};
ghost use Rattle.cgrammar.specs.Consecutive.{NumbersAreConsecutive};
ghost use Rattle.cgrammar.specs.Contexts.{ScopesAreKept, NumbersAreLast};
ghost use Rattle.cgrammar.specs.Labels.{LabelsAreNoExpressions};
ghost use Rattle.cgrammar.specs.Firsts.{FirstTokens, DeclarationsAreNoStatements, TypesAreNoExpressions};

/// A block leaves the names in scope as they were, and so does a statement in an `if` or in a loop; whatever is read
/// changes no scope but the innermost (C11 6.2.1p4, 6.8.4p3, 6.8.5p5).
#[tactic(auto, using(crate::proofs::Contexts::scopes_kept))]
pub fn scopes_are_kept()
    ensures { ScopesAreKept }
{}

/// The expressions of a row are numbered one by one in the order of the text, from the count of those before it up to the count
/// behind it: none is left out, and none has the number of another. An expression has the last of the numbers of its row, its
/// parts have those before it.
#[tactic(auto, using(crate::proofs::Consecutive::numbers_consecutive, crate::proofs::Contexts::numbers_last))]
pub fn numbers_are_consecutive()
    ensures consecutive { NumbersAreConsecutive }
    ensures last { NumbersAreLast }
{}

/// With which tokens types, declarations, expressions and statements begin: what begins with a type is a declaration and
/// no statement, and `(` before a type begins no expression in brackets (C11 6.7, 6.8.2).
#[tactic(auto, using(crate::proofs::Firsts::first_tokens))]
pub fn first_tokens()
    ensures { FirstTokens }
{}

/// No row is a declaration and a statement, and none between brackets is a type's name and an expression: a cast is no
/// expression in brackets (C11 6.5.4, 6.7.7, 6.8.2).
#[tactic(auto, using(crate::proofs::Firsts::no_statement, crate::proofs::Firsts::no_expression))]
pub fn types_are_told_apart()
    ensures statements { DeclarationsAreNoStatements }
    ensures expressions { TypesAreNoExpressions }
{}

/// A name is found as it was declared last, a declaration changes no other name, and a scope that is entered hides none
/// before it declares it (C11 6.2.1).
#[tactic(auto, using(crate::proofs::Scopes::found_same, crate::proofs::Scopes::found_other, crate::proofs::Scopes::found_entered, crate::proofs::Scopes::left_entered))]
pub fn declared_names_are_found()
    ensures same { (name : List ℕ) (typedef : Bool) (scopes : List Names) →
        0 < length scopes → found name (declared name typedef scopes) ≡ Some typedef }
    ensures others { (name other : List ℕ) (typedef : Bool) (scopes : List Names) →
        bytes_eq other name ≡ false → found other (declared name typedef scopes) ≡ found other scopes }
    ensures entered { (name : List ℕ) (scopes : List Names) → found name (entered scopes) ≡ found name scopes }
    ensures outside { (scopes : List Names) → left (entered scopes) ≡ scopes }
{}

/// A label with its `:` begins no expression (C11 6.8.1).
#[tactic(auto, using(crate::proofs::Labels::labels_apart))]
pub fn labels_are_told_apart()
    ensures { LabelsAreNoExpressions }
{}

/// A row of tokens has one tree where the same names are in scope: an `else` belongs to the nearest `if`, and no row is
/// both a cast and a call in brackets, a declaration and an expression, or a label and an expression (C11 6.5 to 6.8).
#[tactic(auto, using(crate::proofs::Exact::one_tree))]
pub fn each_row_has_one_tree()
    ensures { EachHasOneTree }
{}
