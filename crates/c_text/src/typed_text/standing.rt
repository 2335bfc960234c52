ghost use Rattle.std.specs.Prelude.{◌≡◌, ℕ, List, Option, length};
ghost use Rattle.cbase.specs.declared.tree.expr.Expr.{Expr};
ghost use Rattle.expressions.specs.Numbers.{Numbering};
ghost use Rattle.c_machine.specs.Program.{Program, entity_of};
ghost use Rattle.c_machine.specs.Trees.{standing};
ghost use Rattle.c_text.specs.Standing.{standing_by, StandingBelow};
ghost use Rattle.c_text.specs.Stands.{StandsFor};

use crate::standing::{Standing, standing_of};
use crate::typed_text::TypedText;

impl TypedText {
    /// What the name that an expression is stands for (C11 6.2.3).
    ///
    /// The name itself stands in the tree; where the expression is no name, no function stands there, whatever is told. It takes one step.
    pub fn standing(&self, number: u32) -> Standing
        ensures is { (n : Numbering) (p : Program) (expr : Expr) (name : Option (List ℕ)) → StandsFor n self.now p → expr.number ≡ number
            → standing_by n p name result ≡ standing p name (entity_of p expr) }
        ensures below { StandingBelow (length self.now.environment.signatures) result }
    {
        match self.row(number) {
            None => Standing::Nothing,
            Some(row) => standing_of(row.stands),
        }
    }
}
