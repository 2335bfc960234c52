ghost use Rattle.std.specs.Prelude.{◌≡◌, ◌↔◌, IsTrue};
ghost use Rattle.cgrammar.specs.FrontReadings.{BeginsWithLabel, begins_with_label};

use crate::scope::Scope;
use crate::terminal::Terminal;

/// Whether a label with its `:` stands at the front of the row (C11 6.8.1).
#[tactic(auto, using(crate::proofs::FrontReadings::label_exact))]
pub fn begins_with_label(scope: &Scope, row: &[Terminal<'_>]) -> bool
    ensures is { result ≡ begins_with_label scope.now row.now }
    ensures begins { IsTrue result ↔ BeginsWithLabel scope.now row.now }
{
    has_label(scope, row)
}

/// Whether the first token is a name of no typedef, and the second one a `:`.
fn has_label(scope: &Scope, row: &[Terminal<'_>]) -> bool
    ensures { result ≡ begins_with_label scope.now row.now }
{
    match row {
        [] | [_] => false,
        [label, colon, ..] => {
            colon.is_mark(b":") && (label.is_name() && !label.is_typedef(scope))
        }
    }
}
