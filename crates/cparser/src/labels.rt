ghost use Rattle.std.specs.Prelude.{◌≡◌, ◌≤◌, length};
ghost use Rattle.cparser.specs.StatementSteps.{labels_length};

use cgrammar::{Scope, Terminal, begins_with_label};

/// How many tokens the labels take that the row begins with, each with its `:` (C11 6.8.1).
#[tactic(auto, using(crate::proofs::LabelRows::labels_behind, crate::proofs::LabelRows::labels_there, crate::proofs::LabelRows::labels_none))]
pub fn labels_length(scope: &Scope, row: &[Terminal<'_>]) -> usize
    ensures count { result ≡ labels_length scope.now row.now }
    ensures inside { result ≤ length row.now }
{
    let mut count: usize = 0;
    'labels: while begins_with_label(scope, &row[count..]) {
        count += 2;
    }
    count
}
