ghost use Rattle.std.specs.Prelude.{◌≡◌, ◌≤◌, codes, length};
ghost use Rattle.std.specs.List.{prefix_len};
ghost use Rattle.cgrammar.specs.Terminals.{is_mark};

use crate::terminal::Terminal;

/// How many `*` the row begins with: how many tokens stand before the first that is no `*` (C11 6.7.6.1).
pub fn stars_length(row: &[Terminal<'_>]) -> usize
    ensures count { result ≡ prefix_len (is_mark (codes "*")) row.now }
    ensures inside { result ≤ length row.now }
{
    let mut count: usize = 0;
    for token in row {
        if !token.is_mark(b"*") {
            return count;
        }
        count += 1;
    }
    count
}
