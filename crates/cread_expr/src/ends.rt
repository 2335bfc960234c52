ghost use Rattle.std.specs.Prelude.{◌≡◌, ◌+◌, take, IfOk};
ghost use Rattle.cgrammar.specs.Terminals.{last_place};

use cbase::{NoMemory, Place};
use cgrammar::Terminal;

/// The number behind that of the last of the first tokens of a row. The error also stands for a number that is too great:
/// it needs more tokens than memory holds.
pub(crate) fn number_behind(row: &[Terminal<'_>], count: usize) -> Result<u32, NoMemory>
    ensures { IfOk result (λ number. number ≡ (last_place (take count row.now)).at + 1) }
{
    let last = if count < row.len() {
        last_place(&row[..count])
    } else {
        last_place(row)
    };
    if last.at == u32::MAX {
        return Err(NoMemory);
    }
    Ok(last.at + 1)
}

/// Where the last token of a row stands; the place of no token where the row has none.
fn last_place(row: &[Terminal<'_>]) -> Place
    ensures { result ≡ last_place row.now }
{
    match row {
        [] => Place::NONE,
        [.., last] => last.place(),
    }
}
