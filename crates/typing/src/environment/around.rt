ghost use Rattle.std.specs.Prelude.{◌≡◌, ◌<◌, reverse, length, Some, OnOk, OnErr};
ghost use Rattle.typing.specs.environment.Scopes.{declared_around};
ghost use Rattle.typing.specs.environment.Kept.{scopes_of, AreVisible};

use crate::environment::keeping::{around, kept_around, kept_here, shown};
use crate::environment::kept::Kept;
use crate::environment::names::Names;
use cbase::NoMemory;
use std::alloc::Global;

/// Declares a name in the scope around the innermost one, where there is one.
///
/// Where the innermost scope declares the name, that is what it hides from then on, and otherwise what is visible.
pub(crate) fn declare_around_in<A: Copy>(
    alloc: Global,
    visible: &mut Names<Option<A>>,
    levels: &mut Vec<Names<Kept<A>>>,
    name: &[u8],
    meaning: A,
) -> Result<(), NoMemory>
    requires { AreVisible visible.old (reverse levels.old.items) }
    ensures kept { AreVisible visible.new (reverse levels.new.items) }
    ensures ok { OnOk result (scopes_of (reverse levels.new.items) ≡ declared_around name.now meaning (scopes_of (reverse levels.old.items))) }
    ensures err { OnErr result (levels.new.items ≡ levels.old.items) }
{
    if levels.len() < 2 {
        return Ok(());
    }
    let before = shown(visible, name);
    let inside = kept_here(levels, name);
    let hidden = around(kept_around(levels, name), around(inside, before));
    visible.put(alloc, name, before)?;
    let at = levels.len() - 2;
    levels[at].put(alloc, name, Kept { meaning, hidden })?;
    match inside {
        None => visible.change(name, Some(meaning)),
        Some(kept) => levels[at + 1].change(
            name,
            Kept {
                meaning: kept.meaning,
                hidden: Some(meaning),
            },
        ),
    }
    Ok(())
}
