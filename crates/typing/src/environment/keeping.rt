ghost use Rattle.std.specs.Prelude.{◌≡◌, ◌<◌, reverse, length, option_map, OnOk, OnErr};
ghost use Rattle.typing.specs.environment.Names.{value_in};
ghost use Rattle.typing.specs.environment.Scopes.{declared, left};
ghost use Rattle.typing.specs.environment.Kept.{scopes_of, seen, around, kept_here, AreVisible};

use crate::environment::kept::Kept;
use crate::environment::names::{Names, uncover};
use cbase::NoMemory;
use std::alloc::Global;

/// What a name is visible as, by what the table says of it.
pub(crate) fn shown<A: Copy>(visible: &Names<Option<A>>, name: &[u8]) -> Option<A>
    ensures { result ≡ seen (value_in name.now visible.now) }
{
    match visible.get(name) {
        None => None,
        Some(meaning) => meaning,
    }
}

/// What a name stands for in a scope, by what that keeps of it.
pub(crate) fn meaning_of<A: Copy>(kept: Option<Kept<A>>) -> Option<A>
    ensures { result ≡ option_map (λ here. here.meaning) kept }
{
    match kept {
        None => None,
        Some(here) => Some(here.meaning),
    }
}

/// What the innermost scope, which is the last, keeps of a name.
pub(crate) fn kept_here<A: Copy>(levels: &[Names<Kept<A>>], name: &[u8]) -> Option<Kept<A>>
    ensures { result ≡ kept_here name.now (reverse levels.now) }
{
    let count = levels.len();
    if count == 0 {
        return None;
    }
    levels[count - 1].get(name)
}

/// What the scope around the innermost one keeps of a name.
pub(crate) fn kept_around<A: Copy>(levels: &[Names<Kept<A>>], name: &[u8]) -> Option<Kept<A>>
    ensures { result ≡ kept_here name.now (left (reverse levels.now)) }
{
    let count = levels.len();
    if count == 0 {
        return None;
    }
    kept_here(&levels[..count - 1], name)
}

/// Declares a name in the innermost scope, where there is one.
pub(crate) fn declare_in<A: Copy>(
    alloc: Global,
    visible: &mut Names<Option<A>>,
    levels: &mut Vec<Names<Kept<A>>>,
    name: &[u8],
    meaning: A,
) -> Result<(), NoMemory>
    requires { AreVisible visible.old (reverse levels.old.items) }
    ensures kept { AreVisible visible.new (reverse levels.new.items) }
    ensures ok { OnOk result (scopes_of (reverse levels.new.items) ≡ declared name.now meaning (scopes_of (reverse levels.old.items))) }
    ensures err { OnErr result (levels.new.items ≡ levels.old.items) }
{
    if levels.len() == 0 {
        return Ok(());
    }
    let before = shown(visible, name);
    let hidden = around(kept_here(levels, name), before);
    visible.put(alloc, name, before)?;
    let last = levels.len() - 1;
    levels[last].put(alloc, name, Kept { meaning, hidden })?;
    visible.change(name, Some(meaning));
    Ok(())
}

/// What a name is visible as around the innermost scope, by what that scope keeps of it and what it is visible as.
pub(crate) fn around<A: Copy>(kept: Option<Kept<A>>, before: Option<A>) -> Option<A>
    ensures { result ≡ around kept before }
{
    match kept {
        None => before,
        Some(here) => here.hidden,
    }
}

/// Leaves the innermost scope, where there is one.
pub(crate) fn leave_in<A: Copy>(visible: &mut Names<Option<A>>, levels: &mut Vec<Names<Kept<A>>>)
    requires { AreVisible visible.old (reverse levels.old.items) }
    ensures kept { AreVisible visible.new (reverse levels.new.items) }
    ensures left { scopes_of (reverse levels.new.items) ≡ left (scopes_of (reverse levels.old.items)) }
{
    if let Some(level) = levels.pop() {
        uncover(visible, &level);
        drop(level);
    }
}
