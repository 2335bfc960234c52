//! Names in scopes.
use crate::printing::push_text;
use cbase::NoMemory;
use cgrammar::Scope;
use std::alloc::Global;

/// Takes a step: `(` enters a scope and `)` leaves it; `+t` declares `t` as a typedef, `-t` as anything else, `^t` so in the
/// scope around; `?t` asks whether it is a typedef.
fn step(alloc: Global, scope: &mut Scope, word: &[u8], shown: &mut String) -> Result<(), NoMemory> {
    match word {
        [b'('] => scope.enter(alloc),
        [b')'] => {
            scope.leave();
            Ok(())
        }
        [b'+', name @ ..] => scope.declare(alloc, name, true),
        [b'-', name @ ..] => scope.declare(alloc, name, false),
        [b'^', name @ ..] => scope.declare_around(alloc, name, false),
        [b'?', name @ ..] => push_text(if scope.is_typedef(name) { "y" } else { "n" }, shown),
        _ => push_text("no step", shown),
    }
}

/// The answers to the questions among the steps in a text with blanks between them, `y` or `n` each.
pub fn scope(alloc: Global, text: &str, shown: &mut String) -> Result<(), NoMemory> {
    push_text(" ", shown)?;
    let mut scope = Scope::new(alloc)?;
    let told = steps(alloc, &mut scope, text, shown);
    drop(scope);
    told
}

/// Takes the steps in a text.
fn steps(alloc: Global, scope: &mut Scope, text: &str, shown: &mut String) -> Result<(), NoMemory> {
    for word in text.split(' ') {
        step(alloc, scope, word.as_bytes(), shown)?;
    }
    Ok(())
}
