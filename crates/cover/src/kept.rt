//! Whether values that have a key of their own are paired one to one.
ghost use Rattle.std.specs.Prelude.{◌≡◌, ◌↔◌, ◌<◌, ℕ, true, false, None, IfOk, length, slice_index_or, slice_set};
ghost use Rattle.graph.specs.Meaning.{maps_of};
ghost use Rattle.cover.specs.declared.content.Content.TheVariants.{Kept};
ghost use Rattle.cover.specs.Covers.{Values, IsIn};
ghost use Rattle.cover.specs.Found.{IsSound, pairing_of};
ghost use Rattle.cover.specs.Checked.{AreFitting, AreApartKept, kept_of};

use crate::content::Content;
use crate::found::Found;
use cbase::NoMemory;
use graph::Graph;
use std::alloc::Global;

/// The key of its own that the partner of a value has, if it has one.
fn kept_with(found: &Found, at: usize) -> Option<u32>
    requires { at < length found.now.values.items }
    ensures { result ≡ kept_of (slice_index_or found.now.values.items at None) }
{
    match found.values[at] {
        Some(Content::Kept { key }) => Some(key),
        _ => None,
    }
}

/// Whether a key is marked.
fn is_marked(marks: &Vec<bool>, key: u32) -> bool
    requires { key < length marks.now.items }
    ensures { result ≡ slice_index_or marks.now.items key false }
{
    marks[key as usize]
}

/// Marks a key.
fn mark(marks: &mut Vec<bool>, key: u32)
    requires { key < length marks.old.items }
    ensures { marks.new.items ≡ slice_set marks.old.items key true }
{
    marks[key as usize] = true;
}

/// Whether no key is the partner of two values. At first no key is marked.
fn are_marked_once(marks: &mut Vec<bool>, found: &Found) -> bool
    requires room { (one key : ℕ) → IsIn (pairing_of found.now) (Values one (Kept key)) → key < length marks.old.items }
    requires none { (key : ℕ) → slice_index_or marks.old.items key false ≡ false }
    ensures { (result ≡ true) ↔ AreApartKept found.now }
{
    let mut at = 0;
    while at < found.values.len() {
        if let Some(key) = kept_with(found, at) {
            if is_marked(marks, key) {
                return false;
            }
            mark(marks, key);
        }
        at += 1;
    }
    true
}

/// Whether no value of the narrower graph that has a key of its own is the partner of two.
pub(crate) fn kept_are_apart(
    alloc: Global,
    found: &Found,
    wide: &Graph,
    narrow: &Graph,
) -> Result<bool, NoMemory>
    requires fitting { AreFitting (maps_of wide.now) (maps_of narrow.now) found.now }
    ensures { IfOk result (λ fine. (fine ≡ true) ↔ AreApartKept found.now) }
{
    let mut marks: Vec<bool> = vec![in alloc; false; narrow.value_count() as usize]?;
    let apart = are_marked_once(&mut marks, found);
    drop(marks);
    Ok(apart)
}
