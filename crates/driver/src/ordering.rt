//! Warnings in order.
ghost use Rattle.std.specs.Prelude.{◌≡◌, ◌≤◌, ◌++◌, length, take, drop, OnOk, IfOk, IfSome, slice_get, slice_index_or, map, false};
ghost use Rattle.driver.specs.Ordering.{is_before, is_same, better, put_warning, marked, ArePut};

use crate::verdict::Warning;
use cbase::{List, NoMemory};
use std::alloc::Global;

/// Whether one warning stands before another one: by their tokens, and at one token by their kinds.
fn is_before(one: &Warning, other: &Warning) -> bool
    ensures { result ≡ is_before one.now other.now }
{
    one.place.at < other.place.at || (one.place.at == other.place.at && one.kind < other.kind)
}

/// Whether two warnings are of one token and kind.
fn is_same(one: &Warning, other: &Warning) -> bool
    ensures { result ≡ is_same one.now other.now }
{
    one.place.at == other.place.at && one.kind == other.kind
}

/// Of two of one token and kind the first, but for an error.
fn better(one: &Warning, other: &Warning) -> Warning
    ensures { result ≡ better one.now other.now }
{
    if !one.error && other.error {
        return *other;
    }
    *one
}

/// Where a warning goes.
#[tactic(auto, using(crate::proofs::InOrder::passes))]
fn place_of(warnings: &[Warning], new: &Warning) -> usize
    ensures inside { result ≤ length warnings.now }
    ensures is { put_warning new.now warnings.now ≡ take result warnings.now ++ put_warning new.now (drop result warnings.now) }
    ensures stays { IfSome (slice_get warnings.now result) (λ one. is_before one new.now ≡ false) }
{
    let mut at = 0;
    while at < warnings.len() {
        if !is_before(&warnings[at], new) {
            return at;
        }
        at += 1;
    }
    at
}

/// What stands at a place.
fn found_at(warnings: &[Warning], at: usize) -> Option<Warning>
    ensures { result ≡ slice_get warnings.now at }
{
    match warnings.get(at) {
        None => None,
        Some(one) => Some(*one),
    }
}

/// Puts a warning in its place.
#[tactic(auto, using(crate::proofs::InOrder::put_end, crate::proofs::InOrder::put_same, crate::proofs::InOrder::put_new))]
fn put(warnings: &mut Vec<Warning>, new: &Warning) -> Result<(), NoMemory>
    ensures { OnOk result (warnings.new.items ≡ put_warning new.now warnings.old.items) }
{
    let at = place_of(warnings.as_slice(), new);
    match found_at(warnings.as_slice(), at) {
        None => {
            warnings.insert(at, *new)?;
            Ok(())
        }
        Some(one) => {
            if is_same(&one, new) {
                warnings[at] = better(&one, new);
                return Ok(());
            }
            warnings.insert(at, *new)?;
            Ok(())
        }
    }
}

/// Whether a mark is set; a mark that is not there is not.
fn mark_at(marks: &[bool], at: u32) -> bool
    ensures { result ≡ slice_index_or marks.now at false }
{
    match marks.get(at as usize) {
        None => false,
        Some(mark) => *mark,
    }
}

/// A warning, which is an error where the entry that it names is marked.
fn marked(marks: &[bool], warning: &Warning) -> Warning
    ensures { result ≡ marked marks.now warning.now }
{
    Warning {
        place: warning.place,
        kind: warning.kind,
        entry: warning.entry,
        edge: warning.edge,
        error: mark_at(marks, warning.entry),
    }
}

/// Warnings in order, one for each token and kind. Those that name a marked entry are errors.
#[tactic(auto, using(crate::proofs::InOrder::put_first))]
pub(crate) fn in_order(
    alloc: Global,
    marks: &[bool],
    warnings: &[Warning],
) -> Result<List<Warning>, NoMemory>
    ensures { IfOk result (λ ordered. ArePut (map (marked marks.now) warnings.now) ordered (length warnings.now)) }
{
    let mut ordered: Vec<Warning> = Vec::new(alloc);
    for at in 0..warnings.len() {
        let new = marked(marks, &warnings[at]);
        put(&mut ordered, &new)?;
    }
    Ok(List::from_vec(ordered))
}
