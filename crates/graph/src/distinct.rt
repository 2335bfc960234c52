//! Whether the storage of variables is distinct. Numbers are sorted for it; where memory for that is wanting, each is
//! compared with each.
ghost use Rattle.std.specs.Prelude.{◌≡◌, not, map, nat_eq};
ghost use Rattle.std.specs.List.{list_all};
ghost use Rattle.graph.specs.Points.{neighbours};
ghost use Rattle.graph.specs.WellFormed.{are_distinct};

use crate::parts::Named;
use std::alloc::Global;

/// Whether no two of these variables have one storage.
pub(crate) fn storage_is_distinct(alloc: Global, variables: &[Named]) -> bool
    ensures { result ≡ are_distinct (map (λ entry. entry.object) variables.now) }
{
    match variables.iter().map(|entry| entry.object).collect(alloc) {
        Ok(numbers) => all_differ(numbers),
        Err(_) => storage_is_apart(variables),
    }
}

/// Whether no number stands twice, found by one walk behind a sort.
#[tactic(auto, using(crate::proofs::InOrder::distinct_sorted))]
fn all_differ(numbers: Vec<u32>) -> bool
    ensures { result ≡ are_distinct numbers.items }
{
    let mut sorted = numbers;
    sorted.sort_unstable();
    neighbours_differ(sorted.as_slice())
}

/// Whether no number is that before it.
fn neighbours_differ(numbers: &[u32]) -> bool
    ensures { result ≡ neighbours (λ one other. not (nat_eq one other)) numbers.now }
{
    let mut left = numbers;
    while let [first, rest @ ..] = left {
        if let [second, ..] = rest {
            if *first == *second {
                return false;
            }
        }
        left = rest;
    }
    true
}

/// Whether no two of these variables have one storage, with each compared with each.
fn storage_is_apart(variables: &[Named]) -> bool
    ensures { result ≡ are_distinct (map (λ named. named.object) variables.now) }
{
    let mut left = variables;
    while let [first, rest @ ..] = left {
        if !is_new_storage(first.object, rest) {
            return false;
        }
        left = rest;
    }
    true
}

/// Whether none of these variables has this storage.
fn is_new_storage(object: u32, variables: &[Named]) -> bool
    ensures { result ≡ list_all (λ other. not (nat_eq object other)) (map (λ named. named.object) variables.now) }
{
    let mut left = variables;
    while let [first, rest @ ..] = left {
        if object == first.object {
            return false;
        }
        left = rest;
    }
    true
}
