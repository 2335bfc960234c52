//! Which entries chains of steps without loss lead to.
ghost use Rattle.std.specs.Prelude.{◌≡◌, length, slice_index_or, false, IfOk};
ghost use Rattle.driver.specs.Chains.{AreFromEarlier, is_none, leads_on, AreMarked};

use cbase::NoMemory;
use std::alloc::Global;
use trail::{Cause, Entry};

/// Whether no loss is named.
fn is_none(loss: Option<u8>) -> bool
    ensures { result ≡ is_none loss }
{
    match loss {
        None => true,
        Some(_) => false,
    }
}

/// Whether a mark is set; a mark that is not there is not.
fn mark_of(marks: &[bool], from: u32) -> bool
    ensures { result ≡ slice_index_or marks.now from false }
{
    match marks.get(from as usize) {
        None => false,
        Some(mark) => *mark,
    }
}

/// Whether a chain without loss leads on to an entry with this cause. None leads to what is made of a graph at a loop head.
fn leads_on(marks: &[bool], cause: &Cause) -> bool
    ensures { result ≡ leads_on marks.now cause.now }
{
    match cause {
        Cause::Start => true,
        Cause::Step { from, loss, .. } => is_none(*loss) && mark_of(marks, *from),
        Cause::Fold { .. } => false,
        Cause::Coarse { .. } => false,
    }
}

/// Marks the entries to which chains of steps without loss lead.
#[tactic(auto, using(crate::proofs::Chained::marked_first))]
pub(crate) fn chained(alloc: Global, trail: &[Entry]) -> Result<Vec<bool>, NoMemory>
    requires earlier { AreFromEarlier trail.now }
    ensures { IfOk result (λ marks. AreMarked trail.now marks.items (length trail.now)) }
{
    let mut marks: Vec<bool> = Vec::new(alloc);
    for at in 0..trail.len() {
        let mark = leads_on(marks.as_slice(), &trail[at].cause);
        marks.push(mark)?;
    }
    Ok(marks)
}
