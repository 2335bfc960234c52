//! Which values are spared.
ghost use Rattle.std.specs.Prelude.{◌≡◌, IfOk};
ghost use Rattle.tidying.specs.Marks.{is_marked, marked, links_marked, ports_marked};
ghost use Rattle.coarse.specs.Marks.{ends_marked, spared_marks};

use cbase::NoMemory;
use graph::{KeyedObject, Parts, Shape};
use std::alloc::Global;

/// Whether a key is marked.
pub(crate) fn is_marked(marks: &[bool], key: u32) -> bool
    ensures { result ≡ is_marked marks.now key }
{
    match marks.get(key as usize) {
        None => false,
        Some(mark) => *mark,
    }
}

/// Marks a key, if there is a place for it.
#[tactic(auto, using(tidying::proofs::Marked::set_beyond))]
fn mark(marks: &mut [bool], key: u32)
    ensures { marks.new ≡ marked marks.old key }
{
    let place = key as usize;
    if place < marks.len() {
        marks[place] = true;
    }
}

/// Marks the values beyond the ends of a segment.
fn mark_links(marks: &mut [bool], shape: &Shape)
    ensures { marks.new ≡ links_marked marks.old shape.now }
{
    match shape {
        Shape::Region => {}
        Shape::Segment {
            next_value,
            prev_value,
            ..
        } => {
            mark(marks, *next_value);
            mark(marks, *prev_value);
        }
    }
}

/// Marks the values beyond the ends of segments.
fn mark_ends(marks: &mut [bool], objects: &[KeyedObject])
    ensures { marks.new ≡ ends_marked marks.old objects.now }
{
    let mut left = objects;
    while let [first, rest @ ..] = left {
        mark_links(marks, &first.object.shape);
        left = rest;
    }
}

/// Marks the values of ports.
fn mark_ports(marks: &mut [bool], ports: &[u32])
    ensures { marks.new ≡ ports_marked marks.old ports.now }
{
    let mut left = ports;
    while let [first, rest @ ..] = left {
        mark(marks, *first);
        left = rest;
    }
}

/// Of each value whether it is spared.
pub(crate) fn spared_marks(alloc: Global, parts: &Parts) -> Result<Vec<bool>, NoMemory>
    ensures { IfOk result (λ marks. marks.items ≡ spared_marks parts.now) }
{
    let mut marks: Vec<bool> = vec![in alloc; false; parts.values.len()]?;
    mark_ends(marks.as_mut_slice(), parts.objects.as_slice());
    mark_ports(marks.as_mut_slice(), parts.ports.as_slice());
    Ok(marks)
}
