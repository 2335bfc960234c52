//! The posts of several graphs together.
ghost use Rattle.std.specs.Prelude.{◌≡◌, ◌++◌, ◌∷◌, [], map, flat_map, None, IfOk, OnOk};
ghost use Rattle.std.specs.List.{list_any};
ghost use Rattle.changes.specs.Posted.{IsPost};
ghost use Rattle.transfer.specs.Together.{posted_of, with_kind, with_kinds, kinds_with, lesser_loss, least_loss, is_through_any, loss_together, together};

use cbase::{List, NoMemory};
use graph::{Graph, Post};
use std::alloc::Global;

/// Puts kinds behind others.
fn put_all(kinds: &[u8], after: &mut List<u8>) -> Result<(), NoMemory>
    ensures { OnOk result (after.new ≡ after.old ++ kinds.now) }
{
    let mut left = kinds;
    while let [first, rest @ ..] = left {
        after.push(*first)?;
        left = rest;
    }
    Ok(())
}

/// Puts a kind and those that are not below it behind others.
fn put_before(kind: u8, kinds: &[u8], after: &mut List<u8>) -> Result<(), NoMemory>
    ensures { OnOk result (after.new ≡ after.old ++ kind ∷ kinds.now) }
{
    after.push(kind)?;
    put_all(kinds, after)
}

/// Puts ascending kinds with one more behind others.
fn put_with(kind: u8, kinds: &[u8], after: &mut List<u8>) -> Result<(), NoMemory>
    ensures { OnOk result (after.new ≡ after.old ++ with_kind kind kinds.now) }
{
    let mut left = kinds;
    while let [first, rest @ ..] = left {
        if kind < *first {
            return put_before(kind, left, after);
        }
        if kind == *first {
            return put_all(left, after);
        }
        after.push(*first)?;
        left = rest;
    }
    put_before(kind, left, after)
}

/// Ascending kinds with one more.
fn with_kind(alloc: Global, kind: u8, kinds: &[u8]) -> Result<List<u8>, NoMemory>
    ensures { IfOk result (λ after. after ≡ with_kind kind kinds.now) }
{
    let mut after = List::new(alloc);
    put_with(kind, kinds, &mut after)?;
    Ok(after)
}

/// Ascending kinds with some more.
fn with_kinds(alloc: Global, known: &[u8], kinds: &[u8]) -> Result<List<u8>, NoMemory>
    ensures { IfOk result (λ after. after ≡ with_kinds known.now kinds.now) }
{
    let mut after = List::new(alloc);
    put_all(kinds, &mut after)?;
    let mut left = known;
    while let [first, rest @ ..] = left {
        after = with_kind(alloc, *first, after.as_slice())?;
        left = rest;
    }
    Ok(after)
}

/// The kinds of posts, in ascending order.
fn kinds_together(alloc: Global, posts: &[Post]) -> Result<List<u8>, NoMemory>
    ensures { IfOk result (λ kinds. kinds ≡ kinds_with [] (map posted_of posts.now)) }
{
    let mut known = List::new(alloc);
    let mut left = posts;
    while let [first, rest @ ..] = left {
        known = with_kinds(alloc, known.as_slice(), first.kinds.as_slice())?;
        left = rest;
    }
    Ok(known)
}

/// The lesser of two losses.
fn lesser_loss(one: Option<u8>, other: Option<u8>) -> Option<u8>
    ensures { result ≡ lesser_loss one other }
{
    match one {
        None => other,
        Some(first) => match other {
            None => Some(first),
            Some(second) => {
                if second < first {
                    Some(second)
                } else {
                    Some(first)
                }
            }
        },
    }
}

/// The least loss of posts.
fn least_loss(posts: &[Post]) -> Option<u8>
    ensures { result ≡ least_loss None (map posted_of posts.now) }
{
    let mut known = None;
    let mut left = posts;
    while let [first, rest @ ..] = left {
        known = lesser_loss(known, first.loss);
        left = rest;
    }
    known
}

/// Whether a post is one of an access through any word.
fn is_through_any(post: &Post) -> bool
    ensures { result ≡ is_through_any (posted_of post.now) }
{
    match post.loss {
        None => false,
        Some(loss) => loss == 4 && post.kinds.len() > 0,
    }
}

/// Whether one of posts is.
fn some_through_any(posts: &[Post]) -> bool
    ensures { result ≡ list_any is_through_any (map posted_of posts.now) }
{
    let mut left = posts;
    while let [first, rest @ ..] = left {
        if is_through_any(first) {
            return true;
        }
        left = rest;
    }
    false
}

/// The loss of posts.
fn loss_together(posts: &[Post]) -> Option<u8>
    ensures { result ≡ loss_together (map posted_of posts.now) }
{
    if some_through_any(posts) {
        Some(4)
    } else {
        least_loss(posts)
    }
}

/// Puts graphs behind others.
fn put_graphs(more: List<Graph>, graphs: &mut List<Graph>) -> Result<(), NoMemory>
    ensures { OnOk result (graphs.new ≡ graphs.old ++ more) }
{
    for graph in more.into_vec() {
        graphs.push(graph)?;
    }
    Ok(())
}

/// Puts the graphs of a post behind others.
fn put_graphs_of(post: Post, graphs: &mut List<Graph>) -> Result<(), NoMemory>
    ensures { OnOk result (graphs.new ≡ graphs.old ++ post.graphs) }
{
    let Post {
        graphs: more,
        kinds,
        ..
    } = post;
    drop(kinds);
    put_graphs(more, graphs)
}

/// Puts the graphs of posts behind others.
fn put_graphs_together(posts: List<Post>, graphs: &mut List<Graph>) -> Result<(), NoMemory>
    ensures { OnOk result (graphs.new ≡ graphs.old ++ flat_map (λ posted. posted.graphs) (map posted_of posts)) }
{
    for post in posts.into_vec() {
        put_graphs_of(post, graphs)?;
    }
    Ok(())
}

/// The posts of several graphs together: the graphs one behind the other, the kinds of all, and the least loss, but for loss 4 beside a kind, which
/// is the one of all.
pub(crate) fn together(alloc: Global, posts: List<Post>) -> Result<Post, NoMemory>
    ensures { IfOk result (λ post. IsPost (together (map posted_of posts)) post) }
{
    let loss = loss_together(posts.as_slice());
    match kinds_together(alloc, posts.as_slice()) {
        Err(error) => {
            drop(posts);
            Err(error)
        }
        Ok(kinds) => {
            let mut graphs = List::new(alloc);
            match put_graphs_together(posts, &mut graphs) {
                Ok(()) => Ok(Post {
                    graphs,
                    kinds,
                    loss,
                }),
                Err(error) => {
                    drop(graphs);
                    drop(kinds);
                    Err(error)
                }
            }
        }
    }
}
