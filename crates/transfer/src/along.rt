//! The post of an instruction on a graph whose segments are split where it goes.
ghost use Rattle.std.specs.Prelude.{◌≡◌, true, [], All, IfOk, IfErr, OnOk};
ghost use Rattle.std.specs.List.{list_any};
ghost use Rattle.changes.specs.Posted.{IsPost};
ghost use Rattle.flow.specs.Standing.{stands_at, stands_after};
ghost use Rattle.flow.specs.Valid.{IsFlow};
ghost use Rattle.heap_steps.specs.Regions.{AreRegions};
ghost use Rattle.transfer.specs.Along.{is_full, is_full_along};
ghost use Rattle.transfer.specs.Fitting.{FitsAt, FitWith, MayBeNext, MayFollow};
ghost use Rattle.transfer.specs.Means.{EdgeMeans};
ghost use Rattle.transfer.specs.OfRegions.{AreOfRegions};
ghost use Rattle.transfer.specs.Posts.{has_step};
ghost use Rattle.transfer.specs.Settling.{IsMore, ArePostsIn, IsPostOfAll};
ghost use Rattle.transfer.specs.Through.{goes_through};
ghost use Rattle.transfer.specs.Together.{post_along};

use crate::instruction::post_of;
use crate::through::put_through;
use crate::together::together;
use cbase::{List, NoMemory, Stop};
use flow::{Flow, Instr};
use graph::{Graph, Post};
use settle::settled;
use std::alloc::Global;

/// Puts the post of an instruction on a graph behind others.
fn put_post(
    alloc: Global,
    flow: &Flow,
    point: u32,
    instr: &Instr,
    graph: &Graph,
    posts: &mut List<Post>,
) -> Result<(), Stop>
    requires flow { IsFlow flow.now }
    requires step { has_step instr.now ≡ true }
    requires may { MayFollow flow.now point instr.now graph.now }
    ensures one { OnOk result (IsMore flow.now point instr.now graph.now posts.old posts.new) }
    ensures large { IfErr result (λ stop. stop ≡ Stop.Large → is_full instr.now graph.now ≡ true) }
{
    match post_of(alloc, flow, point, instr, graph) {
        Err(stop) => Err(stop),
        Ok(post) => match posts.push(post) {
            Ok(()) => Ok(()),
            Err(NoMemory) => Err(Stop::NoMemory),
        },
    }
}

/// Puts the posts of an instruction on graphs behind others.
fn put_posts(
    alloc: Global,
    flow: &Flow,
    point: u32,
    instr: &Instr,
    graphs: &[Graph],
    posts: &mut List<Post>,
) -> Result<(), Stop>
    requires flow { IsFlow flow.now }
    requires step { has_step instr.now ≡ true }
    requires may { All (MayFollow flow.now point instr.now) graphs.now }
    requires empty { posts.old ≡ [] }
    ensures are { OnOk result (ArePostsIn flow.now point instr.now graphs.now posts.new) }
    ensures large { IfErr result (λ stop. stop ≡ Stop.Large → list_any (is_full instr.now) graphs.now ≡ true) }
{
    let mut left = graphs;
    while let [first, rest @ ..] = left {
        put_post(alloc, flow, point, instr, first, posts)?;
        left = rest;
    }
    Ok(())
}

/// The posts of an instruction on graphs, together.
fn post_of_all(
    alloc: Global,
    flow: &Flow,
    point: u32,
    instr: &Instr,
    graphs: &[Graph],
) -> Result<Post, Stop>
    requires flow { IsFlow flow.now }
    requires step { has_step instr.now ≡ true }
    requires may { All (MayFollow flow.now point instr.now) graphs.now }
    ensures all { IfOk result (λ post. IsPostOfAll flow.now point instr.now graphs.now post) }
    ensures large { IfErr result (λ stop. stop ≡ Stop.Large → list_any (is_full instr.now) graphs.now ≡ true) }
{
    let mut posts = List::new(alloc);
    match put_posts(alloc, flow, point, instr, graphs, &mut posts) {
        Err(stop) => {
            drop(posts);
            Err(stop)
        }
        Ok(()) => match together(alloc, posts) {
            Ok(post) => Ok(post),
            Err(NoMemory) => Err(Stop::NoMemory),
        },
    }
}

/// The post of an instruction on a graph whose segments are split where registers through which it goes name one, by these registers.
fn post_by(
    alloc: Global,
    flow: &Flow,
    point: u32,
    instr: &Instr,
    graph: &Graph,
    registers: &[u32],
) -> Result<Post, Stop>
    requires flow { IsFlow flow.now }
    requires step { has_step instr.now ≡ true }
    requires next { MayBeNext flow.now point instr.now }
    requires fits { FitsAt flow.now point graph.now }
    requires registers { registers.now ≡ goes_through instr.now }
    ensures post { IfOk result (λ post. IsPost (post_along flow.now instr.now graph.now) post) }
    ensures means { IfOk result (λ post. EdgeMeans flow.now point instr.now graph.now post) }
    ensures fits { IfOk result (λ post. FitWith flow.now (stands_after flow.now instr.now (stands_at flow.now point)) post.graphs) }
    ensures regions { IfOk result (λ post. AreRegions graph.now.objects → AreOfRegions post.graphs) }
    ensures large { IfErr result (λ stop. stop ≡ Stop.Large → is_full_along instr.now graph.now ≡ true) }
{
    let _ = graph.value_count();
    match settled(alloc, graph, registers) {
        Err(stop) => Err(stop),
        Ok(graphs) => post_of_all(alloc, flow, point, instr, graphs.as_slice()),
    }
}

/// The post of an instruction on a graph whose segments are split where registers through which it goes name one.
pub(crate) fn post_along(
    alloc: Global,
    flow: &Flow,
    point: u32,
    instr: &Instr,
    graph: &Graph,
) -> Result<Post, Stop>
    requires flow { IsFlow flow.now }
    requires step { has_step instr.now ≡ true }
    requires next { MayBeNext flow.now point instr.now }
    requires fits { FitsAt flow.now point graph.now }
    ensures post { IfOk result (λ post. IsPost (post_along flow.now instr.now graph.now) post) }
    ensures means { IfOk result (λ post. EdgeMeans flow.now point instr.now graph.now post) }
    ensures fits { IfOk result (λ post. FitWith flow.now (stands_after flow.now instr.now (stands_at flow.now point)) post.graphs) }
    ensures regions { IfOk result (λ post. AreRegions graph.now.objects → AreOfRegions post.graphs) }
    ensures large { IfErr result (λ stop. stop ≡ Stop.Large → is_full_along instr.now graph.now ≡ true) }
{
    let mut registers = List::new(alloc);
    match put_through(instr, &mut registers) {
        Err(NoMemory) => Err(Stop::NoMemory),
        Ok(()) => post_by(alloc, flow, point, instr, graph, registers.as_slice()),
    }
}
