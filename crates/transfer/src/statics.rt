//! The static variables of a flow graph.
ghost use Rattle.std.specs.Prelude.{◌≡◌, ◌<◌, ◌≤◌, [], length, true, IfOk, OnOk, if◌then◌else◌};
ghost use Rattle.std.specs.List.{list_all};
ghost use Rattle.block_steps.specs.Blocks.{new_object};
ghost use Rattle.bytes_core.specs.declared.block.BlockKind.TheVariants.{Static};
ghost use Rattle.flow.specs.Valid.{is_object_size};
ghost use Rattle.transfer.specs.Start.{with_static, with_statics};

use bytes_core::BlockKind;
use cbase::NoMemory;
use flow::Variable;
use graph::{Edges, KeyedObject, Named, Object, Parts, Shape};
use planes::Plane;
use std::alloc::Global;

/// A live region of a static variable, whose bytes are 0.
fn zeros(alloc: Global, size: u32) -> Result<Object, NoMemory>
    requires { size ≤ 65536 }
    ensures { IfOk result (λ object. object ≡ new_object Static size true) }
{
    match Plane::new(alloc, size, 0) {
        Err(error) => Err(error),
        Ok(plane) => match Edges::of(alloc, &[]) {
            Err(error) => {
                drop(plane);
                Err(error)
            }
            Ok(edges) => Ok(Object {
                size,
                kind: BlockKind::Static,
                live: true,
                shape: Shape::Region,
                edges,
                plane,
            }),
        },
    }
}

/// Puts a static variable behind others.
fn put_static(alloc: Global, parts: &mut Parts, number: u32, size: u32) -> Result<(), NoMemory>
    requires few { length parts.old.objects < 4294967296 }
    requires size { size ≤ 65536 }
    ensures { OnOk result (parts.new ≡ with_static number size parts.old) }
{
    let key = parts.objects.len() as u32;
    let object = zeros(alloc, size)?;
    parts.objects.push(KeyedObject { key, object })?;
    parts.variables.push(Named {
        variable: number,
        object: key,
    })?;
    Ok(())
}

/// Puts a variable behind others, if it is a static one.
fn put_variable(
    alloc: Global,
    parts: &mut Parts,
    number: u32,
    variable: Variable,
) -> Result<(), NoMemory>
    requires few { length parts.old.objects < 4294967296 }
    requires size { variable.size ≤ 65536 }
    ensures { OnOk result (parts.new ≡ (if variable.fixed then with_static number variable.size parts.old else parts.old)) }
{
    if !variable.fixed {
        return Ok(());
    }
    put_static(alloc, parts, number, variable.size)?;
    Ok(())
}

/// Puts the static ones among variables, which are numbered from 0, into a graph's parts that have no objects.
pub(crate) fn put_statics(
    alloc: Global,
    parts: &mut Parts,
    variables: &[Variable],
) -> Result<(), NoMemory>
    requires none { parts.old.objects ≡ [] }
    requires few { length variables.now < 33554432 }
    requires sizes { list_all (λ variable. is_object_size variable.size) variables.now ≡ true }
    ensures { OnOk result (parts.new ≡ with_statics 0 variables.now parts.old) }
{
    let mut number: u32 = 0;
    let mut left = variables;
    while let [first, rest @ ..] = left {
        put_variable(alloc, parts, number, *first)?;
        number += 1;
        left = rest;
    }
    Ok(())
}
