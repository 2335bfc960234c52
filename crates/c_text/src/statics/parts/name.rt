//! What stands in names of types and in declarations (C11 6.7, 6.7.6, 6.7.7).
ghost use Rattle.std.specs.Prelude.{◌≡◌, ◌++◌, OnOk};
ghost use Rattle.std.specs.List.{flat_map};
ghost use Rattle.c_machine.specs.Statics.{in_decl, in_name, in_param, in_params, in_type_name};

use crate::statics::node::Nodes;
use crate::statics::parts::list::push_sizes;
use crate::statics::parts::single::{push_maybe_init, push_words};
use cbase::{Decl, Declared, List, NoMemory, Param, TypeName};

/// What stands in the name of a type.
pub fn push_in_type_name<'a>(nodes: &mut Nodes<'a>, name: &'a TypeName) -> Result<(), NoMemory>
    ensures { OnOk result (nodes.new ≡ in_type_name name.now ++ nodes.old) }
{
    push_sizes(nodes, name.sizes.as_slice())?;
    push_words(nodes, &name.spec)
}

/// What stands in a parameter.
fn push_in_param<'a>(nodes: &mut Nodes<'a>, param: &'a Param) -> Result<(), NoMemory>
    ensures { OnOk result (nodes.new ≡ in_param param.now ++ nodes.old) }
{
    push_sizes(nodes, param.sizes.as_slice())?;
    push_words(nodes, &param.spec)
}

/// What stands in parameters.
fn push_in_each_param<'a>(nodes: &mut Nodes<'a>, params: &'a [Param]) -> Result<(), NoMemory>
    ensures { OnOk result (nodes.new ≡ flat_map in_param params.now ++ nodes.old) }
{
    let mut left = params.len();
    while left > 0 {
        left -= 1;
        push_in_param(nodes, &params[left])?;
    }
    Ok(())
}

/// The same, where a name has a list of them.
fn push_in_params<'a>(
    nodes: &mut Nodes<'a>,
    params: &'a Option<List<Param>>,
) -> Result<(), NoMemory>
    ensures { OnOk result (nodes.new ≡ in_params params.now ++ nodes.old) }
{
    match params {
        None => Ok(()),
        Some(params) => push_in_each_param(nodes, params.as_slice()),
    }
}

/// What stands behind a name that is declared.
pub fn push_in_name<'a>(nodes: &mut Nodes<'a>, name: &'a Declared) -> Result<(), NoMemory>
    ensures { OnOk result (nodes.new ≡ in_name name.now ++ nodes.old) }
{
    push_maybe_init(nodes, &name.init)?;
    push_in_params(nodes, &name.params)?;
    push_sizes(nodes, name.sizes.as_slice())
}

/// What stands behind names that are declared.
fn push_in_names<'a>(nodes: &mut Nodes<'a>, names: &'a [Declared]) -> Result<(), NoMemory>
    ensures { OnOk result (nodes.new ≡ flat_map in_name names.now ++ nodes.old) }
{
    let mut left = names.len();
    while left > 0 {
        left -= 1;
        push_in_name(nodes, &names[left])?;
    }
    Ok(())
}

/// What stands in a declaration.
pub fn push_in_decl<'a>(nodes: &mut Nodes<'a>, decl: &'a Decl) -> Result<(), NoMemory>
    ensures { OnOk result (nodes.new ≡ in_decl decl.now ++ nodes.old) }
{
    push_in_names(nodes, decl.names.as_slice())?;
    push_words(nodes, &decl.spec)
}
