//! What stands directly in the words of a type (C11 6.7.2).
ghost use Rattle.std.specs.Prelude.{◌≡◌, ◌++◌, OnOk};
ghost use Rattle.std.specs.List.{flat_map};
ghost use Rattle.cbase.specs.declared.tree.expr.ExprForm.TheViews.{out-Enumerator, out-TypeSpec};
ghost use Rattle.c_machine.specs.Statics.{in_member, in_members, in_words, optional};
ghost use Rattle.c_text.specs.statics.Nodes.{in_fields, in_values};

use crate::statics::node::Nodes;
use crate::statics::parts::list::push_sizes;
use crate::statics::parts::name::push_in_type_name;
use crate::statics::parts::single::{push_expr, push_optional, push_words};
use cbase::{Enumerator, FieldDecl, FieldName, List, NoMemory, TypeSpec};

/// What stands in the words of a type.
pub fn push_in_words<'a>(nodes: &mut Nodes<'a>, spec: &'a TypeSpec) -> Result<(), NoMemory>
    ensures { OnOk result (nodes.new ≡ in_words (out-TypeSpec spec.now) ++ nodes.old) }
{
    match spec {
        TypeSpec::Basic(_) => Ok(()),
        TypeSpec::Named(_) => Ok(()),
        TypeSpec::Struct { fields, .. } => push_in_fields(nodes, fields),
        TypeSpec::Enum { values, .. } => push_in_values(nodes, values),
        TypeSpec::OfExpr(expr) => push_expr(nodes, expr.get()),
        TypeSpec::OfType(name) => push_in_type_name(nodes, name.get()),
    }
}

/// What stands in the braces of a struct, where there are some (C11 6.7.2.1).
fn push_in_fields<'a>(
    nodes: &mut Nodes<'a>,
    fields: &'a Option<List<FieldDecl>>,
) -> Result<(), NoMemory>
    ensures { OnOk result (nodes.new ≡ in_fields fields.now ++ nodes.old) }
{
    match fields {
        None => Ok(()),
        Some(fields) => push_in_each_field(nodes, fields.as_slice()),
    }
}

/// What stands in declarations of members.
fn push_in_each_field<'a>(nodes: &mut Nodes<'a>, fields: &'a [FieldDecl]) -> Result<(), NoMemory>
    ensures { OnOk result (nodes.new ≡ flat_map in_members fields.now ++ nodes.old) }
{
    let mut left = fields.len();
    while left > 0 {
        left -= 1;
        push_in_field(nodes, &fields[left])?;
    }
    Ok(())
}

/// What stands in a declaration of members.
fn push_in_field<'a>(nodes: &mut Nodes<'a>, field: &'a FieldDecl) -> Result<(), NoMemory>
    ensures { OnOk result (nodes.new ≡ in_members field.now ++ nodes.old) }
{
    push_in_members(nodes, field.names.as_slice())?;
    push_words(nodes, &field.spec)
}

/// What stands behind names of members.
fn push_in_members<'a>(nodes: &mut Nodes<'a>, names: &'a [FieldName]) -> Result<(), NoMemory>
    ensures { OnOk result (nodes.new ≡ flat_map in_member names.now ++ nodes.old) }
{
    let mut left = names.len();
    while left > 0 {
        left -= 1;
        push_in_member(nodes, &names[left])?;
    }
    Ok(())
}

/// What stands behind the name of a member.
fn push_in_member<'a>(nodes: &mut Nodes<'a>, name: &'a FieldName) -> Result<(), NoMemory>
    ensures { OnOk result (nodes.new ≡ in_member name.now ++ nodes.old) }
{
    push_optional(nodes, &name.bits)?;
    push_sizes(nodes, name.sizes.as_slice())
}

/// What stands in the braces of an enum, where there are some (C11 6.7.2.2).
fn push_in_values<'a>(
    nodes: &mut Nodes<'a>,
    values: &'a Option<List<Enumerator>>,
) -> Result<(), NoMemory>
    ensures { OnOk result (nodes.new ≡ in_values values.now ++ nodes.old) }
{
    match values {
        None => Ok(()),
        Some(values) => push_in_each_value(nodes, values.as_slice()),
    }
}

/// What stands in constants of an enum.
fn push_in_each_value<'a>(nodes: &mut Nodes<'a>, values: &'a [Enumerator]) -> Result<(), NoMemory>
    ensures { OnOk result (nodes.new ≡ flat_map (λ value. optional (out-Enumerator value).value) values.now ++ nodes.old) }
{
    let mut left = values.len();
    while left > 0 {
        left -= 1;
        push_optional(nodes, &values[left].value)?;
    }
    Ok(())
}
