ghost use Rattle.std.specs.Prelude.{◌≡◌, ◌≤◌, Some, None, IfOk};
ghost use Rattle.cbase.specs.declared.tree.expr.ExprForm.TheOpen.{Basic, Named, Struct, Enum};
ghost use Rattle.cbase.specs.declared.tree.expr.ExprForm.TheViews.{out-TypeSpec};
ghost use Rattle.cbase.specs.declared.abi.Abi.{Abi};
ghost use Rattle.ctrees.specs.Levels.{spec_levels};
ghost use Rattle.typing.specs.declared.ctypes.found.Broken.TheVariants.{Rule};
ghost use Rattle.typing.specs.Faults.{fault};
ghost use Rattle.typing.specs.Typing.{WordsAre};
ghost use Rattle.expressions.specs.declared.found.Found.TheVariants.{Passes, Refused};
ghost use Rattle.expressions.specs.Found.{a_type};
ghost use Rattle.expressions.specs.Nests.{Nests};
ghost use Rattle.expressions.specs.TypeParts.{typeof_found};
ghost use Rattle.expressions.specs.Walked.{Walked, Says};

use crate::checker::{Checker, Within};
use crate::context::Context;
use crate::found::Found;
use crate::known::Known;
use crate::named_type::NamedType;
use crate::part::{Part, Told};
use cbase::{Abi, BasicType, Identifier, NoMemory, TypeSpec, bytes_of_rank};
use std::alloc::Global;
use typing::Fault;
use typing::ctypes::Broken;
use typing::environment::{DeclaredType, Entity, Tag};

impl<F: Fn(&mut Context, Within, Part<'_>) -> Result<Found<Told>, NoMemory>> Checker<F> {
    /// The words of a type (C11 6.7.2).
    pub fn words(
        &self,
        alloc: Global,
        context: &mut Context,
        spec: &TypeSpec,
    ) -> Result<Found<NamedType>, NoMemory>
        requires nests { Nests self.now.abi self.now.depth (F.pre self.now.inner) (F.post self.now.inner) }
        requires deep { spec_levels spec.now ≤ self.now.depth }
        ensures { IfOk result (λ found. Walked (Says self.now.abi (λ o. WordsAre (out-TypeSpec spec.now) o)) a_type context.old context.new found) }
    {
        match spec {
            TypeSpec::Basic(basic_type) => basic(context, self.abi, *basic_type),
            TypeSpec::Named(name) => typedef(context, name.as_slice()),
            TypeSpec::Struct { name, fields } => match fields {
                Some(fields) => self.ask_type(context, Part::Members(name, fields)),
                None => match name {
                    Some(tag) => structure(alloc, context, tag),
                    None => nothing(context),
                },
            },
            TypeSpec::Enum { name, values } => match values {
                Some(values) => self.ask_type(context, Part::Enumerators(name, values)),
                None => match name {
                    Some(tag) => enumeration(alloc, context, tag),
                    None => nothing(context),
                },
            },
            TypeSpec::OfExpr(expr) => typeof_expression(self.ask_expression(context, expr.get())),
            TypeSpec::OfType(to) => self.ask_type(context, Part::TypeName(to.get())),
        }
    }
}

/// `typeof` of an expression, in which an array stays one, by what is found of that. C11 has none.
fn typeof_expression(told: Result<Found<Known>, NoMemory>) -> Result<Found<NamedType>, NoMemory>
    ensures { result ≡ typeof_found told }
{
    match told {
        Ok(Found::Passes(known)) => Ok(whole(known.ctype)),
        Ok(Found::Refused(fault)) => Ok(Found::Refused(fault)),
        Err(error) => Err(error),
    }
}

/// Neither a tag nor braces: they name no type, rule 1 where it is held. The grammar reads none.
fn nothing(context: &mut Context) -> Result<Found<NamedType>, NoMemory>
    ensures of_struct { (abi : Abi) → IfOk result (λ found. Walked (Says abi (λ o. WordsAre (Struct None None) o)) a_type context.old context.new found) }
    ensures of_enum { (abi : Abi) → IfOk result (λ found. Walked (Says abi (λ o. WordsAre (Enum None None) o)) a_type context.old context.new found) }
{
    match context.void() {
        Ok(ctype) => Ok(Found::Passes(NamedType {
            ctype,
            found: Some(Broken::Rule(1)),
        })),
        Err(error) => Err(error),
    }
}

/// A type of keywords alone (C11 6.7.2p5).
fn basic(context: &mut Context, abi: Abi, basic: BasicType) -> Result<Found<NamedType>, NoMemory>
    ensures { IfOk result (λ found. Walked (Says abi (λ o. WordsAre (Basic basic) o)) a_type context.old context.new found) }
{
    let told = match basic {
        BasicType::Void => context.void(),
        BasicType::Bool => context.boolean(),
        BasicType::Integer { rank, signed } => context.integer(bytes_of_rank(rank, abi), signed),
    };
    match told {
        Ok(ctype) => Ok(whole(ctype)),
        Err(error) => Err(error),
    }
}

/// The name of a type (C11 6.7.8). A typedef of an array whose size is not known is rule 3 where it is held, and a name of no type rule 1.
fn typedef(context: &mut Context, name: &[u8]) -> Result<Found<NamedType>, NoMemory>
    ensures { (abi : Abi) → IfOk result (λ found. Walked (Says abi (λ o. WordsAre (Named name.now) o)) a_type context.old context.new found) }
{
    let rule = match context.look_up(name) {
        Some(
            Entity::Typedef {
                ctype: DeclaredType::Whole(number),
            },
        ) => return Ok(whole(number)),
        Some(
            Entity::Typedef {
                ctype: DeclaredType::UnsizedArray(_),
            },
        ) => Broken::Rule(3),
        Some(Entity::Object { .. }) => Broken::Rule(1),
        Some(Entity::Enumerator { .. }) => Broken::Rule(1),
        Some(Entity::Function { .. }) => Broken::Rule(1),
        None => Broken::Rule(1),
    };
    match context.void() {
        Ok(ctype) => Ok(Found::Passes(NamedType {
            ctype,
            found: Some(rule),
        })),
        Err(error) => Err(error),
    }
}

/// The tag of a struct (C11 6.7.2.3p8): one that is not visible is declared here, and that of an enum is rule 2.
fn structure(
    alloc: Global,
    context: &mut Context,
    tag: &Identifier,
) -> Result<Found<NamedType>, NoMemory>
    ensures { (abi : Abi) → IfOk result (λ found. Walked (Says abi (λ o. WordsAre (Struct (Some tag.now) None) o)) a_type context.old context.new found) }
{
    let number = match context.tag(tag.name.as_slice()) {
        Some(Tag::Struct { number, .. }) => number,
        Some(Tag::Enum { .. }) => return Ok(other_kind(tag)),
        None => context.declare_struct(alloc, tag.name.as_slice(), false)?,
    };
    match context.structure(number) {
        Ok(ctype) => Ok(whole(ctype)),
        Err(error) => Err(error),
    }
}

/// The tag of an enum (C11 6.7.2.3).
fn enumeration(
    alloc: Global,
    context: &mut Context,
    tag: &Identifier,
) -> Result<Found<NamedType>, NoMemory>
    ensures { (abi : Abi) → IfOk result (λ found. Walked (Says abi (λ o. WordsAre (Enum (Some tag.now) None) o)) a_type context.old context.new found) }
{
    match context.tag(tag.name.as_slice()) {
        Some(Tag::Enum { .. }) => {}
        Some(Tag::Struct { .. }) => return Ok(other_kind(tag)),
        None => context.declare_enum(alloc, tag.name.as_slice())?,
    }
    match context.integer(4, true) {
        Ok(ctype) => Ok(whole(ctype)),
        Err(error) => Err(error),
    }
}

/// A type of which nothing is found.
fn whole(ctype: u32) -> Found<NamedType>
    ensures { result ≡ Passes (record { ctype = ctype; found = None }) }
{
    Found::Passes(NamedType { ctype, found: None })
}

/// A tag of another kind is rule 2 at it.
fn other_kind(tag: &Identifier) -> Found<NamedType>
    ensures { result ≡ Refused (fault tag.now.place (Rule 2)) }
{
    Found::Refused(Fault {
        place: tag.place,
        broken: Broken::Rule(2),
    })
}
