ghost use Rattle.std.specs.Prelude.{◌≡◌, true, length, OnOk};
ghost use Rattle.cbase.specs.declared.abi.Abi.{Abi};
ghost use Rattle.cbase.specs.declared.tree.decl.Storage.TheVariants.{Extern};
ghost use Rattle.typing.specs.declared.environment.entity.Entity.TheVariants.{Object};
ghost use Rattle.typing.specs.environment.Bounds.{DeclaredBelow};
ghost use Rattle.typing.specs.environment.Environment.{visible_type};
ghost use Rattle.typing.specs.environment.Linkage.{own_declared};
ghost use Rattle.typing.specs.environment.Names.{value_in};
ghost use Rattle.expressions.specs.Context.{Agrees, declared};
ghost use Rattle.expressions.specs.Language.{definition_by_now, language, lifetime_of, token_by_now};
ghost use Rattle.expressions.specs.Numbers.{Numbering, declared_type_at};
ghost use Rattle.typing.specs.Declarations.{given, name_declared};
ghost use Rattle.items.specs.declarations.Given.{bound, composite_by_now, seen_in, unsized_in};

use cbase::{NoMemory, Storage};
use expressions::Context;
use std::alloc::Global;
use typing::environment::{DeclaredType, Definition, Entity, Lifetime, Linked};

/// Declares a name in the innermost scope by the storage word of its declaration: an object, a typedef, or what has linkage (C11 6.2.1p7, 6.2.2).
/// `token` is how many tokens stand before it.
///
/// Want of memory is the only error, and nothing is said of the context then.
pub fn declare_name(
    alloc: Global,
    context: &mut Context,
    name: &[u8],
    token: u32,
    storage: Storage,
    ctype: DeclaredType,
) -> Result<(), NoMemory>
    requires { DeclaredBelow (length context.old.types) ctype }
    ensures bound { OnOk result (context.new ≡ record context.old { environment = bound name.now token storage ctype context.old.environment }) }
    ensures declared { (n : Numbering) (abi : Abi) → Agrees n context.old → OnOk result (declared context.new ≡ name_declared (language abi n) name.now token (given storage (declared_type_at n ctype)) (declared context.old)) }
{
    match storage {
        Storage::Plain => declare_object(alloc, context, name, token, false, ctype),
        Storage::Static => declare_object(alloc, context, name, token, true, ctype),
        Storage::Typedef => context.declare(alloc, name, Entity::Typedef { ctype }),
        Storage::Extern => declare_linked(alloc, context, name, token, ctype),
    }
}

/// Declares an object without linkage, which needs no definition elsewhere, or one of its scope again, whose type is known now. `fixed` says whether
/// it lives as long as the program runs (C11 6.2.4p3, p5).
pub(crate) fn declare_object(
    alloc: Global,
    context: &mut Context,
    name: &[u8],
    token: u32,
    fixed: bool,
    ctype: DeclaredType,
) -> Result<(), NoMemory>
    requires { DeclaredBelow (length context.old.types) ctype }
    ensures { OnOk result (context.new ≡ record context.old { environment = own_declared name.now (Object ctype token (lifetime_of fixed) true) context.old.environment }) }
{
    let entity = Entity::Object {
        ctype,
        token,
        lifetime: lifetime_of(fixed),
        defined: true,
    };
    context.declare(alloc, name, entity)
}

/// How long an object lives.
fn lifetime_of(fixed: bool) -> Lifetime
    ensures { result ≡ lifetime_of fixed }
{
    if fixed {
        Lifetime::Static
    } else {
        Lifetime::Automatic
    }
}

/// Declares an object with linkage (C11 6.2.2p4): it is known by the name that declared it first, it stays what the text says of its definition, and every
/// declaration of it anywhere is compared with the type that all its declarations so far give (6.2.7p3). In its scope it has the size that visible ones give (6.2.7p4).
fn declare_linked(
    alloc: Global,
    context: &mut Context,
    name: &[u8],
    token: u32,
    ctype: DeclaredType,
) -> Result<(), NoMemory>
    requires { DeclaredBelow (length context.old.types) ctype }
    ensures bound { OnOk result (context.new ≡ record context.old { environment = bound name.now token Extern ctype context.old.environment }) }
    ensures below { DeclaredBelow (length context.old.types) (composite_by_now (value_in name.now context.old.environment.linked) ctype) }
    ensures seen { DeclaredBelow (length context.old.types) (seen_in (visible_type name.now context.old.environment) ctype) }
{
    let items = unsized_items(seen_type(context.visible_type(name), ctype));
    let before = context.linked(name);
    let entity = Entity::Object {
        ctype: composite_by_now(before, ctype),
        token: token_by_now(before, token),
        lifetime: Lifetime::Static,
        defined: context.is_defined(name),
    };
    let meaning = Linked {
        entity,
        definition: definition_by_now(before),
    };
    context.declare_linked(alloc, name, items, meaning)
}

/// The type that an object has where a declaration gives it that one, and the visible ones before it the type of that number, if they give it a whole one (C11
/// 6.2.7p4).
pub fn seen_type(visible: Option<u32>, ctype: DeclaredType) -> DeclaredType
    ensures { result ≡ seen_in visible ctype }
{
    match visible {
        None => ctype,
        Some(number) => DeclaredType::Whole(number),
    }
}

/// The number of the type of the items of an array whose size is not known.
fn unsized_items(ctype: DeclaredType) -> Option<u32>
    ensures { result ≡ unsized_in ctype }
{
    match ctype {
        DeclaredType::Whole(_) => None,
        DeclaredType::UnsizedArray(item) => Some(item),
    }
}

/// The type that the declarations of an object give together, in whatever scopes they stand (C11 6.2.7p3).
fn composite_by_now(before: Option<Linked>, ctype: DeclaredType) -> DeclaredType
    ensures { result ≡ composite_by_now before ctype }
{
    let Some(meaning) = before else {
        return ctype;
    };
    match meaning.entity {
        Entity::Object { ctype: first, .. } => match first {
            DeclaredType::Whole(_) => first,
            DeclaredType::UnsizedArray(_) => ctype,
        },
        Entity::Function { .. } => ctype,
        Entity::Typedef { .. } => ctype,
        Entity::Enumerator { .. } => ctype,
    }
}

/// How many tokens stand before the name that declared an object first.
pub fn token_by_now(before: Option<Linked>, token: u32) -> u32
    ensures { result ≡ token_by_now before token }
{
    let Some(meaning) = before else {
        return token;
    };
    match meaning.entity {
        Entity::Object { token: first, .. } => first,
        Entity::Function { .. } => token,
        Entity::Typedef { .. } => token,
        Entity::Enumerator { .. } => token,
    }
}

/// What the text so far has for it.
pub fn definition_by_now(before: Option<Linked>) -> Definition
    ensures { result ≡ definition_by_now before }
{
    match before {
        Some(meaning) => meaning.definition,
        None => Definition::NotDefined,
    }
}
