ghost use Rattle.std.specs.Prelude.{◌≡◌, ◌<◌, ◌∷◌, [], ◌++◌, ℕ, true, false, map, length, All, IfSome, OnOk, option_map, option_and_then};
ghost use Rattle.typing.specs.environment.Bounds.{LinkedBelow};
ghost use Rattle.typing.specs.environment.Names.{value_in};
ghost use Rattle.typing.specs.environment.Scopes.{found_here};
ghost use Rattle.typing.specs.Declarations.{LinkedGiven, IsAgain, IsOther};
ghost use Rattle.typing.specs.Entities.{FunctionLinked};
ghost use Rattle.expressions.specs.Context.{Agrees};
ghost use Rattle.typing.specs.environment.Environment.{is_defined};
ghost use Rattle.expressions.specs.Language.{built_in_by_now, definition_by_now, is_built_in_entity, linked_function};
ghost use Rattle.expressions.specs.Numbers.{Numbering, name_here_at, linked_at};
ghost use Rattle.items.specs.parameters.Named.{function_declared};

use cbase::{List, NoMemory};
use expressions::Context;
use std::alloc::Global;
use typing::environment::{Binding, Definition, Entity, Linked, Signature};

/// Whether a name is declared another thing than a function of those types: by its scope, or by what has linkage under it (C11 6.7p3, p4).
pub(crate) fn is_again(context: &Context, name: &[u8], result_type: u32, params: &[u32]) -> bool
    requires of { result_type < length context.now.types }
    requires params { All (λ number. number < length context.now.types) params.now }
    ensures { (n : Numbering) → Agrees n context.now → IsAgain (option_map (name_here_at n) (found_here name.now context.now.environment.names)) (option_and_then (linked_at n) (value_in name.now context.now.environment.linked)) (LinkedGiven (FunctionLinked (n.ctype result_type) (map n.ctype params.now))) result }
{
    match context.binding_here(name) {
        Some(Binding::Own(_)) => true,
        Some(Binding::WithLinkage(_)) | None => {
            is_other(context, context.linked(name), result_type, params)
        }
    }
}

/// Whether what has linkage is another thing than a function of those types (C11 6.2.7p2).
pub fn is_other(context: &Context, linked: Option<Linked>, result_type: u32, params: &[u32]) -> bool
    requires below { IfSome linked (LinkedBelow (length context.now.types) context.now.environment.signatures) }
    requires of { result_type < length context.now.types }
    requires params { All (λ number. number < length context.now.types) params.now }
    ensures { (n : Numbering) → Agrees n context.now → IsOther (option_and_then (linked_at n) linked) (FunctionLinked (n.ctype result_type) (map n.ctype params.now)) result }
{
    let Some(linked) = linked else {
        return false;
    };
    match linked.entity {
        Entity::Function { signature, .. } => {
            !is_same(context.signature(signature), result_type, params)
        }
        Entity::Object { .. } => true,
        Entity::Typedef { .. } | Entity::Enumerator { .. } => false,
    }
}

/// Whether a signature has these numbers.
fn is_same(signature: &Signature, result_type: u32, params: &[u32]) -> bool
    ensures same { result ≡ true → (signature.now.result ≡ result_type) × (signature.now.parameters ≡ params.now) }
    ensures other { result ≡ false → (signature.now.result ≡ result_type) × (signature.now.parameters ≡ params.now) → ⊥ }
{
    signature.result == result_type && signature.parameters.as_slice() == params
}

/// Declares a function of those types by the name (C11 6.2.2p5): its signature stands behind the others, and it has a body and is built in where it was
/// before.
///
/// Want of memory is the only error, and nothing is said of the context then.
pub(crate) fn declare_function(
    alloc: Global,
    context: &mut Context,
    name: &[u8],
    result_type: u32,
    params: List<u32>,
) -> Result<(), NoMemory>
    requires of { result_type < length context.old.types }
    requires params { All (λ number. number < length context.old.types) params }
    ensures { OnOk result (context.new ≡ function_declared name.now result_type params context.old) }
{
    let signature = context.add_signature(Signature {
        result: result_type,
        parameters: params,
    })?;
    let meaning = function_linked(context, name, signature);
    context.declare_linked(alloc, name, None, meaning)
}

/// What a function with the signature of that number is under a name (C11 6.2.2p2): it has a body and is built in where it was before, and the text so far
/// has for it what it had.
pub fn function_linked(context: &Context, name: &[u8], signature: u32) -> Linked
    ensures { result ≡ linked_function signature (is_defined name.now context.now.environment) (built_in_by_now (value_in name.now context.now.environment.linked)) (definition_by_now (value_in name.now context.now.environment.linked)) }
{
    let linked = context.linked(name);
    Linked {
        entity: Entity::Function {
            signature,
            defined: context.is_defined(name),
            built_in: is_built_in(linked),
        },
        definition: definition_by_now(linked),
    }
}

/// Whether what has linkage is built in.
fn is_built_in(linked: Option<Linked>) -> bool
    ensures { result ≡ built_in_by_now linked }
{
    match linked {
        None => false,
        Some(linked) => is_built_in_entity(linked.entity),
    }
}

/// Whether it is a function that is built in.
fn is_built_in_entity(entity: Entity) -> bool
    ensures { result ≡ is_built_in_entity entity }
{
    match entity {
        Entity::Function { built_in, .. } => built_in,
        Entity::Object { .. } | Entity::Typedef { .. } | Entity::Enumerator { .. } => false,
    }
}

/// What the text so far has for what has linkage.
fn definition_by_now(linked: Option<Linked>) -> Definition
    ensures { result ≡ definition_by_now linked }
{
    match linked {
        None => Definition::NotDefined,
        Some(linked) => linked.definition,
    }
}
