ghost use Rattle.std.specs.Prelude.{◌≡◌, ◌<◌, ◌++◌, ◌∷◌, [], ℕ, Bool, not, Some, length, IfOk, option_map};
ghost use Rattle.typing.specs.environment.Bounds.{DeclaredBelow};
ghost use Rattle.typing.specs.environment.Environment.{name_found};
ghost use Rattle.typing.specs.declared.environment.entity.Entity.TheVariants.{Object, Enumerator};
ghost use Rattle.typing.specs.declared.ctypes.found.Broken.TheVariants.{Construct, Rule};
ghost use Rattle.typing.specs.Faults.{fault, unless, IsFirst};
ghost use Rattle.expressions.specs.Names.{name_faults, name_told};
ghost use Rattle.expressions.specs.Numbers.{Numbering, entity_at, is_of_main};
ghost use Rattle.expressions.specs.Settled.{Settled, IsFirstOf};

use crate::context::Context;
use crate::found::Found;
use crate::known::Known;
use crate::nodes::finishing::{Node, pass, settle};
use crate::nodes::first::{first_of, unless};
use cbase::{NoMemory, Place};
use typing::ctypes::Broken;
use typing::environment::{DeclaredType, Entity, Lifetime};
use typing::{Fault, Idiom};

/// What is found at a name that is an operand (C11 6.5.1p2).
pub(crate) fn name_node(
    context: &mut Context,
    node: Node,
    name: &[u8],
) -> Result<Found<Known>, NoMemory>
    ensures { IfOk result (λ found. Settled (λ n. name_faults context.old.structs node.place (option_map (entity_at n) (name_found name.now context.old.environment))) (λ n. name_told (option_map (entity_at n) (name_found name.now context.old.environment))) node.number context.old context.new found) }
{
    match context.look_up(name) {
        None => Ok(Found::Refused(no_value(node.place))),
        Some(Entity::Typedef { .. }) => Ok(Found::Refused(no_value(node.place))),
        Some(
            Entity::Object {
                ctype,
                token,
                lifetime,
                defined,
            },
        ) => object_node(context, node, ctype, token, lifetime, defined),
        Some(Entity::Enumerator { bits }) => enumerator_node(context, node, bits),
        Some(
            Entity::Function {
                defined,
                built_in,
                ..
            },
        ) => Ok(Found::Refused(function_fault(node.place, defined || built_in))),
    }
}

/// A name that stands for no value (C11 6.5.1p2).
fn no_value(place: Place) -> Fault
    ensures { result ≡ fault place (Rule 1) }
{
    Fault {
        place,
        broken: Broken::Rule(1),
    }
}

/// A function that is not called is construct 20, and one without definition construct 12.
#[tactic(auto, using(crate::proofs::Naming::function_there, crate::proofs::Naming::function_missing))]
fn function_fault(place: Place, is_there: bool) -> Fault
    ensures { IsFirst (unless is_there place (Construct 12) ++ fault place (Construct 20) ∷ []) result }
{
    if is_there {
        Fault {
            place,
            broken: Broken::Construct(20),
        }
    } else {
        Fault {
            place,
            broken: Broken::Construct(12),
        }
    }
}

/// What is found at the name of an object.
fn object_node(
    context: &mut Context,
    node: Node,
    ctype: DeclaredType,
    token: u32,
    lifetime: Lifetime,
    defined: bool,
) -> Result<Found<Known>, NoMemory>
    requires { DeclaredBelow (length context.old.types) ctype }
    ensures { IfOk result (λ found. Settled (λ n. name_faults context.old.structs node.place (Some (entity_at n (Object ctype token lifetime defined)))) (λ n. name_told (Some (entity_at n (Object ctype token lifetime defined)))) node.number context.old context.new found) }
{
    match ctype {
        DeclaredType::Whole(number) => {
            let sized = context.has_size(number);
            let broken = object_fault(node.place, defined, sized, lifetime);
            let stands = Some(Entity::Object {
                ctype,
                token,
                lifetime,
                defined,
            });
            let known = Known {
                stands,
                ..Known::located(Idiom::Outside, number)
            };
            settle(context, node.number, broken, known)
        }
        DeclaredType::UnsizedArray(_) => Ok(Found::Refused(unsized_fault(node.place, defined))),
    }
}

/// What is broken at the name of an object: one without definition is construct 12, one of an incomplete type rule 3, and a parameter of `main`
/// rule 12.
fn object_fault(place: Place, defined: bool, sized: bool, lifetime: Lifetime) -> Option<Fault>
    ensures { IsFirstOf (unless defined place (Construct 12) ++ (unless sized place (Rule 3) ++ unless (not (is_of_main lifetime)) place (Rule 12))) result }
{
    first_of(
        unless(defined, place, Broken::Construct(12)),
        first_of(
            unless(sized, place, Broken::Rule(3)),
            unless(!is_of_main(lifetime), place, Broken::Rule(12)),
        ),
    )
}

/// Whether an object is a parameter of `main`.
fn is_of_main(lifetime: Lifetime) -> bool
    ensures { result ≡ is_of_main lifetime }
{
    match lifetime {
        Lifetime::MainParameter => true,
        Lifetime::Automatic | Lifetime::Static => false,
    }
}

/// What is broken at the name of an array whose size is not known: its type is incomplete.
#[tactic(auto, using(crate::proofs::Naming::unsized_defined, crate::proofs::Naming::unsized_missing))]
fn unsized_fault(place: Place, defined: bool) -> Fault
    ensures { (of_main : Bool) → IsFirst (unless defined place (Construct 12) ++ (fault place (Rule 3) ∷ unless (not of_main) place (Rule 12))) result }
{
    if defined {
        Fault {
            place,
            broken: Broken::Rule(3),
        }
    } else {
        Fault {
            place,
            broken: Broken::Construct(12),
        }
    }
}

/// What is found at a constant of an enum, which is an int (C11 6.4.4.3p2).
fn enumerator_node(context: &mut Context, node: Node, bits: u32) -> Result<Found<Known>, NoMemory>
    ensures { IfOk result (λ found. Settled (λ n. name_faults context.old.structs node.place (Some (entity_at n (Enumerator bits)))) (λ n. name_told (Some (entity_at n (Enumerator bits)))) node.number context.old context.new found) }
{
    match context.integer(4, true) {
        Ok(ctype) => {
            let known = Known {
                ctype,
                lvalue: false,
                null: bits == 0,
                value: Some(u64::from(bits)),
                idiom: Idiom::Outside,
                stands: Some(Entity::Enumerator { bits }),
            };
            pass(context, node.number, known)
        }
        Err(error) => Err(error),
    }
}
