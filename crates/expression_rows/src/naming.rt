//! How names are declared, functions and structs.
ghost use Rattle.std.specs.Prelude.{◌≡◌, ◌<◌, [], length, All, OnOk};

use crate::types::{Written, number_of, numbers_of};
use cbase::{Abi, List, NoMemory, Text};
use expressions::Context;
use typing::ctypes::Member;
use typing::environment::{DeclaredType, Entity, Lifetime, Signature};

/// What a name with a type is declared as.
pub enum Kind {
    /// An object.
    Object,
    /// A parameter of `main`.
    OfMain,
    /// A parameter of another function.
    Parameter,
    /// An array of items of the type, whose size is not known.
    Unsized,
    /// A typedef.
    Typedef,
    /// A constant of an enum, with its bits.
    Constant(u32),
    /// A function whose result has the type, with the types of its parameters.
    Function,
    /// One that is built in.
    BuiltIn,
    /// The tag of a struct without members, which is the type.
    Incomplete,
}

/// Declares each of these names, all of which the text defines, or none.
pub fn declare_rows(
    context: &mut Context,
    abi: Abi,
    rows: &[(&[u8], Kind, Written, &[Written])],
    defined: bool,
) -> Result<(), NoMemory> {
    let alloc = context.alloc;
    for (name, kind, written, parameters) in rows {
        if defined {
            context.define(alloc, name)?;
        }
        let number = number_of(context, abi, written)?;
        declare_row(context, abi, name, kind, number, parameters, defined)?;
    }
    Ok(())
}

/// Declares a name whose type has that number.
fn declare_row(
    context: &mut Context,
    abi: Abi,
    name: &[u8],
    kind: &Kind,
    number: u32,
    parameters: &[Written],
    defined: bool,
) -> Result<(), NoMemory>
    requires { number < length context.old.types }
{
    let alloc = context.alloc;
    let ctype = DeclaredType::Whole(number);
    match kind {
        Kind::Object | Kind::OfMain | Kind::Parameter => {
            let lifetime = match kind {
                Kind::OfMain => Lifetime::MainParameter,
                Kind::Parameter => Lifetime::Automatic,
                _ => Lifetime::Static,
            };
            context.declare(
                alloc,
                name,
                Entity::Object {
                    ctype,
                    token: 0,
                    lifetime,
                    defined,
                },
            )
        }
        Kind::Unsized => context.declare(
            alloc,
            name,
            Entity::Object {
                ctype: DeclaredType::UnsizedArray(number),
                token: 0,
                lifetime: Lifetime::Static,
                defined,
            },
        ),
        Kind::Typedef => context.declare(alloc, name, Entity::Typedef { ctype }),
        Kind::Constant(bits) => context.declare(alloc, name, Entity::Enumerator { bits: *bits }),
        Kind::Function | Kind::BuiltIn => {
            let mut numbers = List::new(alloc);
            numbers_of(context, abi, parameters, &mut numbers)?;
            let signature = context.add_signature(Signature {
                result: number,
                parameters: numbers,
            })?;
            context.declare(
                alloc,
                name,
                Entity::Function {
                    signature,
                    defined,
                    built_in: matches!(kind, Kind::BuiltIn),
                },
            )
        }
        Kind::Incomplete => {
            context.declare_struct(alloc, name, false)?;
            Ok(())
        }
    }
}

/// Declares a struct with its members.
pub fn structure(
    context: &mut Context,
    abi: Abi,
    tag: &[u8],
    rows: &[(&[u8], Written)],
) -> Result<(), NoMemory> {
    let alloc = context.alloc;
    let number = context.declare_struct(alloc, tag, true)?;
    let mut members = List::new(alloc);
    members_of(context, abi, rows, &mut members)?;
    context.complete(alloc, number, members)?;
    Ok(())
}

/// Puts the members of a struct into an empty list.
#[tactic(auto, using(crate::proofs::Growing::one_more_below))]
fn members_of(
    context: &mut Context,
    abi: Abi,
    rows: &[(&[u8], Written)],
    members: &mut List<Member>,
) -> Result<(), NoMemory>
    requires { members.old ≡ [] }
    ensures { OnOk result (All (λ member. member.ctype < length context.new.types) members.new) }
{
    let alloc = context.alloc;
    for (name, written) in rows {
        let ctype = number_of(context, abi, written)?;
        let name = Text::from_slice(alloc, name)?;
        members.push(Member { name, ctype })?;
    }
    Ok(())
}
