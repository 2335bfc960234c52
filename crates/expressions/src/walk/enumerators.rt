ghost use Rattle.std.specs.Prelude.{◌≡◌, ◌≤◌, ◌<◌, ◌+◌, ℕ, Some, length, IfOk, IfSome};
ghost use Rattle.cbase.specs.declared.tree.expr.ExprForm.TheOpen.{Enum};
ghost use Rattle.cbase.specs.declared.tree.spec.TypeSpec.TheVariants.{Enum as EnumSpec};
ghost use Rattle.ctrees.specs.Levels.{spec_levels, enumerator_levels};
ghost use Rattle.typing.specs.Typing.{WordsAre};
ghost use Rattle.typing.specs.declared.ctypes.found.Broken.TheVariants.{Rule};
ghost use Rattle.typing.specs.Faults.{fault};
ghost use Rattle.expressions.specs.Enumerated.{IsEnumerated, IsIntValue, int_found};
ghost use Rattle.expressions.specs.Found.{a_type};
ghost use Rattle.expressions.specs.Nests.{Nests};
ghost use Rattle.expressions.specs.Walked.{Walked, Says};

use crate::checker::{Checker, Within};
use crate::context::Context;
use crate::found::Found;
use crate::known::Known;
use crate::named_type::NamedType;
use crate::part::{Part, Told};
use cbase::{Enumerator, Identifier, List, NoMemory, Place};
use std::alloc::Global;
use typing::Fault;
use typing::ctypes::Broken;
use typing::environment::Entity;
use typing::values::{int_value, next_value};

impl<F: Fn(&mut Context, Within, Part<'_>) -> Result<Found<Told>, NoMemory>> Checker<F> {
    /// What is found of an enum with its constants in braces (C11 6.7.2.2): its tag, and the constants in the order of the text, each of which is in scope
    /// behind its value (6.2.1p7), and of which the first is 0 where its value is not given (6.7.2.2p3).
    ///
    /// Want of memory is the only error, and nothing is said of the context then.
    pub fn enumerators(
        &self,
        alloc: Global,
        context: &mut Context,
        name: &Option<Identifier>,
        values: &List<Enumerator>,
    ) -> Result<Found<NamedType>, NoMemory>
        requires nests { Nests self.now.abi self.now.depth (F.pre self.now.inner) (F.post self.now.inner) }
        requires deep { spec_levels (EnumSpec name.now (Some values.now)) ≤ self.now.depth + 1 }
        ensures { IfOk result (λ found. Walked (Says self.now.abi (λ o. WordsAre (Enum name.now (Some values.now)) o)) a_type context.old context.new found) }
    {
        match context.open_enum(alloc, name) {
            Ok(None) => {}
            Ok(Some(fault)) => return Ok(Found::Refused(fault)),
            Err(error) => return Err(error),
        }
        let constants = values.as_slice();
        let mut next = Some(0);
        for constant in constants {
            match self.enumerator(alloc, context, next, constant) {
                Ok(Found::Passes(bits)) => next = next_value(bits),
                Ok(Found::Refused(fault)) => return Ok(Found::Refused(fault)),
                Err(error) => return Err(error),
            }
        }
        match context.integer(4, true) {
            Ok(ctype) => Ok(Found::Passes(NamedType { ctype, found: None })),
            Err(error) => Err(error),
        }
    }

    /// A constant of an enum, which has the value `next` where none is given, as the bits of an `int`: one that no `int` has is rule 9, at the expression
    /// where one is given (C11 6.7.2.2p2, p3). A name that its scope declares is rule 2 at it, also where it stands in its own value (6.7p3).
    fn enumerator(
        &self,
        alloc: Global,
        context: &mut Context,
        next: Option<u32>,
        constant: &Enumerator,
    ) -> Result<Found<u32>, NoMemory>
        requires nests { Nests self.now.abi self.now.depth (F.pre self.now.inner) (F.post self.now.inner) }
        requires deep { enumerator_levels constant.now ≤ self.now.depth }
        ensures { IfOk result (λ found. IsEnumerated self.now.abi next constant.now context.old context.new found) }
    {
        let name = constant.name.as_slice();
        if context.is_declared_here(name) {
            return Ok(Found::Refused(twice(constant.place)));
        }
        let value = match &constant.value {
            None => int_or_refused(constant.place, next),
            Some(expr) => match self.loaded(context, expr) {
                Ok(Found::Passes(known)) => int_in(context, expr.place, known),
                Ok(Found::Refused(fault)) => return Ok(Found::Refused(fault)),
                Err(error) => return Err(error),
            },
        };
        let bits = match value {
            Found::Passes(bits) => bits,
            Found::Refused(fault) => return Ok(Found::Refused(fault)),
        };
        if context.is_declared_here(name) {
            return Ok(Found::Refused(twice(constant.place)));
        }
        match context.declare(alloc, name, Entity::Enumerator { bits }) {
            Ok(()) => Ok(Found::Passes(bits)),
            Err(error) => Err(error),
        }
    }
}

/// The value that an operand gives a constant of an enum.
fn int_in(context: &Context, place: Place, known: Known) -> Found<u32>
    requires { known.ctype < length context.now.types }
    ensures { IsIntValue context.now place known result }
{
    int_or_refused(
        place,
        int_value(context.integer_type(known.ctype), known.value),
    )
}

/// A value, where an `int` has it.
fn int_or_refused(place: Place, bits: Option<u32>) -> Found<u32>
    ensures { result ≡ int_found place bits }
{
    match bits {
        Some(bits) => Found::Passes(bits),
        None => Found::Refused(Fault {
            place,
            broken: Broken::Rule(9),
        }),
    }
}

/// A name that its scope declares already.
fn twice(place: Place) -> Fault
    ensures { result ≡ fault place (Rule 2) }
{
    Fault {
        place,
        broken: Broken::Rule(2),
    }
}
