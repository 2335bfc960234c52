ghost use Rattle.std.specs.Prelude.{◌≡◌, ◌<◌, ℕ, true, List, Option, option_map};
ghost use Rattle.expressions.specs.Numbers.{Numbering, entity_at, function_at};
ghost use Rattle.c_machine.specs.Program.{Program};
ghost use Rattle.c_machine.specs.Trees.{standing, function_stands};
ghost use Rattle.c_text.specs.Rows.{stands_known};
ghost use Rattle.c_text.specs.Standing.{standing_by, StandingBelow};

use typing::environment::Entity;

/// What a name stands for, as far as a run asks (C11 6.2.3).
#[derive(Clone, Copy, PartialEq, Eq)]
pub enum Standing {
    /// An object, by how many tokens stand before the name that declared it first.
    Object(u32),
    /// A constant of an enum, by the lowest four bytes of its value (C11 6.7.2.2p3).
    Constant(u32),
    /// A function that is built in, by the number of its signature.
    BuiltIn(u32),
    /// A function that has a body in the text.
    Body,
    /// Neither an object nor a constant, nor a function that can be called.
    Nothing,
}

/// What a name stands for that typing gives this meaning.
#[tactic(auto, using(crate::proofs::NamesStand::signature_below))]
pub(crate) fn standing_of(entity: Option<Entity>) -> Standing
    ensures is { (n : Numbering) (p : Program) (name : Option (List ℕ)) → standing_by n p name result ≡ standing p name (option_map (entity_at n) entity) }
    ensures below { (count : ℕ) → stands_known count entity ≡ true → StandingBelow count result }
{
    match entity {
        Some(Entity::Object { token, .. }) => Standing::Object(token),
        Some(Entity::Enumerator { bits }) => Standing::Constant(bits),
        Some(
            Entity::Function {
                signature,
                defined,
                built_in,
            },
        ) => function_standing(signature, defined, built_in),
        Some(Entity::Typedef { .. }) | None => Standing::Nothing,
    }
}

/// What the name of a function stands for.
#[tactic(auto, using(crate::proofs::NamesStand::built_in_is, crate::proofs::NamesStand::body_is, crate::proofs::NamesStand::nothing_is))]
fn function_standing(signature: u32, defined: bool, built_in: bool) -> Standing
    ensures is { (n : Numbering) (p : Program) (name : Option (List ℕ))
        → standing_by n p name result ≡ function_stands p name (function_at n (n.signature signature) defined built_in) }
    ensures below { (count : ℕ) → signature < count → StandingBelow count result }
{
    if built_in {
        return Standing::BuiltIn(signature);
    }
    if defined {
        Standing::Body
    } else {
        Standing::Nothing
    }
}
