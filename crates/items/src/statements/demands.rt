ghost use Rattle.std.specs.Prelude.{◌≡◌, ◌<◌, ℕ, length, true, option_map};
ghost use Rattle.typing.specs.ctypes.Binary.{is_scalar};
ghost use Rattle.typing.specs.ctypes.Kinds.{kind_of, decayed};
ghost use Rattle.typing.specs.Statements.{faults_of_value, result_faults, return_faults, is_void};
ghost use Rattle.expressions.specs.Context.{Agrees};
ghost use Rattle.expressions.specs.Numbers.{Numbering, known_at};
ghost use Rattle.expressions.specs.Settled.{IsFirstOf};
ghost use Rattle.items.specs.statements.Demands.{demand_at, IsDemandBelow};

use cbase::Place;
use expressions::{Context, Known, unless};
use typing::Fault;
use typing::ctypes::{Broken, Shape};

/// What a value in a statement is taken for.
#[derive(Clone, Copy)]
pub(crate) enum Demand {
    /// A condition (C11 6.8.4.1p1, 6.8.5p2).
    Condition,
    /// An expression statement, or a part of `for`, whose value is not used (C11 6.8.3p2, 6.8.5.3p1).
    Dropped,
    /// The value of `return`, whose word stands there, in a function whose result has the type of that number, or outside of functions (C11 6.8.6.4).
    Returned(Place, Option<u32>),
}

/// What is broken at a value, of which so much is known: what is no condition, and a struct that is dropped, is rule 4 at it; a value that is returned
/// where no result is wanted is rule 11 at the word, and one that does not convert is rule 5 at it.
pub(crate) fn fault_of_value(
    context: &Context,
    demand: Demand,
    place: Place,
    known: Known,
) -> Option<Fault>
    requires demand { IsDemandBelow (length context.now.types) demand }
    requires known { known.ctype < length context.now.types }
    ensures { (n : Numbering) → Agrees n context.now → IsFirstOf (faults_of_value context.now.structs (demand_at n demand) true place (known_at n known)) result }
{
    match demand {
        Demand::Condition => unless(is_scalar(context, known.ctype), place, Broken::Rule(4)),
        Demand::Dropped => unless(!context.is_struct(known.ctype), place, Broken::Rule(4)),
        Demand::Returned(word, None) => unless(false, word, Broken::Rule(11)),
        Demand::Returned(word, Some(of)) => fault_of_result(context, word, of, place, known),
    }
}

/// What is broken at the value of `return` in a function whose result has the type of number `of` (C11 6.8.6.4p1, p3).
fn fault_of_result(
    context: &Context,
    word: Place,
    of: u32,
    place: Place,
    known: Known,
) -> Option<Fault>
    requires of { of < length context.now.types }
    requires known { known.ctype < length context.now.types }
    ensures { (n : Numbering) → Agrees n context.now → IsFirstOf (result_faults word place (kind_of context.now.structs (n.ctype of)) (decayed (kind_of context.now.structs (n.ctype known.ctype))) known.null) result }
{
    if is_void(context, of) {
        return unless(false, word, Broken::Rule(11));
    }
    unless(
        context.converts(of, known.operand()),
        place,
        Broken::Rule(5),
    )
}

/// What is broken at `return` without a value, of which the word stands there: it stands in a function that has no result (C11 6.8.6.4p1).
pub(crate) fn fault_of_return(context: &Context, word: Place) -> Option<Fault>
    ensures { (n : Numbering) → Agrees n context.now → IsFirstOf (return_faults context.now.structs word (option_map n.ctype context.now.environment.result)) result }
{
    match context.result() {
        None => unless(false, word, Broken::Rule(11)),
        Some(of) => unless(is_void(context, of), word, Broken::Rule(11)),
    }
}

/// Whether the type of that number is that of numbers or of pointers, as which an array is taken too (C11 6.2.5p21).
fn is_scalar(context: &Context, number: u32) -> bool
    requires { number < length context.now.types }
    ensures { (n : Numbering) → Agrees n context.now → result ≡ is_scalar (kind_of context.now.structs (n.ctype number)) }
{
    if is_void(context, number) {
        return false;
    }
    !context.is_struct(number)
}

/// Whether the type of that number is `void` (C11 6.2.5p19).
fn is_void(context: &Context, number: u32) -> bool
    requires { number < length context.now.types }
    ensures { (n : Numbering) → Agrees n context.now → result ≡ is_void (kind_of context.now.structs (n.ctype number)) }
{
    match context.shape(number) {
        Shape::Void => true,
        _ => false,
    }
}
