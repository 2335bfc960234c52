ghost use Rattle.std.specs.Prelude.{◌<◌, ◌≤◌, ℕ, length, IfOk};
ghost use Rattle.ctrees.specs.Levels.{expr_levels, type_name_levels};
ghost use Rattle.typing.specs.Pieces.{Loaded, ConstantIndex, SizeOfArray};
ghost use Rattle.typing.specs.Typing.{PieceIs};
ghost use Rattle.expressions.specs.Found.{an_operand, an_index, a_size};
ghost use Rattle.expressions.specs.Nests.{Nests};
ghost use Rattle.expressions.specs.Taken.{IsLoaded, IsIndex, IsSize};
ghost use Rattle.expressions.specs.Walked.{Walked, Says};

use crate::checker::{Checker, Within};
use crate::context::Context;
use crate::found::Found;
use crate::known::Known;
use crate::part::{Part, Told};
use cbase::{Expr, NoMemory, Place};
use typing::ctypes::Broken;
use typing::values::{count_of, word_of};
use typing::{Fault, Size};

impl<F: Fn(&mut Context, Within, Part<'_>) -> Result<Found<Told>, NoMemory>> Checker<F> {
    /// An operand whose value is taken, or that is stored to: an lvalue of an incomplete type is rule 3 at it (C11 6.3.2.1p2).
    pub fn loaded(&self, context: &mut Context, expr: &Expr) -> Result<Found<Known>, NoMemory>
        requires nests { Nests self.now.abi self.now.depth (F.pre self.now.inner) (F.post self.now.inner) }
        requires deep { expr_levels expr.now ≤ self.now.depth }
        ensures { IfOk result (λ found. Walked (Says self.now.abi (λ o. PieceIs (Loaded expr.now) o)) an_operand context.old context.new found) }
    {
        match self.ask_expression(context, expr) {
            Ok(Found::Passes(known)) => Ok(load(context, expr.place, known)),
            Ok(Found::Refused(fault)) => Ok(Found::Refused(fault)),
            Err(error) => Err(error),
        }
    }

    /// An index in `__builtin_offsetof`, as a word of 64 bits: one that is no integer constant expression is rule 9 at it.
    pub fn index(&self, context: &mut Context, expr: &Expr) -> Result<Found<u64>, NoMemory>
        requires nests { Nests self.now.abi self.now.depth (F.pre self.now.inner) (F.post self.now.inner) }
        requires deep { expr_levels expr.now ≤ self.now.depth }
        ensures { IfOk result (λ found. Walked (Says self.now.abi (λ o. PieceIs (ConstantIndex expr.now) o)) an_index context.old context.new found) }
    {
        match self.loaded(context, expr) {
            Ok(Found::Passes(known)) => Ok(index_in(context, expr.place, known)),
            Ok(Found::Refused(fault)) => Ok(Found::Refused(fault)),
            Err(error) => Err(error),
        }
    }

    /// A size of an array: an integer constant expression under 1 is rule 9 at it (C11 6.7.6.2p1).
    pub fn array_size(&self, context: &mut Context, expr: &Expr) -> Result<Found<Size>, NoMemory>
        requires nests { Nests self.now.abi self.now.depth (F.pre self.now.inner) (F.post self.now.inner) }
        requires deep { expr_levels expr.now ≤ self.now.depth }
        ensures { IfOk result (λ found. Walked (Says self.now.abi (λ o. PieceIs (SizeOfArray expr.now) o)) a_size context.old context.new found) }
    {
        match self.loaded(context, expr) {
            Ok(Found::Passes(known)) => Ok(size_in(context, expr.place, known)),
            Ok(Found::Refused(fault)) => Ok(Found::Refused(fault)),
            Err(error) => Err(error),
        }
    }
}

/// Takes the value of an operand.
fn load(context: &Context, place: Place, known: Known) -> Found<Known>
    requires { known.ctype < length context.now.types }
    ensures { IsLoaded context.now place known result }
{
    if known.lvalue && !context.has_size(known.ctype) {
        return Found::Refused(Fault {
            place,
            broken: Broken::Rule(3),
        });
    }
    Found::Passes(known)
}

/// The value of an index.
fn index_in(context: &Context, place: Place, known: Known) -> Found<u64>
    requires { known.ctype < length context.now.types }
    ensures { IsIndex context.now place known result }
{
    match word_of(context.integer_type(known.ctype), known.value) {
        Some(word) => Found::Passes(word),
        None => Found::Refused(Fault {
            place,
            broken: Broken::Rule(9),
        }),
    }
}

/// The size that an operand gives an array.
fn size_in(context: &Context, place: Place, known: Known) -> Found<Size>
    requires { known.ctype < length context.now.types }
    ensures { IsSize context.now place known result }
{
    let Some(of) = context.integer_type(known.ctype) else {
        return Found::Passes(Size::NotConstant);
    };
    let Some(bits) = known.value else {
        return Found::Passes(Size::NotConstant);
    };
    if !typing::values::is_whole(of) {
        return Found::Passes(Size::NotConstant);
    }
    match count_of(of, bits) {
        Some(count) => Found::Passes(Size::Counted(count)),
        None => Found::Refused(Fault {
            place,
            broken: Broken::Rule(9),
        }),
    }
}
