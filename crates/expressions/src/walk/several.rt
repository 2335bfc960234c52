ghost use Rattle.std.specs.Prelude.{◌≡◌, ◌≤◌, ◌∷◌, [], ℕ, length, map, All, IfOk};
ghost use Rattle.ctrees.specs.Levels.{expr_levels, part_levels};
ghost use Rattle.typing.specs.Pieces.{Loaded, indices_in};
ghost use Rattle.typing.specs.Typing.{PiecesAre};
ghost use Rattle.expressions.specs.Counted.{IsCounted};
ghost use Rattle.expressions.specs.Found.{two_operands, some_operands, some_indices};
ghost use Rattle.expressions.specs.Nests.{Nests};
ghost use Rattle.expressions.specs.Walked.{Walked, Says};

use crate::checker::{Checker, Within};
use crate::context::Context;
use crate::found::Found;
use crate::known::Known;
use crate::part::{Part, Told};
use cbase::{Expr, NoMemory};

impl<F: Fn(&mut Context, Within, Part<'_>) -> Result<Found<Told>, NoMemory>> Checker<F> {
    /// Two operands.
    pub(crate) fn two(
        &self,
        context: &mut Context,
        left: &Expr,
        right: &Expr,
    ) -> Result<Found<(Known, Known)>, NoMemory>
        requires nests { Nests self.now.abi self.now.depth (F.pre self.now.inner) (F.post self.now.inner) }
        requires left { expr_levels left.now ≤ self.now.depth }
        requires right { expr_levels right.now ≤ self.now.depth }
        ensures { IfOk result (λ found. Walked (Says self.now.abi (λ o. PiecesAre (Loaded left.now ∷ Loaded right.now ∷ []) o)) two_operands context.old context.new found) }
    {
        let a = match self.loaded(context, left) {
            Ok(Found::Passes(known)) => known,
            Ok(Found::Refused(fault)) => return Ok(Found::Refused(fault)),
            Err(error) => return Err(error),
        };
        match self.loaded(context, right) {
            Ok(Found::Passes(b)) => Ok(Found::Passes((a, b))),
            Ok(Found::Refused(fault)) => Ok(Found::Refused(fault)),
            Err(error) => Err(error),
        }
    }

    /// The arguments of a call, left to right. What is known of them is put behind one another.
    pub(crate) fn arguments(
        &self,
        context: &mut Context,
        args: &[Expr],
        known: &mut Vec<Known>,
    ) -> Result<Found<()>, NoMemory>
        requires nests { Nests self.now.abi self.now.depth (F.pre self.now.inner) (F.post self.now.inner) }
        requires deep { All (λ arg. expr_levels arg ≤ self.now.depth) args.now }
        requires empty { known.old.items ≡ [] }
        ensures walk { IfOk result (λ found. Walked (Says self.now.abi (λ o. PiecesAre (map Loaded args.now) o)) (some_operands known.new.items) context.old context.new found) }
        ensures count { IfOk result (λ found. IsCounted found (length known.new.items) (length args.now)) }
    {
        for arg in args {
            match self.loaded(context, arg) {
                Ok(Found::Passes(one)) => known.push(one)?,
                Ok(Found::Refused(fault)) => return Ok(Found::Refused(fault)),
                Err(error) => return Err(error),
            }
        }
        Ok(Found::Passes(()))
    }

    /// The indices on the way to a member, as words of 64 bits, which are put behind one another.
    pub(crate) fn indices(
        &self,
        context: &mut Context,
        path: &[cbase::Part],
        words: &mut Vec<u64>,
    ) -> Result<Found<()>, NoMemory>
        requires nests { Nests self.now.abi self.now.depth (F.pre self.now.inner) (F.post self.now.inner) }
        requires deep { All (λ part. part_levels part ≤ self.now.depth) path.now }
        requires empty { words.old.items ≡ [] }
        ensures walk { IfOk result (λ found. Walked (Says self.now.abi (λ o. PiecesAre (indices_in path.now) o)) (some_indices words.new.items) context.old context.new found) }
        ensures count { IfOk result (λ found. IsCounted found (length words.new.items) (length (indices_in path.now))) }
    {
        for part in path {
            match part {
                cbase::Part::Member(_) => {}
                cbase::Part::At(expr) => match self.index(context, expr) {
                    Ok(Found::Passes(word)) => words.push(word)?,
                    Ok(Found::Refused(fault)) => return Ok(Found::Refused(fault)),
                    Err(error) => return Err(error),
                },
            }
        }
        Ok(Found::Passes(()))
    }
}
