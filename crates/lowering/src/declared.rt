//! Declared names and their initialisers as lines of moves (C11 6.7.9).
ghost use Rattle.std.specs.Prelude.{◌≡◌, ◌++◌, Some, IfOk, OnOk};
ghost use Rattle.c_machine.specs.declared.kind.Kind.TheVariants.{Void};
ghost use Rattle.lowering.specs.Inner.{AreDeclared, IsDeclared, IsLeftBySet};
ghost use Rattle.lowering.specs.Placing.{declared_by};
ghost use Rattle.lowering.specs.Told.{trees};

use crate::left::{left_as, left_of};
use crate::line::TreeLine;
use crate::moves::Move;
use crate::source::Source;
use crate::wanted::Wanted;
use c_machine::{Kind, Object};
use c_steps::Tree;
use cbase::{Declared, Expr, Init, NoMemory, Place};

/// The names of a declaration with their initialisers, one behind the other.
///
/// It takes two look-ups by hash for each. Where the size of an object is not kept, memory is wanting.
pub fn declared_line<'a>(
    source: &Source,
    line: &mut TreeLine<'a>,
    names: &'a [Declared],
) -> Result<(), NoMemory>
    ensures { OnOk result (AreDeclared source.now names.now line.old line.new) }
{
    let mut left = names.len();
    while left > 0 {
        left -= 1;
        declared_moves(source, line, &names[left])?;
    }
    Ok(())
}

/// A name with its initialiser, if it declares an automatic object and has one.
fn declared_moves<'a>(
    source: &Source,
    line: &mut TreeLine<'a>,
    name: &'a Declared,
) -> Result<(), NoMemory>
    ensures { OnOk result (IsDeclared source.now name.now line.old line.new) }
{
    match &name.init {
        None => Ok(()),
        Some(init) => match source.text().automatic(name.place.at) {
            None => Err(NoMemory),
            Some(None) => Ok(()),
            Some(Some(object)) => initialised_moves(line, name.place, object, init),
        },
    }
}

/// An object with its initialiser: in front of braces it becomes 0 (C11 6.7.9p19, p21).
fn initialised_moves<'a>(
    line: &mut TreeLine<'a>,
    place: Place,
    object: Object,
    init: &'a Init,
) -> Result<(), NoMemory>
    ensures { OnOk result (line.new ≡ declared_by (trees Void) place (Some object) (Some init.now) ++ line.old) }
{
    line.push(Move::Initialises {
        place,
        init: Tree::of(init),
    })?;
    match init {
        Init::Value { .. } => Ok(()),
        Init::Braces(_) => line.push(Move::Clears { place, object }),
    }
}

/// How many registers a value of an initialiser leaves that hold what it let go of, where it becomes one of a kind.
pub fn left_by_set(source: &Source, value: &Expr, kind: Kind) -> Result<u32, NoMemory>
    ensures { IfOk result (λ count. IsLeftBySet source.now value.now kind count) }
{
    match kind {
        Kind::Struct(_) => left_of(source, Wanted::AsPlace { in_spare: false }, value),
        _ => left_as(source, value, false, kind),
    }
}
