//! Sizes of allocations and lengths, which are numbers that are known (C11 7.22.3, 7.24).
ghost use Rattle.std.specs.Prelude.{◌≡◌, IfOk};
ghost use Rattle.lowering.specs.Words.{IsProduct, IsSize};

use crate::known::word_as;
use crate::source::Source;
use crate::static_names::Names;
use crate::words::{product_size, size_in_word};
use c_machine::Kind;
use cbase::{Expr, NoMemory};

/// The size that an argument of a kind comes to, if it comes to one.
pub fn size_as(source: &Source, expr: &Expr, kind: Kind) -> Result<Option<u32>, NoMemory>
    ensures { IfOk result (λ size. IsSize source.now expr.now kind size) }
{
    let none = Names::none(source.alloc());
    let word = word_as(source, &none, expr, kind)?;
    drop(none);
    Ok(size_in_word(word))
}

/// The size that the product of two arguments comes to, if it comes to one.
pub fn product_as(
    source: &Source,
    one: &Expr,
    one_kind: Kind,
    other: &Expr,
    other_kind: Kind,
) -> Result<Option<u32>, NoMemory>
    ensures { IfOk result (λ size. IsProduct source.now one.now one_kind other.now other_kind size) }
{
    let none = Names::none(source.alloc());
    let one = word_as(source, &none, one, one_kind)?;
    let other = word_as(source, &none, other, other_kind)?;
    drop(none);
    match (one, other) {
        (Some(one), Some(other)) => Ok(product_size(one, other)),
        _ => Ok(None),
    }
}
