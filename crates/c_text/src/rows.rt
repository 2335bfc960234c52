//! The rows of expressions, each at the place of its number.
ghost use Rattle.std.specs.Prelude.{◌≡◌, ◌<◌, ℕ, [], length, nat_eq, Some, OnOk, if◌then◌else◌};
ghost use Rattle.c_text.specs.Rows.{row_at, row_here, row_in, or_else, is_known, stands_known, are_known};

use crate::expression_row::ExpressionRow;
use cbase::NoMemory;
use expressions::{Context, HandedRow};
use typing::environment::Entity;

/// The row of an expression by its number, if it has one. It takes one step.
pub(crate) fn row_at(rows: &[Option<ExpressionRow>], number: u32) -> Option<ExpressionRow>
    ensures { result ≡ row_at rows.now number }
{
    match rows.get(number as usize) {
        None => None,
        Some(row) => *row,
    }
}

/// Puts each row of an expression at the place of its number, in a list that is empty.
#[tactic(auto, using(crate::proofs::RowsFound::or_none, crate::proofs::RowsFound::or_or))]
pub(crate) fn gather_rows(
    rows: &mut Vec<Option<ExpressionRow>>,
    handed: &[HandedRow],
) -> Result<(), NoMemory>
    requires { rows.old.items ≡ [] }
    ensures { OnOk result ((number : ℕ) → row_at rows.new.items number ≡ row_in number handed.now) }
{
    for row in handed {
        put(rows, *row)?;
    }
    Ok(())
}

/// Puts a row, if it is one of an expression, at the place of its number.
fn put(rows: &mut Vec<Option<ExpressionRow>>, row: HandedRow) -> Result<(), NoMemory>
    ensures { OnOk result ((number : ℕ) → row_at rows.new.items number ≡ or_else (row_here number row) (row_at rows.old.items number)) }
{
    match row {
        HandedRow::Expression {
            number,
            ctype,
            stands,
            value,
        } => put_at(
            rows,
            number,
            ExpressionRow {
                number,
                ctype,
                stands,
                value,
            },
        ),
        HandedRow::Store { .. }
        | HandedRow::Object { .. }
        | HandedRow::Link { .. }
        | HandedRow::Function { .. }
        | HandedRow::Parameter { .. } => Ok(()),
    }
}

/// Puts a row at a place.
fn put_at(
    rows: &mut Vec<Option<ExpressionRow>>,
    place: u32,
    row: ExpressionRow,
) -> Result<(), NoMemory>
    ensures { OnOk result ((number : ℕ) → row_at rows.new.items number ≡ (if nat_eq number place then Some row else row_at rows.old.items number)) }
{
    lengthen(rows, place as usize)?;
    rows[place as usize] = Some(row);
    Ok(())
}

/// Appends places without a row until a place is there.
fn lengthen(rows: &mut Vec<Option<ExpressionRow>>, place: usize) -> Result<(), NoMemory>
    ensures there { OnOk result (place < length rows.new.items) }
    ensures same { OnOk result ((number : ℕ) → row_at rows.new.items number ≡ row_at rows.old.items number) }
{
    while rows.len() <= place {
        rows.push(None)?;
    }
    Ok(())
}

/// Whether each type and each signature that a row names is one of the context.
pub(crate) fn are_known(context: &Context, handed: &[HandedRow]) -> bool
    ensures { result ≡ are_known (length context.now.types) (length context.now.environment.signatures) handed.now }
{
    for row in handed {
        if !is_known(context, *row) {
            return false;
        }
    }
    true
}

/// Whether the type and the signature that a row names are of the context.
fn is_known(context: &Context, row: HandedRow) -> bool
    ensures { result ≡ is_known (length context.now.types) (length context.now.environment.signatures) row }
{
    match row {
        HandedRow::Expression { ctype, stands, .. } => {
            if context.has_type(ctype) {
                stands_known(context, stands)
            } else {
                false
            }
        }
        HandedRow::Store { ctype, .. } => context.has_type(ctype),
        HandedRow::Object { ctype, .. } => context.has_type(ctype),
        HandedRow::Link { .. } => true,
        HandedRow::Function { result, .. } => context.has_type(result),
        HandedRow::Parameter { ctype, .. } => context.has_type(ctype),
    }
}

/// Whether the signature of a function for which a name stands is one of the context.
fn stands_known(context: &Context, stands: Option<Entity>) -> bool
    ensures { result ≡ stands_known (length context.now.environment.signatures) stands }
{
    match stands {
        Some(Entity::Function { signature, .. }) => context.has_signature(signature),
        Some(Entity::Object { .. } | Entity::Typedef { .. } | Entity::Enumerator { .. }) | None => {
            true
        }
    }
}
