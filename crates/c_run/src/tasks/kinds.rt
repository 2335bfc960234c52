//! The types of expressions.
ghost use Rattle.std.specs.Prelude.{◌≡◌};
ghost use Rattle.expressions.specs.Numbers.{Numbering};
ghost use Rattle.c_machine.specs.Expressions.{value_kind};
ghost use Rattle.c_machine.specs.Program.{Program};
ghost use Rattle.c_machine.specs.Trees.{text_of};
ghost use Rattle.c_text.specs.Kept.{kept};
ghost use Rattle.c_text.specs.Stands.{StandsFor};
ghost use Rattle.c_run.specs.tasks.Structs.{struct_bytes};

use c_machine::Kind;
use c_steps::words::decayed;
use c_text::TypedText;
use cbase::Expr;

/// The kind of the value of an expression, where it is kept: an array became a pointer (C11 6.3.2.1p3).
pub fn value_kind(text: &TypedText, expr: &Expr) -> Option<Kind>
    ensures { (n : Numbering) (p : Program) → StandsFor n text.now p → result ≡ kept (value_kind (text_of p) expr.now) }
{
    match text.kind(expr.number) {
        None => None,
        Some(kind) => Some(decayed(kind)),
    }
}

/// How many bytes a struct has.
pub(crate) fn struct_bytes(kind: &Kind) -> Option<u64>
    ensures { result ≡ struct_bytes kind.now }
{
    match kind {
        Kind::Struct(bytes) => Some(*bytes),
        _ => None,
    }
}
