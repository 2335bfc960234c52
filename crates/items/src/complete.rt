ghost use Rattle.std.specs.Prelude.{◌≡◌, length};
ghost use Rattle.typing.specs.environment.Bounds.{DeclaredBelow};
ghost use Rattle.expressions.specs.Context.{Agrees};
ghost use Rattle.expressions.specs.FileScope.{definition_at};
ghost use Rattle.expressions.specs.Numbers.{Numbering, declared_type_at};
ghost use Rattle.typing.specs.FileNames.{is_complete_by};

use crate::declarations::is_complete;
use cbase::Storage;
use expressions::Context;
use typing::environment::{DeclaredType, Definition};

/// Whether an object outside of functions is complete: one that its declaration defines, once its initialiser stands (C11 6.9.2p3, 6.7.9p22); one that it
/// does not define is no `void` (6.7p7).
pub(crate) fn is_complete_by(context: &Context, adds: Definition, ctype: DeclaredType) -> bool
    requires { DeclaredBelow (length context.now.types) ctype }
    ensures { (n : Numbering) → Agrees n context.now → result ≡ is_complete_by context.now.structs (definition_at adds) (declared_type_at n ctype) }
{
    match adds {
        Definition::NotDefined => is_complete(context, false, Storage::Extern, ctype),
        Definition::Tentative => is_complete(context, false, Storage::Static, ctype),
        Definition::Defined => is_complete(context, true, Storage::Static, ctype),
    }
}
