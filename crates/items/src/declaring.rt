ghost use Rattle.std.specs.Prelude.{◌≡◌, length, OnOk};
ghost use Rattle.cbase.specs.declared.abi.Abi.{Abi};
ghost use Rattle.cbase.specs.declared.tree.decl.Storage.TheVariants.{Extern};
ghost use Rattle.cbase.specs.declared.tree.expr.ExprForm.TheViews.{out-Declared};
ghost use Rattle.typing.specs.environment.Bounds.{DeclaredBelow};
ghost use Rattle.expressions.specs.Context.{Agrees, declared};
ghost use Rattle.expressions.specs.FileScope.{definition_at, file_scope};
ghost use Rattle.expressions.specs.Language.{language};
ghost use Rattle.expressions.specs.Numbers.{Numbering, declared_type_at};
ghost use Rattle.typing.specs.Declarations.{given, name_declared};
ghost use Rattle.typing.specs.FileNames.{with_definition};
ghost use Rattle.typing.specs.FileScope.{FileScope};
ghost use Rattle.items.specs.Objects.{OnlyNames};

use crate::declarations::declare_name;
use crate::definitions::with_definition;
use crate::object::Object;
use cbase::{Declared, NoMemory, Storage};
use expressions::Context;
use std::alloc::Global;

/// Declares an object by its name (C11 6.2.2), of which the text has from here on what it had before and what its declaration adds.
///
/// Want of memory is the only error, and nothing is said of the context then.
pub(crate) fn declare(
    alloc: Global,
    context: &mut Context,
    name: &Declared,
    object: Object,
) -> Result<(), NoMemory>
    requires { DeclaredBelow (length context.old.types) object.ctype }
    ensures names { OnOk result (OnlyNames context.old context.new) }
    ensures declares { (n : Numbering) (abi : Abi) → Agrees n context.old → OnOk result (declared context.new ≡ (file_scope abi n).definition_set (out-Declared name.now).name (with_definition (definition_at object.before) (definition_at object.adds)) (name_declared (language abi n) (out-Declared name.now).name (out-Declared name.now).place.at (given Extern (declared_type_at n object.ctype)) (declared context.old))) }
{
    let text = name.name.as_slice();
    let token = name.place.at;
    declare_name(alloc, context, text, token, Storage::Extern, object.ctype)?;
    context.set_definition(text, with_definition(object.before, object.adds));
    Ok(())
}
