ghost use Rattle.std.specs.Prelude.{◌≡◌};
ghost use Rattle.expressions.specs.FileScope.{definition_at};
ghost use Rattle.typing.specs.FileNames.{definition_by, is_declared_only, is_defined, is_listed, is_twice, with_definition};

use cbase::Storage;
use typing::environment::Definition;

/// What a declaration of an object outside of functions adds: one with an initialiser defines it, and one without does so tentatively, but for `extern`
/// (C11 6.9.2p1, p2).
pub(crate) fn definition_by(storage: Storage, initialised: bool) -> Definition
    ensures { definition_at result ≡ definition_by storage initialised }
{
    if initialised {
        return Definition::Defined;
    }
    match storage {
        Storage::Plain => Definition::Tentative,
        Storage::Static => Definition::Tentative,
        Storage::Extern => Definition::NotDefined,
        Storage::Typedef => Definition::NotDefined,
    }
}

/// What a text has for a name behind a declaration that adds so much.
pub(crate) fn with_definition(before: Definition, adds: Definition) -> Definition
    ensures { definition_at result ≡ with_definition (definition_at before) (definition_at adds) }
{
    match before {
        Definition::NotDefined => adds,
        Definition::Tentative => match adds {
            Definition::NotDefined => Definition::Tentative,
            Definition::Tentative => Definition::Tentative,
            Definition::Defined => Definition::Defined,
        },
        Definition::Defined => Definition::Defined,
    }
}

/// Whether a declaration that adds so much defines it a second time (C11 6.9p5).
pub(crate) fn is_twice(before: Definition, adds: Definition) -> bool
    ensures { result ≡ is_twice (definition_at before) (definition_at adds) }
{
    is_defined(before) && is_defined(adds)
}

/// Whether it is the first that defines it, tentatively or not.
pub(crate) fn is_listed(before: Definition, adds: Definition) -> bool
    ensures { result ≡ is_listed (definition_at before) (definition_at adds) }
{
    is_declared_only(before) && !is_declared_only(adds)
}

/// Whether it is a body or an initialiser.
fn is_defined(definition: Definition) -> bool
    ensures { result ≡ is_defined (definition_at definition) }
{
    match definition {
        Definition::NotDefined => false,
        Definition::Tentative => false,
        Definition::Defined => true,
    }
}

/// Whether it is no definition, also no tentative one.
fn is_declared_only(definition: Definition) -> bool
    ensures { result ≡ is_declared_only (definition_at definition) }
{
    match definition {
        Definition::NotDefined => true,
        Definition::Tentative => false,
        Definition::Defined => false,
    }
}
