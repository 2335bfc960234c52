ghost use Rattle.std.specs.Prelude.{◌≡◌};
ghost use Rattle.typing.specs.environment.Linkage.{has_linkage};

use cbase::Storage;

/// Where a declaration stands (C11 6.2.1p4).
#[derive(Clone, Copy)]
pub enum Standing {
    /// Outside of functions.
    File,
    /// In a block or a list of parameters.
    Block,
}

/// What a declaration declares, where it is no typedef.
#[derive(Clone, Copy)]
pub enum Kind {
    /// An object.
    Object,
    /// A function.
    Function,
}

/// Whether a declaration gives its name linkage (C11 6.2.2p3-6).
pub fn has_linkage(standing: Standing, storage: Storage, kind: Kind) -> bool
    ensures { result ≡ has_linkage standing storage kind }
{
    match storage {
        Storage::Typedef => false,
        Storage::Extern => true,
        Storage::Plain | Storage::Static => match (standing, kind) {
            (Standing::Block, Kind::Object) => false,
            _ => true,
        },
    }
}
