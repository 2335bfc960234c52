ghost use Rattle.std.specs.Prelude.{◌≡◌};
ghost use Rattle.cgrammar.specs.TypeWords.{declares_typedef};

use cbase::Storage;

/// Whether a declaration with that storage word declares typedefs (C11 6.7.1, 6.7.8).
pub fn declares_typedef(storage: Storage) -> bool
    ensures { result ≡ declares_typedef storage }
{
    match storage {
        Storage::Typedef => true,
        Storage::Plain | Storage::Extern | Storage::Static => false,
    }
}
