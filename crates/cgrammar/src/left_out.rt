ghost use Rattle.std.specs.Prelude.{◌≡◌};
ghost use Rattle.cgrammar.specs.Terminals.{is_left_out};

use crate::texts::is_one_of;

/// Words of GNU C that are no identifiers and that no rule speaks of.
const LEFT_OUT: [&'static str; 4] = ["__float128", "__int128", "__complex__", "__thread"];

/// Whether a word names a type or an object in a way of GNU C that no rule speaks of.
pub fn is_left_out(word: &[u8]) -> bool
    ensures { result ≡ is_left_out word.now }
{
    if word.starts_with(b"_Float") {
        return true;
    }
    is_one_of(LEFT_OUT.as_slice(), word)
}
