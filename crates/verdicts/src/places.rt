ghost use Rattle.std.specs.Prelude.{◌≡◌, ◌<◌, length};
ghost use Rattle.ctokens.specs.TokenList.{HasNamedFiles};
ghost use Rattle.ccheck.specs.Refusals.{place_at};

use cbase::Place;
use ctokens::Tokens;

/// The place of the token before which so many stand; past the last one that of none.
#[tactic(auto, using(crate::proofs::PlacesNamed::place_named))]
pub fn place_at(t: &Tokens, number: u32) -> Place
    requires { HasNamedFiles t.now }
    ensures is { result ≡ place_at t.now number }
    ensures named { result.file < length t.now.names }
{
    match t.list.as_slice().get(number as usize) {
        Some(token) => token.place,
        None => Place::NONE,
    }
}
