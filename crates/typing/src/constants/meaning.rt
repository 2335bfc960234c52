ghost use Rattle.std.specs.Prelude.{◌≡◌, ◌↔◌};
ghost use Rattle.typing.specs.declared.constants.meaning.Meaning.{Meaning};
ghost use Rattle.typing.specs.constants.Meanings.{Means};
ghost use Rattle.typing.specs.constants.Deciding.{meaning_of};
ghost use Rattle.typing.specs.constants.Sizes.{IsSizedIfKnown};

use crate::constants::integer::integer;
use crate::constants::letter::letter;
use cbase::Abi;

/// An integer type and a value of it.
#[derive(Clone, Copy)]
pub struct Constant {
    /// How many bytes the type has.
    pub bytes: u8,
    /// Whether the type has a sign.
    pub signed: bool,
    /// The value, modulo 2^n where the type has n bits.
    pub bits: u64,
}

/// What bytes mean as a constant.
#[derive(Clone, Copy)]
pub enum Meaning {
    /// They are neither an integer constant nor one character between quotes.
    NoConstant,
    /// They are a constant whose value no type has that C allows it (C11 6.4.4p2, 6.4.4.4p9).
    FitsNoType,
    /// They are a constant of that type and value.
    Known(Constant),
}

/// The type and the value of a constant (C11 6.4.4.1 and 6.4.4.4).
///
/// The bytes are an integer constant, with its suffix, or one character or escape between `'`. Types of the same
/// bytes and sign are one here, as `long` and `long long` where both have 8 bytes.
#[tactic(auto, using(crate::proofs::constants::Exact::meaning_exact, crate::proofs::constants::Sizes::meaning_sized))]
pub fn read_constant(spelling: &[u8], abi: Abi) -> Meaning
    ensures sized { IsSizedIfKnown result }
    ensures exact { (meaning : Meaning) → (result ≡ meaning) ↔ Means abi spelling.now meaning }
{
    read(spelling, abi)
}

/// What bytes mean, by what they begin with.
fn read(spelling: &[u8], abi: Abi) -> Meaning
    ensures { result ≡ meaning_of abi spelling.now }
{
    match spelling {
        [] => Meaning::NoConstant,
        [b'\'', others @ ..] => letter(others, abi),
        _ => integer(spelling, abi),
    }
}
