ghost use Rattle.std.specs.Prelude.{◌≡◌};
ghost use Rattle.report.specs.Kind.{kind_text};

/// The printed text of a kind of fault, without its number. Kinds are from 1 to 9.
#[tactic(auto, using(crate::proofs::KindTexts::late_kind))]
pub(crate) fn text_of_kind(kind: u8) -> &'static [u8]
    ensures { result.now ≡ kind_text kind }
{
    match kind {
        0 => b"",
        1 => b"null pointer dereference",
        2 => b"access outside object",
        3 => b"access to dead object",
        4 => b"access through invalid address",
        5 => b"double free",
        6 => b"invalid free",
        7 => b"memory lost",
        8 => b"overlapping copy",
        9 => b"block never freed",
        _ => b"block never freed",
    }
}
