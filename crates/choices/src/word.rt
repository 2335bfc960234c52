ghost use Rattle.std.specs.Prelude.{◌≡◌};
ghost use Rattle.choices.specs.Reading.{letters};

/// A word that a line begins with.
#[derive(Clone, Copy)]
pub(crate) enum Word {
    /// `none`
    None,
    /// `input`
    Input,
    /// `block`
    Block,
}

/// The bytes of a word with the one that follows it.
pub(crate) fn letters(word: Word) -> &'static [u8]
    ensures { result.now ≡ letters word }
{
    match word {
        Word::None => b"none\n",
        Word::Input => b"input ",
        Word::Block => b"block ",
    }
}
