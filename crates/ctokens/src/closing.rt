ghost use Rattle.std.specs.Prelude.{◌≡◌, ◌≤◌, false, length, IfSome};
ghost use Rattle.ctokens.specs.Lengths.{move, closing_length};

/// What a row of bytes up to a closing mark is.
#[derive(Clone, Copy)]
pub(crate) enum Closing {
    /// The bytes of a string literal behind its first quote.
    Quote,
    /// The bytes of a comment behind its `/*`.
    Comment,
}

/// How a byte goes on with such a row.
#[derive(Clone, Copy)]
pub(crate) enum Move {
    /// The row goes on. What is kept of the byte says how the next one is read.
    Goes(bool),
    /// The row ends with this byte.
    Closes,
    /// No such row has this byte here.
    Breaks,
}

/// How many bytes of the text the row takes, its closing mark with it, or `None` where it has none.
pub(crate) fn closing_length(closing: Closing, text: &[u8]) -> Option<usize>
    ensures count { result ≡ closing_length closing false text.now }
    ensures inside { IfSome result (λ count. count ≤ length text.now) }
{
    let mut kept = false;
    for (index, byte) in text.iter().enumerate() {
        match moved(closing, kept, *byte) {
            Move::Goes(more) => kept = more,
            Move::Closes => return Some(index + 1),
            Move::Breaks => return None,
        }
    }
    None
}

/// How a byte goes on with the row, behind bytes of which `kept` is kept.
fn moved(closing: Closing, kept: bool, byte: u8) -> Move
    ensures { result ≡ move closing kept byte }
{
    match closing {
        Closing::Quote => {
            if kept {
                return Move::Goes(false);
            }
            if byte == b'"' {
                return Move::Closes;
            }
            if byte == b'\n' {
                return Move::Breaks;
            }
            Move::Goes(byte == b'\\')
        }
        Closing::Comment => {
            if kept && byte == b'/' {
                return Move::Closes;
            }
            Move::Goes(byte == b'*')
        }
    }
}
