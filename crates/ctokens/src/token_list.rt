ghost use Rattle.std.specs.Prelude.{◌≡◌, ◌≤◌, ◌<◌, length, IfOk, IfErr};
ghost use Rattle.ctokens.specs.InText.{most_bytes};
ghost use Rattle.ctokens.specs.Gathered.{place_of};
ghost use Rattle.ctokens.specs.Room.{HasRoom};
ghost use Rattle.ctokens.specs.TokenList.{AreTokens, HasNamedFiles, IsLexical, AreOfText};

use crate::known_names::KnownNames;
use crate::piece::Piece;
use crate::piece_at::piece_at;
use crate::progress::{Progress, at_start, gathered, still_blank_behind};
use crate::token::{Lexical, Tokens};
use cbase::{NoMemory, Place, Text};
use std::alloc::Global;

/// The tokens of a text, the names of its files and its `#pragma pack` lines; or the first place at which no
/// token, blank, comment or known directive line begins.
///
/// `file` is the name of the file in which the text begins. Comments and blanks are passed over, and each token
/// is the longest that begins at its place (C11 6.4). It reads each byte a few times, whatever the text; no clause
/// says so, `bench/read.py` measures it.
pub fn tokens(alloc: Global, text: &[u8], file: &str) -> Result<Result<Tokens, Lexical>, NoMemory>
    requires { length text.now ≤ most_bytes }
    ensures tokens { IfOk result (λ answer. IfOk answer (λ tokens. AreTokens file.now text.now tokens)) }
    ensures of_text { IfOk result (λ answer. IfOk answer (λ tokens. AreOfText text.now tokens.list)) }
    ensures named { IfOk result (λ answer. IfOk answer HasNamedFiles) }
    ensures lexical { IfOk result (λ answer. IfErr answer (λ lexical. IsLexical file.now text.now lexical)) }
    ensures lexical_named { IfOk result (λ answer. IfErr answer (λ lexical. lexical.place.file < length lexical.names)) }
{
    tokens_of_bytes(alloc, text, file.as_bytes())
}

/// The tokens of a text, the names of its files and its `#pragma pack` lines; or the first place at which no
/// token, blank, comment or known directive line begins.
///
/// `file` is the name of the file in which the text begins, any bytes. All else is as `tokens` says.
#[tactic(auto, using(crate::proofs::NamedFiles::tokens_named, crate::proofs::NamedFiles::lexical_named))]
pub fn tokens_of_bytes(
    alloc: Global,
    text: &[u8],
    file: &[u8],
) -> Result<Result<Tokens, Lexical>, NoMemory>
    requires { length text.now ≤ most_bytes }
    ensures tokens { IfOk result (λ answer. IfOk answer (λ tokens. AreTokens file.now text.now tokens)) }
    ensures of_text { IfOk result (λ answer. IfOk answer (λ tokens. AreOfText text.now tokens.list)) }
    ensures named { IfOk result (λ answer. IfOk answer HasNamedFiles) }
    ensures lexical { IfOk result (λ answer. IfErr answer (λ lexical. IsLexical file.now text.now lexical)) }
    ensures lexical_named { IfOk result (λ answer. IfErr answer (λ lexical. lexical.place.file < length lexical.names)) }
{
    match read(alloc, text, file)? {
        Ok(tokens) => Ok(Ok(tokens)),
        Err(lexical) => Ok(Err(lexical)),
    }
}

/// The pieces of the text are read one by one, and what they give is gathered.
#[tactic(auto, using(crate::proofs::Reading::reached_start, crate::proofs::Reading::reached_next, crate::proofs::Reading::tokens_at_end, crate::proofs::Reading::lexical_where_none))]
fn read(alloc: Global, text: &[u8], file: &[u8]) -> Result<Result<Tokens, Lexical>, NoMemory>
    requires { length text.now ≤ most_bytes }
    ensures tokens { IfOk result (λ answer. IfOk answer (λ tokens. AreTokens file.now text.now tokens)) }
    ensures of_text { IfOk result (λ answer. IfOk answer (λ tokens. AreOfText text.now tokens.list)) }
    ensures lexical { IfOk result (λ answer. IfErr answer (λ lexical. IsLexical file.now text.now lexical)) }
{
    let mut known = KnownNames::new(alloc);
    let _ = known.numbered(alloc, file)?;
    let mut progress = at_start(alloc, file)?;
    let mut still_blank = true;
    let mut rest = text;
    'pieces: loop {
        if rest.is_empty() {
            return Ok(Ok(finished(progress, Text::from_slice(alloc, text)?)));
        }
        match piece_at(alloc, still_blank, rest)? {
            None => return Ok(Err(stopped(progress))),
            Some(Piece { kind, taken }) => {
                let (bytes, behind) = rest.split_at(taken);
                still_blank = still_blank_behind(&kind, still_blank, bytes);
                progress = gathered(alloc, progress, &mut known, kind, bytes)?;
                rest = behind;
            }
        }
    }
}

/// What the whole text gave.
fn finished(progress: Progress, text: Text) -> Tokens
    ensures text { result.text ≡ text }
    ensures list { result.list ≡ progress.list }
    ensures names { result.names ≡ progress.names }
    ensures packs { result.packs ≡ progress.packs }
{
    let Progress {
        from: _,
        spot: _,
        list,
        names,
        packs,
    } = progress;
    Tokens {
        text,
        list,
        names,
        packs,
    }
}

/// The place behind what the text gave.
fn stopped(progress: Progress) -> Lexical
    requires { HasRoom progress }
    ensures place { result.place ≡ place_of progress }
    ensures names { result.names ≡ progress.names }
{
    let Progress {
        from: _,
        spot,
        list,
        names,
        packs: _,
    } = progress;
    let place = Place {
        file: spot.file,
        line: spot.line,
        column: spot.column,
        at: list.len() as u32,
    };
    Lexical { place, names }
}
