//! The piece that a text begins with.

ghost use Rattle.std.specs.Prelude.{◌≡◌, min, IfOk, IfSome, IfNone};
ghost use Rattle.ctokens.specs.Pieces.{BeginsWith, BeginsNot, begins_line_comment, begins_block_comment};
ghost use Rattle.ctokens.specs.PieceAt.{piece_of, lexeme_at, comment_at, directive_at, piece_at};
ghost use Rattle.ctokens.specs.declared.piece.PieceKind.TheVariants.{Marker};

use crate::blanks::behind;
use crate::byte::{Class, is_blank, leading};
use crate::closing::{Closing, closing_length};
use crate::directive::{is_pack, is_passed_over};
use crate::length::{kind_at, token_length};
use crate::marker::{FoundMarker, marker_at};
use crate::piece::{Piece, PieceKind};
use cbase::NoMemory;
use std::alloc::Global;

/// The piece that the text begins with, or `None` where none begins.
///
/// `still_blank` says that on its line only blanks and comments stand before the text. It reads the piece and a
/// few bytes behind it.
#[tactic(auto, using(crate::proofs::PieceExact::begins_where_found, crate::proofs::PieceExact::none_begins))]
pub(crate) fn piece_at(
    alloc: Global,
    still_blank: bool,
    text: &[u8],
) -> Result<Option<Piece>, NoMemory>
    ensures some { IfOk result (λ found. IfSome found (λ piece. BeginsWith still_blank text.now piece)) }
    ensures none { IfOk result (λ found. IfNone found (BeginsNot still_blank text.now)) }
{
    found_at(alloc, still_blank, text)
}

/// The piece at the front of the text, chosen by its first bytes.
#[tactic(auto, unfolding(crate::specs::PieceAt::piece_at))]
fn found_at(alloc: Global, still_blank: bool, text: &[u8]) -> Result<Option<Piece>, NoMemory>
    ensures { IfOk result (λ found. found ≡ piece_at still_blank text.now) }
{
    let [first, ..] = text else { return Ok(None) };
    if is_blank(*first) {
        return Ok(Some(Piece {
            kind: PieceKind::Blank,
            taken: 1,
        }));
    }
    if *first == b'#' {
        if still_blank {
            return directive_at(alloc, text);
        }
        return Ok(None);
    }
    if begins_line_comment(text) || begins_block_comment(text) {
        return Ok(comment_at(text));
    }
    Ok(lexeme_at(text))
}

/// Whether the text begins with `//`.
fn begins_line_comment(text: &[u8]) -> bool
    ensures { result ≡ begins_line_comment text.now }
{
    text.starts_with(b"//")
}

/// Whether the text begins with `/*`.
fn begins_block_comment(text: &[u8]) -> bool
    ensures { result ≡ begins_block_comment text.now }
{
    text.starts_with(b"/*")
}

/// The longest token at the front of the text.
#[tactic(auto, unfolding(crate::specs::PieceAt::lexeme_at))]
fn lexeme_at(text: &[u8]) -> Option<Piece>
    ensures { result ≡ lexeme_at text.now }
{
    let kind = kind_at(text);
    let taken = token_length(kind, text);
    if taken == 0 {
        return None;
    }
    Some(Piece {
        kind: PieceKind::Lexeme(kind),
        taken,
    })
}

/// The comment at the front of a text that begins with `//` or `/*`.
#[tactic(auto, unfolding(crate::specs::PieceAt::comment_at))]
fn comment_at(text: &[u8]) -> Option<Piece>
    ensures { result ≡ comment_at text.now }
{
    if begins_line_comment(text) {
        return Some(Piece {
            kind: PieceKind::Comment,
            taken: leading(Class::Line, text),
        });
    }
    match closing_length(Closing::Comment, behind(2, text)) {
        None => None,
        Some(more) => Some(Piece {
            kind: PieceKind::Comment,
            taken: 2 + more,
        }),
    }
}

/// The directive line at the front of a text that begins with `#`, its newline with it.
#[tactic(auto, unfolding(crate::specs::PieceAt::directive_at))]
fn directive_at(alloc: Global, text: &[u8]) -> Result<Option<Piece>, NoMemory>
    ensures { IfOk result (λ piece. piece ≡ directive_at text.now) }
{
    let count = leading(Class::Line, text);
    let line = text.split_at(count).0;
    let taken = text.len().min(count + 1);
    if is_pack(line) {
        return Ok(Some(Piece {
            kind: PieceKind::Pack,
            taken,
        }));
    }
    if is_passed_over(line) {
        return Ok(Some(Piece {
            kind: PieceKind::PassedOver,
            taken,
        }));
    }
    match marker_at(alloc, line)? {
        None => Ok(None),
        Some(found) => Ok(Some(marker_piece(found, taken))),
    }
}

/// A line marker that takes so many bytes.
fn marker_piece(found: FoundMarker, taken: usize) -> Piece
    ensures { result ≡ piece_of (Marker found.number found.name) taken }
{
    let FoundMarker { number, name } = found;
    Piece {
        kind: PieceKind::Marker { number, name },
        taken,
    }
}
