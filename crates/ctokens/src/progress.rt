ghost use Rattle.std.specs.Prelude.{◌≡◌, ◌+◌, ◌≤◌, ◌<◌, ◌^◌, not, length, IfOk};
ghost use Rattle.ctokens.specs.InText.{most_bytes};
ghost use Rattle.ctokens.specs.Gathered.{next_spot, spot_behind, is_among, with_name, moved, gathered, at_start};
ghost use Rattle.std.specs.List.{list_all};
ghost use Rattle.ctokens.specs.Bytes.{is_inside_line};
ghost use Rattle.ctokens.specs.Room.{HasRoom};
ghost use Rattle.ctokens.specs.Pieces.{still_blank_behind};
ghost use Rattle.ctokens.specs.declared.piece.PieceKind.TheVariants.{Pack, Marker, Lexeme};

use crate::known_names::{KnownNames, Numbered};
use crate::piece::PieceKind;
use crate::token::{Token, TokenKind};
use cbase::{List, NoMemory, Place, Text};
use std::alloc::Global;

/// Where a byte of the text stands, as line markers count.
#[derive(Clone, Copy)]
pub(crate) struct Spot {
    /// The number of its file's name.
    pub(crate) file: u32,
    /// Its line.
    pub(crate) line: u32,
    /// Its column, in bytes from 1.
    pub(crate) column: u32,
}

/// What the pieces of a text give, up to a place of it.
#[derive(Drop)]
pub(crate) struct Progress {
    /// How many bytes they take.
    pub(crate) from: u32,
    /// Where the byte behind them stands.
    pub(crate) spot: Spot,
    /// Their tokens.
    pub(crate) list: List<Token>,
    /// The names of files up to there, each once.
    pub(crate) names: List<Text>,
    /// For each `#pragma pack` line the number of tokens before it.
    pub(crate) packs: List<u32>,
}

/// Before the first byte of a text in this file.
pub(crate) fn at_start(alloc: Global, file: &[u8]) -> Result<Progress, NoMemory>
    ensures { IfOk result (λ progress. progress ≡ at_start file.now) }
{
    let mut names = List::new(alloc);
    names.push(Text::from_slice(alloc, file)?)?;
    Ok(Progress {
        from: 0,
        spot: Spot {
            file: 0,
            line: 1,
            column: 1,
        },
        list: List::new(alloc),
        names,
        packs: List::new(alloc),
    })
}

/// What one more piece with these bytes gives. `known` has the names of files so far, to find them.
pub(crate) fn gathered(
    alloc: Global,
    progress: Progress,
    known: &mut KnownNames,
    kind: PieceKind,
    bytes: &[u8],
) -> Result<Progress, NoMemory>
    requires room { HasRoom progress }
    requires inside { progress.from + length bytes.now ≤ most_bytes }
    requires known { known.old ≡ progress.names }
    ensures more { IfOk result (λ more. more ≡ gathered kind bytes.now progress) }
    ensures known { IfOk result (λ more. known.new ≡ more.names) }
{
    match kind {
        PieceKind::Blank | PieceKind::Comment | PieceKind::PassedOver => Ok(moved(progress, bytes)),
        PieceKind::Pack => with_pack(progress, bytes),
        PieceKind::Marker { number, name } => with_marker(
            alloc, progress, known, bytes, number, name,
        ),
        PieceKind::Lexeme(kind) => with_lexeme(progress, bytes, kind),
    }
}

/// Past some bytes.
fn moved(progress: Progress, bytes: &[u8]) -> Progress
    requires room { HasRoom progress }
    requires inside { progress.from + length bytes.now ≤ most_bytes }
    ensures { result ≡ moved bytes.now progress }
{
    let Progress {
        from,
        spot,
        list,
        names,
        packs,
    } = progress;
    Progress {
        from: from + bytes.len() as u32,
        spot: spot_behind(spot, bytes),
        list,
        names,
        packs,
    }
}

/// Past a `#pragma pack` line.
fn with_pack(progress: Progress, bytes: &[u8]) -> Result<Progress, NoMemory>
    requires room { HasRoom progress }
    requires inside { progress.from + length bytes.now ≤ most_bytes }
    ensures { IfOk result (λ more. more ≡ gathered Pack bytes.now progress) }
{
    let Progress {
        from,
        spot,
        list,
        names,
        mut packs,
    } = progress;
    packs.push(list.len() as u32)?;
    Ok(Progress {
        from: from + bytes.len() as u32,
        spot: spot_behind(spot, bytes),
        list,
        names,
        packs,
    })
}

/// Past a token.
fn with_lexeme(progress: Progress, bytes: &[u8], kind: TokenKind) -> Result<Progress, NoMemory>
    requires room { HasRoom progress }
    requires inside { progress.from + length bytes.now ≤ most_bytes }
    ensures { IfOk result (λ more. more ≡ gathered (Lexeme kind) bytes.now progress) }
{
    let Progress {
        from,
        spot,
        mut list,
        names,
        packs,
    } = progress;
    let to = from + bytes.len() as u32;
    let place = Place {
        file: spot.file,
        line: spot.line,
        column: spot.column,
        at: list.len() as u32,
    };
    list.push(Token {
        kind,
        from,
        to,
        place,
    })?;
    Ok(Progress {
        from: to,
        spot: spot_behind(spot, bytes),
        list,
        names,
        packs,
    })
}

/// Past a line marker.
fn with_marker(
    alloc: Global,
    progress: Progress,
    known: &mut KnownNames,
    bytes: &[u8],
    number: u32,
    name: Text,
) -> Result<Progress, NoMemory>
    requires room { HasRoom progress }
    requires inside { progress.from + length bytes.now ≤ most_bytes }
    requires known { known.old ≡ progress.names }
    ensures known { IfOk result (λ more. known.new ≡ more.names) }
    ensures more { IfOk result (λ more. more ≡ gathered (Marker number name) bytes.now progress) }
{
    let Progress {
        from,
        spot: _,
        list,
        names,
        packs,
    } = progress;
    let Numbered { file, is_new } = known.numbered(alloc, name.as_slice())?;
    let names = with_name(name, names, is_new)?;
    Ok(Progress {
        from: from + bytes.len() as u32,
        spot: Spot {
            file: file as u32,
            line: number,
            column: 1,
        },
        list,
        names,
        packs,
    })
}

/// The names with one more, if it is new.
fn with_name(name: Text, mut names: List<Text>, is_new: bool) -> Result<List<Text>, NoMemory>
    requires { is_new ≡ not (is_among name names) }
    ensures { IfOk result (λ more. more ≡ with_name name names) }
{
    if is_new {
        names.push(name)?;
    }
    Ok(names)
}

/// Where the byte behind some bytes stands.
#[tactic(auto, using(crate::proofs::Spots::moved_on, crate::proofs::Spots::moved_all))]
fn spot_behind(spot: Spot, bytes: &[u8]) -> Spot
    requires line { spot.line + length bytes.now < 2 ^ 32 }
    requires column { spot.column + length bytes.now < 2 ^ 32 }
    ensures { result ≡ spot_behind spot bytes.now }
{
    let mut next = spot;
    for byte in bytes {
        next = next_spot(next, *byte);
    }
    next
}

/// Where the byte behind this one stands.
fn next_spot(spot: Spot, byte: u8) -> Spot
    requires line { spot.line + 1 < 2 ^ 32 }
    requires column { spot.column + 1 < 2 ^ 32 }
    ensures { result ≡ next_spot spot byte }
{
    if byte == b'\n' {
        return Spot {
            file: spot.file,
            line: spot.line + 1,
            column: 1,
        };
    }
    Spot {
        file: spot.file,
        line: spot.line,
        column: spot.column + 1,
    }
}

/// Whether on the line behind a piece with these bytes only blanks and comments stand so far.
pub(crate) fn still_blank_behind(kind: &PieceKind, still_blank: bool, bytes: &[u8]) -> bool
    ensures { result ≡ still_blank_behind kind.now still_blank bytes.now }
{
    match kind {
        PieceKind::Blank | PieceKind::Comment => still_blank || !is_inside_line(bytes),
        PieceKind::PassedOver | PieceKind::Pack | PieceKind::Marker { .. } => true,
        PieceKind::Lexeme(_) => false,
    }
}

/// Whether no newline is among the bytes.
fn is_inside_line(bytes: &[u8]) -> bool
    ensures { result ≡ list_all is_inside_line bytes.now }
{
    bytes.iter().all(|byte| *byte != b'\n')
}
