ghost use Rattle.std.specs.Prelude.{◌≡◌, ◌≤◌, Ok, Some, length, IfOk};
ghost use Rattle.std.specs.List.{All};
ghost use Rattle.ctokens.specs.InText.{LieInText, most_bytes};
ghost use Rattle.ctokens.specs.ItemRows.{item_rows};
ghost use Rattle.ctokens.specs.Items.{IsInside, IsItems};
ghost use Rattle.ctokens.specs.Need.{IsNeed};
ghost use Rattle.ctokens.specs.TokenList.{AreNumbered, AreTokens, HasNamedFiles};
ghost use Rattle.replay.specs.Told.{AreNeeded, IsJudged, answer_of};

use cbase::{List, NoMemory, Text};
use ccheck::{Checked, Refusal, TypedProgram, check};
use command_line::ReplayCommand;
use ctokens::{Deep, ItemSpan, Lexical, Tokens, items, needed, tokens_of_bytes};
use items::languages::leads_back;
use report::{ReplayAnswer, Why};
use std::alloc::Global;

/// An answer with the names of the files to which its places refer.
#[derive(Drop)]
pub(crate) struct Answered {
    /// The answer.
    pub answer: ReplayAnswer,
    /// The names of the text's files, which places give by number: of the whole text, or up to the first place without a
    /// token; none where no text was read to its end.
    pub names: List<Text>,
}

/// What FILE is found to hold.
#[derive(Drop)]
pub(crate) enum JudgedFile {
    /// A program in which each item passes, with the tokens of its text.
    Holds(Tokens, TypedProgram),
    /// None.
    Refused(Answered),
}

/// The items of a text and the numbers of those that main needs.
#[derive(Drop)]
pub(crate) enum Needed {
    /// The items, and the numbers in order.
    Items(List<ItemSpan>, List<u32>),
    /// There are none.
    None(Why),
}

/// What the bytes of a whole FILE hold: its tokens with the program, or why they hold none.
///
/// It is refused where there is a place without a token, a bracket at depth 257 or no main, the first of these; and else where an item that main needs is
/// refused, for the first of them.
#[tactic(auto, using(crate::proofs::Told::lexical_told))]
pub(crate) fn judge(
    alloc: Global,
    command: &ReplayCommand,
    text: &[u8],
) -> Result<JudgedFile, NoMemory>
    requires { length text.now ≤ most_bytes }
    ensures { IfOk result (IsJudged command.now text.now) }
{
    match tokens_of_bytes(alloc, text, command.file.as_slice())? {
        Err(lexical) => Ok(JudgedFile::Refused(without_token(lexical))),
        Ok(t) => with_tokens(alloc, command, t),
    }
}

/// The answer where no token begins at a place.
fn without_token(lexical: Lexical) -> Answered
    ensures { result ≡ record { answer = ReplayAnswer.NotRead (Why.Lexical lexical.place); names = lexical.names } }
{
    let Lexical { place, names } = lexical;
    Answered {
        answer: ReplayAnswer::NotRead {
            why: Why::Lexical { place },
        },
        names,
    }
}

/// What a text with these tokens holds.
fn with_tokens(alloc: Global, command: &ReplayCommand, t: Tokens) -> Result<JudgedFile, NoMemory>
    requires text { LieInText t }
    requires numbered { AreNumbered t.list }
    requires named { HasNamedFiles t }
    requires short { length t.text ≤ most_bytes }
    requires tokens { AreTokens command.now.file t.text t }
    ensures { IfOk result (IsJudged command.now t.text) }
{
    match needed_items(alloc, &t)? {
        Needed::Items(items, numbers) => with_items(alloc, command, t, &items, numbers.as_slice()),
        Needed::None(why) => Ok(JudgedFile::Refused(with_names(ReplayAnswer::NotRead { why }, t))),
    }
}

/// What a text holds where main needs the items with these numbers: they are read and checked in order.
fn with_items(
    alloc: Global,
    command: &ReplayCommand,
    t: Tokens,
    items: &List<ItemSpan>,
    numbers: &[u32],
) -> Result<JudgedFile, NoMemory>
    requires text { LieInText t }
    requires numbered { AreNumbered t.list }
    requires named { HasNamedFiles t }
    requires short { length t.text ≤ most_bytes }
    requires tokens { AreTokens command.now.file t.text t }
    requires spans { IsItems t (Ok items.now) }
    requires inside { All (IsInside (length t.list)) items.now }
    requires needed { IsNeed (item_rows t items.now) (Some numbers.now) }
    ensures { IfOk result (IsJudged command.now t.text) }
{
    match check(alloc, &t, items, numbers, command.model, command.strict)? {
        Checked::Refused(refusal) => { Ok(JudgedFile::Refused(with_names(answer_of(refusal), t))) }
        Checked::Typed(program) => {
            leads_back(&program.context);
            Ok(JudgedFile::Holds(t, program))
        }
    }
}

/// An answer with the names of the files of a text.
pub(crate) fn with_names(answer: ReplayAnswer, t: Tokens) -> Answered
    ensures { result ≡ record { answer = answer; names = t.names } }
{
    let Tokens {
        text: _,
        list: _,
        names,
        packs: _,
    } = t;
    Answered { answer, names }
}

/// The items of a text and the numbers of those that main needs.
#[tactic(auto, using(crate::proofs::Told::deep_told, crate::proofs::Told::no_main_told))]
fn needed_items(alloc: Global, t: &Tokens) -> Result<Needed, NoMemory>
    requires text { LieInText t.now }
    requires named { HasNamedFiles t.now }
    ensures { IfOk result (AreNeeded t.now) }
{
    match items(alloc, t)? {
        Err(Deep { place }) => Ok(Needed::None(Why::Deep { place })),
        Ok(items) => match needed(alloc, t, &items)? {
            None => Ok(Needed::None(Why::NoMain)),
            Some(numbers) => Ok(Needed::Items(items, numbers)),
        },
    }
}

/// The answer where an item that main needs is refused so.
fn answer_of(refusal: Refusal) -> ReplayAnswer
    ensures { result ≡ answer_of refusal }
{
    match refusal {
        Refusal::Construct { number, place } => ReplayAnswer::Construct { number, place },
        Refusal::Syntax { place } => ReplayAnswer::NotRead {
            why: Why::Syntax { place },
        },
        Refusal::Rule { number, place } => ReplayAnswer::NotRead {
            why: Why::Rule { number, place },
        },
    }
}
