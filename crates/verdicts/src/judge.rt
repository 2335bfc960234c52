ghost use Rattle.std.specs.Prelude.{◌≡◌, ◌≤◌, Ok, Some, length, IfOk};
ghost use Rattle.std.specs.List.{All};
ghost use Rattle.ctokens.specs.Items.{IsInside, IsItems};
ghost use Rattle.ctokens.specs.Need.{IsNeed};
ghost use Rattle.ctokens.specs.ItemRows.{item_rows};
ghost use Rattle.ctokens.specs.InText.{LieInText, most_bytes};
ghost use Rattle.ctokens.specs.TokenList.{HasNamedFiles, AreNumbered};
ghost use Rattle.report.specs.Report.{HasPrintable};
ghost use Rattle.verdicts.specs.Told.{HoldsTyped, IsTold};
ghost use Rattle.verdicts.specs.Verdict.{IsExact, IsVerdict, Judges, answer_of};
ghost use Rattle.verdicts.specs.Shown.{AreNames};

use crate::found::answer_of_judgement;
use cbase::{Abi, List, NoMemory, Text};
use cbuild::let_go_of_items;
use ccheck::{Checked, Refusal, TypedProgram, check, items_have_one_answer};
use ctokens::{
    Deep, ItemSpan, Lexical, Tokens, items, needed, one_item_list, one_token_list, tokens_of_bytes,
};
use items::languages::leads_back;
use judgement::{judge as judge_program, let_go_of_judgement};
use report::{Answer, Limits, Why};
use std::alloc::Global;

/// An answer with the names of the files to which its places refer.
#[derive(Drop)]
pub struct Judged {
    /// The answer.
    pub answer: Answer,
    /// The names of the text's files, which places give by number: of the whole text, or up to the first place without a
    /// token; none where no text was read to its end.
    pub names: List<Text>,
}

/// The answer to the bytes of a whole file, given the name of the file.
///
/// `NotRead` where there is a place without a token, a bracket at depth 257 or no main, the first of these; `Construct`,
/// or `NotRead` for its syntax or for a rule, where an item that main needs is refused, for the first of them; `NotYet` where the program calls a function that it
/// defines; and else what the analysis of its flow graph comes to within the limits. Where it has no flow graph the answer is want of memory; that each program that
/// passes the check has one is not proved.
#[tactic(auto, using(crate::proofs::OneVerdict::exact_verdict))]
pub fn judge(alloc: Global, limits: &Limits, file: &[u8], text: &[u8]) -> Result<Judged, NoMemory>
    requires short { length text.now ≤ most_bytes }
    requires budget { 1 ≤ limits.now.budget }
    ensures judged { IfOk result (λ judged. Judges limits.now file.now text.now judged.answer) }
    ensures names { IfOk result (λ judged. AreNames file.now text.now judged.answer judged.names) }
    ensures printable { IfOk result (λ judged. HasPrintable judged.names judged.answer) }
    ensures verdict { IfOk result (λ judged. IsVerdict judged.answer) }
    ensures exact { IfOk result (λ judged. IsExact limits.now file.now text.now judged.answer) }
{
    one_token_list();
    one_item_list();
    items_have_one_answer();
    let judged = answer_of_text(alloc, limits, file, text)?;
    Ok(judged)
}

/// The answer to the bytes of a whole file, as one that is true of them.
fn answer_of_text(
    alloc: Global,
    limits: &Limits,
    file: &[u8],
    text: &[u8],
) -> Result<Judged, NoMemory>
    requires short { length text.now ≤ most_bytes }
    requires budget { 1 ≤ limits.now.budget }
    ensures judged { IfOk result (λ judged. Judges limits.now file.now text.now judged.answer) }
    ensures names { IfOk result (λ judged. AreNames file.now text.now judged.answer judged.names) }
    ensures printable { IfOk result (λ judged. HasPrintable judged.names judged.answer) }
    ensures verdict { IfOk result (λ judged. IsVerdict judged.answer) }
{
    match tokens_of_bytes(alloc, text, file)? {
        Err(lexical) => Ok(without_token(lexical)),
        Ok(t) => with_tokens(alloc, limits, t),
    }
}

/// The answer where no token begins at a place.
fn without_token(lexical: Lexical) -> Judged
    ensures answer { result.answer ≡ Answer.NotRead (Why.Lexical lexical.place) }
    ensures names { result.names ≡ lexical.names }
{
    let Lexical { place, names } = lexical;
    Judged {
        answer: Answer::NotRead {
            why: Why::Lexical { place },
        },
        names,
    }
}

/// The answer to a text with these tokens.
fn with_tokens(alloc: Global, limits: &Limits, t: Tokens) -> Result<Judged, NoMemory>
    requires budget { 1 ≤ limits.now.budget }
    requires text { LieInText t }
    requires numbered { AreNumbered t.list }
    requires named { HasNamedFiles t }
    ensures told { IfOk result (λ judged. IsTold limits.now t judged.answer) }
    ensures names { IfOk result (λ judged. judged.names ≡ t.names) }
{
    let answer = answer_of_tokens(alloc, limits, &t)?;
    let Tokens {
        text: _,
        list: _,
        names,
        packs: _,
    } = t;
    Ok(Judged { answer, names })
}

/// The answer to a text with these tokens.
#[tactic(auto, using(crate::proofs::Told::deep_told))]
fn answer_of_tokens(alloc: Global, limits: &Limits, t: &Tokens) -> Result<Answer, NoMemory>
    requires budget { 1 ≤ limits.now.budget }
    requires text { LieInText t.now }
    requires numbered { AreNumbered t.now.list }
    requires named { HasNamedFiles t.now }
    ensures { IfOk result (IsTold limits.now t.now) }
{
    match items(alloc, t)? {
        Err(Deep { place }) => Ok(Answer::NotRead {
            why: Why::Deep { place },
        }),
        Ok(items) => answer_of_items(alloc, limits, t, &items),
    }
}

/// The answer to a text with these items.
#[tactic(auto, using(crate::proofs::Told::no_main_told))]
fn answer_of_items(
    alloc: Global,
    limits: &Limits,
    t: &Tokens,
    items: &List<ItemSpan>,
) -> Result<Answer, NoMemory>
    requires budget { 1 ≤ limits.now.budget }
    requires text { LieInText t.now }
    requires numbered { AreNumbered t.now.list }
    requires named { HasNamedFiles t.now }
    requires spans { IsItems t.now (Ok items.now) }
    requires inside { All (IsInside (length t.now.list)) items.now }
    ensures { IfOk result (IsTold limits.now t.now) }
{
    match needed(alloc, t, items)? {
        None => Ok(Answer::NotRead { why: Why::NoMain }),
        Some(numbers) => answer_of_needed(alloc, limits, t, items, numbers.as_slice()),
    }
}

/// The answer to a text where main needs the items with these numbers: they are read and checked in order.
fn answer_of_needed(
    alloc: Global,
    limits: &Limits,
    t: &Tokens,
    items: &List<ItemSpan>,
    numbers: &[u32],
) -> Result<Answer, NoMemory>
    requires budget { 1 ≤ limits.now.budget }
    requires text { LieInText t.now }
    requires numbered { AreNumbered t.now.list }
    requires named { HasNamedFiles t.now }
    requires spans { IsItems t.now (Ok items.now) }
    requires inside { All (IsInside (length t.now.list)) items.now }
    requires needed { IsNeed (item_rows t.now items.now) (Some numbers.now) }
    ensures { IfOk result (IsTold limits.now t.now) }
{
    match check(alloc, t, items, numbers, Abi::Lp64, false)? {
        Checked::Refused(refusal) => Ok(answer_of(refusal)),
        Checked::Typed(typed) => answer_of_program(alloc, limits, t, typed),
    }
}

/// The answer to a text that holds this program, in which each item passes. The program is let go of.
fn answer_of_program(
    alloc: Global,
    limits: &Limits,
    t: &Tokens,
    typed: TypedProgram,
) -> Result<Answer, NoMemory>
    requires budget { 1 ≤ limits.now.budget }
    requires named { HasNamedFiles t.now }
    requires holds { HoldsTyped t.now typed }
    ensures { IfOk result (IsTold limits.now t.now) }
{
    leads_back(&typed.context);
    let TypedProgram {
        program,
        context,
        abi,
        strict,
    } = typed;
    let within = driver::Limits {
        budget: limits.budget,
        int_limit: limits.int_limit,
    };
    let judgement = judge_program(alloc, program.as_slice(), context, abi, strict, &within);
    let_go_of_items(program);
    let found = judgement?;
    let answer = answer_of_judgement(alloc, t, &found);
    let_go_of_judgement(found);
    match answer? {
        None => Err(NoMemory),
        Some(answer) => Ok(answer),
    }
}

/// The answer where an item that main needs is refused so.
fn answer_of(refusal: Refusal) -> Answer
    ensures { result ≡ answer_of refusal }
{
    match refusal {
        Refusal::Construct { number, place } => Answer::Construct { number, place },
        Refusal::Syntax { place } => Answer::NotRead {
            why: Why::Syntax { place },
        },
        Refusal::Rule { number, place } => Answer::NotRead {
            why: Why::Rule { number, place },
        },
    }
}
