ghost use Rattle.std.specs.Prelude.{◌≡◌, ◌∷◌, [], ◌++◌, ◌<◌, IfOk, OnOk, length, map, codes};
ghost use Rattle.std.specs.List.{All};
ghost use Rattle.cbase.specs.Refused.{IsConstruct};
ghost use Rattle.report.specs.Report.{HasPlace, HasPrintable, IsPrintable, budget_phrase, construct_line, lines_text, place_text, report_bytes, rule_line, spent_line, usage_line, warned_line, warned_phrase, warning_line, why_line};

use crate::answer::{Answer, Shown, Why};
use crate::construct::name_of_construct;
use crate::lines::{push_number, push_place, push_warning};
use crate::warning::Warning;
use cbase::{NoMemory, Place, Text};
use std::alloc::Global;

/// The report of an answer: its lines, each with a newline at its end. With `ReadFault` and `OutOfMemory` it has none.
///
/// The file of each place that is printed must have a name among those shown, and a construct's number be one of the
/// twenty-one.
#[tactic(auto, using(std::proofs::Common::append_assoc))]
pub fn report_text(alloc: Global, shown: &Shown) -> Result<Text, NoMemory>
    requires { HasPrintable shown.now.names shown.now.answer }
    ensures { IfOk result (λ text. text ≡ report_bytes shown.now) }
{
    match &shown.answer {
        Answer::Safe => file_line(alloc, &shown.file, b": safe\n"),
        Answer::Warned { warnings, complete } => warned_text(
            alloc,
            &shown.file,
            shown.names.as_slice(),
            shown.limits.budget,
            warnings.as_slice(),
            *complete,
        ),
        Answer::Spent => spent_text(alloc, &shown.file, shown.limits.budget),
        Answer::Large => file_line(alloc, &shown.file, b": gave up: state too large\n"),
        Answer::NotRead { why } => why_text(alloc, &shown.file, shown.names.as_slice(), *why),
        Answer::Construct { number, place } => construct_text(
            alloc,
            &shown.file,
            shown.names.as_slice(),
            *number,
            *place,
        ),
        Answer::NotYet { place } => line_at(
            alloc,
            &shown.file,
            b": not read: not yet at ",
            shown.names.as_slice(),
            *place,
        ),
        Answer::TooLong { .. } => {
            file_line(alloc, &shown.file, b": not read: over 4194304 bytes\n")
        }
        Answer::Usage => usage_text(alloc),
        Answer::ReadFault | Answer::OutOfMemory => Ok(Text::new(alloc)),
    }
}

/// The line that answers words of another form, whatever command they begin with, with its newline.
pub(crate) fn usage_text(alloc: Global) -> Result<Text, NoMemory>
    ensures { IfOk result (λ text. text ≡ lines_text (usage_line ∷ [])) }
{
    Text::from_slice(
        alloc,
        b"usage: predator [--budget N] [--int-limit K] FILE\n",
    )
}

/// A line that begins with the file, given the rest with its newline.
fn file_line(alloc: Global, file: &Text, rest: &[u8]) -> Result<Text, NoMemory>
    ensures { IfOk result (λ text. text ≡ file.now ++ rest.now) }
{
    let mut text = Text::from_slice(alloc, file.as_slice())?;
    text.extend(rest)?;
    Ok(text)
}

/// The line that tells why a text is not read, with its newline.
pub(crate) fn why_text(
    alloc: Global,
    file: &Text,
    names: &[Text],
    why: Why,
) -> Result<Text, NoMemory>
    requires { HasPlace names.now why }
    ensures { IfOk result (λ text. text ≡ lines_text (why_line file.now names.now why ∷ [])) }
{
    match why {
        Why::Lexical { place } => {
            line_at(alloc, file, b": not read: no token at ", names, place)
        }
        Why::Deep { place } => line_at(alloc, file, b": not read: too deep at ", names, place),
        Why::NoMain => file_line(alloc, file, b": not read: no main\n"),
        Why::Syntax { place } => line_at(alloc, file, b": not read: syntax at ", names, place),
        Why::Rule { number, place } => rule_text(alloc, file, names, number, place),
    }
}

/// The line that tells which rule is broken, with its newline.
#[tactic(auto, using(std::proofs::Common::append_assoc))]
fn rule_text(
    alloc: Global,
    file: &Text,
    names: &[Text],
    number: u8,
    place: Place,
) -> Result<Text, NoMemory>
    requires { place.file < length names.now }
    ensures { IfOk result (λ text. text
        ≡ lines_text (rule_line file.now names.now number place ∷ [])) }
{
    let mut text = Text::from_slice(alloc, file.as_slice())?;
    text.extend(b": not read: rule ")?;
    push_number(alloc, &mut text, u32::from(number))?;
    text.extend(b" at ")?;
    push_place(alloc, &mut text, names, &place)?;
    text.extend(b"\n")?;
    Ok(text)
}

/// A line that begins with the file and ends with a place, given what stands between the two.
#[tactic(auto, using(std::proofs::Common::append_assoc))]
fn line_at(
    alloc: Global,
    file: &Text,
    between: &[u8],
    names: &[Text],
    place: Place,
) -> Result<Text, NoMemory>
    requires { place.file < length names.now }
    ensures { IfOk result (λ text. text
        ≡ lines_text ((file.now ++ (between.now ++ place_text names.now place)) ∷ [])) }
{
    let mut text = Text::from_slice(alloc, file.as_slice())?;
    text.extend(between)?;
    push_place(alloc, &mut text, names, &place)?;
    text.extend(b"\n")?;
    Ok(text)
}

/// The line that tells which construct is given up, with its newline.
#[tactic(auto, using(std::proofs::Common::append_assoc))]
pub(crate) fn construct_text(
    alloc: Global,
    file: &Text,
    names: &[Text],
    number: u8,
    place: Place,
) -> Result<Text, NoMemory>
    requires construct { IsConstruct number }
    requires named { place.file < length names.now }
    ensures { IfOk result (λ text. text
        ≡ lines_text (construct_line file.now names.now number place ∷ [])) }
{
    let mut text = Text::from_slice(alloc, file.as_slice())?;
    text.extend(b": gave up: ")?;
    text.extend(name_of_construct(number))?;
    text.extend(b" at ")?;
    push_place(alloc, &mut text, names, &place)?;
    text.extend(b"\n")?;
    Ok(text)
}

/// The lines of the warnings, and the one that ends them.
#[tactic(auto, using(crate::proofs::LineRows::lines_text_last, std::proofs::Common::append_assoc))]
fn warned_text(
    alloc: Global,
    file: &Text,
    names: &[Text],
    budget: u32,
    warnings: &[Warning],
    complete: bool,
) -> Result<Text, NoMemory>
    requires { All (IsPrintable names.now) warnings.now }
    ensures { IfOk result (λ text. text
        ≡ lines_text (map (warning_line names.now) warnings.now ++ warned_line file.now budget complete ∷ [])) }
{
    let mut text = Text::new(alloc);
    push_warnings(alloc, &mut text, names, warnings)?;
    text.extend(file.as_slice())?;
    push_warned(alloc, &mut text, budget, complete)?;
    text.extend(b"\n")?;
    Ok(text)
}

/// Appends what stands behind the file in the line that ends the warnings, without its newline.
#[tactic(auto, using(std::proofs::Common::append_assoc))]
fn push_warned(alloc: Global, text: &mut Text, budget: u32, complete: bool) -> Result<(), NoMemory>
    ensures { OnOk result (text.new ≡ text.old ++ warned_phrase budget complete) }
{
    if complete {
        return text.extend(b": warned");
    }
    text.extend(b": warned, ")?;
    push_budget(alloc, text, budget)
}

/// Appends that a budget is spent.
#[tactic(auto, using(std::proofs::Common::append_assoc))]
fn push_budget(alloc: Global, text: &mut Text, budget: u32) -> Result<(), NoMemory>
    ensures { OnOk result (text.new ≡ text.old ++ budget_phrase budget) }
{
    text.extend(b"budget of ")?;
    push_number(alloc, text, budget)?;
    text.extend(b" states spent")
}

/// The line that tells that the budget was spent, with its newline.
#[tactic(auto, using(std::proofs::Common::append_assoc))]
fn spent_text(alloc: Global, file: &Text, budget: u32) -> Result<Text, NoMemory>
    ensures { IfOk result (λ text. text ≡ lines_text (spent_line file.now budget ∷ [])) }
{
    let mut text = Text::from_slice(alloc, file.as_slice())?;
    text.extend(b": gave up: ")?;
    push_budget(alloc, &mut text, budget)?;
    text.extend(b"\n")?;
    Ok(text)
}

/// Appends a line for each warning.
fn push_warnings(
    alloc: Global,
    text: &mut Text,
    names: &[Text],
    warnings: &[Warning],
) -> Result<(), NoMemory>
    requires { All (IsPrintable names.now) warnings.now }
    ensures { OnOk result (text.new ≡ text.old ++ lines_text (map (warning_line names.now) warnings.now)) }
{
    for warning in warnings {
        push_warning(alloc, text, names, warning)?;
        text.extend(b"\n")?;
    }
    Ok(())
}
