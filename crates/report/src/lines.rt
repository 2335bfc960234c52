ghost use Rattle.std.specs.Prelude.{◌≡◌, ◌<◌, [], ◌++◌, OnOk, length, slice_get, unwrap_or};
ghost use Rattle.std.specs.Fmt.{decimal};
ghost use Rattle.report.specs.Report.{IsPrintable, kind_phrase, place_text, severity, warning_line};

use crate::kind::text_of_kind;
use crate::warning::Warning;
use cbase::{NoMemory, Place, Text};
use std::alloc::Global;

/// Appends a number in decimal, without leading zeros.
pub(crate) fn push_number(alloc: Global, text: &mut Text, number: u32) -> Result<(), NoMemory>
    ensures { OnOk result (text.new ≡ text.old ++ decimal number) }
{
    let digits = format!(in alloc; "{number}")?;
    text.extend(digits.as_bytes())
}

/// The name of a place's file.
fn name_of(names: &[Text], place: Place) -> &Text
    requires { place.file < length names.now }
    ensures { result.now ≡ unwrap_or (slice_get names.now place.file) [] }
{
    &names[place.file as usize]
}

/// Appends `file:line:column`.
#[tactic(auto, using(std::proofs::Common::append_assoc))]
pub(crate) fn push_place(
    alloc: Global,
    text: &mut Text,
    names: &[Text],
    place: &Place,
) -> Result<(), NoMemory>
    requires { place.now.file < length names.now }
    ensures { OnOk result (text.new ≡ text.old ++ place_text names.now place.now) }
{
    text.extend(name_of(names, *place).as_slice())?;
    text.extend(b":")?;
    push_number(alloc, text, place.line)?;
    text.extend(b":")?;
    push_number(alloc, text, place.column)
}

/// Appends `error` or `warning`.
fn push_severity(text: &mut Text, error: bool) -> Result<(), NoMemory>
    ensures { OnOk result (text.new ≡ text.old ++ severity error) }
{
    if error {
        return text.extend(b"error");
    }
    text.extend(b"warning")
}

/// Appends the text of a kind with its number.
#[tactic(auto, using(std::proofs::Common::append_assoc))]
pub(crate) fn push_kind(alloc: Global, text: &mut Text, kind: u8) -> Result<(), NoMemory>
    ensures { OnOk result (text.new ≡ text.old ++ kind_phrase kind) }
{
    text.extend(text_of_kind(kind))?;
    text.extend(b" [")?;
    push_number(alloc, text, u32::from(kind))?;
    text.extend(b"]")
}

/// Appends the line of a warning, without its newline.
#[tactic(auto, using(std::proofs::Common::append_assoc))]
pub(crate) fn push_warning(
    alloc: Global,
    text: &mut Text,
    names: &[Text],
    warning: &Warning,
) -> Result<(), NoMemory>
    requires { IsPrintable names.now warning.now }
    ensures { OnOk result (text.new ≡ text.old ++ warning_line names.now warning.now) }
{
    push_place(alloc, text, names, &warning.place)?;
    text.extend(b": ")?;
    push_severity(text, warning.error)?;
    text.extend(b": ")?;
    push_kind(alloc, text, warning.kind)
}
