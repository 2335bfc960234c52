ghost use Rattle.std.specs.Prelude.{◌≡◌, [], ◌∷◌, ◌++◌, IfOk};
ghost use Rattle.choices.specs.Reading.{IsPart};
ghost use Rattle.choices.specs.Run.{step, turn_of};

use crate::choice::{Choice, MOST_CONTENTS};
use crate::part::{Part, Step, next};
use cbase::{List, NoMemory, Text};
use std::alloc::Global;
use std::mem;

/// What was read of a text.
#[derive(Drop)]
pub(crate) struct Reader {
    /// The choices of the lines that were read to their ends.
    pub(crate) choices: List<Choice>,
    /// The bytes that were read of the contents of a block.
    pub(crate) contents: Text,
    /// How far the last line was read.
    pub(crate) part: Part,
}

/// Ends a line with this choice.
fn end_line(reader: &mut Reader, choice: Choice) -> Result<(), NoMemory>
    ensures { IfOk result (λ _. reader.new ≡ record reader.old { choices = reader.old.choices ++ choice ∷ []; part = Part.Begin }) }
{
    reader.choices.push(choice)?;
    reader.part = Part::Begin;
    Ok(())
}

/// Reads one byte more, and says whether some text of choices goes on with it.
pub(crate) fn take(alloc: Global, reader: &mut Reader, byte: u8) -> Result<bool, NoMemory>
    requires { IsPart reader.old.part }
    ensures { IfOk result (λ went. turn_of went reader.new ≡ step reader.old byte) }
{
    let full = reader.contents.as_slice().len() >= MOST_CONTENTS;
    match next(reader.part, full, byte) {
        Step::Refuse => return Ok(false),
        Step::Go(part) => reader.part = part,
        Step::Byte(base, byte) => {
            reader.contents.extend(&[byte])?;
            reader.part = Part::Whole(base);
        }
        Step::EndNone => end_line(reader, Choice::None)?,
        Step::EndInput(number) => end_line(reader, Choice::Input(number))?,
        Step::EndBlock(base) => {
            let bytes = mem::replace(&mut reader.contents, Text::new(alloc));
            end_line(reader, Choice::Block { base, bytes })?;
        }
    }
    Ok(true)
}
