use cbase::{NoMemory, Text};
use choices::{ReadChoices, choices_text, read_choices};
use std::alloc::Global;
use std::test::Fail;

/// What is written of the choices that a text spells, if it spells some.
pub(crate) fn written_again(alloc: Global, text: &[u8]) -> Result<Option<Text>, NoMemory> {
    match read_choices(alloc, text)? {
        ReadChoices::Choices(choices) => Ok(Some(choices_text(alloc, choices.as_slice())?)),
        ReadChoices::Refused(_) => Ok(None),
    }
}

/// How many choices a text spells, if it spells some.
fn choices_in(alloc: Global, text: &[u8]) -> Result<Option<usize>, NoMemory> {
    match read_choices(alloc, text)? {
        ReadChoices::Choices(choices) => Ok(Some(choices.len())),
        ReadChoices::Refused(_) => Ok(None),
    }
}

/// Whether a text is read as so many choices, which are written as the same text.
fn is_read(alloc: Global, text: &[u8], count: usize) -> Result<bool, NoMemory> {
    if choices_in(alloc, text)? != Some(count) {
        return Ok(false);
    }
    match written_again(alloc, text)? {
        Some(written) => Ok(written.as_slice() == text),
        None => Ok(false),
    }
}

/// Appends the line of a block at 16 with so many bytes that are 0.
pub(crate) fn push_block(text: &mut Text, bytes: usize) -> Result<(), NoMemory> {
    text.extend(b"block 16 ")?;
    for _ in 0..bytes {
        text.extend(b"00")?;
    }
    text.extend(b"\n")
}

#[test]
fn what_is_read_is_written_again(rt: HostRuntime) -> Result<(), Fail> {
    let texts: [(&[u8], usize); 9] = [
        (b"", 0),
        (b"none\n", 1),
        (b"input 0\n", 1),
        (b"input 18446744073709551615\n", 1),
        (b"block 0 -\n", 1),
        (b"block 24 0123456789abcdef\n", 1),
        (b"block 18446744073709551615 ff\n", 1),
        (b"none\nnone\ninput 10\n", 3),
        (
            b"block 16 00\nblock 32 -\ninput 1\nblock 48 7f80\nnone\n",
            5,
        ),
    ];
    for (text, count) in texts {
        assert!(rt; is_read(rt.alloc(), text, count)?, "{count} choices");
    }
    Ok(())
}

#[test]
fn contents_of_65536_bytes_are_read(rt: HostRuntime) -> Result<(), Fail> {
    let mut text = Text::new(rt.alloc());
    push_block(&mut text, 65_536)?;
    text.extend(b"none\n")?;
    assert!(rt; is_read(rt.alloc(), text.as_slice(), 2)?);
    Ok(())
}
