use crate::reading::push_block;
use cbase::{NoMemory, Text};
use choices::{ReadChoices, Refusal, read_choices};
use std::alloc::Global;
use std::test::Fail;

/// Why a text is refused, if it is.
fn refusal(alloc: Global, text: &[u8]) -> Result<Option<Refusal>, NoMemory> {
    match read_choices(alloc, text)? {
        ReadChoices::Choices(_) => Ok(None),
        ReadChoices::Refused(refusal) => Ok(Some(refusal)),
    }
}

#[test]
fn texts_are_refused_at_their_first_wrong_byte(rt: HostRuntime) -> Result<(), Fail> {
    let texts: [(&[u8], Refusal); 14] = [
        (b"none", Refusal::CutShort(4)),
        (b"none\nblock 16 0", Refusal::CutShort(15)),
        (b"\n", Refusal::Word(0)),
        (b"none\r\n", Refusal::Word(4)),
        (b"input +1\n", Refusal::Number(6)),
        (b"input 1 \n", Refusal::Number(7)),
        (b"none\nblock 16\n", Refusal::Number(13)),
        (b"input 007\n", Refusal::LeadingZero(7)),
        (b"input 18446744073709551616\n", Refusal::TooGreat(25)),
        (b"block 16 \n", Refusal::Contents(9)),
        (b"block 16 0A\n", Refusal::Contents(10)),
        (b"block 16 000\n", Refusal::Contents(12)),
        (b"block 16 -\r\n", Refusal::Contents(10)),
        (b"\xff", Refusal::Word(0)),
    ];
    for (text, wanted) in texts {
        assert_eq!(rt; refusal(rt.alloc(), text)?, Some(wanted));
    }
    Ok(())
}

#[test]
fn contents_of_65537_bytes_are_refused(rt: HostRuntime) -> Result<(), Fail> {
    let mut text = Text::new(rt.alloc());
    push_block(&mut text, 65_537)?;
    assert_eq!(rt;
        refusal(rt.alloc(), text.as_slice())?,
        Some(Refusal::TooLong(131_081))
    );
    Ok(())
}
