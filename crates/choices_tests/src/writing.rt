use cbase::{NoMemory, Text};
use choices::{Choice, choices_text};
use std::alloc::Global;
use std::test::Fail;

/// What is written of a block, of a failing allocation and of an input.
fn written(alloc: Global) -> Result<Text, NoMemory> {
    let bytes = Text::from_slice(alloc, &[0, 9, 10, 15, 16, 255])?;
    let choices = [
        Choice::Block { base: 48, bytes },
        Choice::None,
        Choice::Input(120),
        Choice::Block {
            base: 0,
            bytes: Text::new(alloc),
        },
    ];
    choices_text(alloc, &choices)
}

#[test]
fn a_line_is_written_for_each_choice(rt: HostRuntime) -> Result<(), Fail> {
    let text = written(rt.alloc())?;
    assert_eq!(rt;
        text.as_slice(),
        b"block 48 00090a0f10ff\nnone\ninput 120\nblock 0 -\n".as_slice()
    );
    Ok(())
}
