//! What a register gets.
ghost use Rattle.std.specs.Prelude.{◌≡◌};
ghost use Rattle.register_steps.specs.Lines.{nothing, kept, exactly, losing, truth};

use graph::Value;

/// What a register gets from an instruction.
#[derive(Clone, Copy)]
pub enum Gain {
    /// No state follows.
    Nothing,
    /// The value with this key.
    Held(u32),
    /// A value more.
    Fresh(Value),
    /// The number 0 or the number 1, of so many bytes.
    Truth(u8),
}

/// What a register gets, and what is lost.
#[derive(Clone, Copy)]
pub struct Line {
    pub gain: Gain,
    /// The number of the loss of precision, if there is one.
    pub loss: Option<u8>,
}

/// No state follows.
pub(crate) fn nothing() -> Line
    ensures { result ≡ nothing }
{
    Line {
        gain: Gain::Nothing,
        loss: None,
    }
}

/// A value that another register held.
pub(crate) fn kept(key: u32) -> Line
    ensures { result ≡ kept key }
{
    Line {
        gain: Gain::Held(key),
        loss: None,
    }
}

/// A value more, which stands for the words that are given and for no others.
pub(crate) fn exactly(value: Value) -> Line
    ensures { result ≡ exactly value }
{
    Line {
        gain: Gain::Fresh(value),
        loss: None,
    }
}

/// A value more, which stands for those and for others.
pub(crate) fn losing(loss: u8, value: Value) -> Line
    ensures { result ≡ losing loss value }
{
    Line {
        gain: Gain::Fresh(value),
        loss: Some(loss),
    }
}

/// The number 0 or the number 1.
pub(crate) fn truth(loss: Option<u8>, size: u8) -> Line
    ensures { result ≡ truth loss size }
{
    Line {
        gain: Gain::Truth(size),
        loss,
    }
}
