//! What is printed of what is found. Each function puts its part behind what is shown so far.
ghost use Rattle.std.specs.Prelude.{◌<◌, length};

use arithmetic::{Size, convert};
use cbase::NoMemory;
use expressions::{Context, Known};
use typing::Fault;
use typing::ctypes::{Broken, Shape};

/// What is refused, with the number of its token.
pub fn push_fault(fault: Fault, shown: &mut String) -> Result<(), NoMemory> {
    let (word, number) = match fault.broken {
        Broken::Construct(number) => ("construct", number),
        Broken::Rule(number) => ("rule", number),
    };
    let at = fault.place.at;
    Ok(write!(shown, "{word} {number} at {at}")?)
}

/// What is known of an expression.
pub fn push_known(context: &Context, known: Known, shown: &mut String) -> Result<(), NoMemory>
    requires { known.ctype < length context.now.types }
{
    push_type(context, known.ctype, shown)?;
    push_value(context.shape(known.ctype), known.value, shown)?;
    let words = match (known.lvalue, known.null) {
        (true, true) => " lvalue null",
        (true, false) => " lvalue",
        (false, true) => " null",
        (false, false) => "",
    };
    push_text(words, shown)
}

/// A text as it stands.
pub fn push_text(text: &str, shown: &mut String) -> Result<(), NoMemory> {
    Ok(shown.push_str(text)?)
}

/// A word and a number.
fn push_numbered(word: &str, number: u64, shown: &mut String) -> Result<(), NoMemory> {
    Ok(write!(shown, "{word}{number}")?)
}

/// A type, outermost part first.
fn push_type(context: &Context, number: u32, shown: &mut String) -> Result<(), NoMemory>
    requires { number < length context.now.types }
{
    match context.shape(number) {
        Shape::Pointer(item) => {
            shown.push('*')?;
            push_type(context, item, shown)
        }
        Shape::Array(item, count) => {
            write!(shown, "[{count}]")?;
            push_type(context, item, shown)
        }
        Shape::Int { bytes, signed } => {
            let letter = if signed { "i" } else { "u" };
            push_numbered(letter, u64::from(bytes) * 8, shown)
        }
        Shape::Struct(of) => push_numbered("struct", u64::from(of), shown),
        Shape::Bool => push_text("bool", shown),
        Shape::Void => push_text("void", shown),
    }
}

/// A value in its type, where there is one.
fn push_value(shape: Shape, value: Option<u64>, shown: &mut String) -> Result<(), NoMemory> {
    match (value, shape) {
        (None, _) => Ok(()),
        (
            Some(bits),
            Shape::Int {
                bytes,
                signed: true,
            },
        ) => Ok(write!(shown, " = {}", extended(bytes, bits).cast_signed())?),
        (Some(bits), _) => push_numbered(" = ", bits, shown),
    }
}

/// An integer of so many bytes with a sign, as a word of 64 bits.
fn extended(bytes: u8, bits: u64) -> u64 {
    match Size::of_bytes(u64::from(bytes)) {
        Some(size) => convert(size, true, Size::Eight, bits),
        None => bits,
    }
}
