//! What is printed. Each function puts its part behind what is shown so far.
use cbase::NoMemory;

/// A text as it stands.
pub fn push_text(text: &str, shown: &mut String) -> Result<(), NoMemory> {
    Ok(shown.push_str(text)?)
}

/// Whether something is so, behind a blank.
pub fn push_truth(truth: bool, shown: &mut String) -> Result<(), NoMemory> {
    push_text(if truth { " true" } else { " false" }, shown)
}

/// A number of things as it is printed: the greatest number of 32 bits stands for those above it, too.
pub fn counted(number: usize) -> u32 {
    number.min(4_294_967_295) as u32
}

/// A word, and numbers, each behind a blank.
pub fn push_row(word: &str, numbers: &[u32], shown: &mut String) -> Result<(), NoMemory> {
    shown.push_str(word)?;
    for number in numbers {
        write!(shown, " {number}")?;
    }
    Ok(())
}

/// Bytes, those that are no printable letter of ASCII as `\x` and two digits.
pub fn push_bytes(bytes: &[u8], shown: &mut String) -> Result<(), NoMemory> {
    for byte in bytes {
        if (b' '..=b'~').contains(byte) {
            shown.push(*byte as char)?;
        } else {
            write!(shown, "\\x{byte:02x}")?;
        }
    }
    Ok(())
}
