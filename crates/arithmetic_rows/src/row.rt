use crate::ask::{Ask, Row};
use arithmetic::{Op, Size};

/// The row that a line spells, if it spells one. The right integer of `convert` is the size in bytes that the left
/// one is converted to.
pub fn read_row(line: &str) -> Option<Row> {
    let mut words = line.split_whitespace();
    let name = words.next()?;
    let size = words.next()?.parse::<u64>().ok()?;
    let sign = words.next()?;
    let left = words.next()?.parse::<u64>().ok()?;
    let right = words.next()?.parse::<u64>().ok()?;
    Some(Row {
        ask: read_ask(name, right)?,
        size: Size::of_bytes(size)?,
        signed: read_sign(sign)?,
        left,
        right,
    })
}

/// What a name asks for.
fn read_ask(name: &str, right: u64) -> Option<Ask> {
    match name {
        "equal" => Some(Ask::Equal),
        "negate" => Some(Ask::Negate),
        "complement" => Some(Ask::Complement),
        "convert" => Some(Ask::Convert(Size::of_bytes(right)?)),
        "truth" => Some(Ask::Truth),
        _ => Some(Ask::Compute(read_op(name)?)),
    }
}

/// The operator of a name.
fn read_op(name: &str) -> Option<Op> {
    match name {
        "add" => Some(Op::Add),
        "sub" => Some(Op::Sub),
        "mul" => Some(Op::Mul),
        "div" => Some(Op::Div),
        "rem" => Some(Op::Rem),
        "and" => Some(Op::And),
        "or" => Some(Op::Or),
        "xor" => Some(Op::Xor),
        "left" => Some(Op::Left),
        "right" => Some(Op::Right),
        "less" => Some(Op::Less),
        "less_equal" => Some(Op::LessEqual),
        _ => None,
    }
}

/// Whether a word says that the integers have a sign.
fn read_sign(word: &str) -> Option<bool> {
    match word {
        "signed" => Some(true),
        "unsigned" => Some(false),
        _ => None,
    }
}
