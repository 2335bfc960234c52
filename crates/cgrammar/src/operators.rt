ghost use Rattle.std.specs.Prelude.{◌≡◌, ◌∷◌, []};
ghost use Rattle.cgrammar.specs.Operators.{row_of, unary_rows, count_rows, member_rows, binary_rows, assignment_rows};

use crate::texts::entry_of;
use cbase::{BinaryOp, UnaryOp};

/// The prefix operators.
const UNARY: [(&'static str, UnaryOp); 6] = [
    ("&", UnaryOp::Address),
    ("*", UnaryOp::Follow),
    ("+", UnaryOp::Plus),
    ("-", UnaryOp::Minus),
    ("~", UnaryOp::Flip),
    ("!", UnaryOp::Not),
];

/// `++` and `--`, with whether they count up.
const COUNT: [(&'static str, bool); 2] = [("++", true), ("--", false)];

/// `.` and `->`, with whether they go through a pointer.
const MEMBER: [(&'static str, bool); 2] = [(".", false), ("->", true)];

/// The binary operators with their levels, the loosest first.
const BINARY: [(&'static str, (u8, BinaryOp)); 18] = [
    ("||", (0, BinaryOp::Either)),
    ("&&", (1, BinaryOp::Both)),
    ("|", (2, BinaryOp::Or)),
    ("^", (3, BinaryOp::Xor)),
    ("&", (4, BinaryOp::And)),
    ("==", (5, BinaryOp::Equal)),
    ("!=", (5, BinaryOp::NotEqual)),
    ("<", (6, BinaryOp::Less)),
    (">", (6, BinaryOp::Greater)),
    ("<=", (6, BinaryOp::LessEqual)),
    (">=", (6, BinaryOp::GreaterEqual)),
    ("<<", (7, BinaryOp::Left)),
    (">>", (7, BinaryOp::Right)),
    ("+", (8, BinaryOp::Add)),
    ("-", (8, BinaryOp::Sub)),
    ("*", (9, BinaryOp::Mul)),
    ("/", (9, BinaryOp::Div)),
    ("%", (9, BinaryOp::Rem)),
];

/// The assignment operators, with what is done before the store.
const ASSIGNMENT: [(&'static str, Option<BinaryOp>); 11] = [
    ("=", None),
    ("*=", Some(BinaryOp::Mul)),
    ("/=", Some(BinaryOp::Div)),
    ("%=", Some(BinaryOp::Rem)),
    ("+=", Some(BinaryOp::Add)),
    ("-=", Some(BinaryOp::Sub)),
    ("<<=", Some(BinaryOp::Left)),
    (">>=", Some(BinaryOp::Right)),
    ("&=", Some(BinaryOp::And)),
    ("^=", Some(BinaryOp::Xor)),
    ("|=", Some(BinaryOp::Or)),
];

/// The prefix operator that a mark is (C11 6.5.3.2, 6.5.3.3); `None` where it is none.
pub fn unary_operator(mark: &[u8]) -> Option<UnaryOp>
    ensures { result ≡ row_of mark.now unary_rows }
{
    entry_of(UNARY.as_slice(), mark)
}

/// Whether a mark counts up, where it is `++` or `--`; `None` where it is neither (C11 6.5.2.4, 6.5.3.1). No mark of one byte
/// is looked for in the table.
pub fn count_operator(mark: &[u8]) -> Option<bool>
    ensures { result ≡ row_of mark.now count_rows }
{
    match mark {
        [_] => None,
        _ => entry_of(COUNT.as_slice(), mark),
    }
}

/// Whether a mark of one byte goes to a member through a pointer.
fn member_byte(byte: u8) -> Option<bool>
    ensures { result ≡ row_of (byte ∷ []) member_rows }
{
    if byte == b'.' {
        return Some(false);
    }
    None
}

/// Whether a mark goes to a member through a pointer, where it is `->` or `.`; `None` where it is neither (C11 6.5.2.3).
/// Most marks have one byte, and are looked for in no table.
pub fn member_operator(mark: &[u8]) -> Option<bool>
    ensures { result ≡ row_of mark.now member_rows }
{
    match mark {
        [byte] => member_byte(*byte),
        _ => entry_of(MEMBER.as_slice(), mark),
    }
}

/// The binary operator that a mark of one byte is.
fn binary_byte(byte: u8) -> Option<(u8, BinaryOp)>
    ensures { result ≡ row_of (byte ∷ []) binary_rows }
{
    match byte {
        b'|' => Some((2, BinaryOp::Or)),
        b'^' => Some((3, BinaryOp::Xor)),
        b'&' => Some((4, BinaryOp::And)),
        b'<' => Some((6, BinaryOp::Less)),
        b'>' => Some((6, BinaryOp::Greater)),
        b'+' => Some((8, BinaryOp::Add)),
        b'-' => Some((8, BinaryOp::Sub)),
        b'*' => Some((9, BinaryOp::Mul)),
        b'/' => Some((9, BinaryOp::Div)),
        b'%' => Some((9, BinaryOp::Rem)),
        _ => None,
    }
}

/// The binary operator that a mark is, behind its level, 0 for the loosest (C11 6.5.5 to 6.5.14); `None` where it is none.
/// Most marks have one byte, and are looked for in no table.
pub fn binary_operator(mark: &[u8]) -> Option<(u8, BinaryOp)>
    ensures { result ≡ row_of mark.now binary_rows }
{
    match mark {
        [byte] => binary_byte(*byte),
        _ => entry_of(BINARY.as_slice(), mark),
    }
}

/// What the assignment operator that a mark of one byte is does before its store.
fn assignment_byte(byte: u8) -> Option<Option<BinaryOp>>
    ensures { result ≡ row_of (byte ∷ []) assignment_rows }
{
    if byte == b'=' {
        return Some(None);
    }
    None
}

/// What the assignment operator that a mark is does before its store: `Some(None)` for `=` (C11 6.5.16). `None` where it is
/// none. Most marks have one byte, and are looked for in no table.
pub fn assignment_operator(mark: &[u8]) -> Option<Option<BinaryOp>>
    ensures { result ≡ row_of mark.now assignment_rows }
{
    match mark {
        [byte] => assignment_byte(*byte),
        _ => entry_of(ASSIGNMENT.as_slice(), mark),
    }
}
