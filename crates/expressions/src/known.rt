ghost use Rattle.std.specs.Prelude.{◌≡◌};
ghost use Rattle.typing.specs.Known.{plain, located, valued};
ghost use Rattle.expressions.specs.Numbers.{Numbering, known_at, operand_in};

use typing::Idiom;
use typing::ctypes::Operand;
use typing::environment::Entity;

/// What is known of an expression that passes.
#[derive(Clone, Copy)]
pub struct Known {
    /// The number of its own type, before an array becomes a pointer.
    pub ctype: u32,
    /// Whether it is an lvalue (C11 6.3.2.1p1).
    pub lvalue: bool,
    /// Whether it is a null pointer constant (C11 6.3.2.3p3).
    pub null: bool,
    /// Its value as the bits of its type, where it is an integer constant expression (C11 6.6p6).
    pub value: Option<u64>,
    /// How much of the offsetof idiom it is.
    pub idiom: Idiom,
    /// What it stands for, where it is a name.
    pub stands: Option<Entity>,
}

impl Known {
    /// A value that is no constant.
    pub fn plain(ctype: u32) -> Known
        ensures is { (n : Numbering) → known_at n result ≡ plain (n.ctype ctype) }
        ensures ctype { result.ctype ≡ ctype }
    {
        Known {
            ctype,
            lvalue: false,
            null: false,
            value: None,
            idiom: Idiom::Outside,
            stands: None,
        }
    }

    /// An lvalue.
    pub fn located(idiom: Idiom, ctype: u32) -> Known
        ensures is { (n : Numbering) → known_at n result ≡ located idiom (n.ctype ctype) }
        ensures ctype { result.ctype ≡ ctype }
    {
        Known {
            ctype,
            lvalue: true,
            null: false,
            value: None,
            idiom,
            stands: None,
        }
    }

    /// The value of an operation on integers, where its operands are constants.
    pub fn valued(value: Option<u64>, ctype: u32) -> Known
        ensures is { (n : Numbering) → known_at n result ≡ valued value (n.ctype ctype) }
        ensures ctype { result.ctype ≡ ctype }
    {
        Known {
            ctype,
            lvalue: false,
            null: value == Some(0),
            value,
            idiom: Idiom::Outside,
            stands: None,
        }
    }

    /// What an operator asks of it.
    pub fn operand(self) -> Operand
        ensures { result ≡ operand_in self }
    {
        Operand {
            ctype: self.ctype,
            lvalue: self.lvalue,
            null: self.null,
        }
    }
}
