ghost use Rattle.std.specs.Prelude.{◌≡◌, ◌≤◌, IsSome, IsTrue, length, nat_le};
ghost use Rattle.cgrammar.specs.Operators.{binary_rows, assignment_rows};
ghost use Rattle.cgrammar.specs.ReadOperands.{goes_on};
ghost use Rattle.cparser.specs.OperandSteps.{operand_first, postfix_first, begins};
ghost use Rattle.cparser.specs.State.{rest};
ghost use Rattle.cparser.specs.Steps.{first_row};

use crate::reader::Reader;
use cbase::BinaryOp;
use cgrammar::{OperandStart, PostfixStart, operand_start, postfix_start};

impl<'a> Reader<'a> {
    /// Whether a tree of so many levels may have what is read in it.
    pub fn fits(&self, most: u32) -> bool
        ensures { result ≡ nat_le self.now.levels most }
    {
        self.levels <= most as usize
    }

    /// The binary operator that stands there, behind its level, 0 for the loosest (C11 6.5.5 to 6.5.14). The comma is none.
    pub fn binary(&self) -> Option<(u8, BinaryOp)>
        ensures is { result ≡ first_row binary_rows (rest self.now) }
        ensures more { IsSome result → 1 ≤ length (rest self.now) }
    {
        match self.rest() {
            [] => None,
            [first, ..] => first.binary(),
        }
    }

    /// What the assignment operator that stands there does before its store (C11 6.5.16).
    pub fn assignment(&self) -> Option<Option<BinaryOp>>
        ensures is { result ≡ first_row assignment_rows (rest self.now) }
        ensures more { IsSome result → 1 ≤ length (rest self.now) }
    {
        match self.rest() {
            [] => None,
            [first, ..] => first.assignment(),
        }
    }

    /// What goes on with an operand there (C11 6.5.2).
    pub fn postfix(&self) -> PostfixStart
        ensures is { result ≡ postfix_first (rest self.now) }
        ensures more { IsTrue (goes_on result) → 1 ≤ length (rest self.now) }
    {
        match self.rest() {
            [] => PostfixStart::Other,
            [first, ..] => postfix_start(first),
        }
    }

    /// With what an operand begins there (C11 6.5.1 to 6.5.4).
    pub fn operand(&self) -> OperandStart
        ensures is { result ≡ operand_first (rest self.now) }
        ensures more { IsTrue (begins result) → 1 ≤ length (rest self.now) }
    {
        match self.rest() {
            [] => OperandStart::Other,
            [first, ..] => operand_start(first),
        }
    }
}
