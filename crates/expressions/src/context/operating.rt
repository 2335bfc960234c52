ghost use Rattle.std.specs.Prelude.{◌≡◌, ◌<◌, ℕ, length, IfOk};
ghost use Rattle.typing.specs.ctypes.Assigning.{assigned, updated};
ghost use Rattle.typing.specs.ctypes.Binary.{binary};
ghost use Rattle.typing.specs.ctypes.Choosing.{chosen};
ghost use Rattle.typing.specs.ctypes.Converting.{cast, converts};
ghost use Rattle.typing.specs.ctypes.Kinds.{kind_of, decayed};
ghost use Rattle.typing.specs.ctypes.Members.{indexed, member_of, member_through};
ghost use Rattle.typing.specs.ctypes.Unary.{unary, counted};
ghost use Rattle.expressions.specs.Context.{Agrees};
ghost use Rattle.expressions.specs.Numbers.{Numbering, operand_at};
ghost use Rattle.expressions.specs.Operated.{Operates};

use crate::context::Context;
use cbase::{BinaryOp, NoMemory, UnaryOp};
use typing::ctypes::{
    Operand, Outcome, assignment_type, binary_type, cast_type, choice_type, converts, count_type,
    index_type, member_type, pointed_member_type, unary_type, update_type,
};

impl Context {
    /// The type of a unary operation, or what is broken at its operator (C11 6.5.3.2, 6.5.3.3). Only types get numbers, by each call here.
    pub fn unary(&mut self, op: UnaryOp, operand: Operand) -> Result<Outcome, NoMemory>
        requires { operand.ctype < length self.old.types }
        ensures { IfOk result (λ outcome. Operates (λ n. unary op (operand_at n self.old.structs operand)) self.old self.new outcome) }
    {
        unary_type(&mut self.types, op, operand)
    }

    /// The type of `++` and `--` (C11 6.5.2.4, 6.5.3.1).
    pub fn count(&mut self, operand: Operand) -> Result<Outcome, NoMemory>
        requires { operand.ctype < length self.old.types }
        ensures { IfOk result (λ outcome. Operates (λ n. counted (operand_at n self.old.structs operand)) self.old self.new outcome) }
    {
        count_type(&mut self.types, operand)
    }

    /// The type of a binary operation (C11 6.5.5 to 6.5.14 and 6.5.17).
    pub fn binary(
        &mut self,
        op: BinaryOp,
        left: Operand,
        right: Operand,
    ) -> Result<Outcome, NoMemory>
        requires left { left.ctype < length self.old.types }
        requires right { right.ctype < length self.old.types }
        ensures { IfOk result (λ outcome. Operates (λ n. binary op (operand_at n self.old.structs left) (operand_at n self.old.structs right)) self.old self.new outcome) }
    {
        binary_type(&mut self.types, op, left, right)
    }

    /// The type of `?:` (C11 6.5.15).
    pub fn choice(
        &mut self,
        test: Operand,
        first: Operand,
        second: Operand,
    ) -> Result<Outcome, NoMemory>
        requires test { test.ctype < length self.old.types }
        requires first { first.ctype < length self.old.types }
        requires second { second.ctype < length self.old.types }
        ensures { IfOk result (λ outcome. Operates (λ n. chosen (operand_at n self.old.structs test) (operand_at n self.old.structs first) (operand_at n self.old.structs second)) self.old self.new outcome) }
    {
        choice_type(&mut self.types, test, first, second)
    }

    /// The type of `=` (C11 6.5.16.1).
    pub fn assignment(&mut self, left: Operand, right: Operand) -> Result<Outcome, NoMemory>
        requires left { left.ctype < length self.old.types }
        requires right { right.ctype < length self.old.types }
        ensures { IfOk result (λ outcome. Operates (λ n. assigned (operand_at n self.old.structs left) (operand_at n self.old.structs right)) self.old self.new outcome) }
    {
        assignment_type(&mut self.types, left, right)
    }

    /// The type of `op=` (C11 6.5.16.2).
    pub fn update(
        &mut self,
        op: BinaryOp,
        left: Operand,
        right: Operand,
    ) -> Result<Outcome, NoMemory>
        requires left { left.ctype < length self.old.types }
        requires right { right.ctype < length self.old.types }
        ensures { IfOk result (λ outcome. Operates (λ n. updated op (operand_at n self.old.structs left) (operand_at n self.old.structs right)) self.old self.new outcome) }
    {
        update_type(&mut self.types, op, left, right)
    }

    /// The type of `base[index]` (C11 6.5.2.1).
    pub fn index(&mut self, base: Operand, index: Operand) -> Result<Outcome, NoMemory>
        requires base { base.ctype < length self.old.types }
        requires index { index.ctype < length self.old.types }
        ensures { IfOk result (λ outcome. Operates (λ n. indexed (decayed (operand_at n self.old.structs base).kind) (decayed (operand_at n self.old.structs index).kind)) self.old self.new outcome) }
    {
        index_type(&mut self.types, base, index)
    }

    /// The type of `operand.name` (C11 6.5.2.3).
    pub fn member(&mut self, operand: Operand, name: &[u8]) -> Result<Outcome, NoMemory>
        requires { operand.ctype < length self.old.types }
        ensures { IfOk result (λ outcome. Operates (λ n. member_of self.old.structs (n.ctype operand.ctype) name.now) self.old self.new outcome) }
    {
        member_type(&mut self.types, operand, name)
    }

    /// The type of `operand->name` (C11 6.5.2.3).
    pub fn pointed_member(&mut self, operand: Operand, name: &[u8]) -> Result<Outcome, NoMemory>
        requires { operand.ctype < length self.old.types }
        ensures { IfOk result (λ outcome. Operates (λ n. member_through self.old.structs (operand_at n self.old.structs operand).kind name.now) self.old self.new outcome) }
    {
        pointed_member_type(&mut self.types, operand, name)
    }

    /// The type of a cast to the type of number `to` (C11 6.5.4).
    pub fn cast(
        &mut self,
        to: u32,
        operand: Operand,
        is_offsetof: bool,
    ) -> Result<Outcome, NoMemory>
        requires to { to < length self.old.types }
        requires operand { operand.ctype < length self.old.types }
        ensures { IfOk result (λ outcome. Operates (λ n. cast (kind_of self.old.structs (n.ctype to)) (n.ctype to) (decayed (operand_at n self.old.structs operand).kind) operand.null is_offsetof) self.old self.new outcome) }
    {
        cast_type(&mut self.types, to, operand, is_offsetof)
    }

    /// Whether the value of an operand converts without a cast to the type of number `to` (C11 6.5.16.1).
    pub fn converts(&self, to: u32, operand: Operand) -> bool
        requires to { to < length self.now.types }
        requires operand { operand.ctype < length self.now.types }
        ensures { (n : Numbering) → Agrees n self.now → result ≡ converts (kind_of self.now.structs (n.ctype to)) (decayed (operand_at n self.now.structs operand).kind) operand.null }
    {
        converts(&self.types, to, operand)
    }
}
