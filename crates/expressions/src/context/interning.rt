ghost use Rattle.std.specs.Prelude.{◌<◌, ℕ, length, IfOk};
ghost use Rattle.cbase.specs.declared.ctype.CType.{CType};
ghost use Rattle.typing.specs.ctypes.Kinds.{kind_of};
ghost use Rattle.typing.specs.Known.{value_type};
ghost use Rattle.expressions.specs.Numbers.{Numbering};
ghost use Rattle.expressions.specs.Operated.{Numbers};

use crate::context::Context;
use cbase::{CType, NoMemory};
use typing::ctypes::Shape;

impl Context {
    /// The number of `void`. Only types get numbers, by each call here. Want of memory is the only error, and nothing is said of the context then.
    pub fn void(&mut self) -> Result<u32, NoMemory>
        ensures { IfOk result (λ number. Numbers (λ n. CType.Void) self.old self.new number) }
    {
        self.types.void()
    }

    /// The number of `_Bool`.
    pub fn boolean(&mut self) -> Result<u32, NoMemory>
        ensures { IfOk result (λ number. Numbers (λ n. CType.Bool) self.old self.new number) }
    {
        self.types.boolean()
    }

    /// The number of the integers of so many bytes (C11 6.2.5p4-8).
    pub fn integer(&mut self, bytes: u8, signed: bool) -> Result<u32, NoMemory>
        ensures { IfOk result (λ number. Numbers (λ n. CType.Int bytes signed) self.old self.new number) }
    {
        self.types.integer(bytes, signed)
    }

    /// The number of the pointers to the type of number `item` (C11 6.7.6.1).
    pub fn pointer_to(&mut self, item: u32) -> Result<u32, NoMemory>
        requires { item < length self.old.types }
        ensures { IfOk result (λ number. Numbers (λ n. CType.Pointer (n.ctype item)) self.old self.new number) }
    {
        self.types.pointer_to(item)
    }

    /// The number of the struct of number `of`.
    pub fn structure(&mut self, of: u32) -> Result<u32, NoMemory>
        ensures { IfOk result (λ number. Numbers (λ n. CType.Struct of) self.old self.new number) }
    {
        self.types.structure(of)
    }

    /// The number of the arrays of `count` items of the type of number `item` (C11 6.7.6.2).
    pub fn array_of(&mut self, item: u32, count: u64) -> Result<u32, NoMemory>
        requires { item < length self.old.types }
        ensures { IfOk result (λ number. Numbers (λ n. CType.Array (n.ctype item) count) self.old self.new number) }
    {
        self.types.array_of(item, count)
    }

    /// The type of a value of the type of that number, in which an array is a pointer to its first item (C11 6.3.2.1p3). A parameter that is declared with
    /// that type has it (6.7.6.3p7).
    pub fn value_type(&mut self, number: u32) -> Result<u32, NoMemory>
        requires { number < length self.old.types }
        ensures { IfOk result (λ value. Numbers (λ n. value_type (kind_of self.old.structs (n.ctype number)) (n.ctype number)) self.old self.new value) }
    {
        match self.types.shape(number) {
            Shape::Array(item, _) => self.pointer_to(item),
            _ => Ok(number),
        }
    }
}
