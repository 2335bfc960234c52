ghost use Rattle.std.specs.Prelude.{◌≡◌, ◌<◌, length, IfSome, OnOk, OnErr};
ghost use Rattle.typing.specs.environment.Environment.{loop_set, function_set, name_defined, is_defined, strict_set};
ghost use Rattle.expressions.specs.Context.{Agrees};
ghost use Rattle.expressions.specs.Numbers.{Numbering};

use crate::context::Context;
use cbase::NoMemory;
use std::alloc::Global;

impl Context {
    /// Whether the place lies in the body of a loop (C11 6.8.6.2p1, 6.8.6.3p1).
    pub fn is_in_loop(&self) -> bool
        ensures { result ≡ self.now.environment.in_loop }
    {
        self.environment.is_in_loop()
    }

    /// From here on the place lies in the body of a loop, or in none. It takes no memory.
    pub fn set_loop(&mut self, in_loop: bool)
        ensures { self.new ≡ record self.old { environment = loop_set in_loop self.old.environment } }
    {
        self.environment.set_loop(in_loop);
    }

    /// The number of the result type of the function whose body the place lies in; none outside of functions (C11 6.8.6.4).
    pub fn result(&self) -> Option<u32>
        ensures is { result ≡ self.now.environment.result }
        ensures below { IfSome result (λ number. number < length self.now.types) }
    {
        self.environment.result()
    }

    /// From here on the place lies in the body of a function whose result has that type, or in none. It takes no memory.
    pub fn set_function(&mut self, result_type: Option<u32>)
        requires { IfSome result_type (λ number. number < length self.old.types) }
        ensures { self.new ≡ record self.old { environment = function_set result_type self.old.environment } }
    {
        self.environment.set_function(result_type);
    }

    /// Says that the whole text defines a name that has linkage (C11 6.9p5). Where memory is wanting all stays as it was.
    pub fn define(&mut self, alloc: Global, name: &[u8]) -> Result<(), NoMemory>
        ensures ok { OnOk result (self.new ≡ record self.old { environment = name_defined name.now self.old.environment }) }
        ensures err { OnErr result (self.new ≡ self.old) }
    {
        self.environment.define(alloc, name)
    }

    /// Whether the whole text defines a name that has linkage, before the place or behind it.
    pub fn is_defined(&self, name: &[u8]) -> bool
        ensures { result ≡ is_defined name.now self.now.environment }
    {
        self.environment.is_defined(name)
    }

    /// Whether `main` may not be called, so that it returns once in a run.
    pub fn is_strict(&self) -> bool
        ensures { result ≡ self.now.environment.strict }
    {
        self.environment.is_strict()
    }

    /// From here on `main` may not be called, or may. It takes no memory.
    pub fn set_strict(&mut self, strict: bool)
        ensures { self.new ≡ record self.old { environment = strict_set strict self.old.environment } }
    {
        self.environment.set_strict(strict);
    }

    /// Each context has a numbering: equal types have one number, and more types and signatures are only put behind the others. Nothing is done.
    pub fn has_a_numbering(&self)
        ensures { (n : Numbering) × Agrees n self.now }
    {
        self.types.each_type_has_one_number();
    }
}
