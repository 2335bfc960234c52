ghost use Rattle.std.specs.Prelude.{◌≡◌, ◌<◌, length, None, IfSome, OnOk, OnErr};
ghost use Rattle.typing.specs.environment.Bounds.{BindingBelow, EntityBelow, LinkedBelow};
ghost use Rattle.typing.specs.environment.Environment.{name_linked, definition_set, visible_type};
ghost use Rattle.typing.specs.environment.Linkage.{linked_declared, linked_declared_around};
ghost use Rattle.typing.specs.environment.Names.{value_in};
ghost use Rattle.typing.specs.environment.Scopes.{found_here, left};

use crate::context::Context;
use cbase::NoMemory;
use std::alloc::Global;
use typing::environment::{Binding, Definition, Linked};

impl Context {
    /// How the innermost scope binds a name (C11 6.7p3).
    pub fn binding_here(&self, name: &[u8]) -> Option<Binding>
        ensures is { result ≡ found_here name.now self.now.environment.names }
        ensures below { IfSome result (BindingBelow (length self.now.types) self.now.environment.signatures) }
    {
        self.environment.binding_here(name)
    }

    /// How the scope around the innermost one binds a name (C11 6.2.1p4).
    pub fn binding_around(&self, name: &[u8]) -> Option<Binding>
        ensures { result ≡ found_here name.now (left self.now.environment.names) }
    {
        self.environment.binding_around(name)
    }

    /// What has linkage under a name, whether or not the name is in scope (C11 6.2.2p2).
    pub fn linked(&self, name: &[u8]) -> Option<Linked>
        ensures is { result ≡ value_in name.now self.now.environment.linked }
        ensures below { IfSome result (LinkedBelow (length self.now.types) self.now.environment.signatures) }
    {
        self.environment.linked(name)
    }

    /// The number of the type that the visible declarations of a name give an object with linkage (C11 6.2.7p4), where they give it a whole one.
    pub fn visible_type(&self, name: &[u8]) -> Option<u32>
        ensures is { result ≡ visible_type name.now self.now.environment }
        ensures below { IfSome result (λ number. number < length self.now.types) }
    {
        self.environment.visible_type(name)
    }

    /// Declares a name with linkage in the innermost scope, and says what has linkage under it, in the whole text (C11 6.2.2). `items` is the number of the
    /// type of the items of an array, where no visible declaration gives its size (6.2.7p4).
    ///
    /// Want of memory is the only error, and nothing is said of the context then.
    pub fn declare_linked(
        &mut self,
        alloc: Global,
        name: &[u8],
        items: Option<u32>,
        meaning: Linked,
    ) -> Result<(), NoMemory>
        requires entity { EntityBelow (length self.old.types) self.old.environment.signatures meaning.entity }
        requires items { IfSome items (λ item. item < length self.old.types) }
        ensures { OnOk result (self.new ≡ record self.old { environment = linked_declared name.now items meaning self.old.environment }) }
    {
        self.environment.link(alloc, name, meaning)?;
        self.environment
            .declare(alloc, name, Binding::WithLinkage(items))
    }

    /// Declares a name with linkage, which is of a function, in the scope around the innermost one, and says what has linkage under it, in the whole text
    /// (C11 6.2.2).
    ///
    /// Want of memory is the only error, and nothing is said of the context then.
    pub fn declare_linked_around(
        &mut self,
        alloc: Global,
        name: &[u8],
        meaning: Linked,
    ) -> Result<(), NoMemory>
        requires { EntityBelow (length self.old.types) self.old.environment.signatures meaning.entity }
        ensures { OnOk result (self.new ≡ record self.old { environment = linked_declared_around name.now None meaning self.old.environment }) }
    {
        self.environment.link(alloc, name, meaning)?;
        self.environment
            .declare_around(alloc, name, Binding::WithLinkage(None))
    }

    /// Says what the text so far has for what has linkage under a name; where nothing has, it changes nothing. It takes no memory.
    pub fn set_definition(&mut self, name: &[u8], definition: Definition)
        ensures { self.new ≡ record self.old { environment = definition_set name.now definition self.old.environment } }
    {
        self.environment.set_definition(name, definition);
    }
}
