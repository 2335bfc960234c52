ghost use Rattle.std.specs.Prelude.{◌≡◌, length, option_copied, slice_get, IfOk, OnOk, OnErr};
ghost use Rattle.typing.specs.environment.Names.{value_in};
ghost use Rattle.typing.specs.environment.Scopes.{found_here, left};
ghost use Rattle.typing.specs.environment.Environment.{nothing_declared, resolved, shown, whole_type, visible_type, name_found, name_found_here, tag_found, scope_entered, scope_left, name_bound, name_bound_around, tag_declared, name_linked, definition_set, signature_added, loop_set, function_set, name_defined, is_defined, strict_set};

use crate::environment::entity::{
    Binding, DeclaredType, Definition, Entity, Linked, Signature, Tag, TagForm,
};
use crate::environment::names::Names;
use crate::environment::scopes::Scopes;
use cbase::{List, NoMemory};
use std::alloc::Global;

/// What is declared at a place of a text: names and tags, which are two name spaces (C11 6.2.3), by scope; what has linkage
/// under a name; and the signatures of functions, by number. And what statements ask of the place: whether it lies in the body of
/// a loop, what the function around it gives back, which names the whole text defines, and whether `main` may not be called.
///
/// A name that no scope declares any more keeps its place in memory. Where memory is wanting, each call leaves all as it was.
#[derive(Drop)]
pub struct Environment {
    names: Scopes<Binding>,
    tags: Scopes<Tag>,
    linked: Names<Linked>,
    signatures: List<Signature>,
    in_loop: bool,
    result: Option<u32>,
    definitions: Names<()>,
    strict: bool,
}

impl Environment {
    /// No scope, nothing that has linkage, no loop, no function and no definition, and `main` may be called. It takes no memory.
    pub fn new(alloc: Global) -> Environment
        ensures { result ≡ nothing_declared }
    {
        Environment {
            names: Scopes::new(alloc),
            tags: Scopes::new(alloc),
            linked: Names::new(alloc),
            signatures: List::new(alloc),
            in_loop: false,
            result: None,
            definitions: Names::new(alloc),
            strict: false,
        }
    }

    /// Enters a scope in which nothing is declared.
    pub fn open(&mut self, alloc: Global) -> Result<(), NoMemory>
        ensures ok { OnOk result (self.new ≡ scope_entered self.old) }
        ensures err { OnErr result (self.new ≡ self.old) }
    {
        self.names.open(alloc)?;
        if self.tags.open(alloc).is_err() {
            self.names.close();
            return Err(NoMemory);
        }
        Ok(())
    }

    /// Leaves the innermost scope, with its names and tags. Where there is no scope it changes nothing.
    ///
    /// It takes no memory, and a step for each name and tag that the scope declares. What has linkage stays, and so does what was
    /// said of loops, of functions and of definitions.
    pub fn close(&mut self)
        ensures { self.new ≡ scope_left self.old }
    {
        self.names.close();
        self.tags.close();
    }

    /// What a name stands for: what the innermost scope that declares it says (C11 6.2.1p4).
    ///
    /// It takes no memory, and one look-up by hash, however many scopes there are, and one more where the name has linkage.
    pub fn look_up(&self, name: &[u8]) -> Option<Entity>
        ensures { result ≡ name_found name.now self.now }
    {
        self.resolve(name, self.names.look_up(name))
    }

    /// What a name stands for by a declaration of the innermost scope (C11 6.7p3).
    pub fn look_up_here(&self, name: &[u8]) -> Option<Entity>
        ensures { result ≡ name_found_here name.now self.now }
    {
        self.resolve(name, self.names.look_up_here(name))
    }

    /// How the innermost scope binds a name.
    pub fn binding_here(&self, name: &[u8]) -> Option<Binding>
        ensures { result ≡ found_here name.now self.now.names }
    {
        self.names.look_up_here(name)
    }

    /// How the scope around the innermost one binds a name.
    pub fn binding_around(&self, name: &[u8]) -> Option<Binding>
        ensures { result ≡ found_here name.now (left self.now.names) }
    {
        self.names.look_up_around(name)
    }

    /// Declares a name in the innermost scope. Where there is no scope it changes nothing.
    ///
    /// A name that the scope declares already stands for this from here on: whether it may be declared again is asked before.
    pub fn declare(&mut self, alloc: Global, name: &[u8], binding: Binding) -> Result<(), NoMemory>
        ensures ok { OnOk result (self.new ≡ name_bound name.now binding self.old) }
        ensures err { OnErr result (self.new ≡ self.old) }
    {
        self.names.declare(alloc, name, binding)
    }

    /// Declares a name in the scope around the innermost one, of which it is visible where the innermost does not declare it (C11 6.2.1p4).
    /// Where there are not two scopes it changes nothing.
    ///
    /// A name that the scope declares already stands for this from here on: whether it may be declared again is asked before.
    pub fn declare_around(
        &mut self,
        alloc: Global,
        name: &[u8],
        binding: Binding,
    ) -> Result<(), NoMemory>
        ensures ok { OnOk result (self.new ≡ name_bound_around name.now binding self.old) }
        ensures err { OnErr result (self.new ≡ self.old) }
    {
        self.names.declare_around(alloc, name, binding)
    }

    /// The number of the type that the visible declarations of a name give an object with linkage (C11 6.2.7p4): none where the name stands for something
    /// else, and none where they do not give the size of an array.
    pub fn visible_type(&self, name: &[u8]) -> Option<u32>
        ensures { result ≡ visible_type name.now self.now }
    {
        match self.names.look_up(name) {
            Some(Binding::WithLinkage(None)) => match self.linked.get(name) {
                None => None,
                Some(linked) => whole_type(linked.entity),
            },
            Some(Binding::WithLinkage(Some(_))) => None,
            Some(Binding::Own(_)) => None,
            None => None,
        }
    }

    /// What has linkage under a name, whether or not the name is in scope (C11 6.2.2p2).
    pub fn linked(&self, name: &[u8]) -> Option<Linked>
        ensures { result ≡ value_in name.now self.now.linked }
    {
        self.linked.get(name)
    }

    /// Says what has linkage under a name, in the whole text.
    pub fn link(&mut self, alloc: Global, name: &[u8], meaning: Linked) -> Result<(), NoMemory>
        ensures ok { OnOk result (self.new ≡ name_linked name.now meaning self.old) }
        ensures err { OnErr result (self.new ≡ self.old) }
    {
        self.linked.put(alloc, name, meaning)
    }

    /// Says what the text so far has for what has linkage under a name; where nothing has, it changes nothing. It takes no memory.
    pub fn set_definition(&mut self, name: &[u8], definition: Definition)
        ensures { self.new ≡ definition_set name.now definition self.old }
    {
        if let Some(meaning) = self.linked.get(name) {
            self.linked.change(
                name,
                Linked {
                    entity: meaning.entity,
                    definition,
                },
            );
        }
    }

    /// What a tag stands for: where it is declared, by a declaration of the innermost scope, and where it is mentioned, by the one
    /// that is visible (C11 6.7.2.3p4-9). Where it is `None`, the tag is declared there, in the innermost scope.
    pub fn tag(&self, form: TagForm, name: &[u8]) -> Option<Tag>
        ensures { result ≡ tag_found form name.now self.now }
    {
        match form {
            TagForm::Declared => self.tags.look_up_here(name),
            TagForm::Mentioned => self.tags.look_up(name),
        }
    }

    /// Declares a tag in the innermost scope. Where there is no scope it changes nothing.
    ///
    /// A tag that the scope declares already stands for this from here on.
    pub fn declare_tag(&mut self, alloc: Global, name: &[u8], tag: Tag) -> Result<(), NoMemory>
        ensures ok { OnOk result (self.new ≡ tag_declared name.now tag self.old) }
        ensures err { OnErr result (self.new ≡ self.old) }
    {
        self.tags.declare(alloc, name, tag)
    }

    /// Gives a signature a number, behind the others.
    ///
    /// There are at most 2^32: the call that would want one more answers as where memory is wanting.
    pub fn add_signature(&mut self, signature: Signature) -> Result<u32, NoMemory>
        ensures number { IfOk result (λ number. number ≡ length self.old.signatures) }
        ensures ok { OnOk result (self.new ≡ signature_added signature self.old) }
        ensures err { OnErr result (self.new ≡ self.old) }
    {
        let Ok(number) = u32::try_from(self.signatures.len()) else {
            return Err(NoMemory);
        };
        self.signatures.push(signature)?;
        Ok(number)
    }

    /// The signature of a number.
    pub fn signature(&self, number: u32) -> Option<&Signature>
        ensures { option_copied result ≡ slice_get self.now.signatures number }
    {
        self.signatures.as_slice().get(number as usize)
    }

    /// Whether the place lies in the body of a loop: there alone may `continue` stand and, where there is no `switch`, `break`
    /// (C11 6.8.6.2p1, 6.8.6.3p1).
    pub fn is_in_loop(&self) -> bool
        ensures { result ≡ self.now.in_loop }
    {
        self.in_loop
    }

    /// Says whether the place lies in the body of a loop. It takes no memory.
    ///
    /// Who enters the body of a loop asks before whether the place lay in one, and says that again behind it.
    pub fn set_loop(&mut self, in_loop: bool)
        ensures { self.new ≡ loop_set in_loop self.old }
    {
        self.in_loop = in_loop;
    }

    /// The number of the type of the result of the function whose body the place lies in (C11 6.8.6.4), and none outside of
    /// functions.
    pub fn result(&self) -> Option<u32>
        ensures { result ≡ self.now.result }
    {
        self.result
    }

    /// Says which type the result of the function has whose body the place lies in, by number, or that it lies in none. It takes
    /// no memory.
    pub fn set_function(&mut self, result_type: Option<u32>)
        ensures { self.new ≡ function_set result_type self.old }
    {
        self.result = result_type;
    }

    /// Says that the whole text has a definition of a name that has linkage (C11 6.9p5), before this place or behind it.
    ///
    /// A name that was defined already stays so. It takes one look-up by hash, and memory for the name.
    pub fn define(&mut self, alloc: Global, name: &[u8]) -> Result<(), NoMemory>
        ensures ok { OnOk result (self.new ≡ name_defined name.now self.old) }
        ensures err { OnErr result (self.new ≡ self.old) }
    {
        self.definitions.put(alloc, name, ())
    }

    /// Whether the whole text has a definition of a name (C11 6.9p5). It takes no memory, and one look-up by hash.
    pub fn is_defined(&self, name: &[u8]) -> bool
        ensures { result ≡ is_defined name.now self.now }
    {
        self.definitions.get(name).is_some()
    }

    /// Whether `main` may not be called, so that it returns once in a run.
    pub fn is_strict(&self) -> bool
        ensures { result ≡ self.now.strict }
    {
        self.strict
    }

    /// Says whether `main` may not be called from here on. It takes no memory.
    pub fn set_strict(&mut self, strict: bool)
        ensures { self.new ≡ strict_set strict self.old }
    {
        self.strict = strict;
    }

    /// What a name that is bound so stands for.
    fn resolve(&self, name: &[u8], binding: Option<Binding>) -> Option<Entity>
        ensures { result ≡ resolved name.now self.now.linked binding }
    {
        match binding {
            None => None,
            Some(Binding::Own(entity)) => Some(entity),
            Some(Binding::WithLinkage(items)) => match self.linked.get(name) {
                None => None,
                Some(linked) => Some(shown(items, linked.entity)),
            },
        }
    }
}

/// What has linkage as a scope sees it, for which the size of that array of items is not known, if there are any.
fn shown(items: Option<u32>, entity: Entity) -> Entity
    ensures { result ≡ shown items entity }
{
    let Some(item) = items else {
        return entity;
    };
    match entity {
        Entity::Object {
            token,
            lifetime,
            defined,
            ..
        } => Entity::Object {
            ctype: DeclaredType::UnsizedArray(item),
            token,
            lifetime,
            defined,
        },
        Entity::Typedef { .. } => entity,
        Entity::Enumerator { .. } => entity,
        Entity::Function { .. } => entity,
    }
}

/// The number of the type of an object, where it is a whole one.
fn whole_type(entity: Entity) -> Option<u32>
    ensures { result ≡ whole_type entity }
{
    match entity {
        Entity::Object { ctype, .. } => match ctype {
            DeclaredType::Whole(number) => Some(number),
            DeclaredType::UnsizedArray(_) => None,
        },
        Entity::Typedef { .. } => None,
        Entity::Enumerator { .. } => None,
        Entity::Function { .. } => None,
    }
}
