ghost use Rattle.std.specs.Prelude.{◌≡◌, OnOk};
ghost use Rattle.cparser.specs.Nests.{Nests};
ghost use Rattle.cparser.specs.ReadingSteps.{inner_at};
ghost use Rattle.cparser.specs.State.{rest};
ghost use Rattle.cparser.specs.ItemSteps.{declare_around, defined, definition_inside, definition_body, definition_with, definition_named, definition_behind, definition, ends_with_brace, external, at_end, item_alone};

use crate::grammar::Grammar;
use crate::reader::Reader;
use crate::wanted::Wanted;
use cbase::{NoMemory, Storage};
use cevents::{Event, bytes_at};
use cgrammar::declares_typedef;

impl<'a> Reader<'a> {
    /// Declares the name of a function around its parameters, in whose scope its body lies (C11 6.2.1p4, 6.2.1p7).
    #[tactic(auto, unfolding(crate::specs::ItemSteps::declare_around))]
    fn declare_around(&mut self, at: u32, typedef: bool) -> Result<(), NoMemory>
        ensures { OnOk result (self.new ≡ declare_around at typedef self.old) }
    {
        if self.goes() {
            let bytes = bytes_at(self.row, at);
            self.scope.declare_around(self.alloc, bytes, typedef)?;
        }
        Ok(())
    }

    /// Writes a function's definition, of which the last `}` is read.
    #[tactic(auto, unfolding(crate::specs::ItemSteps::defined))]
    fn defined(&mut self, storage: Storage) -> Result<(), NoMemory>
        ensures { OnOk result (self.new ≡ defined storage self.old) }
    {
        let close = self.last()?;
        self.write(Event::FunctionItem { storage, close })
    }

    /// Whether the last token of the row is a `}`.
    #[tactic(auto, using(crate::proofs::LastBraces::brace_none, crate::proofs::LastBraces::brace_some))]
    fn ends_with_brace(&self) -> bool
        ensures { result ≡ ends_with_brace (rest self.now) }
    {
        match self.rest().last() {
            None => false,
            Some(last) => last.is_mark(b"}"),
        }
    }

    /// Nothing is read where tokens are left.
    #[tactic(auto, unfolding(crate::specs::ItemSteps::at_end))]
    fn at_end(&mut self)
        ensures { self.new ≡ at_end self.old }
    {
        if !self.goes() {
            return;
        }
        match self.rest() {
            [] => (),
            [_, ..] => self.lose(),
        }
    }
}

impl<F: Fn(&mut Reader<'_>, u32, Wanted) -> Result<(), NoMemory>> Grammar<F> {
    /// Reads the body of a function from behind its `{` on.
    #[tactic(auto, unfolding(crate::specs::ItemSteps::definition_inside))]
    fn definition_inside(
        &self,
        reader: &mut Reader<'_>,
        storage: Storage,
        at: u32,
    ) -> Result<(), NoMemory>
        requires { Nests self.now.depth (F.pre self.now.inner) (F.post self.now.inner) }
        ensures { OnOk result (reader.new ≡ definition_inside (inner_at self.now.depth) storage at reader.old) }
    {
        reader.declare_around(at, declares_typedef(storage))?;
        reader.write(Event::NoStatements)?;
        self.block_items(reader)?;
        reader.leave();
        reader.defined(storage)
    }

    /// Reads the body of a function.
    #[tactic(auto, unfolding(crate::specs::ItemSteps::definition_body))]
    fn definition_body(
        &self,
        reader: &mut Reader<'_>,
        storage: Storage,
        at: u32,
    ) -> Result<(), NoMemory>
        requires { Nests self.now.depth (F.pre self.now.inner) (F.post self.now.inner) }
        ensures { OnOk result (reader.new ≡ definition_body (inner_at self.now.depth) storage at reader.old) }
    {
        reader.mark(b"{");
        self.definition_inside(reader, storage, at)
    }

    /// Reads a function from behind its name on.
    #[tactic(auto, unfolding(crate::specs::ItemSteps::definition_with))]
    fn definition_with(
        &self,
        reader: &mut Reader<'_>,
        storage: Storage,
        at: u32,
        stars: u32,
    ) -> Result<(), NoMemory>
        requires { Nests self.now.depth (F.pre self.now.inner) (F.post self.now.inner) }
        ensures { OnOk result (reader.new ≡ definition_with (inner_at self.now.depth) storage at stars reader.old) }
    {
        reader.write(Event::NoDeclarators)?;
        reader.mark(b"(");
        self.parameters(reader)?;
        reader.write(Event::Function { name: at, stars })?;
        self.definition_body(reader, storage, at)
    }

    /// Reads a function from its name on.
    fn definition_named(
        &self,
        reader: &mut Reader<'_>,
        storage: Storage,
        stars: u32,
    ) -> Result<(), NoMemory>
        requires { Nests self.now.depth (F.pre self.now.inner) (F.post self.now.inner) }
        ensures { OnOk result (reader.new ≡ definition_named (inner_at self.now.depth) storage stars reader.old) }
    {
        if !reader.has_name() {
            reader.lose();
            return Ok(());
        }
        let at = reader.here()?;
        reader.skip(1);
        self.definition_with(reader, storage, at, stars)
    }

    /// Reads a function from behind its type on.
    #[tactic(auto, unfolding(crate::specs::ItemSteps::definition_behind))]
    fn definition_behind(&self, reader: &mut Reader<'_>, storage: Storage) -> Result<(), NoMemory>
        requires { Nests self.now.depth (F.pre self.now.inner) (F.post self.now.inner) }
        ensures { OnOk result (reader.new ≡ definition_behind (inner_at self.now.depth) storage reader.old) }
    {
        if !reader.goes() {
            return Ok(());
        }
        let stars = reader.stars()?;
        reader.skip(stars as usize);
        self.definition_named(reader, storage, stars)
    }

    /// Reads a function's definition (C11 6.9.1).
    #[tactic(auto, unfolding(crate::specs::ItemSteps::definition))]
    fn definition(&self, reader: &mut Reader<'_>) -> Result<(), NoMemory>
        requires { Nests self.now.depth (F.pre self.now.inner) (F.post self.now.inner) }
        ensures { OnOk result (reader.new ≡ definition (inner_at self.now.depth) reader.old) }
    {
        let storage = self.specifiers(reader)?;
        self.definition_behind(reader, storage)
    }

    /// Reads an item as its last token tells: a function's definition, or a declaration, or nothing but a `;` (C11 6.9).
    #[tactic(auto, unfolding(crate::specs::ItemSteps::external))]
    fn external(&self, reader: &mut Reader<'_>) -> Result<(), NoMemory>
        requires { Nests self.now.depth (F.pre self.now.inner) (F.post self.now.inner) }
        ensures { OnOk result (reader.new ≡ external (inner_at self.now.depth) reader.old) }
    {
        if !reader.goes() {
            return Ok(());
        }
        if reader.has_mark(b";") {
            reader.skip(1);
            return reader.write(Event::EmptyItem);
        }
        if reader.ends_with_brace() {
            return self.definition(reader);
        }
        self.declaration(reader)?;
        reader.write(Event::DeclareItem)
    }

    /// Reads the whole row as an item (C11 6.9).
    #[tactic(auto, unfolding(crate::specs::ItemSteps::item_alone))]
    pub fn item_alone(&self, reader: &mut Reader<'_>) -> Result<(), NoMemory>
        requires { Nests self.now.depth (F.pre self.now.inner) (F.post self.now.inner) }
        ensures { OnOk result (reader.new ≡ item_alone (inner_at self.now.depth) reader.old) }
    {
        self.external(reader)?;
        reader.at_end();
        Ok(())
    }
}
