ghost use Rattle.std.specs.Prelude.{◌≡◌, OnOk, ◌≤◌, length};
ghost use Rattle.cparser.specs.Nests.{Nests};
ghost use Rattle.cparser.specs.ReadingSteps.{inner_at};
ghost use Rattle.cparser.specs.State.{rest};
ghost use Rattle.cparser.specs.DeclarationSteps.{declaration_of_none, declaration_of_names, declaration_behind, declaration};

use crate::grammar::Grammar;
use crate::reader::Reader;
use crate::wanted::Wanted;
use cbase::{NoMemory, Storage};
use cevents::Event;
use cgrammar::declares_typedef;

impl<'a> Reader<'a> {
    /// Reads the `;` of a declaration of no names.
    #[tactic(auto, using(crate::proofs::RestsWritten::there_written))]
    fn declaration_of_none(&mut self, storage: Storage) -> Result<(), NoMemory>
        requires { 1 ≤ length (rest self.old) }
        ensures { OnOk result (self.new ≡ declaration_of_none storage self.old) }
    {
        self.write(Event::NoDeclarators)?;
        self.skip(1);
        self.write(Event::Declaration { storage })
    }
}

impl<F: Fn(&mut Reader<'_>, u32, Wanted) -> Result<(), NoMemory>> Grammar<F> {
    /// Reads the names of a declaration, and its `;`.
    fn declaration_of_names(
        &self,
        reader: &mut Reader<'_>,
        storage: Storage,
    ) -> Result<(), NoMemory>
        requires { Nests self.now.depth (F.pre self.now.inner) (F.post self.now.inner) }
        ensures { OnOk result (reader.new ≡ declaration_of_names (inner_at self.now.depth) storage reader.old) }
    {
        reader.write(Event::NoDeclarators)?;
        self.declarators(reader, declares_typedef(storage))?;
        reader.mark(b";");
        reader.write(Event::Declaration { storage })
    }

    /// Reads a declaration from behind its type on.
    #[tactic(auto, unfolding(crate::specs::DeclarationSteps::declaration_behind))]
    fn declaration_behind(&self, reader: &mut Reader<'_>, storage: Storage) -> Result<(), NoMemory>
        requires { Nests self.now.depth (F.pre self.now.inner) (F.post self.now.inner) }
        ensures { OnOk result (reader.new ≡ declaration_behind (inner_at self.now.depth) storage reader.old) }
    {
        if !reader.goes() {
            return Ok(());
        }
        if reader.has_mark(b";") {
            return reader.declaration_of_none(storage);
        }
        self.declaration_of_names(reader, storage)
    }

    /// Reads a declaration (C11 6.7).
    #[tactic(auto, unfolding(crate::specs::DeclarationSteps::declaration))]
    pub fn declaration(&self, reader: &mut Reader<'_>) -> Result<(), NoMemory>
        requires { Nests self.now.depth (F.pre self.now.inner) (F.post self.now.inner) }
        ensures { OnOk result (reader.new ≡ declaration (inner_at self.now.depth) reader.old) }
    {
        let storage = self.specifiers(reader)?;
        self.declaration_behind(reader, storage)
    }
}
