ghost use Rattle.std.specs.Prelude.{◌≡◌, OnOk, IfOk, None, ◌≤◌, IsSome, length};
ghost use Rattle.cgrammar.specs.ReadDeclarations.{storage_at};
ghost use Rattle.cparser.specs.Nests.{Nests};
ghost use Rattle.cparser.specs.ReadingSteps.{inner_at};
ghost use Rattle.cparser.specs.State.{rest};
ghost use Rattle.cparser.specs.DeclarationSteps.{over_storage, specifiers_with, specifiers, storage_with, storage_read, storage_or_plain};

use crate::grammar::Grammar;
use crate::reader::Reader;
use crate::wanted::Wanted;
use cbase::{NoMemory, Storage};

impl<'a> Reader<'a> {
    /// The storage class of the word that stands there (C11 6.7.1).
    pub fn storage(&self) -> Option<Storage>
        ensures is { result ≡ storage_at (rest self.now) }
        ensures more { IsSome result → 1 ≤ length (rest self.now) }
    {
        match self.rest() {
            [] => None,
            [first, ..] => first.storage_word(),
        }
    }

    /// Goes over a storage word, where one stands there (C11 6.7.1).
    #[tactic(auto, unfolding(crate::specs::DeclarationSteps::over_storage))]
    pub fn over_storage(&mut self) -> Result<(), NoMemory>
        ensures { OnOk result (self.new ≡ over_storage self.old) }
    {
        if self.goes() && self.storage().is_some() {
            self.skip(1);
        }
        Ok(())
    }
}

impl<F: Fn(&mut Reader<'_>, u32, Wanted) -> Result<(), NoMemory>> Grammar<F> {
    /// Reads a type with a storage word before or behind it, or none, and gives the storage class (C11 6.7).
    #[tactic(auto, using(crate::proofs::Storages::storage_stays), unfolding(crate::specs::DeclarationSteps::specifiers, crate::specs::DeclarationSteps::storage_read))]
    pub fn specifiers(&self, reader: &mut Reader<'_>) -> Result<Storage, NoMemory>
        requires { Nests self.now.depth (F.pre self.now.inner) (F.post self.now.inner) }
        ensures read { OnOk result (reader.new ≡ specifiers (inner_at self.now.depth) reader.old) }
        ensures storage { IfOk result (λ storage. storage ≡ storage_read (inner_at self.now.depth) reader.old) }
    {
        let first = reader.storage();
        if !reader.goes() {
            return Ok(storage_or_plain(first));
        }
        match first {
            None => self.unmarked(reader),
            Some(storage) => {
                reader.skip(1);
                self.ask_whole(reader, Wanted::Specifier)?;
                Ok(storage)
            }
        }
    }

    /// Reads a type with a storage word behind it, or none, and gives the storage class.
    fn unmarked(&self, reader: &mut Reader<'_>) -> Result<Storage, NoMemory>
        requires { Nests self.now.depth (F.pre self.now.inner) (F.post self.now.inner) }
        ensures read { OnOk result (reader.new ≡ specifiers_with (inner_at self.now.depth) reader.old None) }
        ensures storage { IfOk result (λ storage. storage ≡ storage_with (inner_at self.now.depth) reader.old None) }
    {
        self.ask_whole(reader, Wanted::Specifier)?;
        let storage = storage_or_plain(reader.storage());
        reader.over_storage()?;
        Ok(storage)
    }
}

/// The storage class of a declaration with that storage word, or with none.
fn storage_or_plain(word: Option<Storage>) -> Storage
    ensures { result ≡ storage_or_plain word }
{
    match word {
        None => Storage::Plain,
        Some(storage) => storage,
    }
}
