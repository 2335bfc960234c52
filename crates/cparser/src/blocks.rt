ghost use Rattle.std.specs.Prelude.{◌≡◌, OnOk};
ghost use Rattle.cparser.specs.Nests.{Nests};
ghost use Rattle.cparser.specs.ReadingSteps.{inner_at};
ghost use Rattle.cparser.specs.StatementSteps.{block_item, block_items, block, block_statement};

use crate::braced::Braced;
use crate::grammar::Grammar;
use crate::reader::Reader;
use crate::wanted::Wanted;
use cbase::NoMemory;
use cevents::Event;

impl<F: Fn(&mut Reader<'_>, u32, Wanted) -> Result<(), NoMemory>> Grammar<F> {
    /// Reads a declaration or a statement in a block.
    #[tactic(auto, unfolding(crate::specs::StatementSteps::block_item))]
    pub fn block_item(&self, reader: &mut Reader<'_>) -> Result<(), NoMemory>
        requires { Nests self.now.depth (F.pre self.now.inner) (F.post self.now.inner) }
        ensures { OnOk result (reader.new ≡ block_item (inner_at self.now.depth) reader.old) }
    {
        self.ask_whole(reader, Wanted::Item)?;
        reader.write(Event::Statement)
    }

    /// Reads what stands in a block, and its `}`.
    #[tactic(auto, unfolding(crate::specs::StatementSteps::block_items))]
    pub fn block_items(&self, reader: &mut Reader<'_>) -> Result<(), NoMemory>
        requires { Nests self.now.depth (F.pre self.now.inner) (F.post self.now.inner) }
        ensures { OnOk result (reader.new ≡ block_items (inner_at self.now.depth) reader.old) }
    {
        self.until_brace(reader, Braced::BlockItem)
    }

    /// Reads a block, a scope of its own (C11 6.8.2).
    #[tactic(auto, unfolding(crate::specs::StatementSteps::block))]
    pub fn block(&self, reader: &mut Reader<'_>) -> Result<(), NoMemory>
        requires { Nests self.now.depth (F.pre self.now.inner) (F.post self.now.inner) }
        ensures { OnOk result (reader.new ≡ block (inner_at self.now.depth) reader.old) }
    {
        reader.mark(b"{");
        reader.write(Event::NoStatements)?;
        reader.enter()?;
        self.block_items(reader)?;
        reader.leave();
        Ok(())
    }

    /// Reads a block as a statement.
    #[tactic(auto, unfolding(crate::specs::StatementSteps::block_statement))]
    pub fn block_statement(&self, reader: &mut Reader<'_>) -> Result<(), NoMemory>
        requires { Nests self.now.depth (F.pre self.now.inner) (F.post self.now.inner) }
        ensures { OnOk result (reader.new ≡ block_statement (inner_at self.now.depth) reader.old) }
    {
        let first = reader.here()?;
        self.block(reader)?;
        reader.blocked(first)
    }
}
