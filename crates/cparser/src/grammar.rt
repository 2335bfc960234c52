ghost use Rattle.std.specs.Prelude.{◌≡◌, OnOk};
ghost use Rattle.cparser.specs.Nests.{Nests};
ghost use Rattle.cparser.specs.ReadingSteps.{inner_at};
ghost use Rattle.cparser.specs.Steps.{ask, ask_whole, ask_right};

use crate::point::Point;
use crate::reader::Reader;
use crate::wanted::Wanted;
use cbase::NoMemory;
use cevents::Event;

/// The rules of the grammar take the reader of what stands in a tree as a parameter, so that each is proved by itself.
#[derive(Clone, Copy)]
pub struct Grammar<F> {
    /// How many levels a tree that stands in another one may have.
    pub depth: u32,
    /// The reader of such trees.
    pub inner: F,
}

impl<F: Fn(&mut Reader<'_>, u32, Wanted) -> Result<(), NoMemory>> Grammar<F> {
    /// Reads what stands in a tree.
    #[tactic(auto, unfolding(crate::specs::Steps::ask))]
    pub fn ask(&self, reader: &mut Reader<'_>, wanted: Wanted) -> Result<(), NoMemory>
        requires { Nests self.now.depth (F.pre self.now.inner) (F.post self.now.inner) }
        ensures { OnOk result (reader.new ≡ ask (inner_at self.now.depth) wanted reader.old) }
    {
        if !reader.goes() {
            return Ok(());
        }
        let before = reader.levels;
        reader.levels = 0;
        (self.inner)(reader, self.depth, wanted)?;
        reader.levels = reader.levels.max(before);
        Ok(())
    }

    /// Reads what stands in a tree, where more has to follow.
    #[tactic(auto, unfolding(crate::specs::Steps::ask_whole))]
    pub fn ask_whole(&self, reader: &mut Reader<'_>, wanted: Wanted) -> Result<(), NoMemory>
        requires { Nests self.now.depth (F.pre self.now.inner) (F.post self.now.inner) }
        ensures { OnOk result (reader.new ≡ ask_whole (inner_at self.now.depth) wanted reader.old) }
    {
        self.ask(reader, wanted)?;
        reader.whole();
        Ok(())
    }

    /// Reads a right operand, and writes the tree that it is a part of.
    #[tactic(auto, unfolding(crate::specs::Steps::ask_right))]
    pub fn ask_right(
        &self,
        reader: &mut Reader<'_>,
        wanted: Wanted,
        point: Point,
        event: Event,
    ) -> Result<(), NoMemory>
        requires { Nests self.now.depth (F.pre self.now.inner) (F.post self.now.inner) }
        ensures { OnOk result (reader.new ≡ ask_right (inner_at self.now.depth) wanted point event reader.old) }
    {
        if !reader.goes() {
            return Ok(());
        }
        self.ask(reader, wanted)?;
        reader.join(point, event)
    }
}
