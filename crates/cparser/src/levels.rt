ghost use Rattle.std.specs.Prelude.{◌≡◌, OnOk};
ghost use Rattle.cparser.specs.Nests.{Nests};
ghost use Rattle.cparser.specs.ReadingSteps.{inner_at, reads_with};

use crate::grammar::Grammar;
use crate::reader::Reader;
use crate::wanted::Wanted;
use cbase::NoMemory;

impl<F: Fn(&mut Reader<'_>, u32, Wanted) -> Result<(), NoMemory>> Grammar<F> {
    /// Reads what is wanted, with a level more than what stands in it may have.
    pub fn level(&self, reader: &mut Reader<'_>, wanted: Wanted) -> Result<(), NoMemory>
        requires { Nests self.now.depth (F.pre self.now.inner) (F.post self.now.inner) }
        ensures { OnOk result (reader.new ≡ reads_with (inner_at self.now.depth) wanted reader.old) }
    {
        match wanted {
            Wanted::Cast => self.cast(reader),
            Wanted::Operation { loosest } => {
                self.cast(reader)?;
                self.operations(reader, loosest)
            }
            Wanted::Conditional => {
                self.cast(reader)?;
                self.conditional_from(reader)
            }
            Wanted::Assignment => {
                self.cast(reader)?;
                self.assignment_from(reader)
            }
            Wanted::Expression => {
                self.cast(reader)?;
                self.expression_from(reader)
            }
            Wanted::Specifier => self.specifier(reader),
            Wanted::Initializer => self.initializer(reader),
            Wanted::Clause => self.clause(reader),
            Wanted::Statement => self.statement(reader),
            Wanted::Item => self.item(reader),
        }
    }
}
