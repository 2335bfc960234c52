ghost use Rattle.std.specs.Prelude.{◌≡◌, OnOk};
ghost use Rattle.cparser.specs.Nests.{Nests};
ghost use Rattle.cparser.specs.ReadingSteps.{inner_at};
ghost use Rattle.cparser.specs.TypeSteps.{type_name_behind, type_name};

use crate::grammar::Grammar;
use crate::reader::Reader;
use crate::wanted::Wanted;
use cbase::NoMemory;
use cevents::Event;

impl<F: Fn(&mut Reader<'_>, u32, Wanted) -> Result<(), NoMemory>> Grammar<F> {
    /// Reads what stands behind the type in a name of a type.
    #[tactic(auto, unfolding(crate::specs::TypeSteps::type_name_behind))]
    fn type_name_behind(&self, reader: &mut Reader<'_>) -> Result<(), NoMemory>
        requires { Nests self.now.depth (F.pre self.now.inner) (F.post self.now.inner) }
        ensures { OnOk result (reader.new ≡ type_name_behind (inner_at self.now.depth) reader.old) }
    {
        if !reader.goes() {
            return Ok(());
        }
        let stars = reader.stars()?;
        reader.skip(stars as usize);
        self.all_sizes(reader, true)?;
        reader.write(Event::TypeName { stars })
    }

    /// Reads a name of a type (C11 6.7.7).
    #[tactic(auto, unfolding(crate::specs::TypeSteps::type_name))]
    pub fn type_name(&self, reader: &mut Reader<'_>) -> Result<(), NoMemory>
        requires { Nests self.now.depth (F.pre self.now.inner) (F.post self.now.inner) }
        ensures { OnOk result (reader.new ≡ type_name (inner_at self.now.depth) reader.old) }
    {
        self.ask_whole(reader, Wanted::Specifier)?;
        self.type_name_behind(reader)
    }
}
