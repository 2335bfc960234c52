ghost use Rattle.std.specs.Prelude.{◌≡◌, IfOk, OnOk};
ghost use Rattle.cparser.specs.Nests.{Nests};
ghost use Rattle.cparser.specs.ReadingSteps.{inner_at};
ghost use Rattle.cparser.specs.TypeSteps.{tag_number, behind_tag, struct_by_tag, struct_with, struct_behind, struct_braces};

use crate::grammar::Grammar;
use crate::reader::Reader;
use crate::wanted::Wanted;
use cbase::NoMemory;
use cevents::Event;

impl<'a> Reader<'a> {
    /// A tag, which may be left out: the number of its token.
    pub fn tag(&self) -> Result<Option<u32>, NoMemory>
        ensures { IfOk result (λ tag. tag ≡ tag_number self.now) }
    {
        if self.has_name() {
            return Ok(Some(self.here()?));
        }
        Ok(None)
    }

    /// Goes over a tag, where one stands there.
    pub fn over_tag(&mut self) -> Result<(), NoMemory>
        ensures { OnOk result (self.new ≡ behind_tag self.old) }
    {
        if self.has_name() {
            self.skip(1);
        }
        Ok(())
    }

    /// Reads a struct by its tag alone.
    fn struct_by_tag(&mut self, tag: Option<u32>) -> Result<(), NoMemory>
        ensures { OnOk result (self.new ≡ struct_by_tag tag self.old) }
    {
        match tag {
            None => {
                self.lose();
                Ok(())
            }
            Some(tag) => self.make(Event::StructTag { tag }),
        }
    }
}

impl<F: Fn(&mut Reader<'_>, u32, Wanted) -> Result<(), NoMemory>> Grammar<F> {
    /// Reads a struct from behind its `{` on.
    fn struct_braces(&self, reader: &mut Reader<'_>, tag: Option<u32>) -> Result<(), NoMemory>
        requires { Nests self.now.depth (F.pre self.now.inner) (F.post self.now.inner) }
        ensures { OnOk result (reader.new ≡ struct_braces (inner_at self.now.depth) tag reader.old) }
    {
        self.all_fields(reader)?;
        reader.make(Event::Struct { tag })
    }

    /// Reads a struct from behind its tag on.
    #[tactic(auto, unfolding(crate::specs::TypeSteps::struct_with))]
    fn struct_with(&self, reader: &mut Reader<'_>, tag: Option<u32>) -> Result<(), NoMemory>
        requires { Nests self.now.depth (F.pre self.now.inner) (F.post self.now.inner) }
        ensures { OnOk result (reader.new ≡ struct_with (inner_at self.now.depth) tag reader.old) }
    {
        if reader.has_mark(b"{") {
            reader.skip(1);
            return self.struct_braces(reader, tag);
        }
        reader.struct_by_tag(tag)
    }

    /// Reads a struct from behind its word on (C11 6.7.2.1).
    #[tactic(auto, unfolding(crate::specs::TypeSteps::struct_behind))]
    pub fn struct_behind(&self, reader: &mut Reader<'_>) -> Result<(), NoMemory>
        requires { Nests self.now.depth (F.pre self.now.inner) (F.post self.now.inner) }
        ensures { OnOk result (reader.new ≡ struct_behind (inner_at self.now.depth) reader.old) }
    {
        let tag = reader.tag()?;
        reader.over_tag()?;
        self.struct_with(reader, tag)
    }
}
